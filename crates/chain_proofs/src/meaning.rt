//! What an accepted proof of a chain means: a law as the contract of a function that computes nothing.
ghost use Rattle.std.specs.Prelude.{◌≤◌};
ghost use Rattle.verifier_batch.specs.BatchChecks.{Accepted};
ghost use Rattle.transcript_version.specs.declared.TranscriptVersion.TheVariants.{V2};
ghost use Rattle.tool_statement.specs.Config.{tool_backend, tool_setting};
ghost use Rattle.chain_proofs.specs.Statement.{HasStatedHeight, RowsAreChain, chain_statement};

use chain_air::chaining_fits;
use law_chain::committed_tables_are_chains;
use law_committed::fields::baby_bear_has_laws;
use p3_field::{BabyBear, QuarticExtension};
use plain_pcs::opened_claims_bind;
use tool_proof_text::ToolProof;

/// What it means that a proof of a chain between two chaining values is accepted, whose table has the stated 2^`log_rows` rows: where neither the
/// drawn alpha nor the drawn zeta is unlucky, the rows that it commits to are those of 2^`log_rows` compressions that lead from `start` to
/// `end`. So each cell of a word's bit is a bit.
pub fn accepted_means(start: &[u32; 8], end: &[u32; 8], log_rows: usize, proof: &ToolProof)
    requires rows { log_rows ≤ 3 }
    requires height { HasStatedHeight log_rows proof.now.degree_bits }
    requires accepted { Accepted (tool_setting V2) tool_backend
        (chain_statement start.now end.now log_rows) proof.now }
    ensures { RowsAreChain start.now end.now log_rows proof.now }
{
    baby_bear_has_laws();
    opened_claims_bind::<BabyBear, QuarticExtension>();
    committed_tables_are_chains();
    chaining_fits(start);
    chaining_fits(end);
}
