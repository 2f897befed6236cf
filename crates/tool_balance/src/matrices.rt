//! The matrices of an accepted proof: a law as the contract of a function that computes nothing.
ghost use Rattle.std.specs.Prelude.{ℕ, ◌<◌, length, map};
ghost use Rattle.batch_statement.specs.Statement.{WellFormed};
ghost use Rattle.tool_statement.specs.StatedTables.{air_table_of, tool_common};
ghost use Rattle.tool_verifier.specs.FileAnswer.{IsAccepted};
ghost use Rattle.tool_balance.specs.Senders.{HasMatrixOf};

use law_committed::fields::baby_bear_has_laws;
use p3_field::{BabyBear, QuarticExtension};
use p3_uni_stark::TranscriptVersion;
use plain_pcs::opened_claims_bind;
use tool_proof_text::ToolProof;
use tool_statement::TableStatement;

/// An accepted proof has a matrix for each stated table, as large as is stated.
pub(crate) fn tables_have_matrices(
    version: TranscriptVersion,
    tables: &[TableStatement],
    proof: &ToolProof,
)
    requires formed { WellFormed (map (λ t. t.declaration) (map air_table_of tables.now))
        (tool_common tables.now) }
    requires accepted { IsAccepted version tables.now proof.now }
    ensures { (i : ℕ) → i < length tables.now → HasMatrixOf tables.now proof.now i }
{
    baby_bear_has_laws();
    opened_claims_bind::<BabyBear, QuarticExtension>();
}
