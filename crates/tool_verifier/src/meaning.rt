//! What an accepted proof of stated tables means: a law as the contract of a function that computes nothing.
ghost use Rattle.std.specs.Prelude.{map};
ghost use Rattle.batch_statement.specs.Statement.{WellFormed};
ghost use Rattle.verifier_batch.specs.BatchChecks.{Accepted};
ghost use Rattle.tool_hash_lines.specs.PrintedRows.{HasHashMatrices};
ghost use Rattle.law_soundness.specs.Meaning.{HoldUnlessUnlucky};
ghost use Rattle.tool_statement.specs.Config.{tool_backend, tool_setting};
ghost use Rattle.tool_statement.specs.StatedTables.{HaveStatedHeights, air_table_of, tool_common, tool_statement};
ghost use Rattle.tool_verifier.specs.FileAnswer.{FewAreUnlucky, PrintCompressions, SwapsEnd, SwapsEndByBits, TablesBalance};

use blake3_prime::meanings::row_means;
use law_committed::fields::baby_bear_has_laws;
use p3_field::{BabyBear, QuarticExtension};
use p3_uni_stark::TranscriptVersion;
use plain_pcs::opened_claims_bind;
use tool_proof_text::ToolProof;
use tool_statement::TableStatement;

/// What it means that a proof of these tables is accepted over the transcript of this version (not in Plonky3): every constraint of every table is zero on each row of the committed
/// polynomials, or the drawn alpha or the drawn zeta is unlucky (`holds`). What the tables send to each other balances in the field, or one of these or the drawn
/// lookup pair is unlucky (`balance`). Where neither alpha nor zeta is, with the stated heights swap tables end as they should (`swaps`; `ends` says it by the
/// proof's degree bits, whatever heights are stated), and each row of a hash table is printed as a compression (`hashes`). Few challenges are unlucky for the committed tables (`few`). With the
/// stated heights the matrices of hash tables are as large as is stated (`matrices`).
pub fn accepted_means(version: TranscriptVersion, tables: &[TableStatement], proof: &ToolProof)
    requires formed { WellFormed (map (λ t. t.declaration) (map air_table_of tables.now))
        (tool_common tables.now) }
    requires accepted { Accepted (tool_setting version) tool_backend (tool_statement tables.now)
        proof.now }
    ensures holds { HoldUnlessUnlucky (tool_setting version) 1 (tool_statement tables.now)
        proof.now }
    ensures balance { TablesBalance version tables.now proof.now }
    ensures ends { SwapsEndByBits version tables.now proof.now }
    ensures swaps { HaveStatedHeights tables.now proof.now.degree_bits
        → SwapsEnd version tables.now proof.now }
    ensures hashes { HaveStatedHeights tables.now proof.now.degree_bits
        → PrintCompressions version tables.now proof.now }
    ensures few { FewAreUnlucky version tables.now proof.now }
    ensures matrices { HaveStatedHeights tables.now proof.now.degree_bits
        → HasHashMatrices tables.now proof.now }
{
    baby_bear_has_laws();
    opened_claims_bind::<BabyBear, QuarticExtension>();
    row_means::<BabyBear>();
}
