//! What the lines mean, and when they can be printed: laws as the contracts of functions that compute nothing.
ghost use Rattle.std.specs.Prelude.{List, map};
ghost use Rattle.batch_statement.specs.Statement.{WellFormed};
ghost use Rattle.verifier_batch.specs.BatchChecks.{Accepted};
ghost use Rattle.transcript_version.specs.declared.TranscriptVersion.{TranscriptVersion};
ghost use Rattle.tool_proof_text.specs.ProofText.{ToolProofData};
ghost use Rattle.tool_statement.specs.Config.{tool_backend, tool_setting};
ghost use Rattle.tool_statement.specs.StatedTables.{HaveStatedHeights, air_table_of, tool_common, tool_statement};
ghost use Rattle.tool_statement.specs.declared.table.TableStatement.{TableStatement};
ghost use Rattle.tool_hash_lines.specs.Compressions.{PrintsCompressions};
ghost use Rattle.tool_hash_lines.specs.PrintedRows.{HasHashMatrices};

use law_committed::fields::baby_bear_has_laws;
use p3_field::{BabyBear, QuarticExtension};
use plain_pcs::opened_claims_bind;

/// The line of a row that is that of one compression has the 28 words that are compressed and the 16 of the compression (not in Plonky3): so
/// such a row is readable, and what stands after its first 28 words is their compression.
pub fn compressions_are_printed()
    ensures { PrintsCompressions }
{}

/// An accepted proof over the program's configuration has a matrix for each hash table, of the stated height and with 9168 columns, so that
/// [`hash_lines`](crate::hash_lines) may be called (not in Plonky3). The tables' common data is well-formed, and the degree bits of each table
/// are stated.
pub fn accepted_hash_matrices()
    ensures { (version : TranscriptVersion) (tables : List TableStatement) (p : ToolProofData)
        → WellFormed (map (λ t. t.declaration) (map air_table_of tables)) (tool_common tables)
        → Accepted (tool_setting version) tool_backend (tool_statement tables) p
        → HaveStatedHeights tables p.degree_bits → HasHashMatrices tables p }
{
    baby_bear_has_laws();
    opened_claims_bind::<BabyBear, QuarticExtension>();
}
