//! The height of a proof's table.
ghost use Rattle.std.specs.Prelude.{◌≡◌, [], ◌∷◌};
ghost use Rattle.batch_statement.specs.Verdict.{IsDecided};
ghost use Rattle.batch_statement.specs.Words.{bits_at};
ghost use Rattle.tool_airs.specs.Airs.{height_check};

use batch_statement::{BatchProof, BatchVerificationError};
use p3_uni_stark::InvalidProofShapeError;
use plain_pcs::PlainError;
use tool_statement::ToolConfig;

// The logarithm of the height that a proof states of a table; 0 where it states none.
fn stated_log_rows(table: usize, proof: &BatchProof<ToolConfig>) -> usize
    ensures { result ≡ bits_at proof.now.degree_bits table }
{
    match proof.degree_bits.get(table) {
        Some(bits) => *bits,
        None => 0,
    }
}

/// Whether a table of the proof has 2^`log_rows` rows: the verifier takes any height, so a caller compares it with the one that it expects, where
/// the table has no preprocessed trace. It is refused with `DegreeBitsTooSmall` or `DegreeBitsTooLarge`. Nothing is allocated.
pub fn check_height(
    table: usize,
    log_rows: usize,
    proof: &BatchProof<ToolConfig>,
) -> Result<(), BatchVerificationError<PlainError>>
    ensures { IsDecided (height_check table log_rows proof.now ∷ []) result }
{
    let got = stated_log_rows(table, proof);
    let air = Some(table);
    if got < log_rows {
        let minimum = log_rows;
        Err(InvalidProofShapeError::DegreeBitsTooSmall { air, minimum, got }.into())
    } else if log_rows < got {
        let maximum = log_rows;
        Err(InvalidProofShapeError::DegreeBitsTooLarge { air, maximum, got }.into())
    } else {
        Ok(())
    }
}
