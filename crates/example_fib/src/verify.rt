//! Verifying a proof of the table.
ghost use Rattle.std.specs.Prelude.{◌≤◌, ◌∷◌, IfOk};
ghost use Rattle.batch_statement.specs.Verdict.{IsVerdict};
ghost use Rattle.verifier_batch.specs.BatchChecks.{checks};
ghost use Rattle.tool_airs.specs.Airs.{height_check};
ghost use Rattle.transcript_version.specs.declared.TranscriptVersion.TheVariants.{V2};
ghost use Rattle.tool_statement.specs.Config.{tool_backend, tool_setting};
ghost use Rattle.example_fib.specs.Statement.{AreFew, IsNumber, fib_statement};

use air_core::{Air, BaseAir};
use batch_statement::{BatchProof, BatchVerificationError};
use example_fib_air::{FibAir, fib_publics, fib_rows_mean};
use law_committed::fields::baby_bear_has_laws;
use p3_field::{BabyBear, FieldCore, RingCore};
use plain_pcs::PlainError;
use std::alloc::Global;
use tool_airs::{check_height, verify_airs};
use tool_statement::ToolConfig;

/// Whether a proof that `number` is number 2^`log_rows` of the sequence that starts with `start` and `start` is accepted: Ok exactly where its table
/// has 2^`log_rows` rows, at most 2^10, and no check of the batch verifier fails, and else the refusal of the first check that does (`verdict`). Out
/// of memory may come in place of any answer.
///
/// Where it is Ok, `number` is that number, unless the drawn alpha or the drawn zeta is unlucky (`number`). At most 4 * 2^`log_rows` alphas and
/// 2 * 2^`log_rows` - 1 zetas are (`few`), of the 2013265921^4 from which each is drawn.
pub fn verify_fib(
    alloc: Global,
    start: BabyBear,
    number: BabyBear,
    log_rows: usize,
    proof: &BatchProof<ToolConfig>,
) -> Result<(), BatchVerificationError<PlainError>>
    requires { log_rows ≤ 10 }
    ensures verdict { IsVerdict
        (height_check 0 log_rows proof.now
        ∷ checks (tool_setting V2) tool_backend (fib_statement start number log_rows) proof.now)
        result }
    ensures number { IfOk result (λ _. IsNumber start number log_rows proof.now) }
    ensures few { IfOk result (λ _. AreFew start number log_rows proof.now) }
{
    check_height(0, log_rows, proof)?;
    let public_values = [fib_publics(alloc, start, number)?];
    verify_airs(alloc, &[FibAir], &[log_rows], proof, &public_values)?;
    fib_rows_mean::<BabyBear>();
    baby_bear_has_laws();
    Ok(())
}
