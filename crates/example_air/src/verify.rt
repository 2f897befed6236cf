//! Whether a proof of bytes is accepted.
ghost use Rattle.std.specs.Prelude.{◌≤◌, IfOk};
ghost use Rattle.batch_statement.specs.Verdict.{IsVerdict};
ghost use Rattle.law_soundness.specs.Meaning.{HoldUnlessUnlucky};
ghost use Rattle.transcript_version.specs.declared.TranscriptVersion.TheVariants.{V2};
ghost use Rattle.tool_statement.specs.Config.{tool_setting};
ghost use Rattle.example_air.specs.Statement.{BytesBalance, RowsAreBytes, bytes_checks, example_statement};

use crate::air::ExampleAir;
use crate::meanings::rows_are_bytes;
use air_core::{Air, BaseAir};
use batch_statement::{BatchProof, BatchVerificationError};
use law_committed::fields::baby_bear_has_laws;
use p3_field::{BabyBear, FieldCore, RingCore};
use plain_pcs::PlainError;
use std::alloc::Global;
use tool_airs::{check_height, verify_airs};
use tool_statement::ToolConfig;

/// Whether a proof of 2^`log_rows` bytes, at most 2^10, is accepted: Ok exactly where the proof has a table of bits of that height and no
/// check of the batch verifier fails, and else the refusal of the first check that does (`verdict`). The height is refused with
/// `DegreeBitsTooSmall` or `DegreeBitsTooLarge`. Out of memory may come in place of any answer.
///
/// Where it is Ok, every constraint of both tables is zero on each row of the committed polynomials, or the drawn alpha or the drawn zeta is
/// unlucky (`holds`). Where neither is, each row of the committed table of bits is the row of a byte (`bytes`): the first eight values are
/// zero or one, and the ninth is their number. What both tables send balances, or one of these or the drawn lookup pair is unlucky (`balance`): each byte stands in
/// the first table as often as the second one counts it, in the field.
pub fn verify_bytes(
    alloc: Global,
    log_rows: usize,
    proof: &BatchProof<ToolConfig>,
) -> Result<(), BatchVerificationError<PlainError>>
    requires { log_rows ≤ 10 }
    ensures verdict { IsVerdict (bytes_checks log_rows proof.now) result }
    ensures holds { IfOk result
        (λ _. HoldUnlessUnlucky (tool_setting V2) 1 (example_statement log_rows) proof.now) }
    ensures balance { IfOk result (λ _. BytesBalance log_rows proof.now) }
    ensures bytes { IfOk result (λ _. RowsAreBytes log_rows proof.now) }
{
    check_height(0, log_rows, proof)?;
    let airs = [ExampleAir::Bits, ExampleAir::Bytes];
    let public_values = [Vec::new(alloc), Vec::new(alloc)];
    verify_airs(alloc, &airs, &[log_rows, 8], proof, &public_values)?;
    rows_are_bytes::<BabyBear>();
    baby_bear_has_laws();
    Ok(())
}
