//! The line that says why a proof file is refused.
ghost use Rattle.std.specs.Prelude.{◌≡◌, ◌≢◌, IfOk, List, ℕ};
ghost use Rattle.tool_verifier.specs.Refusals.{fault_text, refused_text};
ghost use Rattle.tool_verifier.specs.FileAnswer.{mismatch_text};

use crate::fault_names::fault_name;
use crate::fault_numbers::{push_fault, push_spaced};
use batch_statement::BatchVerificationError;
use p3_field::Mem;
use plain_pcs::PlainError;
use std::alloc::{AllocError, Global};

/// The line of a refusal (not in Plonky3): `refused`, its name, and its numbers in decimal, each after a space. The only error is running out
/// of memory.
pub fn refusal_line(alloc: Global, name: &[u8], numbers: &[usize]) -> Mem<Vec<u8>>
    ensures { IfOk result (λ v. v.items ≡ refused_text name.now numbers.now) }
{
    let mut line = Vec::new(alloc);
    line.extend_from_slice(b"refused ")?;
    line.extend_from_slice(name)?;
    push_spaced(&mut line, numbers)?;
    line.push(b'\n')?;
    Ok(line)
}

/// The line of a table whose height isn't the proof's: `refused HeightMismatch` and its number. The only error is running out of memory.
pub fn mismatch_line(alloc: Global, table: usize) -> Mem<Vec<u8>>
    ensures { IfOk result (λ v. v.items ≡ mismatch_text table) }
{
    refusal_line(alloc, b"HeightMismatch", &[table])
}

/// The line of a check of the batch verifier: `refused`, its name and its numbers. The only error is running out of memory: out of memory
/// itself has no line.
#[tactic(auto, unfolding(crate::specs::Refusals::fault_text))]
pub fn fault_line(alloc: Global, error: &BatchVerificationError<PlainError>) -> Mem<Vec<u8>>
    ensures line { IfOk result (λ v. v.items ≡ fault_text error.now) }
    ensures named { IfOk result (λ _. error.now ≢ BatchVerificationError.OutOfMemory) }
{
    let Some(name) = fault_name(error) else {
        return Err(AllocError);
    };
    let mut line = Vec::new(alloc);
    line.extend_from_slice(b"refused ")?;
    line.extend_from_slice(name)?;
    push_fault(&mut line, error)?;
    line.push(b'\n')?;
    Ok(line)
}
