//! The lines of a report, after those of the steps.

ghost use Rattle.std.specs.Prelude.{◌≡◌, ◌++◌, flat_map, OnOk};
ghost use Rattle.audit_batch.specs.Report.{failed_line, fails_line, mismatch_line};
ghost use Rattle.tool_verifier.specs.Refusals.{fault_name as name_of_fault, fault_numbers};

use batch_statement::BatchVerificationError;
use p3_field::Mem;
use plain_pcs::PlainError;
use std::alloc::AllocError;
use tool_lines::push_number;
use tool_verifier::{fault_name, push_fault, push_spaced};

// The line of something that fails: `fails`, its name and its numbers.
fn push_line(out: &mut Vec<u8>, name: &[u8], numbers: &[usize]) -> Mem<()>
    ensures { OnOk result (out.new.items ≡ out.old.items ++ fails_line name.now numbers.now) }
{
    out.extend_from_slice(b"fails ")?;
    out.extend_from_slice(name)?;
    push_spaced(out, numbers)?;
    out.push(b'\n')?;
    Ok(())
}

/// Appends a line for each table of another height: `fails HeightMismatch` and its number. On an error a part may stand.
pub(crate) fn push_heights(out: &mut Vec<u8>, heights: &[usize]) -> Mem<()>
    ensures { OnOk result (out.new.items ≡ out.old.items ++ flat_map mismatch_line heights.now) }
{
    for table in heights {
        push_line(out, b"HeightMismatch", &[*table])?;
    }
    Ok(())
}

// The line of a check that fails: `fails`, the refusal's name and its numbers. Out of memory itself has no line.
fn push_fault_line(out: &mut Vec<u8>, error: &BatchVerificationError<PlainError>) -> Mem<()>
    ensures { OnOk result (out.new.items ≡ out.old.items
        ++ fails_line (name_of_fault error.now) (fault_numbers error.now)) }
{
    let Some(name) = fault_name(error) else {
        return Err(AllocError);
    };
    out.extend_from_slice(b"fails ")?;
    out.extend_from_slice(name)?;
    push_fault(out, error)?;
    out.push(b'\n')?;
    Ok(())
}

/// Appends a line for each check that fails, by its refusal. On an error a part may stand.
pub(crate) fn push_faults(
    out: &mut Vec<u8>,
    faults: &[BatchVerificationError<PlainError>],
) -> Mem<()>
    ensures { OnOk result (out.new.items ≡ out.old.items
        ++ flat_map (λ e. fails_line (name_of_fault e) (fault_numbers e)) faults.now) }
{
    for error in faults {
        push_fault_line(out, error)?;
    }
    Ok(())
}

/// Appends the last line: `failed`, and how many things fail. On an error a part may stand.
pub(crate) fn push_count(out: &mut Vec<u8>, count: usize) -> Mem<()>
    ensures { OnOk result (out.new.items ≡ out.old.items ++ failed_line count) }
{
    out.extend_from_slice(b"failed ")?;
    push_number(out, count as u64)
}
