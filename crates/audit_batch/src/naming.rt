//! The refusal of a check, as a name among others.
ghost use Rattle.std.specs.Prelude.{◌≡◌, ◌++◌, [], ◌∷◌, cond, IfOk, OnOk};
ghost use Rattle.audit_batch.specs.Named.{HasMemory, errors_of, value_of};

use batch_statement::BatchVerificationError;
use p3_field::Mem;
use std::alloc::AllocError;

/// Appends the refusal of a call, where it is one, and gives the call's value, where it has one. A call that ran out of memory ends the
/// naming.
pub(crate) fn name_answer<T: Drop, R: Drop>(
    faults: &mut Vec<BatchVerificationError<R>>,
    answer: Result<T, BatchVerificationError<R>>,
) -> Mem<Option<T>>
    ensures named { OnOk result (faults.new.items ≡ faults.old.items ++ errors_of answer) }
    ensures memory { OnOk result (HasMemory answer) }
    ensures value { IfOk result (λ v. v ≡ value_of answer) }
{
    match answer {
        Ok(value) => Ok(Some(value)),
        Err(BatchVerificationError::OutOfMemory) => Err(AllocError),
        Err(error) => {
            faults.push(error)?;
            Ok(None)
        }
    }
}

/// Appends the refusal of a check that was tested, where it fails.
pub(crate) fn name_test<R: Drop>(
    faults: &mut Vec<BatchVerificationError<R>>,
    holds: bool,
    refusal: BatchVerificationError<R>,
) -> Mem<()>
    ensures { OnOk result (faults.new.items ≡ faults.old.items ++ cond holds [] (refusal ∷ [])) }
{
    if !holds {
        faults.push(refusal)?;
    }
    Ok(())
}
