//! The checks of a batch's grinding values, by the answers of the challenger's own tests.
ghost use Rattle.std.specs.Prelude.{◌≡◌, ◌↔◌, IsTrue, OnOk};
ghost use Rattle.verifier_draws.specs.Draws.{ood_grinding};
ghost use Rattle.audit_batch.specs.Asked.{always};
ghost use Rattle.audit_batch.specs.Audit.{HasWitness, lookup_asked};
ghost use Rattle.audit_batch.specs.Named.{AreNamedAfter};

use crate::naming::name_test;
use batch_statement::BatchVerificationError;
use batch_transcript::BatchTranscriptFailure;
use p3_field::{Field, FieldCore, Mem, PrimeCharacteristicRing, RingCore};

// Whether a grinding value is admitted: at zero bits zero alone is.
fn is_canonical<F: Field>(bits: usize, witness: F) -> bool
    ensures { IsTrue result ↔ (bits ≡ 0 → witness ≡ F.ring.zero) }
{
    bits != 0 || witness.is_zero()
}

/// Names what fails of the grinding value before the lookups' pair, where so many tables have lookups: it is there exactly where some have, is zero at
/// zero bits, and passes the challenger's test. The value is there where some have.
pub(crate) fn name_lookup_grinding<F: Field, R: Drop>(
    faults: &mut Vec<BatchVerificationError<R>>,
    tables: usize,
    bits: usize,
    witness: Option<F>,
    passed: bool,
) -> Mem<()>
    requires { HasWitness tables witness }
    ensures { OnOk result (AreNamedAfter faults.old.items
        (lookup_asked F.ring.zero tables bits witness passed) faults.new.items) }
{
    if tables == 0 {
        let unexpected = BatchTranscriptFailure::UnexpectedLookupPowWitness;
        let refusal = BatchVerificationError::Transcript(unexpected);
        name_test(faults, witness.is_none(), refusal)?;
        return Ok(());
    }
    let Some(value) = witness else { unreachable!() };
    let other = BatchTranscriptFailure::NonCanonicalLookupPowWitness;
    let refusal = BatchVerificationError::Transcript(other);
    name_test(faults, is_canonical(bits, value), refusal)?;
    let failed = BatchTranscriptFailure::LookupPowWitness { bits };
    name_test(faults, passed, BatchVerificationError::Transcript(failed))?;
    Ok(())
}

/// The same of the value before zeta: it is zero at zero bits, and passes the test.
pub(crate) fn name_ood_grinding<F: Field, R: Drop>(
    faults: &mut Vec<BatchVerificationError<R>>,
    bits: usize,
    witness: F,
    passed: bool,
) -> Mem<()>
    ensures { OnOk result (AreNamedAfter faults.old.items
        (always (ood_grinding F.ring.zero bits witness passed)) faults.new.items) }
{
    let other = BatchTranscriptFailure::NonCanonicalOodPowWitness;
    let refusal = BatchVerificationError::Transcript(other);
    name_test(faults, is_canonical(bits, witness), refusal)?;
    let failed = BatchTranscriptFailure::OodPowWitness { bits };
    name_test(faults, passed, BatchVerificationError::Transcript(failed))?;
    Ok(())
}
