//! What is generated for a table with lookups.
ghost use Rattle.std.specs.Prelude.{◌≡◌, ◌*◌, length, All, IfSome, MatchResult, Ok};
ghost use Rattle.p3_matrix.specs.Matrix.{height};
ghost use Rattle.p3_lookup.specs.Generated.{IsGenerated, argument_over, sent_shape};
ghost use Rattle.p3_lookup.specs.Lookup.{IsLookup};
ghost use Rattle.p3_lookup.specs.Written.{read_all};
ghost use Rattle.prover_commits.specs.Columns.{IsZeroAt};

use air_core::BaseAir;
use batch_setup::TableInstance;
use p3_field::{ExtensionField, Field, FieldCore, PrimeCharacteristicRing, RingCore};
use p3_lookup::{GenerateError, LogUpGadget, Lookup, LookupProtocol, LookupTerminal};
use p3_matrix::RowMajorMatrix;
use prover_answer::ProvingError;
use std::alloc::Global;

// The columns and the terminal that are generated for the table at this place: `LookupDenominatorZero` exactly where a denominator is zero,
// with the row of the first.
pub(crate) fn generated_columns<F: Field, EF: ExtensionField<F>, A: BaseAir<F>, R>(
    alloc: Global,
    place: usize,
    instance: &TableInstance<'_, F, A>,
    lookups: &[Lookup<F>],
    challenges: &[EF],
) -> Result<(RowMajorMatrix<EF>, LookupTerminal<EF>), ProvingError<R>>
    requires preprocessed { IfSome (A.declaration instance.now.air).preprocessed
        (λ m. height m ≡ height instance.now.trace) }
    requires lookups { All (IsLookup
        (sent_shape instance.now.trace (A.declaration instance.now.air).preprocessed
        instance.now.public_values)) (read_all lookups.now) }
    requires challenges { length challenges.now ≡ 2 * length lookups.now }
    ensures { let p = argument_over F.ring EF.ring EF.inv EF.embed instance.now.trace
        (A.declaration instance.now.air).preprocessed instance.now.public_values
        (read_all lookups.now) challenges.now in
        MatchResult result (λ r. IsGenerated p (height instance.now.trace) (Ok r))
        (IsZeroAt p (height instance.now.trace) place) }
{
    let preprocessed = instance.air.preprocessed_trace(alloc)?;
    match LogUpGadget::new().generate_permutation(
        alloc,
        instance.trace,
        preprocessed.as_ref(),
        &instance.public_values,
        lookups,
        challenges,
    ) {
        Ok(generated) => Ok(generated),
        Err(GenerateError::DenominatorZero { row, .. }) => {
            Err(ProvingError::LookupDenominatorZero {
                instance: place,
                row,
            })
        }
        Err(GenerateError::OutOfMemory) => Err(ProvingError::OutOfMemory),
    }
}
