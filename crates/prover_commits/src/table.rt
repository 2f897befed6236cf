//! The permutation columns of a table.
ghost use Rattle.std.specs.Prelude.{◌≡◌, ◌*◌, ◌<◌, length, All, IfSome, MatchResult};
ghost use Rattle.p3_field.specs.Field.{Extension};
ghost use Rattle.p3_matrix.specs.Matrix.{height};
ghost use Rattle.p3_lookup.specs.Generated.{argument_over, sent_shape};
ghost use Rattle.p3_lookup.specs.Lookup.{IsLookup};
ghost use Rattle.p3_lookup.specs.Written.{read_all};
ghost use Rattle.prover_commits.specs.Columns.{AreFlattened, IsZeroAt};

use crate::flat::flattened;
use crate::generation::generated_columns;
use air_core::BaseAir;
use batch_setup::TableInstance;
use p3_field::{
    BasedVectorSpace, ExtensionField, Field, FieldCore, PrimeCharacteristicRing, RingCore,
};
use p3_lookup::{Lookup, LookupTerminal};
use p3_matrix::RowMajorMatrix;
use prover_answer::ProvingError;
use std::alloc::Global;

/// What is made of a table: its flattened permutation columns and its terminal. Without lookups there is neither.
pub(crate) type TableColumns<F, EF> = (Option<RowMajorMatrix<F>>, Option<LookupTerminal<EF>>);

// What is made of the table at this place: `LookupDenominatorZero` exactly where a denominator is zero, with the row of the first.
pub(crate) fn table_columns<F: Field, EF: ExtensionField<F>, A: BaseAir<F>, R>(
    alloc: Global,
    place: usize,
    instance: &TableInstance<'_, F, A>,
    lookups: &[Lookup<F>],
    challenges: &[EF],
) -> Result<TableColumns<F, EF>, ProvingError<R>>
    requires some { 0 < height instance.now.trace }
    requires preprocessed { IfSome (A.declaration instance.now.air).preprocessed
        (λ m. height m ≡ height instance.now.trace) }
    requires lookups { All (IsLookup
        (sent_shape instance.now.trace (A.declaration instance.now.air).preprocessed
        instance.now.public_values)) (read_all lookups.now) }
    requires challenges { length challenges.now ≡ 2 * length lookups.now }
    ensures { let e : Extension F EF = record {
      ring = EF.ring;
      embed = EF.embed;
      dimension = EF.DIMENSION;
      basis = EF.basis;
      coefficients = EF.coefficients;
      from_coefficients = EF.from_coefficients;
    } in
        let a = argument_over F.ring EF.ring EF.inv EF.embed instance.now.trace
        (A.declaration instance.now.air).preprocessed instance.now.public_values
        (read_all lookups.now) challenges.now in
        MatchResult result (λ r. AreFlattened e a (height instance.now.trace) r.0 r.1)
        (IsZeroAt a (height instance.now.trace) place) }
{
    if lookups.is_empty() {
        return Ok((None, None));
    }
    let (columns, terminal) = generated_columns(alloc, place, instance, lookups, challenges)?;
    let flat = flattened(alloc, &columns)?;
    Ok((Some(flat), Some(terminal)))
}
