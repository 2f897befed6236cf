//! The values of a table's periodic columns at a point.
ghost use Rattle.std.specs.Prelude.{◌≡◌, ◌^◌, IfOk, map};
ghost use Rattle.verifier_identity.specs.PeriodicValues.{periodic_value};
ghost use Rattle.batch_constraints.specs.Fields.{extension_of, two_adic_of};

use commit_core::{PeriodicColumns, PolynomialSpace};
use p3_field::{
    BasedVectorSpace, ExtensionField, FieldCore, Mem, PrimeCharacteristicRing, RingCore,
    TwoAdicCore, TwoAdicField, TwoAdicMultiplicativeCoset,
};
use std::alloc::Global;

/// The values of a table's periodic columns at a point, in order, also at the points of the domain: of each column the value
/// of its interpolant, repeated over the domain of the table's rows. The columns were found to fit the domain's size. The
/// only error is running out of memory.
pub fn periodic_values_at<F: TwoAdicField, E: ExtensionField<F>>(
    alloc: Global,
    domain: &TwoAdicMultiplicativeCoset<F>,
    columns: PeriodicColumns<'_, F>,
    zeta: E,
) -> Mem<Vec<E>>
    requires { columns.height ≡ 2 ^ domain.now.log_size }
    ensures { let f = two_adic_of F.ring F.inv F.root F.GENERATOR in
        let e = extension_of E.ring E.embed E.DIMENSION E.basis E.coefficients
        E.from_coefficients in
        IfOk result (λ v. v.items
        ≡ map (λ c. periodic_value f e domain.now zeta c.items) columns.entry.columns.now) }
{
    domain.valid();
    domain.evaluate_periodic_columns_at(alloc, columns, zeta)
}
