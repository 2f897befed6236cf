//! The identity of one table of a batch, by its number in the lists.
ghost use Rattle.std.specs.Prelude.{◌≡◌, ◌-◌, ◌*◌, ◌<◌, ◌≤◌, [], length, map, option_map};
ghost use Rattle.std.specs.Prelude.{slice_index_or as get_or};
ghost use Rattle.p3_field.specs.Checks.{NoneFails};
ghost use Rattle.p3_lookup.specs.Written.{read_all};
ghost use Rattle.p3_uni_stark.specs.Recombine.{AllDisjoint};
ghost use Rattle.batch_constraints.specs.BatchTrees.{AreLookupsOf};
ghost use Rattle.batch_statement.specs.Statement.{tables_of};
ghost use Rattle.verifier_shape.specs.ShapeChecks.{opened_checks_at};
ghost use Rattle.batch_statement.specs.Verdict.{IsVerdict};
ghost use Rattle.verifier_identity.specs.TableIdentity.{identity_by};
ghost use Rattle.batch_constraints.specs.Fields.{extension_of, two_adic_of};

use crate::table::check_table;
use air_core::{Air, BaseAir};
use batch_statement::{BatchVerificationError, OpenedValuesWithLookups};
use p3_field::{
    BasedVectorSpace, ExtensionField, Field, FieldCore, PrimeCharacteristicRing, RingCore,
    TwoAdicCore, TwoAdicField, TwoAdicMultiplicativeCoset,
};
use p3_lookup::{LookupTerminal, Lookups};
use std::alloc::Global;

// The checks of one table of a batch.
pub(crate) fn table_at<F: TwoAdicField, E: ExtensionField<F>, A: Air<F>, R>(
    alloc: Global,
    index: usize,
    airs: &[A],
    public_values: &[Vec<F>],
    lookups: &[Lookups<F>],
    instances: &[OpenedValuesWithLookups<E>],
    terminals: &[Option<LookupTerminal<E>>],
    degree_bits: &[usize],
    masks: usize,
    challenges: &[Vec<E>],
    domains: &[Vec<TwoAdicMultiplicativeCoset<F>>],
    alpha: E,
    zeta: E,
) -> Result<(), BatchVerificationError<R>>
    requires airs { index < length airs.now }
    requires publics { index < length public_values.now }
    requires lookups { index < length lookups.now }
    requires instances { index < length instances.now }
    requires terminals { index < length terminals.now }
    requires bits { index < length degree_bits.now }
    requires challenges { index < length challenges.now }
    requires domains { index < length domains.now }
    requires reads { (a : A)
        → AreLookupsOf (A.declaration (get_or airs.now index a))
        (read_all (get_or lookups.now index [])) }
    requires shape { NoneFails
        (opened_checks_at {R = R} (tables_of A.declaration A.trees airs.now)
        (map (λ v. v.items) public_values.now)
        (map read_all lookups.now) instances.now (map (option_map (λ t. t.0)) terminals.now)
        (length (get_or (map (λ v. v.items) domains.now) index [])) E.DIMENSION index) }
    requires pairs { length (get_or (map (λ v. v.items) challenges.now) index []) ≡ 2
        * length (get_or (map read_all lookups.now) index []) }
    requires disjoint { AllDisjoint
        (two_adic_of F.ring F.inv F.root F.GENERATOR)
        (get_or (map (λ v. v.items) domains.now) index []) }
    requires fits { get_or degree_bits.now index 0 - masks ≤ F.TWO_ADICITY }
    ensures { let f = two_adic_of F.ring F.inv F.root F.GENERATOR in
        let e = extension_of E.ring E.embed E.DIMENSION E.basis E.coefficients
        E.from_coefficients in
        IsVerdict (identity_by f e masks (tables_of A.declaration A.trees airs.now)
        (map (λ v. v.items) public_values.now) (map read_all lookups.now) instances.now
        (map (option_map (λ t. t.0)) terminals.now) degree_bits.now
        (map (λ v. v.items) challenges.now) (map (λ v. v.items) domains.now) alpha zeta index)
        result }
{
    let table = &lookups[index];
    check_table(
        alloc,
        index,
        &airs[index],
        degree_bits[index].saturating_sub(masks),
        &public_values[index],
        table.as_slice(),
        &instances[index],
        &terminals[index],
        &challenges[index],
        &domains[index],
        alpha,
        zeta,
    )
}
