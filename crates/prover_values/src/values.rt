//! The values of a table's quotient, from evaluations that a backend gives.
ghost use Rattle.std.specs.Prelude.{◌≡◌, ◌*◌, ◌^◌, ◌<◌, ◌≤◌, All, IfOk, IfSome, length};
ghost use Rattle.std.specs.Option.{option_map};
ghost use Rattle.p3_field.specs.Field.{Extension};
ghost use Rattle.p3_field.specs.Domain.{point};
ghost use Rattle.p3_matrix.specs.Matrix.{height};
ghost use Rattle.air_core.specs.Layout.{layout_of};
ghost use Rattle.air_core.specs.Shape.{width_of};
ghost use Rattle.commit_core.specs.Periodic.{IsPeriod};
ghost use Rattle.commit_core.specs.Space.{AreDisjoint};
ghost use Rattle.p3_lookup.specs.Written.{read_all};
ghost use Rattle.batch_constraints.specs.BatchTrees.{AreLookupsOf, table_trees};
ghost use Rattle.law_committed.specs.Committed.{CommittedTable};
ghost use Rattle.prover_values.specs.Evaluations.{Evaluations, IsReadOn, quotient_values_on};
ghost use Rattle.batch_constraints.specs.Fields.{two_adic_of, extension_of};
ghost use Rattle.prover_values.specs.QuotientRows.{permutation_column_count};

use crate::columns::recombined_columns;
use crate::quotient::quotient_on;
use air_core::{Air, AirLayout, BaseAir};
use commit_core::{CosetPcs, Pcs, UnivariateStarkPcs};
use p3_field::{
    BasedVectorSpace, ExtensionField, Field, FieldCore, Mem, PrimeCharacteristicRing, RingCore,
    TwoAdicCore, TwoAdicField,
};
use p3_lookup::{Lookup, LookupProtocol};
use p3_matrix::RowMajorMatrix;
use p3_uni_stark::{Challenge, Domain, StarkGenericConfig, Val};
use std::alloc::Global;

/// The values of a table's quotient at the points of its domain, in order (`quotient_values` of `p3-batch-stark`): at each point the
/// fold by alpha of the table's constraints, the AIR's and after them those of its lookups, over the value there of the polynomial
/// that vanishes on the rows. The constraints read the row of that point, and as the next row the one that is (quotient size / trace
/// size) further, modulo the quotient size. The only error is running out of memory.
///
/// The matrices have a row for each point of the quotient domain: the main columns' values as wide as the AIR, those of the
/// preprocessed columns where it has some, and those of the flattened permutation columns where there are lookups, as many as the
/// challenges' field has dimensions for the running sum and for each lookup. The layout is the AIR's, without lookups. There are as
/// many public values as the AIR declares, two challenges for each lookup, and, where there are lookups, the terminal. Lookups
/// read constants and what the AIR may send, and each has a count for each tuple. The AIR's periodic columns fit the trace domain,
/// whose shift is one. The quotient domain is disjoint from it and at least as large.
pub fn quotient_values<SC: StarkGenericConfig, A: Air<Val<SC>>, LG: LookupProtocol>(
    alloc: Global,
    pcs: &SC::Pcs,
    air: &A,
    public_values: &[Val<SC>],
    layout: AirLayout,
    trace_domain: Domain<SC>,
    quotient_domain: Domain<SC>,
    trace_on_quotient_domain: &RowMajorMatrix<Val<SC>>,
    opt_permutation_on_quotient_domain: Option<&RowMajorMatrix<Val<SC>>>,
    lookups: &[Lookup<Val<SC>>],
    permutation_vals: &[Challenge<SC>],
    lookup_gadget: &LG,
    permutation_challenges: &[Challenge<SC>],
    preprocessed_on_quotient_domain: Option<&RowMajorMatrix<Val<SC>>>,
    alpha: Challenge<SC>,
) -> Mem<Vec<Challenge<SC>>>
    requires layout { layout ≡ layout_of (A.declaration air.now) }
    requires shift { trace_domain.shift ≡ SC.Val.ring.one }
    requires larger { trace_domain.log_size ≤ quotient_domain.log_size }
    requires disjoint { AreDisjoint (2 ^ trace_domain.log_size)
        (point SC.Val.ring SC.Val.root trace_domain) (2 ^ quotient_domain.log_size)
        (point SC.Val.ring SC.Val.root quotient_domain) }
    requires width { trace_on_quotient_domain.now.width ≡ (A.declaration air.now).width }
    requires height { height trace_on_quotient_domain.now ≡ 2 ^ quotient_domain.log_size }
    requires permutation_width { width_of
        (option_map (λ m. m.now) opt_permutation_on_quotient_domain)
        ≡ permutation_column_count (length lookups.now) * SC.Challenge.DIMENSION }
    requires permutation_height { IfSome opt_permutation_on_quotient_domain
        (λ m. height m.now ≡ 2 ^ quotient_domain.log_size) }
    requires preprocessed_width { width_of (option_map (λ m. m.now) preprocessed_on_quotient_domain)
        ≡ width_of (A.declaration air.now).preprocessed }
    requires preprocessed_height { IfSome preprocessed_on_quotient_domain
        (λ m. height m.now ≡ 2 ^ quotient_domain.log_size) }
    requires public { length public_values.now ≡ (A.declaration air.now).public_values }
    requires lookups { AreLookupsOf (A.declaration air.now) (read_all lookups.now) }
    requires challenges { 2 * length lookups.now ≤ length permutation_challenges.now }
    requires terminals { 0 < length lookups.now → 0 < length permutation_vals.now }
    requires periods { All (λ c. IsPeriod (2 ^ trace_domain.log_size) (length c))
        (A.declaration air.now).periodic }
    ensures { let f = two_adic_of SC.Val.ring SC.Val.inv SC.Val.root SC.Val.GENERATOR in
        let e : Extension SC.Val SC.Challenge = extension_of SC.Challenge.ring SC.Challenge.embed
        SC.Challenge.DIMENSION SC.Challenge.basis SC.Challenge.coefficients
        SC.Challenge.from_coefficients in
        let given : Evaluations SC.Val SC.Challenge = record {
          main = trace_on_quotient_domain.now;
          preprocessed = option_map (λ m. m.now) preprocessed_on_quotient_domain.entry;
          permutation = option_map (λ m. m.now) opt_permutation_on_quotient_domain.entry;
          public_values = public_values.now;
          periodic = (A.declaration air.now).periodic;
          challenges = permutation_challenges.now;
          terminals = permutation_vals.now;
        } in
        IfOk result (λ v. (t : CommittedTable SC.Val SC.Challenge)
        → t.log_height ≡ trace_domain.log_size → IsReadOn f t quotient_domain given
        → v.items ≡ quotient_values_on f e t
        (table_trees SC.Val.ring (A.trees air.now) (read_all lookups.now)) alpha quotient_domain) }
{
    let periodic = pcs.build_periodic_lde_table(
        alloc,
        air.periodic_columns(),
        trace_domain,
        quotient_domain,
    )?;
    let permutation = recombined_columns(
        alloc,
        opt_permutation_on_quotient_domain,
        lookups.len() + 1,
    )?;
    quotient_on(
        alloc,
        air,
        public_values,
        layout,
        trace_domain,
        quotient_domain,
        trace_on_quotient_domain,
        permutation.as_ref(),
        lookups,
        permutation_vals,
        lookup_gadget,
        permutation_challenges,
        preprocessed_on_quotient_domain,
        &periodic,
        alpha,
    )
}
