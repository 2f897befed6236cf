//! The fold of a table's constraints at each point of the quotient domain, over the vanishing polynomial's value there.
ghost use Rattle.std.specs.Prelude.{◌≡◌, ◌-◌, ◌*◌, ◌^◌, ◌<◌, ◌≤◌, All, IfOk, IfSome, length};
ghost use Rattle.std.specs.Option.{option_map};
ghost use Rattle.p3_field.specs.Field.{Extension};
ghost use Rattle.p3_field.specs.Domain.{point};
ghost use Rattle.p3_matrix.specs.Matrix.{height};
ghost use Rattle.air_core.specs.Layout.{layout_of};
ghost use Rattle.air_core.specs.Shape.{width_of};
ghost use Rattle.commit_core.specs.Periodic.{IsPeriod, IsPeriodicTable};
ghost use Rattle.commit_core.specs.Space.{AreDisjoint};
ghost use Rattle.p3_lookup.specs.Written.{read_all};
ghost use Rattle.batch_constraints.specs.BatchTrees.{AreLookupsOf, table_trees};
ghost use Rattle.law_committed.specs.Committed.{CommittedTable};
ghost use Rattle.law_committed.specs.Rows.{flattened_matrix};
ghost use Rattle.prover_folder.specs.FolderState.{given_with};
ghost use Rattle.prover_values.specs.Evaluations.{Evaluations, IsReadOn, quotient_values_on};
ghost use Rattle.batch_constraints.specs.Fields.{two_adic_of, extension_of};
ghost use Rattle.prover_values.specs.QuotientRows.{QuotientRows, given_at, permutation_column_count};

use crate::columns::read_periodic;
use crate::powers::falling_powers;
use crate::selectors::{RowSelectors, expansion, row_selectors};
use air_core::{Air, AirLayout, BaseAir, preprocessed_at};
use batch_constraints::get_constraint_layout;
use commit_core::PeriodicLdeTable;
use p3_field::{
    BasedVectorSpace, ExtensionField, Field, FieldCore, Mem, PrimeCharacteristicRing, RingCore,
    TwoAdicCore, TwoAdicField, TwoAdicMultiplicativeCoset,
};
use p3_lookup::{Lookup, LookupProtocol};
use p3_matrix::RowMajorMatrix;
use p3_uni_stark::ProverFolder;
use prover_folder::{ProverFolderWithLookups, prover_fold_with_lookups};
use std::alloc::Global;

// The folder at a row, where the next row is that of number `next`, and nothing is folded yet.
fn folder_at<'a, F: Field, E: ExtensionField<F>>(
    main: &'a RowMajorMatrix<F>,
    preprocessed: Option<&'a RowMajorMatrix<F>>,
    permutation: Option<&'a RowMajorMatrix<E>>,
    periodic_values: &'a [F],
    public_values: &'a [F],
    challenges: &'a [E],
    terminals: &'a [E],
    selectors: &RowSelectors<F>,
    alpha_powers: &'a [E],
    row: usize,
    next: usize,
) -> ProverFolderWithLookups<'a, F, E>
    requires row { row < height main.now }
    requires next { next < height main.now }
    requires preprocessed { IfSome preprocessed (λ m. height m.now ≡ height main.now) }
    requires permutation { IfSome permutation (λ m. height m.now ≡ height main.now) }
    requires first { row < length selectors.now.is_first_row.items }
    requires last { row < length selectors.now.is_last_row.items }
    requires transition { row < length selectors.now.is_transition.items }
    ensures zero { result.inner.accumulator ≡ E.ring.zero }
    ensures first { result.inner.constraint_index ≡ 0 }
    ensures given { let q : QuotientRows F E = record {
      main = main.now;
      preprocessed = option_map (λ m. m.now) preprocessed.entry;
      permutation = option_map (λ m. m.now) permutation.entry;
      public_values = public_values.now;
      challenges = challenges.now;
      terminals = terminals.now;
      first_row = selectors.now.is_first_row.items;
      last_row = selectors.now.is_last_row.items;
      transition = selectors.now.is_transition.items;
    } in
        given_with result ≡ given_at F.ring.zero q periodic_values.now alpha_powers.now row next }
{
    ProverFolderWithLookups {
        inner: ProverFolder {
            main_local: main.row(row),
            main_next: main.row(next),
            preprocessed_local: preprocessed_at(preprocessed, row),
            preprocessed_next: preprocessed_at(preprocessed, next),
            periodic_values,
            public_values,
            is_first_row: selectors.is_first_row[row],
            is_last_row: selectors.is_last_row[row],
            is_transition: selectors.is_transition[row],
            alpha_powers,
            constraint_index: 0,
            accumulator: E::ZERO,
        },
        permutation_local: preprocessed_at(permutation, row),
        permutation_next: preprocessed_at(permutation, next),
        permutation_challenges: challenges,
        permutation_values: terminals,
    }
}

/// The values of a table's quotient at the points of its domain: what `quotient_values` gives, where the permutation columns are
/// over the larger field and the table of the periodic columns on the domain is there. The only error is running out of memory.
pub(crate) fn quotient_on<F: TwoAdicField, E: ExtensionField<F>, A: Air<F>, LG: LookupProtocol>(
    alloc: Global,
    air: &A,
    public_values: &[F],
    layout: AirLayout,
    trace_domain: TwoAdicMultiplicativeCoset<F>,
    quotient_domain: TwoAdicMultiplicativeCoset<F>,
    main: &RowMajorMatrix<F>,
    permutation: Option<&RowMajorMatrix<E>>,
    lookups: &[Lookup<F>],
    terminals: &[E],
    lookup_gadget: &LG,
    challenges: &[E],
    preprocessed: Option<&RowMajorMatrix<F>>,
    periodic: &PeriodicLdeTable<F>,
    alpha: E,
) -> Mem<Vec<E>>
    requires layout { layout ≡ layout_of (A.declaration air.now) }
    requires shift { trace_domain.shift ≡ F.ring.one }
    requires larger { trace_domain.log_size ≤ quotient_domain.log_size }
    requires disjoint { AreDisjoint (2 ^ trace_domain.log_size) (point F.ring F.root trace_domain)
        (2 ^ quotient_domain.log_size) (point F.ring F.root quotient_domain) }
    requires width { main.now.width ≡ (A.declaration air.now).width }
    requires height { height main.now ≡ 2 ^ quotient_domain.log_size }
    requires permutation_width { width_of (option_map (λ m. m.now) permutation)
        ≡ permutation_column_count (length lookups.now) }
    requires permutation_height { IfSome permutation
        (λ m. height m.now ≡ 2 ^ quotient_domain.log_size) }
    requires preprocessed_width { width_of (option_map (λ m. m.now) preprocessed)
        ≡ width_of (A.declaration air.now).preprocessed }
    requires preprocessed_height { IfSome preprocessed
        (λ m. height m.now ≡ 2 ^ quotient_domain.log_size) }
    requires public { length public_values.now ≡ (A.declaration air.now).public_values }
    requires lookups { AreLookupsOf (A.declaration air.now) (read_all lookups.now) }
    requires challenges { 2 * length lookups.now ≤ length challenges.now }
    requires terminals { 0 < length lookups.now → 0 < length terminals.now }
    requires periods { All (λ c. IsPeriod (2 ^ trace_domain.log_size) (length c))
        (A.declaration air.now).periodic }
    requires periodic { IsPeriodicTable F.ring (2 ^ trace_domain.log_size)
        (point F.ring F.root trace_domain) (2 ^ quotient_domain.log_size)
        (point F.ring F.root quotient_domain) (A.declaration air.now).periodic periodic.now }
    ensures { let f = two_adic_of F.ring F.inv F.root F.GENERATOR in
        let e : Extension F E = extension_of E.ring E.embed E.DIMENSION E.basis E.coefficients
        E.from_coefficients in
        let given : Evaluations F E = record {
          main = main.now;
          preprocessed = option_map (λ m. m.now) preprocessed.entry;
          permutation = option_map (flattened_matrix e) (option_map (λ m. m.now) permutation.entry);
          public_values = public_values.now;
          periodic = (A.declaration air.now).periodic;
          challenges = challenges.now;
          terminals = terminals.now;
        } in
        IfOk result (λ v. (t : CommittedTable F E) → t.log_height ≡ trace_domain.log_size
        → IsReadOn f t quotient_domain given
        → v.items ≡ quotient_values_on f e t
        (table_trees F.ring (A.trees air.now) (read_all lookups.now)) alpha quotient_domain) }
{
    let selectors = row_selectors(alloc, &trace_domain, &quotient_domain)?;
    let constraints = get_constraint_layout(alloc, air, layout, lookups, lookup_gadget)?;
    let alpha_powers = falling_powers(alloc, alpha, constraints.total_constraints())?;
    quotient_domain.valid();
    let size = quotient_domain.size();
    let step = expansion(&trace_domain, &quotient_domain);
    let mut periodic_values = Vec::with_capacity(alloc, periodic.width())?;
    let mut values = Vec::with_capacity(alloc, size)?;
    for row in 0..size {
        read_periodic(&mut periodic_values, periodic, row)?;
        let folder = folder_at(
            main,
            preprocessed,
            permutation,
            &periodic_values,
            public_values,
            challenges,
            terminals,
            &selectors,
            &alpha_powers,
            row,
            (row + step) % size,
        );
        let folded = prover_fold_with_lookups(air, lookups, lookup_gadget, folder);
        values.push(folded * E::from_base(selectors.inv_vanishing[row % step]))?;
    }
    Ok(values)
}
