//! The rows that a table's identity reads.
ghost use Rattle.std.specs.Prelude.{◌≡◌, ◌^◌, [], length, map, option_map, replicate, unwrap_or, ◌∷◌, IfOk};
ghost use Rattle.verifier_identity.specs.OpenedRows.{recombined_row};
ghost use Rattle.verifier_shape.specs.ShapeChecks.{permutation_width, preprocessed_next_of};
ghost use Rattle.verifier_identity.specs.MadeRows.{AreMade};
ghost use Rattle.verifier_identity.specs.TableIdentity.{next_row_or_zeros, permutation_column_count, preprocessed_local_of};
ghost use Rattle.batch_constraints.specs.Fields.{extension_of, two_adic_of};

use crate::{periodic_values_at, recombined_row, zero_row};
use air_core::BaseAir;
use batch_statement::OpenedValuesWithLookups;
use commit_core::PeriodicColumns;
use p3_field::{
    BasedVectorSpace, ExtensionField, Field, FieldCore, Mem, PrimeCharacteristicRing, RingCore,
    TwoAdicCore, TwoAdicField, TwoAdicMultiplicativeCoset,
};
use p3_lookup::LookupTerminal;
use p3_uni_stark::PreprocessedOpenedValues;
use std::alloc::Global;

// The rows of one table that are made of what is opened.
#[derive(Drop)]
pub(crate) struct MadeRows<E> {
    // Zeros, where no next main column is declared.
    pub(crate) trace_zeros: Vec<E>,
    // Zeros, where no next preprocessed column is declared.
    pub(crate) preprocessed_zeros: Vec<E>,
    // The periodic columns' values.
    pub(crate) periodic: Vec<E>,
    // The permutation columns' values, each of its coefficients' columns.
    pub(crate) permutation_local: Vec<E>,
    // The same at the next point.
    pub(crate) permutation_next: Vec<E>,
}

// A row of so many zeros, where no next column is declared.
fn zeros_for<E: Field>(alloc: Global, declared: &[usize], width: usize) -> Mem<Vec<E>>
    ensures { IfOk result (λ v. declared.now ≡ [] → v.items ≡ replicate width E.ring.zero) }
{
    if declared.is_empty() {
        zero_row(alloc, width)
    } else {
        Ok(Vec::new(alloc))
    }
}

// The values of a row that may be there.
fn row_in<E>(row: &Option<Vec<E>>) -> &[E]
    ensures { result.now ≡ unwrap_or (option_map (λ v. v.items) row.now) [] }
{
    match row {
        Some(values) => values,
        None => &[],
    }
}

// The next row that a table reads: what is opened where next columns are declared, else the zeros.
pub(crate) fn next_row<'a, E>(
    declared: &[usize],
    opened: &'a Option<Vec<E>>,
    zeros: &'a [E],
) -> &'a [E]
    ensures { result.now ≡ next_row_or_zeros zeros.now declared.now
        (option_map (λ v. v.items) opened.now) }
{
    if declared.is_empty() {
        return zeros;
    }
    row_in(opened)
}

// The preprocessed columns' values that are opened.
pub(crate) fn preprocessed_local<E>(opened: &Option<PreprocessedOpenedValues<E>>) -> &[E]
    ensures { result.now ≡ preprocessed_local_of opened.now }
{
    match opened {
        Some(rows) => &rows.local,
        None => &[],
    }
}

// The next preprocessed row that a table reads.
pub(crate) fn preprocessed_next<'a, E>(
    declared: &[usize],
    opened: &'a Option<PreprocessedOpenedValues<E>>,
    zeros: &'a [E],
) -> &'a [E]
    ensures { result.now ≡ next_row_or_zeros zeros.now declared.now
        (preprocessed_next_of opened.now) }
{
    if declared.is_empty() {
        return zeros;
    }
    match opened {
        Some(rows) => row_in(&rows.next),
        None => &[],
    }
}

// The permutation columns' values of a table with so many lookups.
fn permutation_row<F: Field, E: ExtensionField<F>>(
    alloc: Global,
    row: &[E],
    lookups: usize,
) -> Mem<Vec<E>>
    requires { length row.now ≡ permutation_width lookups E.DIMENSION }
    ensures { let e = extension_of E.ring E.embed E.DIMENSION E.basis E.coefficients
        E.from_coefficients in
        IfOk result (λ v. v.items ≡ recombined_row e row.now (permutation_column_count lookups)) }
{
    let columns = row.len() / E::DIMENSION;
    recombined_row::<F, E>(alloc, row, columns)
}

// A terminal that may be there, as a list of one.
pub(crate) fn held_terminal<E: Copy>(terminal: &Option<LookupTerminal<E>>) -> Option<[E; 1]>
    ensures { result ≡ option_map (λ t. t.0 ∷ []) terminal.now }
{
    match terminal {
        Some(terminal) => Some([terminal.0]),
        None => None,
    }
}

// The values of a list that may be there.
pub(crate) fn values_in<E>(held: &Option<[E; 1]>) -> &[E]
    ensures { result.now ≡ unwrap_or held.now [] }
{
    match held {
        Some(values) => values,
        None => &[],
    }
}

// The rows of one table that are made of what is opened, where it has so many lookups.
pub(crate) fn made_rows<F: TwoAdicField, E: ExtensionField<F>, A: BaseAir<F>>(
    alloc: Global,
    air: &A,
    columns: PeriodicColumns<'_, F>,
    domain: &TwoAdicMultiplicativeCoset<F>,
    lookups: usize,
    opened: &OpenedValuesWithLookups<E>,
    zeta: E,
) -> Mem<MadeRows<E>>
    requires height { columns.height ≡ 2 ^ domain.now.log_size }
    requires columns { map (λ c. c.items) columns.columns.now ≡ (A.declaration air.now).periodic }
    requires local { length opened.now.permutation_local ≡ permutation_width lookups E.DIMENSION }
    requires next { length opened.now.permutation_next ≡ permutation_width lookups E.DIMENSION }
    ensures { let f = two_adic_of F.ring F.inv F.root F.GENERATOR in
        let e = extension_of E.ring E.embed E.DIMENSION E.basis E.coefficients
        E.from_coefficients in
        IfOk result (AreMade f e domain.now (A.declaration air.now) lookups zeta opened.now) }
{
    Ok(MadeRows {
        trace_zeros: zeros_for(alloc, air.main_next_row_columns(), air.width())?,
        preprocessed_zeros: zeros_for(
            alloc,
            air.preprocessed_next_row_columns(),
            air.preprocessed_width(),
        )?,
        periodic: periodic_values_at(alloc, domain, columns, zeta)?,
        permutation_local: permutation_row::<F, E>(alloc, &opened.permutation_local, lookups)?,
        permutation_next: permutation_row::<F, E>(alloc, &opened.permutation_next, lookups)?,
    })
}
