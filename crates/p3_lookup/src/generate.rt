//! Permutation columns.
ghost use Rattle.std.specs.Prelude.{◌≡◌, ℕ, ◌+◌, ◌*◌, ◌<◌, ◌≤◌, [], length, map, drop, All, IfOk, IfSome, MatchResult};
ghost use Rattle.std.specs.Option.{option_map};
ghost use Rattle.p3_matrix.specs.Matrix.{height};
ghost use Rattle.air_core.specs.RowCheck.{row_shape};
ghost use Rattle.p3_lookup.specs.Lookup.{IsLookup, sent};
ghost use Rattle.p3_lookup.specs.Written.{read, read_all};
ghost use Rattle.p3_lookup.specs.Term.{sum_of, term_value, HasInverses};
ghost use Rattle.p3_lookup.specs.Honest.{terms_of, terms_from, row_terms, RowHasInverses};
ghost use Rattle.p3_lookup.specs.Generated.{embedded_at, argument_over, IsGenerated, IsGenerateFault, ReadTraces};
ghost use Rattle.p3_lookup.specs.RowTerms.{AreTermsAdded, AreRowTermsAdded, table_terms, sizes, row_size, group_sums, IsRowAdded, AreColumns};

use crate::lookup::Lookup;
use crate::term::Term;
use crate::terminal::{GenerateError, LookupTerminal};
use crate::values::push_terms;
use air_core::{RowValues, preprocessed_at};
use p3_field::{ExtensionField, Field, FieldCore, Mem, PrimeCharacteristicRing, RingCore};
use p3_matrix::{RowMajorMatrix, batch_multiplicative_inverse};
use std::alloc::Global;

// Appends the terms of a lookup at a row, or gives the first whose denominator is zero. The place is the number of the row
// and that of the lookup.
fn push_lookup<'a, F: Field, EF: ExtensionField<F>>(
    terms: &mut Vec<Term<EF>>,
    lookup: &Lookup<F>,
    cells: &RowValues<'a, F, F>,
    challenges: (EF, EF),
    place: (usize, usize),
) -> Result<(), GenerateError>
    requires lookup { IsLookup (row_shape cells.now) (read lookup.now) }
    ensures { AreTermsAdded EF.ring
        (terms_of EF.ring challenges.0 challenges.1 (embedded_at F.ring EF.embed cells.now)
        (sent (read lookup.now))) place.0 place.1 terms.old.items terms.new.items result }
{
    push_terms(
        terms,
        &lookup.elements,
        &lookup.multiplicities,
        cells,
        challenges,
        place,
    )
}

// Appends the terms of all lookups at a row, or gives the first whose denominator is zero.
fn push_lookups<'a, F: Field, EF: ExtensionField<F>>(
    terms: &mut Vec<Term<EF>>,
    lookups: &[Lookup<F>],
    cells: &RowValues<'a, F, F>,
    challenges: &[EF],
    row: usize,
) -> Result<(), GenerateError>
    requires lookups { All (IsLookup (row_shape cells.now)) (read_all lookups.now) }
    requires challenges { length challenges.now ≡ 2 * length lookups.now }
    ensures { AreRowTermsAdded EF.ring
        (terms_from EF.ring challenges.now (embedded_at F.ring EF.embed cells.now) 0
        (read_all lookups.now)) row terms.old.items terms.new.items result }
{
    for i in 0..lookups.len() {
        let pair = (challenges[2 * i], challenges[2 * i + 1]);
        push_lookup(terms, &lookups[i], cells, pair, (row, i))?;
    }
    Ok(())
}

// Appends the terms of all lookups at a row of a table, or gives the first whose denominator is zero.
fn push_row_terms<F: Field, EF: ExtensionField<F>>(
    terms: &mut Vec<Term<EF>>,
    main: &RowMajorMatrix<F>,
    preprocessed: Option<&RowMajorMatrix<F>>,
    public_values: &[F],
    lookups: &[Lookup<F>],
    challenges: &[EF],
    row: usize,
) -> Result<(), GenerateError>
    requires row { row < height main.now }
    requires preprocessed { IfSome preprocessed (λ m. height m.now ≡ height main.now) }
    requires lookups { ReadTraces main.now (option_map (λ m. m.now) preprocessed) public_values.now
        (read_all lookups.now) }
    requires challenges { length challenges.now ≡ 2 * length lookups.now }
    ensures { let p = argument_over F.ring EF.ring EF.inv EF.embed main.now
        (option_map (λ m. m.now) preprocessed.entry) public_values.now (read_all lookups.now)
        challenges.now in
        AreRowTermsAdded EF.ring (row_terms p row) row terms.old.items terms.new.items result }
{
    let height = main.height();
    let next = (row + 1) % height;
    let cells = RowValues {
        main_local: main.row(row),
        main_next: main.row(next),
        preprocessed_local: preprocessed_at(preprocessed, row),
        preprocessed_next: preprocessed_at(preprocessed, next),
        periodic: &[],
        public_values,
        is_first_row: row == 0,
        is_last_row: row + 1 == height,
        permutation_local: &[],
        permutation_next: &[],
        challenges: &[],
        terminals: &[],
    };
    push_lookups(terms, lookups, &cells, challenges, row)
}

// The terms of all lookups, row after row, or the first whose denominator is zero.
fn terms_of_table<F: Field, EF: ExtensionField<F>>(
    alloc: Global,
    main: &RowMajorMatrix<F>,
    preprocessed: Option<&RowMajorMatrix<F>>,
    public_values: &[F],
    lookups: &[Lookup<F>],
    challenges: &[EF],
) -> Result<Vec<Term<EF>>, GenerateError>
    requires preprocessed { IfSome preprocessed (λ m. height m.now ≡ height main.now) }
    requires lookups { ReadTraces main.now (option_map (λ m. m.now) preprocessed) public_values.now
        (read_all lookups.now) }
    requires challenges { length challenges.now ≡ 2 * length lookups.now }
    ensures { let p = argument_over F.ring EF.ring EF.inv EF.embed main.now
        (option_map (λ m. m.now) preprocessed.entry) public_values.now (read_all lookups.now)
        challenges.now in
        MatchResult result (λ v. (v.items ≡ table_terms p (height main.now))
        × ((i : ℕ) → i < height main.now → RowHasInverses p i))
        (IsGenerateFault p (height main.now)) }
{
    let mut terms = Vec::new(alloc);
    for row in 0..main.height() {
        push_row_terms(
            &mut terms,
            main,
            preprocessed,
            public_values,
            lookups,
            challenges,
            row,
        )?;
    }
    Ok(terms)
}

// The denominators of terms.
fn denominators_of<EF: Field>(alloc: Global, terms: &[Term<EF>]) -> Mem<Vec<EF>>
    ensures { IfOk result (λ v. v.items ≡ map (λ t. t.denominator) terms.now) }
{
    let mut denominators = Vec::with_capacity(alloc, terms.len())?;
    for i in 0..terms.len() {
        let term = &terms[i];
        denominators.push(term.denominator)?;
    }
    Ok(denominators)
}

// The count of each term over its denominator, none of which is zero, by one inversion for all.
fn quotients_of<EF: Field>(alloc: Global, terms: &[Term<EF>]) -> Mem<Vec<EF>>
    requires { HasInverses EF.ring terms.now }
    ensures { IfOk result (λ v. v.items ≡ map (term_value EF.ring EF.inv) terms.now) }
{
    let denominators = denominators_of(alloc, terms)?;
    let mut quotients = batch_multiplicative_inverse(alloc, &denominators)?;
    for i in 0..terms.len() {
        let term = &terms[i];
        quotients[i] = term.count * quotients[i];
    }
    Ok(quotients)
}

// The sum of values.
fn total<EF: Field>(values: &[EF]) -> EF
    ensures { result ≡ sum_of EF.ring values.now }
{
    let mut sum = EF::ZERO;
    for i in (0..values.len()).rev() {
        sum = values[i] + sum;
    }
    sum
}

// Appends a row: the running sum, and each lookup's fraction, which is the sum of its quotients. Those of the row begin at
// `start`. Gives the place after them, and the running sum of the next row.
fn push_row<F, EF: Field>(
    values: &mut Vec<EF>,
    lookups: &[Lookup<F>],
    quotients: &[EF],
    start: usize,
    running: EF,
) -> Mem<(usize, EF)>
    requires { start + row_size (sizes (read_all lookups.now)) ≤ length quotients.now }
    ensures { IfOk result (λ p.
        IsRowAdded EF.ring (group_sums EF.ring (sizes (read_all lookups.now))
        (drop start quotients.now)) running values.old.items values.new.items p.1
        × (p.0 ≡ start + row_size (sizes (read_all lookups.now)))) }
{
    values.push(running)?;
    let mut place = start;
    let mut running = running;
    for i in 0..lookups.len() {
        let lookup = &lookups[i];
        let count = lookup.elements.len();
        prove!(count <= quotients.len() - place);
        let end = place + count;
        let fraction = total(&quotients[place..end]);
        values.push(fraction)?;
        running = running + fraction;
        place = end;
    }
    Ok((place, running))
}

// The permutation columns row after row, and the terminal, from the quotients of all rows.
fn rows_of<F, EF: Field>(
    alloc: Global,
    lookups: &[Lookup<F>],
    quotients: &[EF],
    height: usize,
) -> Mem<(Vec<EF>, EF)>
    requires { height * row_size (sizes (read_all lookups.now)) ≤ length quotients.now }
    ensures { IfOk result (λ p. AreColumns EF.ring
        (λ i. group_sums EF.ring (sizes (read_all lookups.now))
        (drop (i * row_size (sizes (read_all lookups.now))) quotients.now)) (length lookups.now)
        p.0.items height p.1) }
{
    let mut values = Vec::new(alloc);
    let mut place = 0;
    let mut running = EF::ZERO;
    for _row in 0..height {
        let next = push_row(&mut values, lookups, quotients, place, running)?;
        place = next.0;
        running = next.1;
    }
    Ok((values, running))
}

// The permutation columns and the terminal, or the first denominator that is zero.
pub(crate) fn columns_and_terminal<F: Field, EF: ExtensionField<F>>(
    alloc: Global,
    main: &RowMajorMatrix<F>,
    preprocessed: Option<&RowMajorMatrix<F>>,
    public_values: &[F],
    lookups: &[Lookup<F>],
    challenges: &[EF],
) -> Result<(RowMajorMatrix<EF>, LookupTerminal<EF>), GenerateError>
    requires preprocessed { IfSome preprocessed (λ m. height m.now ≡ height main.now) }
    requires lookups { ReadTraces main.now (option_map (λ m. m.now) preprocessed) public_values.now
        (read_all lookups.now) }
    requires challenges { length challenges.now ≡ 2 * length lookups.now }
    ensures { let p = argument_over F.ring EF.ring EF.inv EF.embed main.now
        (option_map (λ m. m.now) preprocessed.entry) public_values.now (read_all lookups.now)
        challenges.now in
        IsGenerated p (height main.now) result }
{
    let terms = terms_of_table(
        alloc,
        main,
        preprocessed,
        public_values,
        lookups,
        challenges,
    )?;
    let quotients = quotients_of(alloc, &terms)?;
    let (values, terminal) = rows_of(alloc, lookups, &quotients, main.height())?;
    let columns = RowMajorMatrix::new(values, lookups.len() + 1);
    Ok((columns, LookupTerminal(terminal)))
}
