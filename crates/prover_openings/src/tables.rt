//! What is opened of each table, taken out of the values of all rounds.
ghost use Rattle.std.specs.Prelude.{◌≡◌, ℕ, [], cond, drop, length, map, IfOk, Some, None};
ghost use Rattle.std.specs.Prelude.{slice_index_or as get_or};
ghost use Rattle.std.specs.Vec.Iter.{into_iter_items};
ghost use Rattle.commit_core.specs.Commitments.{nested};
ghost use Rattle.p3_field.specs.Poly.{tabulate};
ghost use Rattle.p3_lookup.specs.Written.{read_all};
ghost use Rattle.batch_statement.specs.Words.{has_some, is_there};
ghost use Rattle.batch_statement.specs.Statement.{entry_of};
ghost use Rattle.prover_openings.specs.Rows.{first_list, matrices_in, rounds_in, rows_in, second_of, values_of_row};
ghost use Rattle.prover_openings.specs.Taken.{chunk_count_at, has_entry_at, has_lookups_at, one_where, round_values, taken_at, taken_table};

use crate::rows::{next_chunks, next_list, next_rows};
use batch_statement::{OpenedValuesWithLookups, SharedData};
use commit_core::{OpenedValues, OpenedValuesForMatrix, OpenedValuesForRound};
use p3_field::Mem;
use p3_uni_stark::{OpenedValues as OpenedTable, PreprocessedOpenedValues};
use std::alloc::Global;
use std::vec::IntoIter;

// For each round the values of the matrices that aren't taken yet.
#[derive(Drop)]
struct RoundsLeft<E> {
    main: IntoIter<OpenedValuesForMatrix<E>>,
    quotient: IntoIter<OpenedValuesForMatrix<E>>,
    preprocessed: IntoIter<OpenedValuesForMatrix<E>>,
    permutation: IntoIter<OpenedValuesForMatrix<E>>,
}

// The values of the round that comes next, where there is one.
fn next_round<E: Drop>(
    alloc: Global,
    there: bool,
    rounds: &mut IntoIter<OpenedValuesForRound<E>>,
) -> IntoIter<OpenedValuesForMatrix<E>>
    ensures matrices { matrices_in (into_iter_items result)
        ≡ cond there (first_list (rounds_in (into_iter_items rounds.old))) [] }
    ensures rest { into_iter_items rounds.new
        ≡ drop (one_where there) (into_iter_items rounds.old) }
{
    if there {
        let round = next_list(alloc, rounds);
        round.into_iter()
    } else {
        Vec::new(alloc).into_iter()
    }
}

// The values of all rounds, of which that of the preprocessed matrices is there where this says so.
fn rounds_left<E: Drop>(
    alloc: Global,
    values: OpenedValues<E>,
    has_preprocessed: bool,
) -> RoundsLeft<E>
    ensures main { matrices_in (into_iter_items result.main)
        ≡ (round_values has_preprocessed (nested values)).main }
    ensures quotient { matrices_in (into_iter_items result.quotient)
        ≡ (round_values has_preprocessed (nested values)).quotient }
    ensures preprocessed { matrices_in (into_iter_items result.preprocessed)
        ≡ (round_values has_preprocessed (nested values)).preprocessed }
    ensures permutation { matrices_in (into_iter_items result.permutation)
        ≡ (round_values has_preprocessed (nested values)).permutation }
{
    let mut rounds = values.into_iter();
    let main = next_round(alloc, true, &mut rounds);
    let quotient = next_round(alloc, true, &mut rounds);
    let preprocessed = next_round(alloc, has_preprocessed, &mut rounds);
    let permutation = next_round(alloc, true, &mut rounds);
    RoundsLeft {
        main,
        quotient,
        preprocessed,
        permutation,
    }
}

// The preprocessed rows that come next, where the table has an entry.
fn preprocessed_rows<E: Drop>(
    alloc: Global,
    has_entry: bool,
    matrices: &mut IntoIter<OpenedValuesForMatrix<E>>,
) -> Option<PreprocessedOpenedValues<E>>
    ensures rows { result ≡ cond has_entry
        (Some (rows_in (first_list (matrices_in (into_iter_items matrices.old))))) None }
    ensures rest { into_iter_items matrices.new
        ≡ drop (one_where has_entry) (into_iter_items matrices.old) }
{
    if has_entry {
        Some(next_rows(alloc, matrices))
    } else {
        None
    }
}

// The two permutation rows that come next, where the table has lookups; else both are empty.
fn permutation_rows<E: Drop>(
    alloc: Global,
    has_lookups: bool,
    matrices: &mut IntoIter<OpenedValuesForMatrix<E>>,
) -> (Vec<E>, Vec<E>)
    ensures local { result.0.items
        ≡ cond has_lookups (first_list (first_list (matrices_in (into_iter_items matrices.old))))
        [] }
    ensures next { result.1.items
        ≡ cond has_lookups (values_of_row
        (second_of (first_list (matrices_in (into_iter_items matrices.old))))) [] }
    ensures rest { into_iter_items matrices.new
        ≡ drop (one_where has_lookups) (into_iter_items matrices.old) }
{
    if !has_lookups {
        return (Vec::new(alloc), Vec::new(alloc));
    }
    let PreprocessedOpenedValues { local, next } = next_rows(alloc, matrices);
    match next {
        Some(next) => (local, next),
        None => (local, Vec::new(alloc)),
    }
}

// What is opened of the table that comes next, whose quotient has so many chunks.
fn next_table<E: Drop>(
    alloc: Global,
    left: &mut RoundsLeft<E>,
    chunk_count: usize,
    has_entry: bool,
    has_lookups: bool,
) -> Mem<OpenedValuesWithLookups<E>>
    ensures table { IfOk result (λ t. t
        ≡ taken_table chunk_count has_entry has_lookups
        (first_list (matrices_in (into_iter_items left.old.main)))
        (λ j. get_or (matrices_in (into_iter_items left.old.quotient)) j [])
        (first_list (matrices_in (into_iter_items left.old.preprocessed)))
        (first_list (matrices_in (into_iter_items left.old.permutation)))) }
    ensures main { IfOk result
        (λ _. into_iter_items left.new.main ≡ drop 1 (into_iter_items left.old.main)) }
    ensures quotient { IfOk result
        (λ _. into_iter_items left.new.quotient
        ≡ drop chunk_count (into_iter_items left.old.quotient)) }
    ensures preprocessed { IfOk result
        (λ _. into_iter_items left.new.preprocessed
        ≡ drop (one_where has_entry) (into_iter_items left.old.preprocessed)) }
    ensures permutation { IfOk result
        (λ _. into_iter_items left.new.permutation
        ≡ drop (one_where has_lookups) (into_iter_items left.old.permutation)) }
{
    let main = next_rows(alloc, &mut left.main);
    let quotient_chunks = next_chunks(alloc, &mut left.quotient, chunk_count)?;
    let preprocessed = preprocessed_rows(alloc, has_entry, &mut left.preprocessed);
    let (permutation_local, permutation_next) = permutation_rows(
        alloc,
        has_lookups,
        &mut left.permutation,
    );
    Ok(OpenedValuesWithLookups {
        base_opened_values: OpenedTable {
            trace_local: main.local,
            trace_next: main.next,
            preprocessed,
            quotient_chunks,
            random: None,
        },
        permutation_local,
        permutation_next,
    })
}

// Whether a table has a preprocessed entry.
fn has_entry<F, Com>(common: &SharedData<F, Com>, index: usize) -> bool
    ensures { result ≡ has_entry_at common.now.preprocessed index }
{
    match &common.preprocessed {
        None => false,
        Some(traces) => { index < traces.instances.len() && traces.instances[index].is_some() }
    }
}

// Whether it has lookups.
fn has_lookups<F, Com>(common: &SharedData<F, Com>, index: usize) -> bool
    ensures { result ≡ has_lookups_at (map read_all common.now.lookups) index }
{
    index < common.lookups.len() && !common.lookups[index].as_slice().is_empty()
}

// What is opened of all tables, whose quotients have so many chunks.
fn all_tables<F, Com, E: Drop>(
    alloc: Global,
    rounds: RoundsLeft<E>,
    common: &SharedData<F, Com>,
    chunk_counts: &[usize],
) -> Mem<Vec<OpenedValuesWithLookups<E>>>
    ensures { IfOk result (λ v. v.items
        ≡ tabulate (length chunk_counts.now)
        (taken_at common.now.preprocessed (map read_all common.now.lookups) chunk_counts.now
        (record {
          main = matrices_in (into_iter_items rounds.main);
          quotient = matrices_in (into_iter_items rounds.quotient);
          preprocessed = matrices_in (into_iter_items rounds.preprocessed);
          permutation = matrices_in (into_iter_items rounds.permutation);
        }))) }
{
    let mut left = rounds;
    let mut tables = Vec::with_capacity(alloc, chunk_counts.len())?;
    for i in 0..chunk_counts.len() {
        let entry = has_entry(common, i);
        let lookups = has_lookups(common, i);
        tables.push(next_table(alloc, &mut left, chunk_counts[i], entry, lookups)?)?;
    }
    Ok(tables)
}

// The values that a backend opens, table by table. None is copied. The round of preprocessed matrices is there where this says
// so; each table's quotient has so many chunks.
pub(crate) fn opened_tables<F, Com, E: Drop>(
    alloc: Global,
    values: OpenedValues<E>,
    has_preprocessed: bool,
    common: &SharedData<F, Com>,
    chunk_counts: &[usize],
) -> Mem<Vec<OpenedValuesWithLookups<E>>>
    ensures { IfOk result (λ v. v.items
        ≡ tabulate (length chunk_counts.now)
        (taken_at common.now.preprocessed (map read_all common.now.lookups) chunk_counts.now
        (round_values has_preprocessed (nested values)))) }
{
    let rounds = rounds_left(alloc, values, has_preprocessed);
    all_tables(alloc, rounds, common, chunk_counts)
}
