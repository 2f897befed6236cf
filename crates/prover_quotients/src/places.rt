//! Where the matrices of each table stand among those that are committed to.
ghost use Rattle.std.specs.Prelude.{◌≡◌, ℕ, ◌<◌, IfOk, cond, length, map};
ghost use Rattle.p3_field.specs.Poly.{tabulate};
ghost use Rattle.p3_lookup.specs.Written.{read_all};
ghost use Rattle.verifier_shape.specs.ShapeChecks.{HasEntries};
ghost use Rattle.batch_statement.specs.Words.{has_some};
ghost use Rattle.batch_statement.specs.Statement.{entry_of};
ghost use Rattle.std.specs.Option.{option_map};
ghost use Rattle.prover_quotients.specs.Places.{permutation_matrix_place};

use batch_statement::{PreprocessedInstanceMeta, SharedData};
use p3_field::Mem;
use p3_lookup::Lookups;
use std::alloc::Global;

/// Where the matrices of a table stand, each among those of its kind that are committed to.
#[derive(Clone, Copy)]
pub(crate) struct Places {
    /// Its main columns.
    pub(crate) main: usize,
    /// Its preprocessed columns: None where it has none.
    pub(crate) preprocessed: Option<usize>,
    /// Its permutation columns: None where it has none.
    pub(crate) permutation: Option<usize>,
}

// The place that an entry has.
fn place_in(entry: &Option<PreprocessedInstanceMeta>) -> Option<usize>
    ensures { result ≡ option_map (λ e. e.matrix_index) entry.now }
{
    match entry {
        Some(entry) => Some(entry.matrix_index),
        None => None,
    }
}

// The place of the preprocessed columns of a table.
pub(crate) fn preprocessed_place<F, Com>(
    common: &SharedData<F, Com>,
    index: usize,
    tables: usize,
) -> Option<usize>
    requires entries { HasEntries tables common.now.preprocessed }
    requires index { index < tables }
    ensures { result ≡ option_map (λ e. e.matrix_index) (entry_of common.now.preprocessed index) }
{
    match &common.preprocessed {
        Some(traces) => place_in(&traces.instances[index]),
        None => None,
    }
}

// Whether a table has lookups.
fn has_lookups<F>(lookups: &Lookups<F>) -> bool
    ensures { result ≡ has_some (read_all lookups.now) }
{
    !lookups.as_slice().is_empty()
}

// This place, where a table has lookups.
fn place_where(own: bool, next: usize) -> Option<usize>
    ensures { result ≡ cond own (Some next) None }
{
    if own { Some(next) } else { None }
}

// One where a table has lookups, else zero.
fn count_where(own: bool) -> usize
    ensures { result ≡ cond own 1 0 }
{
    if own { 1 } else { 0 }
}

// The places of the permutation columns of all tables.
pub(crate) fn permutation_places<F>(
    alloc: Global,
    lookups: &[Lookups<F>],
) -> Mem<Vec<Option<usize>>>
    ensures { IfOk result (λ v.
        v.items ≡ tabulate (length lookups.now)
        (permutation_matrix_place (map read_all lookups.now))) }
{
    let mut places = Vec::with_capacity(alloc, lookups.len())?;
    let mut next: usize = 0;
    for table in lookups {
        let own = has_lookups(table);
        places.push(place_where(own, next))?;
        next += count_where(own);
    }
    Ok(places)
}
