//! Whether the entries of a batch's preprocessed traces fit its tables.
ghost use Rattle.std.specs.Prelude.{◌≡◌, ◌↔◌, ◌<◌, ◌≤◌, ℕ, List, None, Some, length, map, take, get_or, IfOk, IsOk, IsTrue};
ghost use Rattle.air_core.specs.Shape.{Declaration, width_of};
ghost use Rattle.batch_statement.specs.Statement.{HasEntryOf, IsPlaced, with_entry, within_entries};
ghost use Rattle.batch_statement.specs.Fitting.{FitsPreprocessed};

use crate::preprocessed::{PreprocessedInstanceMeta, PreprocessedTraces};
use air_core::BaseAir;
use p3_field::{Field, FieldCore, Mem, RingCore};
use std::alloc::Global;

// Whether the entry is there exactly where the width isn't zero, and has that width.
fn is_entry_of(width: usize, entry: &Option<PreprocessedInstanceMeta>) -> bool
    ensures { IsTrue result ↔ HasEntryOf width entry.now }
{
    match entry {
        None => width == 0,
        Some(entry) => 0 < width && entry.width == width,
    }
}

// Whether this is so of each of the first `n` tables.
fn have_entries<F: Field, A: BaseAir<F>>(
    airs: &[A],
    entries: &[Option<PreprocessedInstanceMeta>],
    n: usize,
) -> bool
    requires airs { n ≤ length airs.now }
    requires entries { n ≤ length entries.now }
    ensures { IsTrue result ↔ ((k : ℕ) → k < n → (d : Declaration F)
        → HasEntryOf (width_of (get_or (map A.declaration airs.now) k d).preprocessed)
        (get_or entries.now k None)) }
{
    for i in 0..n {
        if !is_entry_of(airs[i].preprocessed_width(), &entries[i]) {
            return false;
        }
    }
    true
}

// Whether none of the first `n` tables has preprocessed columns.
fn have_no_columns<F: Field, A: BaseAir<F>>(airs: &[A], n: usize) -> bool
    requires { n ≤ length airs.now }
    ensures { IsTrue result ↔ ((k : ℕ) → k < n → (d : Declaration F)
        → width_of (get_or (map A.declaration airs.now) k d).preprocessed ≡ 0) }
{
    for i in 0..n {
        if airs[i].preprocessed_width() != 0 {
            return false;
        }
    }
    true
}

// The tables with an entry, in order.
fn tables_with_entry(alloc: Global, entries: &[Option<PreprocessedInstanceMeta>]) -> Mem<Vec<usize>>
    ensures { IfOk result (λ v. v.items ≡ with_entry 0 entries.now) }
{
    let mut tables = Vec::new(alloc);
    for i in 0..entries.len() {
        if let Some(_) = &entries[i] {
            tables.push(i)?;
        }
    }
    Ok(tables)
}

// Whether the entry's matrix is that of its table.
fn is_placed(listed: &[usize], table: usize, entry: &Option<PreprocessedInstanceMeta>) -> bool
    ensures { IsTrue result ↔ IsPlaced listed.now table entry.now }
{
    match entry {
        None => true,
        Some(entry) => match listed.get(entry.matrix_index) {
            Some(listed) => *listed == table,
            None => false,
        },
    }
}

// Whether this is so of each of the first `n` tables.
fn are_placed(listed: &[usize], entries: &[Option<PreprocessedInstanceMeta>], n: usize) -> bool
    requires { n ≤ length entries.now }
    ensures { IsTrue result ↔ ((k : ℕ) → k < n
        → IsPlaced listed.now k (get_or entries.now k None)) }
{
    for i in 0..n {
        if !is_placed(listed, i, &entries[i]) {
            return false;
        }
    }
    true
}

// Whether the committed matrices are those of the first `n` tables that have an entry, in order.
fn lists_entries(
    alloc: Global,
    listed: &[usize],
    entries: &[Option<PreprocessedInstanceMeta>],
    n: usize,
) -> Mem<bool>
    requires { n ≤ length entries.now }
    ensures { IfOk result (λ b. IsTrue b ↔ (listed.now ≡ with_entry 0 (take n entries.now))) }
{
    let tables = tables_with_entry(alloc, &entries[..n])?;
    Ok(listed == tables.as_slice())
}

// Whether these preprocessed traces fit the first `n` tables.
fn traces_fit<F: Field, A: BaseAir<F>, Com>(
    alloc: Global,
    airs: &[A],
    traces: &PreprocessedTraces<Com>,
    n: usize,
) -> Mem<bool>
    requires airs { n ≤ length airs.now }
    requires entries { n ≤ length traces.now.instances }
    ensures { IfOk result (λ b. IsTrue b
        ↔ FitsPreprocessed (map A.declaration airs.now) (Some traces.now) n) }
{
    let listed = lists_entries(alloc, &traces.matrix_to_instance, &traces.instances, n)?;
    if !have_entries(airs, &traces.instances, n) {
        return Ok(false);
    }
    if !are_placed(&traces.matrix_to_instance, &traces.instances, n) {
        return Ok(false);
    }
    Ok(listed)
}

// Whether the preprocessed traces, where there are such, fit the first `n` tables.
pub(crate) fn preprocessed_fits<F: Field, A: BaseAir<F>, Com>(
    alloc: Global,
    airs: &[A],
    preprocessed: &Option<PreprocessedTraces<Com>>,
    n: usize,
) -> Mem<bool>
    requires airs { n ≤ length airs.now }
    requires entries { n ≤ within_entries preprocessed.now n }
    ensures fits { IfOk result
        (λ b. IsTrue b ↔ FitsPreprocessed (map A.declaration airs.now) preprocessed.now n) }
    ensures sure { preprocessed.now ≡ None → IsOk result }
{
    match preprocessed {
        None => Ok(have_no_columns(airs, n)),
        Some(traces) => traces_fit(alloc, airs, traces, n),
    }
}
