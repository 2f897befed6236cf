//! The rows that a backend opens, taken one after the other out of the values that it gives.
ghost use Rattle.std.specs.Prelude.{◌≡◌, ℕ, [], drop, map, IfOk};
ghost use Rattle.std.specs.Prelude.{slice_index_or as get_or};
ghost use Rattle.std.specs.Vec.Iter.{into_iter_items};
ghost use Rattle.p3_field.specs.Poly.{tabulate};
ghost use Rattle.prover_openings.specs.Rows.{first_list, matrices_in, rows_in};

use commit_core::OpenedValuesForMatrix;
use p3_field::Mem;
use p3_uni_stark::PreprocessedOpenedValues;
use std::alloc::Global;
use std::vec::IntoIter;

// The list that comes next, empty where none is left.
pub(crate) fn next_list<T: Drop>(alloc: Global, lists: &mut IntoIter<Vec<T>>) -> Vec<T>
    ensures first { result.items ≡ first_list (map (λ v. v.items) (into_iter_items lists.old)) }
    ensures rest { into_iter_items lists.new ≡ drop 1 (into_iter_items lists.old) }
{
    match lists.next() {
        Some(list) => list,
        None => Vec::new(alloc),
    }
}

// The rows of the matrix that comes next: at zeta, and at the next point where it is opened there.
pub(crate) fn next_rows<E: Drop>(
    alloc: Global,
    matrices: &mut IntoIter<OpenedValuesForMatrix<E>>,
) -> PreprocessedOpenedValues<E>
    ensures rows { result ≡ rows_in (first_list (matrices_in (into_iter_items matrices.old))) }
    ensures rest { into_iter_items matrices.new ≡ drop 1 (into_iter_items matrices.old) }
{
    let matrix = next_list(alloc, matrices);
    let mut rows = matrix.into_iter();
    let local = next_list(alloc, &mut rows);
    let next = rows.next();
    PreprocessedOpenedValues { local, next }
}

// The row at zeta of the matrix that comes next.
fn next_row<E: Drop>(alloc: Global, matrices: &mut IntoIter<OpenedValuesForMatrix<E>>) -> Vec<E>
    ensures row { result.items
        ≡ first_list (first_list (matrices_in (into_iter_items matrices.old))) }
    ensures rest { into_iter_items matrices.new ≡ drop 1 (into_iter_items matrices.old) }
{
    let matrix = next_list(alloc, matrices);
    let mut rows = matrix.into_iter();
    next_list(alloc, &mut rows)
}

// The rows at zeta of so many matrices that come next.
pub(crate) fn next_chunks<E: Drop>(
    alloc: Global,
    matrices: &mut IntoIter<OpenedValuesForMatrix<E>>,
    count: usize,
) -> Mem<Vec<Vec<E>>>
    ensures rows { IfOk result
        (λ v. map (λ x. x.items) v.items
        ≡ tabulate count (λ j. first_list
        (get_or (matrices_in (into_iter_items matrices.old)) j []))) }
    ensures rest { IfOk result
        (λ _. into_iter_items matrices.new ≡ drop count (into_iter_items matrices.old)) }
{
    let mut rows = Vec::with_capacity(alloc, count)?;
    for _j in 0..count {
        rows.push(next_row(alloc, matrices))?;
    }
    Ok(rows)
}
