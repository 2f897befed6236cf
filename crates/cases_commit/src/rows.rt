//! Calls of schemes that commit to matrices and open their rows, over the bound alone.
ghost use Rattle.std.specs.Prelude.{◌≡◌, ℕ, ◌<◌, ◌↔◌, IsTrue, All, IfOk};
ghost use Rattle.std.specs.Int.{IsPowerOfTwo};
ghost use Rattle.p3_matrix.specs.Matrix.{height};
ghost use Rattle.commit_rows.specs.Batches.{IsRowOf};

use crate::reading::{number, values_of};
use crate::writing::{push_values, push_word};
use commit_core::PcsFailure;
use commit_rows::{BatchOpening, BatchOpeningRef, Mmcs, greatest_height};
use example_commit::{committed_and_opened, rows_verified_twice};
use p3_field::{
    BabyBear, BasedVectorSpace, ExtensionField, FieldCore, Mem, PrimeCharacteristicRing, RingCore,
};
use p3_matrix::{Dimensions, RowMajorMatrix, is_power_of_two};
use plain_pcs::{PlainMmcs, PlainMmcsError, PlainMmcsProof};
use std::alloc::Global;

// The lists as columns, without those whose height is no power of two.
fn columns_of<T: ExtensionField<BabyBear>>(
    alloc: Global,
    lists: &[Vec<usize>],
) -> Mem<Vec<RowMajorMatrix<T>>>
    ensures heights { IfOk result (λ v. All (λ m. IsPowerOfTwo (height m)) v.items) }
    ensures widths { IfOk result (λ v. All (λ m. m.width < 65536) v.items) }
{
    let mut columns = Vec::new(alloc);
    for list in lists {
        let column = RowMajorMatrix::new_col(values_of(alloc, list)?);
        if !is_power_of_two(column.height()) {
            continue;
        }
        columns.push(column)?;
    }
    Ok(columns)
}

// Dimensions of which the numbers are the widths and the heights. A width is taken modulo 2^16.
fn dimensions_of(alloc: Global, numbers: &[usize]) -> Mem<Vec<Dimensions>>
    ensures { IfOk result (λ v. All (λ d. d.width < 65536) v.items) }
{
    let mut dimensions = Vec::new(alloc);
    for pair in numbers.chunks(2) {
        if let [width, height] = pair {
            dimensions.push(Dimensions {
                width: *width % 65536,
                height: *height,
            })?;
        }
    }
    Ok(dimensions)
}

// Whether this is the number of a row of the highest matrix.
fn is_row<T>(matrices: &[RowMajorMatrix<T>], index: usize) -> bool
    ensures { IsTrue result ↔ IsRowOf matrices.now index }
{
    match greatest_height(matrices) {
        Some(most) => index < most,
        None => false,
    }
}

// Whether each of them is.
fn are_rows<T>(matrices: &[RowMajorMatrix<T>], indices: &[usize]) -> bool
    ensures { IsTrue result ↔ All (IsRowOf matrices.now) indices.now }
{
    for &index in indices {
        if !is_row(matrices, index) {
            return false;
        }
    }
    true
}

// Appends rows of values.
fn push_rows<T: ExtensionField<BabyBear>>(
    out: &mut String,
    alloc: Global,
    rows: &[Vec<T>],
) -> Mem<()> {
    push_word(out, "/")?;
    for row in rows {
        push_values(out, alloc, row)?;
    }
    Ok(())
}

/// Calls of a scheme that commits to the columns which the lists after the first four are. The first list has the places that are
/// opened, the second those that are claimed, the third another value for an opened row, and the fourth the dimensions.
pub fn rows<T: ExtensionField<BabyBear>, M: Mmcs<T, Error = PlainMmcsError>>(
    alloc: Global,
    mmcs: &M,
    call: &str,
    lists: &[Vec<usize>],
) -> Mem<String>
    requires { (w : ℕ) → w < 65536 → M.takes w }
{
    let [indices, claimed, other, shape, columns @ ..] = lists else {
        return String::from_str(alloc, "bad case");
    };
    if call == "column" {
        return column(alloc, mmcs, number(indices, 0), number(claimed, 0), columns);
    }
    let shape = dimensions_of(alloc, shape)?;
    let columns = columns_of::<T>(alloc, columns)?;
    if columns.is_empty() {
        return String::from_str(alloc, "bad case");
    }
    let (commitment, data) = mmcs.commit(alloc, columns)?;
    let count = mmcs.get_matrices(&data).len();
    match call {
        "heights" if count > 0 => {
            let heights = mmcs.get_matrix_heights(alloc, &data)?;
            format!(in alloc; "{heights:?} {} {count}", mmcs.get_max_height(&data))
        }
        "open" => {
            let places = [number(indices, 0), number(claimed, 0)];
            opened(alloc, mmcs, &commitment, &data, &shape, places, other)
        }
        _ => opened_together(
            alloc,
            mmcs,
            &commitment,
            &data,
            &shape,
            [indices, claimed],
            other,
        ),
    }
}

// The rows at a place, and why the verifier refuses them at the claimed place, asked twice. Before that the first row gives way to
// the other value, where there is one.
fn opened<T: ExtensionField<BabyBear>, M: Mmcs<T, Error = PlainMmcsError>>(
    alloc: Global,
    mmcs: &M,
    commitment: &M::Commitment,
    data: &M::ProverData,
    shape: &[Dimensions],
    places: [usize; 2],
    other: &[usize],
) -> Mem<String>
    requires { All (λ d. M.takes d.width) shape.now }
{
    let [index, claimed] = places;
    if !is_row(mmcs.get_matrices(data), index) {
        return String::from_str(alloc, "bad case");
    }
    let (mut rows, proof) = mmcs.open_batch(alloc, index, data)?.unpack();
    let mut out = String::new(alloc);
    push_rows(&mut out, alloc, &rows)?;
    if !other.is_empty() {
        if let Some(row) = rows.first_mut() {
            *row = values_of(alloc, other)?;
        }
    }
    let opening = BatchOpeningRef::new(&rows, &proof);
    let (fault, again) = rows_verified_twice(alloc, mmcs, commitment, shape, claimed, opening)?;
    push_word(&mut out, format_args!("{fault:?} {again:?}"))?;
    Ok(out)
}

// The rows at several places, opened together, and the verifier's answer to them at the claimed places. Before that each row of the
// last place gives way to the other value, where there is one.
fn opened_together<T: ExtensionField<BabyBear>, M: Mmcs<T, Error = PlainMmcsError>>(
    alloc: Global,
    mmcs: &M,
    commitment: &M::Commitment,
    data: &M::ProverData,
    shape: &[Dimensions],
    places: [&Vec<usize>; 2],
    other: &[usize],
) -> Mem<String>
    requires { All (λ d. M.takes d.width) shape.now }
{
    let [indices, claimed] = places;
    let indices = indices.as_slice();
    if !are_rows(mmcs.get_matrices(data), indices) {
        return String::from_str(alloc, "bad case");
    }
    let (mut openings, proof) = mmcs.open_multi_batch(alloc, indices, data)?;
    let mut out = String::new(alloc);
    for rows in &openings {
        push_rows(&mut out, alloc, rows)?;
    }
    if !other.is_empty() {
        if let Some(last) = openings.last_mut() {
            for row in last.iter_mut() {
                *row = values_of(alloc, other)?;
            }
        }
    }
    let answer = mmcs.verify_multi_batch(alloc, commitment, shape, claimed, &openings, &proof);
    push_word(&mut out, format_args!("{answer:?}"))?;
    Ok(out)
}

// A row of one column, committed to as a list; and by the caller of any scheme, with whether it is accepted as the claimed row.
fn column<T: ExtensionField<BabyBear>, M: Mmcs<T>>(
    alloc: Global,
    mmcs: &M,
    index: usize,
    claimed: usize,
    lists: &[Vec<usize>],
) -> Mem<String>
    requires { M.takes 1 }
{
    let [list] = lists else {
        return String::from_str(alloc, "bad case");
    };
    let values = values_of::<T>(alloc, list)?;
    let matrix = RowMajorMatrix::new_col(values_of::<T>(alloc, list)?);
    let height = matrix.height();
    if !is_power_of_two(values.len()) || !is_power_of_two(height) || index >= height {
        return String::from_str(alloc, "bad case");
    }
    let (_commitment, data) = mmcs.commit_vec(alloc, values)?;
    if !is_row(mmcs.get_matrices(&data), index) {
        return String::from_str(alloc, "bad case");
    }
    let (rows, _proof) = mmcs.open_batch(alloc, index, &data)?.unpack();
    let mut out = String::new(alloc);
    push_rows(&mut out, alloc, &rows)?;
    let row = committed_and_opened(alloc, mmcs, matrix, index, claimed)?;
    push_rows(&mut out, alloc, &row.opening.opened_values)?;
    push_word(&mut out, row.accepted)?;
    Ok(out)
}

/// The verifier's answer to rows of a commitment that a case lists: after the place and the dimensions a row and a column for each
/// matrix. The rows go through a copy of a borrowed opening, or for `together` to the call for several places.
pub fn given(
    alloc: Global,
    call: &str,
    lists: &[Vec<usize>],
) -> Result<String, PcsFailure<PlainMmcsError>> {
    let [places, shape, pairs @ ..] = lists else {
        return Ok(String::from_str(alloc, "bad case")?);
    };
    let mut rows = Vec::new(alloc);
    let mut commitment = Vec::new(alloc);
    for (number, list) in pairs.iter().enumerate() {
        let values = values_of::<BabyBear>(alloc, list)?;
        if number % 2 == 0 {
            rows.push(values)?;
        } else {
            commitment.push(RowMajorMatrix::new_col(values))?;
        }
    }
    let shape = dimensions_of(alloc, shape)?;
    let mut out = String::new(alloc);
    push_rows(&mut out, alloc, &rows)?;
    if call == "together" {
        let rows = vec![in alloc; rows]?;
        PlainMmcs.verify_multi_batch(alloc, &commitment, &shape, places, &rows, &PlainMmcsProof)?;
        return Ok(out);
    }
    let opening = BatchOpening::<BabyBear, PlainMmcs>::new(rows, PlainMmcsProof);
    let borrowed: BatchOpeningRef<'_, BabyBear, PlainMmcs> = (&opening).into();
    let (rows, proof) = borrowed.clone()?.unpack();
    let opening = BatchOpeningRef::new(rows, proof);
    PlainMmcs.verify_batch(alloc, &commitment, &shape, number(places, 0), opening)?;
    Ok(out)
}
