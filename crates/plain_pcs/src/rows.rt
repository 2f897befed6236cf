//! Rows of matrices of different heights, and tests of what is claimed of them.
ghost use Rattle.std.specs.Prelude.{◌≡◌, ℕ, ◌/◌, ◌<◌, ◌≤◌, ◌↔◌, List, length, map, All, IfOk, IsTrue, MatchOption};
ghost use Rattle.std.specs.Int.{IsPowerOfTwo};
ghost use Rattle.p3_matrix.specs.Matrix.{Rows, height, row_at};
ghost use Rattle.commit_core.specs.Periodic.{IsGreatest, EachFrom};
ghost use Rattle.commit_rows.specs.Batches.{lists, row_in, IsRowOf, AreRowsAt, HaveWidths};
ghost use Rattle.plain_pcs.specs.PlainMmcs.{AreDimensions, IsRowByEq, AreTheRows};

use commit_rows::greatest_height;
use p3_field::Mem;
use p3_matrix::{Dimensions, RowMajorMatrix, is_power_of_two};
use std::alloc::Global;

// The height of the highest of at least one matrix.
fn most_rows<T>(matrices: &[RowMajorMatrix<T>]) -> usize
    requires { 0 < length matrices.now }
    ensures { IsGreatest (map (λ m. height m) matrices.now) result }
{
    greatest_height(matrices).unwrap()
}

/// Whether this is the number of a row of the highest matrix.
pub(crate) fn is_row<T>(matrices: &[RowMajorMatrix<T>], index: usize) -> bool
    ensures { IsTrue result ↔ IsRowOf matrices.now index }
{
    match greatest_height(matrices) {
        Some(most) => index < most,
        None => false,
    }
}

// The row of a matrix that belongs to a row of the highest one, which has `most` rows.
fn row_of<T>(matrix: &RowMajorMatrix<T>, most: usize, index: usize) -> &[T]
    requires power { IsPowerOfTwo (height matrix.now) }
    requires most_power { IsPowerOfTwo most }
    requires not_more { height matrix.now ≤ most }
    requires row { index < most }
    ensures values { result.now ≡ row_at matrix.now (row_in most (height matrix.now) index) }
    ensures len { length result.now ≡ matrix.now.width }
{
    matrix.row(index / (most / matrix.height()))
}

// Of each matrix the row that belongs to a row of the highest.
fn rows_of<T: Copy>(
    alloc: Global,
    matrices: &[RowMajorMatrix<T>],
    most: usize,
    index: usize,
) -> Mem<Vec<Vec<T>>>
    requires powers { All (λ m. IsPowerOfTwo (height m)) matrices.now }
    requires greatest { IsGreatest (map (λ m. height m) matrices.now) most }
    requires row { index < most }
    ensures values { IfOk result
        (λ v. lists v.items ≡ map (λ m. row_at m (row_in most (height m) index)) matrices.now) }
    ensures widths { IfOk result
        (λ v. map (λ row. length row) (lists v.items) ≡ map (λ m. m.width) matrices.now) }
{
    let mut rows = Vec::with_capacity(alloc, matrices.len())?;
    for m in matrices {
        rows.push(Vec::from_slice(alloc, row_of(m, most, index))?)?;
    }
    Ok(rows)
}

/// Of each matrix the row that belongs to a row of the highest, found out here.
pub(crate) fn opened_rows<T: Copy>(
    alloc: Global,
    matrices: &[RowMajorMatrix<T>],
    index: usize,
) -> Mem<Vec<Vec<T>>>
    requires powers { All (λ m. IsPowerOfTwo (height m)) matrices.now }
    requires place { IsRowOf matrices.now index }
    ensures values { IfOk result (λ v. AreRowsAt matrices.now index (lists v.items)) }
    ensures widths { IfOk result
        (λ v. map (λ row. length row) (lists v.items) ≡ map (λ m. m.width) matrices.now) }
{
    let most = most_rows(matrices);
    rows_of(alloc, matrices, most, index)
}

// Whether these are the matrix's width and height, and the height is a power of two.
fn is_size<T>(matrix: &RowMajorMatrix<T>, size: Dimensions) -> bool
    ensures { IsTrue result ↔ ((size
        ≡ record { width = matrix.now.width; height = height matrix.now })
        × IsPowerOfTwo (height matrix.now)) }
{
    size.width == matrix.width() && size.height == matrix.height() && is_power_of_two(size.height)
}

/// Whether these are the matrices' widths and heights, and the heights are powers of two.
pub(crate) fn are_dimensions<T>(matrices: &[RowMajorMatrix<T>], dimensions: &[Dimensions]) -> bool
    ensures { IsTrue result ↔ AreDimensions matrices.now dimensions.now }
{
    if dimensions.len() != matrices.len() {
        return false;
    }
    for (i, matrix) in matrices.iter().enumerate() {
        if !is_size(matrix, dimensions[i]) {
            return false;
        }
    }
    true
}

/// Whether there is a row for each of the dimensions, as long as they say.
pub(crate) fn have_widths<T>(dimensions: &[Dimensions], rows: &[Vec<T>]) -> bool
    ensures { IsTrue result ↔ HaveWidths dimensions.now (lists rows.now) }
{
    if rows.len() != dimensions.len() {
        return false;
    }
    for (i, row) in rows.iter().enumerate() {
        if row.len() != dimensions[i].width {
            return false;
        }
    }
    true
}

// Whether the rows are those that belong to a row of the highest matrix.
fn are_rows<T: Copy + Eq>(
    matrices: &[RowMajorMatrix<T>],
    most: usize,
    index: usize,
    rows: &[Vec<T>],
) -> bool
    requires powers { All (λ m. IsPowerOfTwo (height m)) matrices.now }
    requires greatest { IsGreatest (map (λ m. height m) matrices.now) most }
    requires row { index < most }
    requires count { length rows.now ≡ length matrices.now }
    ensures { IsTrue result ↔ EachFrom matrices.now (lists rows.now)
        (λ m row. IsRowByEq T.eq (row_in most (height m) index) m row) }
{
    for (i, matrix) in matrices.iter().enumerate() {
        if rows[i].as_slice() != row_of(matrix, most, index) {
            return false;
        }
    }
    true
}

/// Whether the rows are those that belong to a row of the highest matrix, found out here.
pub(crate) fn are_the_rows<T: Copy + Eq>(
    matrices: &[RowMajorMatrix<T>],
    index: usize,
    rows: &[Vec<T>],
) -> bool
    requires powers { All (λ m. IsPowerOfTwo (height m)) matrices.now }
    requires place { IsRowOf matrices.now index }
    requires count { length rows.now ≡ length matrices.now }
    ensures { IsTrue result ↔ AreTheRows T.eq matrices.now index (lists rows.now) }
{
    let most = most_rows(matrices);
    are_rows(matrices, most, index, rows)
}
