//! The rows of a table, off the polynomials of its columns.
ghost use Rattle.std.specs.Prelude.{◌≡◌, ℕ, ◌+◌, ◌<◌, ◌≤◌, ◌^◌, ◌++◌, IfOk, OnOk, length, map};
ghost use Rattle.p3_matrix.specs.Matrix.{height};
ghost use Rattle.law_soundness.specs.Commitment.{matrix_at};
ghost use Rattle.tool_hash_lines.specs.Columns.{polynomial_cells_at};
ghost use Rattle.tool_balance.specs.Rows.{AreRowsOf, HasRowsOf};

use p3_dft::polynomial_value;
use p3_field::{BabyBear, FieldCore, Mem, RingCore};
use p3_matrix::RowMajorMatrix;
use plain_pcs::PlainCommitment;
use std::alloc::Global;
use tool_hash_lines::{committed_columns, trace_domain};

// Appends the cells of a row: the values of the columns' polynomials at a point. On an error a part may stand.
fn push_cells(cells: &mut Vec<BabyBear>, polynomials: &[Vec<BabyBear>], point: BabyBear) -> Mem<()>
    ensures { OnOk result (cells.new.items ≡ cells.old.items
        ++ polynomial_cells_at (map (λ f. f.items) polynomials.now) point) }
{
    for polynomial in polynomials {
        cells.push(polynomial_value(polynomial, point))?;
    }
    Ok(())
}

// The 2^`k` rows of a table, whose columns have these polynomials.
fn rows_of(alloc: Global, polynomials: &[Vec<BabyBear>], k: usize) -> Mem<RowMajorMatrix<BabyBear>>
    requires wide { 0 < length polynomials.now }
    requires high { k ≤ 27 }
    ensures { IfOk result (λ m. HasRowsOf k (map (λ f. f.items) polynomials.now) m) }
{
    let domain = trace_domain(k);
    let mut cells = Vec::new(alloc);
    for row in 0..domain.size() {
        push_cells(&mut cells, polynomials, domain.point(row))?;
    }
    Ok(RowMajorMatrix::new(cells, polynomials.len()))
}

/// The 2^`k` rows of a table that is committed to by a matrix of twice as many, which has columns. The only error is running out of memory.
pub(crate) fn committed_rows(
    alloc: Global,
    commitment: &PlainCommitment<BabyBear>,
    matrix: usize,
    k: usize,
) -> Mem<RowMajorMatrix<BabyBear>>
    requires exists { matrix < length commitment.now.matrices }
    requires fits { k + 1 ≤ 27 }
    requires high { height (matrix_at commitment.now matrix) ≡ 2 ^ (k + 1) }
    requires wide { 0 < (matrix_at commitment.now matrix).width }
    ensures { IfOk result (λ m. AreRowsOf k commitment.now matrix m) }
{
    let polynomials = committed_columns(alloc, commitment, matrix)?;
    rows_of(alloc, &polynomials, k)
}
