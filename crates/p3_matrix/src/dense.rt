//! A dense matrix in one vector, row after row.
ghost use Rattle.std.specs.Prelude.{◌≡◌, ℕ, ◌+◌, ◌*◌, ◌/◌, ◌<◌, ◌≤◌, ◌↔◌, length, IfSome, IsSome, MatchOption, IfOk};
ghost use Rattle.p3_matrix.specs.Matrix.{Rows, FillsRows, height, row_at, cell_at, column as column_of};

use p3_field::Mem;
use std::alloc::Global;
use std::marker::Model;

/// The numbers of columns and rows of a matrix (`p3_matrix::Dimensions`).
#[derive(Clone, Copy, Debug, PartialEq, Eq)]
pub struct Dimensions {
    /// How many columns there are.
    pub width: usize,
    /// How many rows there are.
    pub height: usize,
}

/// A matrix whose values stand row after row. A matrix of width zero has no values, and any other width divides
/// their number. After Plonky3's `p3_matrix::dense::RowMajorMatrix`.
#[derive(Drop)]
pub struct RowMajorMatrix<F> {
    /// The values, row after row.
    pub values: Vec<F>,
    /// How many values a row has.
    pub width: usize,
}

impl<F> Model for RowMajorMatrix<F> {
    ghost Value = { Rows F };

    ghost view = { λ m. record { values = m.values.items; width = m.width } };

    ghost invariant = { λ m. FillsRows m.values.items m.width };
}

impl<F> RowMajorMatrix<F> {
    /// The matrix with these values, row after row, and `width` values a row.
    pub fn new(values: Vec<F>, width: usize) -> Self
        requires { FillsRows values.items width }
        ensures { result ≡ record { values = values.items; width = width } }
    {
        RowMajorMatrix { values, width }
    }

    /// The matrix with these values as its only column.
    pub fn new_col(values: Vec<F>) -> Self
        ensures { result ≡ record { values = values.items; width = 1 } }
    {
        RowMajorMatrix { values, width: 1 }
    }

    /// How many values a row has.
    pub fn width(&self) -> usize
        ensures { result ≡ self.now.width }
    {
        self.width
    }

    /// How many rows there are: none where the width is zero.
    pub fn height(&self) -> usize
        ensures result { result ≡ height self.now }
        ensures fills { FillsRows self.now.values self.now.width }
    {
        if self.width == 0 {
            0
        } else {
            self.values.len() / self.width
        }
    }

    /// All values, row after row (not in Plonky3).
    pub fn as_slice(&self) -> &[F]
        ensures values { result.now ≡ self.now.values }
        ensures fills { FillsRows self.now.values self.now.width }
    {
        &self.values
    }

    /// The values of a row below the height (not in Plonky3: `row_slice` without the test).
    pub fn row(&self, row: usize) -> &[F]
        requires { row < height self.now }
        ensures values { result.now ≡ row_at self.now row }
        ensures len { length result.now ≡ self.now.width }
    {
        &self.values[row * self.width..row * self.width + self.width]
    }

    /// The values of a row, or `None` out of range.
    pub fn row_slice(&self, row: usize) -> Option<&[F]>
        ensures { MatchOption result (height self.now ≤ row)
            (λ r. (row < height self.now) × (r.now ≡ row_at self.now row)) }
    {
        if row < self.height() {
            Some(&self.values[row * self.width..row * self.width + self.width])
        } else {
            None
        }
    }
}

impl<F: Copy> RowMajorMatrix<F> {
    /// The value in a row and a column, or `None` where either is out of range.
    pub fn get(&self, row: usize, column: usize) -> Option<F>
        ensures some { IsSome result ↔ ((row < height self.now) × (column < self.now.width)) }
        ensures cell { IfSome result (λ x. (d : F) → cell_at d self.now row column ≡ x) }
    {
        if row < self.height() && column < self.width {
            Some(self.values[row * self.width + column])
        } else {
            None
        }
    }

    /// A matrix equal to this one.
    pub fn try_clone(&self, alloc: Global) -> Mem<Self>
        ensures { IfOk result (λ m. m ≡ self.now) }
    {
        let values = Vec::from_slice(alloc, &self.values)?;
        Ok(RowMajorMatrix {
            values,
            width: self.width,
        })
    }

    /// The values of a column below the width, from the first row to the last (not in Plonky3).
    pub fn column(&self, alloc: Global, column: usize) -> Mem<Vec<F>>
        requires { column < self.now.width }
        ensures count { IfOk result (λ v. length v.items ≡ height self.now) }
        ensures values { IfOk result (λ v. (d : F) → v.items ≡ column_of d self.now column) }
    {
        let height = self.height();
        let mut values = Vec::with_capacity(alloc, height)?;
        for row in 0..height {
            values.push(self.values[row * self.width + column])?;
        }
        Ok(values)
    }

    /// The matrix with rows and columns exchanged: from h rows of w columns, w rows of h columns, where cell (j, i) is
    /// cell (i, j) of this one. A matrix without rows gives one of width zero (`p3_matrix::dense::RowMajorMatrix`).
    pub fn transpose(&self, alloc: Global) -> Mem<Self>
        ensures width { IfOk result (λ t. t.width ≡ height self.now) }
        ensures count { IfOk result (λ t. length t.values ≡ length self.now.values) }
        ensures cells { IfOk result
            (λ t. (d : F) (i j : ℕ) → i < height self.now → j < self.now.width
            → cell_at d t j i ≡ cell_at d self.now i j) }
    {
        let height = self.height();
        let mut values = Vec::with_capacity(alloc, self.values.len())?;
        for column in 0..self.width {
            let rows = self.column(alloc, column)?;
            values.extend_from_slice(&rows)?;
        }
        Ok(RowMajorMatrix::new(values, height))
    }
}
