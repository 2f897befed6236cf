//! Tables of periodic columns' values on a larger domain, and what computes them.
ghost use Rattle.std.specs.Prelude.{◌≡◌, ℕ, ◌+◌, ◌*◌, ◌/◌, ◌%◌, ◌<◌, ◌≤◌, ◌↔◌, length, map, List, [], IsTrue, IfOk};
ghost use Rattle.std.specs.Int.{IsGcd};
ghost use Rattle.p3_matrix.specs.Matrix.{Rows, height, cell_at};
ghost use Rattle.commit_core.specs.Periodic.{IsTableHeight};

use p3_matrix::RowMajorMatrix;
use std::alloc::Global;
use std::marker::Model;

/// The values of periodic columns on a larger domain, a column for each. They repeat, so a table holds the first
/// rows alone, and any row is read at its number modulo the height. That is a power of two, or zero for a table
/// without columns (`PeriodicLdeTable` of `p3-commit`). A contract sees the table as the matrix of its values.
#[derive(Drop)]
pub struct PeriodicLdeTable<F> {
    values: RowMajorMatrix<F>,
}

impl<F> Model for PeriodicLdeTable<F> {
    ghost Value = { Rows F };

    ghost view = { λ t. t.values };

    ghost invariant = { λ t. IsTableHeight (height t.values) };
}

impl<F> PeriodicLdeTable<F> {
    /// The table of these values, whose height is a power of two or zero.
    pub fn new(values: RowMajorMatrix<F>) -> Self
        requires { IsTableHeight (height values) }
        ensures { result ≡ values }
    {
        PeriodicLdeTable { values }
    }

    /// The table of no column.
    pub fn empty(alloc: Global) -> Self
        ensures { result ≡ record { values = []; width = 0 } }
    {
        PeriodicLdeTable {
            values: RowMajorMatrix::new(Vec::new(alloc), 0),
        }
    }

    /// Whether there is no row.
    pub fn is_empty(&self) -> bool
        ensures { IsTrue result ↔ (height self.now ≡ 0) }
    {
        self.values.height() == 0
    }

    /// How many columns there are.
    pub fn width(&self) -> usize
        ensures { result ≡ self.now.width }
    {
        self.values.width()
    }

    /// How many rows there are: a power of two, or zero.
    pub fn height(&self) -> usize
        ensures result { result ≡ height self.now }
        ensures power { IsTableHeight (height self.now) }
    {
        self.values.height()
    }

    /// After how many groups of `pack_width` rows the groups repeat, counted in groups and not in rows: the height over its
    /// greatest common divisor with `pack_width`, and so 0 for an empty table. `pack_width` must not be 0.
    pub fn packed_group_period(&self, pack_width: usize) -> usize
        requires { 0 < pack_width }
        ensures { (g : ℕ) × IsGcd (height self.now) pack_width g × (result ≡ height self.now / g) }
    {
        let height = self.values.height();
        height / greatest_common_divisor(height, pack_width)
    }

    /// The value of column `col_idx` at row `lde_idx`, which may be past the last: it is taken modulo the height. The table
    /// must have a row, and `col_idx` be below its width.
    pub fn get(&self, lde_idx: usize, col_idx: usize) -> &F
        requires filled { 0 < height self.now }
        requires column { col_idx < self.now.width }
        ensures { (d : F) → cell_at d self.now (lde_idx % height self.now) col_idx ≡ result.now }
    {
        let row = lde_idx % self.values.height();
        cell(&self.values, row, col_idx)
    }
}

// Euclid's algorithm.
fn greatest_common_divisor(a: usize, b: usize) -> usize
    ensures { IsGcd a b result }
{
    let mut x = a;
    let mut y = b;
    while y != 0 {
        let rest = x % y;
        x = y;
        y = rest;
    }
    x
}

// A cell of a matrix.
fn cell<F>(m: &RowMajorMatrix<F>, row: usize, column: usize) -> &F
    requires row { row < height m.now }
    requires column { column < m.now.width }
    ensures { (d : F) → cell_at d m.now row column ≡ result.now }
{
    &m.values[row * m.width + column]
}
