//! The values of the cells at one row.
ghost use Rattle.std.specs.Prelude.{◌≡◌, ℕ, ◌<◌, length, IfSome};
ghost use Rattle.std.specs.Option.{option_map};
ghost use Rattle.p3_matrix.specs.Matrix.{height};
ghost use Rattle.air_core.specs.Check.{preprocessed_row};
ghost use Rattle.air_core.specs.Shape.{Declares, DeclaresExt, width_of};
ghost use Rattle.air_core.specs.RowCheck.{Row, cell_value, ext_cell_value, row_shape};

use crate::base_cells::BaseCells;
use crate::cells::{Cell, ExtCell};
use p3_field::{ExtensionField, Field, FieldCore, PrimeCharacteristicRing, RingCore};
use p3_matrix::RowMajorMatrix;
use std::marker::Model;

/// The values of the cells at one row (not in Plonky3). A contract sees them as the record `Row`.
#[derive(Drop)]
pub struct RowValues<'a, F, EF> {
    /// The current row of the main trace, one value for each column.
    pub main_local: &'a [F],
    /// The next row of the main trace, one value for each column.
    pub main_next: &'a [F],
    /// The current row of the preprocessed trace, one value for each column.
    pub preprocessed_local: &'a [F],
    /// The next row of the preprocessed trace, one value for each column.
    pub preprocessed_next: &'a [F],
    /// The periodic columns' values at this row, one for each column.
    pub periodic: &'a [F],
    /// The public values.
    pub public_values: &'a [F],
    /// Whether this is the first row.
    pub is_first_row: bool,
    /// Whether this is the last row.
    pub is_last_row: bool,
    /// The current row of the permutation trace, one value for each column.
    pub permutation_local: &'a [EF],
    /// The next row of the permutation trace, one value for each column.
    pub permutation_next: &'a [EF],
    /// The challenges of the lookups.
    pub challenges: &'a [EF],
    /// The terminals of the lookups: none or one.
    pub terminals: &'a [EF],
}

impl<'a, F, EF> Model for RowValues<'a, F, EF> {
    ghost use Rattle.air_core.specs.RowCheck.{Row, HasRowsOfOneWidth};

    ghost Value = { Row F EF };

    ghost view = { λ r. record {
      main_local = r.main_local.now;
      main_next = r.main_next.now;
      preprocessed_local = r.preprocessed_local.now;
      preprocessed_next = r.preprocessed_next.now;
      periodic = r.periodic.now;
      public_values = r.public_values.now;
      is_first_row = r.is_first_row;
      is_last_row = r.is_last_row;
      permutation_local = r.permutation_local.now;
      permutation_next = r.permutation_next.now;
      challenges = r.challenges.now;
      terminals = r.terminals.now;
    } };

    ghost invariant = { λ r. HasRowsOfOneWidth
        (record {
          main_local = r.main_local.now;
          main_next = r.main_next.now;
          preprocessed_local = r.preprocessed_local.now;
          preprocessed_next = r.preprocessed_next.now;
          periodic = r.periodic.now;
          public_values = r.public_values.now;
          is_first_row = r.is_first_row;
          is_last_row = r.is_last_row;
          permutation_local = r.permutation_local.now;
          permutation_next = r.permutation_next.now;
          challenges = r.challenges.now;
          terminals = r.terminals.now;
        }) };
}

impl<'a, F: Field, EF: ExtensionField<F>> RowValues<'a, F, EF> {
    /// The value of a declared cell. The selectors are zero or one.
    pub fn cell(&self, c: Cell) -> F
        requires { Declares (row_shape self.now) c }
        ensures { result ≡ cell_value F.ring self.now c }
    {
        let cells = BaseCells {
            main_local: self.main_local,
            main_next: self.main_next,
            preprocessed_local: self.preprocessed_local,
            preprocessed_next: self.preprocessed_next,
            periodic: self.periodic,
            public_values: self.public_values,
            first_row: F::from_bool(self.is_first_row),
            last_row: F::from_bool(self.is_last_row),
            transition: F::from_bool(!self.is_last_row),
        };
        cells.cell(c)
    }

    /// The value of a declared cell of the extension.
    pub fn ext_cell(&self, c: ExtCell) -> EF
        requires { DeclaresExt (row_shape self.now) c }
        ensures { result ≡ ext_cell_value EF.ring.zero self.now c }
    {
        match c {
            ExtCell::Permutation { next: true, column } => self.permutation_next[column],
            ExtCell::Permutation {
                next: false,
                column,
            } => self.permutation_local[column],
            ExtCell::Challenge(n) => self.challenges[n],
            ExtCell::Terminal => self.terminals[0],
        }
    }
}

/// A row of a preprocessed trace: empty where there is none, so that it has as many values as the trace has columns
/// (not in Plonky3; upstream's callers take the row of the optional trace in place).
pub fn preprocessed_at<'a, F>(trace: Option<&'a RowMajorMatrix<F>>, row: usize) -> &'a [F]
    requires { IfSome trace (λ m. row < height m.now) }
    ensures values { result.now ≡ preprocessed_row (option_map (λ m. m.now) trace.entry) row }
    ensures len { length result.now ≡ width_of (option_map (λ m. m.now) trace.entry) }
{
    match trace {
        Some(m) => m.row(row),
        None => &[],
    }
}
