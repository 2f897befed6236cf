//! The values of the base field's cells at one place.
ghost use Rattle.std.specs.Prelude.{◌≡◌};
ghost use Rattle.air_core.specs.Shape.{Declares};
ghost use Rattle.air_core.specs.PointValues.{PointValues, point_cell, point_shape};

use crate::cells::Cell;
use p3_field::{ExtensionField, Field, FieldCore, RingCore};
use std::marker::Model;

/// The values of the base field's cells at one place, be it a row or a point above the field: those of columns and
/// selectors in `E`, and public values in `F` (not in Plonky3). The builders that read values all read them here.
/// A contract sees it as the record `PointValues`.
#[derive(Drop)]
pub struct BaseCells<'a, F, E> {
    /// The main columns' values, one for each column.
    pub main_local: &'a [E],
    /// The main columns' values in the next row or at the next point.
    pub main_next: &'a [E],
    /// The preprocessed columns' values, one for each column.
    pub preprocessed_local: &'a [E],
    /// The preprocessed columns' values in the next row or at the next point.
    pub preprocessed_next: &'a [E],
    /// The periodic columns' values, one for each column.
    pub periodic: &'a [E],
    /// The public values.
    pub public_values: &'a [F],
    /// The value of the selector of the first row.
    pub first_row: E,
    /// The value of the selector of the last row.
    pub last_row: E,
    /// The value of the selector of all rows but the last.
    pub transition: E,
}

impl<'a, F, E> Model for BaseCells<'a, F, E> {
    ghost use Rattle.air_core.specs.PointValues.{PointValues};

    ghost Value = { PointValues F E };

    ghost view = { λ c. record {
      main_local = c.main_local.now;
      main_next = c.main_next.now;
      preprocessed_local = c.preprocessed_local.now;
      preprocessed_next = c.preprocessed_next.now;
      periodic = c.periodic.now;
      public = c.public_values.now;
      first_row = c.first_row;
      last_row = c.last_row;
      transition = c.transition;
    } };
}

impl<'a, F: Field, E: ExtensionField<F>> BaseCells<'a, F, E> {
    /// The value of a cell that is there.
    #[inline]
    pub fn cell(&self, c: Cell) -> E
        requires { Declares (point_shape self.now) c }
        ensures { result ≡ point_cell E.ring.zero E.embed self.now c }
    {
        match c {
            Cell::Main { next: true, column } => self.main_next[column],
            Cell::Main {
                next: false,
                column,
            } => self.main_local[column],
            Cell::Preprocessed { next: true, column } => self.preprocessed_next[column],
            Cell::Preprocessed {
                next: false,
                column,
            } => self.preprocessed_local[column],
            Cell::Periodic(column) => self.periodic[column],
            Cell::Public(n) => E::from_base(self.public_values[n]),
            Cell::FirstRow => self.first_row,
            Cell::LastRow => self.last_row,
            Cell::Transition => self.transition,
        }
    }
}
