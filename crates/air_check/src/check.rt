//! The check of constraints on a table's rows.
ghost use Rattle.std.specs.Prelude.{◌≡◌, ◌+◌, ◌%◌, ◌<◌, [], length, IfOk, All, IfSome};
ghost use Rattle.std.specs.Option.{option_map};
ghost use Rattle.p3_matrix.specs.Matrix.{height};
ghost use Rattle.air_core.specs.Shape.{width_of};
ghost use Rattle.air_core.specs.Check.{table_traces, AreNonzero, row_values};
ghost use Rattle.air_check.specs.Checked.{IsChecked};
ghost use Rattle.air_check.specs.declared.check.CheckFailure.TheVariants.{OutOfMemory};

use crate::debug::DebugConstraintBuilder;
use crate::rows::{has_height, nonzero_places, periodic_at};
use air_core::{Air, RowValues, preprocessed_at};
use p3_field::{Field, FieldCore, Mem, RingCore};
use p3_matrix::RowMajorMatrix;
use std::alloc::{AllocError, Global};
use thiserror::Error;

/// Why a table doesn't meet its constraints, or couldn't be checked (not in Plonky3).
#[derive(Debug, Drop, Error)]
pub enum CheckFailure {
    /// The preprocessed trace hasn't the height of the main trace.
    #[error("the preprocessed trace hasn't the height of the main trace")]
    PreprocessedHeight,
    /// In the row of this number, the first such one, the constraints at these places aren't zero. Rows and places
    /// are numbered from 0, places in the order in which the constraints are asserted.
    #[error("in row {row} the constraints {places:?} aren't zero")]
    Failing {
        /// The row.
        row: usize,
        /// The places of the constraints that aren't zero there, in order.
        places: Vec<usize>,
    },
    /// Out of memory.
    #[error("out of memory")]
    OutOfMemory,
}

impl From<AllocError> for CheckFailure {
    ghost from_gives = { λ _ e. e ≡ OutOfMemory };

    fn from(_error: AllocError) -> CheckFailure {
        CheckFailure::OutOfMemory
    }
}

// The places of the constraints that aren't zero in a row.
fn failing_places<F: Field, A: Air<F>>(
    alloc: Global,
    air: &A,
    main: &RowMajorMatrix<F>,
    preprocessed: Option<&RowMajorMatrix<F>>,
    public_values: &[F],
    row: usize,
) -> Mem<Vec<usize>>
    requires row { row < height main.now }
    requires width { main.now.width ≡ (A.declaration air.now).width }
    requires preprocessed { IfSome preprocessed (λ m. height m.now ≡ height main.now) }
    requires preprocessed_width { width_of (option_map (λ m. m.now) preprocessed)
        ≡ width_of (A.declaration air.now).preprocessed }
    requires public { length public_values.now ≡ (A.declaration air.now).public_values }
    requires periodic { All (λ c. 0 < length c) (A.declaration air.now).periodic }
    ensures { let table = table_traces main.now (option_map (λ m. m.now) preprocessed.entry)
        (A.declaration air.now).periodic public_values.now in
        IfOk result (λ v. AreNonzero F.ring (row_values F.ring table (A.trees air.now) row)
        v.items) }
{
    let height = main.height();
    let next = (row + 1) % height;
    let periodic = periodic_at(alloc, air.periodic_columns(), row)?;
    let values = RowValues {
        main_local: main.row(row),
        main_next: main.row(next),
        preprocessed_local: preprocessed_at(preprocessed, row),
        preprocessed_next: preprocessed_at(preprocessed, next),
        periodic: &periodic,
        public_values,
        is_first_row: row == 0,
        is_last_row: row + 1 == height,
        permutation_local: &[],
        permutation_next: &[],
        challenges: &[],
        terminals: &[],
    };
    let mut builder = DebugConstraintBuilder::<F, F>::new(alloc, values);
    air.eval(&mut builder)?;
    nonzero_places(alloc, builder.values())
}

/// Checks each constraint of an AIR on each row of its traces (`crate::check_constraints`), without lookups.
///
/// There is at least one row. The traces have the AIR's declared widths, and there are as many public values as it
/// declares. No periodic column is empty: row i reads it at i modulo its length. The row after the last is the first.
///
/// The answer is `PreprocessedHeight` exactly where the preprocessed trace hasn't the main trace's height. Else it is
/// `Failing` for the first row with a constraint that isn't zero, with the places of all such constraints there, and
/// Ok exactly where there is no such row. `OutOfMemory` may come in place of any of these two, and never in place of
/// `PreprocessedHeight`.
pub fn check_constraints<F: Field, A: Air<F>>(
    alloc: Global,
    air: &A,
    main: &RowMajorMatrix<F>,
    preprocessed: Option<&RowMajorMatrix<F>>,
    public_values: &[F],
) -> Result<(), CheckFailure>
    requires rows { 0 < height main.now }
    requires width { main.now.width ≡ (A.declaration air.now).width }
    requires preprocessed_width { width_of (option_map (λ m. m.now) preprocessed)
        ≡ width_of (A.declaration air.now).preprocessed }
    requires public { length public_values.now ≡ (A.declaration air.now).public_values }
    requires periodic { All (λ c. 0 < length c) (A.declaration air.now).periodic }
    ensures { let table = table_traces main.now (option_map (λ m. m.now) preprocessed.entry)
        (A.declaration air.now).periodic public_values.now in
        IsChecked F.ring table (A.trees air.now) result }
{
    let height = main.height();
    if !has_height(preprocessed, height) {
        return Err(CheckFailure::PreprocessedHeight);
    }
    for row in 0..height {
        let places = failing_places(alloc, air, main, preprocessed, public_values, row)?;
        if !places.is_empty() {
            return Err(CheckFailure::Failing { row, places });
        }
    }
    Ok(())
}
