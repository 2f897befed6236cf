//! The check of a table's constraints, those of its lookups among them, on its rows.
ghost use Rattle.std.specs.Prelude.{◌≡◌, ◌+◌, ◌*◌, ◌%◌, ◌<◌, List, length, IfOk, All, IfSome, IsTrue, ◌↔◌};
ghost use Rattle.std.specs.Option.{option_map};
ghost use Rattle.p3_matrix.specs.Matrix.{height};
ghost use Rattle.air_core.specs.Shape.{width_of};
ghost use Rattle.air_core.specs.Check.{table_traces, AreNonzero, periodic_row};
ghost use Rattle.p3_lookup.specs.Written.{read, read_all};
ghost use Rattle.batch_constraints.specs.BatchTrees.{AreLookupsOf};
ghost use Rattle.batch_check.specs.BatchCheck.{checked_table, batch_row, batch_values, columns_row, IsBatchChecked};
ghost use Rattle.batch_check.specs.declared.check.CheckFailure.TheVariants.{OutOfMemory};

use air_check::{DebugConstraintBuilder, has_height, nonzero_places, periodic_at};
use air_core::{Air, BaseAir, RowValues, preprocessed_at};
use p3_field::{ExtensionField, Field, FieldCore, Mem, RingCore};
use p3_lookup::{Lookup, LookupProtocol};
use p3_matrix::RowMajorMatrix;
use std::alloc::{AllocError, Global};
use thiserror::Error;

/// Why a table with lookups doesn't meet its constraints, or couldn't be checked (not in Plonky3).
#[derive(Debug, Drop, Error)]
pub enum CheckFailure {
    /// The preprocessed trace hasn't the height of the main trace.
    #[error("the preprocessed trace hasn't the height of the main trace")]
    PreprocessedHeight,
    /// There are lookups, and their permutation columns haven't the height of the main trace.
    #[error("the permutation trace hasn't the height of the main trace")]
    PermutationHeight,
    /// In the row of this number, the first such one, the constraints at these places aren't zero. Rows and places
    /// are numbered from 0, places in the order in which the constraints are asserted.
    #[error("in row {row} the constraints {places:?} aren't zero")]
    Failing {
        /// The row.
        row: usize,
        /// The places of the constraints that aren't zero there, in order.
        places: Vec<usize>,
    },
    /// Out of memory.
    #[error("out of memory")]
    OutOfMemory,
}

impl From<AllocError> for CheckFailure {
    ghost from_gives = { λ _ e. e ≡ OutOfMemory };

    fn from(_error: AllocError) -> CheckFailure {
        CheckFailure::OutOfMemory
    }
}

// A row of the permutation columns, empty where there are no lookups.
fn columns_at<'a, EF>(num_lookups: usize, columns: &'a RowMajorMatrix<EF>, row: usize) -> &'a [EF]
    requires { 0 < num_lookups → row < height columns.now }
    ensures values { result.now ≡ columns_row num_lookups columns.now row }
    ensures len { 0 < num_lookups → length result.now ≡ columns.now.width }
    ensures none { num_lookups ≡ 0 → length result.now ≡ 0 }
{
    if num_lookups == 0 {
        &[]
    } else {
        columns.row(row)
    }
}

// Whether the permutation columns, where there are lookups, have so many rows.
fn have_height<EF>(num_lookups: usize, columns: &RowMajorMatrix<EF>, rows: usize) -> bool
    ensures { IsTrue result ↔ (0 < num_lookups → height columns.now ≡ rows) }
{
    num_lookups == 0 || columns.height() == rows
}

// What the constraints read at a row.
fn row_of<'a, F: Field, EF: ExtensionField<F>>(
    main: &'a RowMajorMatrix<F>,
    preprocessed: Option<&'a RowMajorMatrix<F>>,
    columns: &'a RowMajorMatrix<EF>,
    challenges: &'a [EF],
    terminals: &'a [EF],
    periodic: &'a [F],
    public_values: &'a [F],
    lookups: &[Lookup<F>],
    row: usize,
) -> RowValues<'a, F, EF>
    requires row { row < height main.now }
    requires preprocessed { IfSome preprocessed (λ m. height m.now ≡ height main.now) }
    requires columns { 0 < length lookups.now → height columns.now ≡ height main.now }
    ensures main { length result.main_local ≡ main.now.width }
    ensures preprocessed { length result.preprocessed_local
        ≡ width_of (option_map (λ m. m.now) preprocessed.entry) }
    ensures periodic { result.periodic ≡ periodic.now }
    ensures public { result.public_values ≡ public_values.now }
    ensures columns { 0 < length lookups.now → length result.permutation_local ≡ columns.now.width }
    ensures challenges { result.challenges ≡ challenges.now }
    ensures terminals { result.terminals ≡ terminals.now }
    ensures row { (periods : List (List F)) → periodic.now ≡ periodic_row F.ring.zero periods row
        → result ≡ batch_row F.ring.zero
        (checked_table (table_traces main.now (option_map (λ m. m.now) preprocessed.entry) periods
        public_values.now) (read_all lookups.now) columns.now challenges.now terminals.now) row }
{
    let height = main.height();
    let next = (row + 1) % height;
    RowValues {
        main_local: main.row(row),
        main_next: main.row(next),
        preprocessed_local: preprocessed_at(preprocessed, row),
        preprocessed_next: preprocessed_at(preprocessed, next),
        periodic,
        public_values,
        is_first_row: row == 0,
        is_last_row: row + 1 == height,
        permutation_local: columns_at(lookups.len(), columns, row),
        permutation_next: columns_at(lookups.len(), columns, next),
        challenges,
        terminals,
    }
}

// The places of the constraints that aren't zero in a row.
fn failing_places<F: Field, EF: ExtensionField<F>, A: Air<F>, LG: LookupProtocol>(
    alloc: Global,
    air: &A,
    main: &RowMajorMatrix<F>,
    preprocessed: Option<&RowMajorMatrix<F>>,
    columns: &RowMajorMatrix<EF>,
    challenges: &[EF],
    terminals: &[EF],
    public_values: &[F],
    lookups: &[Lookup<F>],
    lookup_gadget: &LG,
    row: usize,
) -> Mem<Vec<usize>>
    requires row { row < height main.now }
    requires width { main.now.width ≡ (A.declaration air.now).width }
    requires preprocessed { IfSome preprocessed (λ m. height m.now ≡ height main.now) }
    requires preprocessed_width { width_of (option_map (λ m. m.now) preprocessed)
        ≡ width_of (A.declaration air.now).preprocessed }
    requires public { length public_values.now ≡ (A.declaration air.now).public_values }
    requires periodic { All (λ c. 0 < length c) (A.declaration air.now).periodic }
    requires lookups { AreLookupsOf (A.declaration air.now) (read_all lookups.now) }
    requires columns { 0 < length lookups.now → height columns.now ≡ height main.now }
    requires columns_width { 0 < length lookups.now → columns.now.width ≡ length lookups.now + 1 }
    requires challenges { length challenges.now ≡ 2 * length lookups.now }
    requires terminals { 0 < length lookups.now → length terminals.now ≡ 1 }
    ensures { let table = checked_table
        (table_traces main.now (option_map (λ m. m.now) preprocessed.entry)
        (A.declaration air.now).periodic public_values.now)
        (read_all lookups.now) columns.now challenges.now terminals.now in
        IfOk result (λ v. AreNonzero EF.ring
        (batch_values F.ring EF.ring EF.embed table (A.trees air.now) row) v.items) }
{
    let periodic = periodic_at(alloc, air.periodic_columns(), row)?;
    let values = row_of(
        main,
        preprocessed,
        columns,
        challenges,
        terminals,
        &periodic,
        public_values,
        lookups,
        row,
    );
    let mut builder = DebugConstraintBuilder::<F, EF>::new(alloc, values);
    lookup_gadget.eval_air_and_lookups(air, &mut builder, lookups)?;
    nonzero_places(alloc, builder.values())
}

/// Checks each constraint of a table, those of its lookups among them, on each row of its traces (`check_constraints` of
/// `p3-batch-stark`).
///
/// There is at least one row. The traces have the AIR's declared widths, and there are as many public values as it
/// declares. No periodic column is empty: row i reads it at i modulo its length. The row after the last is the first. The
/// lookups read only what the AIR may send. Where there are lookups, the permutation trace has a column for the running
/// sum and one for each lookup, there are two challenges for each, and one terminal. Without lookups no permutation column
/// is read.
///
/// The answer is `PreprocessedHeight` exactly where the preprocessed trace hasn't the main trace's height. Else it is
/// `PermutationHeight` exactly where there is a lookup and the permutation trace hasn't that height. Else it is `Failing`
/// for the first row with a constraint that isn't zero, with the places of all such constraints there, and Ok exactly
/// where there is no such row. `OutOfMemory` may come in place of any of these two, and never in place of the first two.
pub fn check_constraints<F: Field, EF: ExtensionField<F>, A: Air<F>, LG: LookupProtocol>(
    alloc: Global,
    air: &A,
    main: &RowMajorMatrix<F>,
    preprocessed: Option<&RowMajorMatrix<F>>,
    permutation: &RowMajorMatrix<EF>,
    permutation_challenges: &[EF],
    permutation_values: &[EF],
    public_values: &[F],
    lookups: &[Lookup<F>],
    lookup_gadget: &LG,
) -> Result<(), CheckFailure>
    requires rows { 0 < height main.now }
    requires width { main.now.width ≡ (A.declaration air.now).width }
    requires preprocessed_width { width_of (option_map (λ m. m.now) preprocessed)
        ≡ width_of (A.declaration air.now).preprocessed }
    requires public { length public_values.now ≡ (A.declaration air.now).public_values }
    requires periodic { All (λ c. 0 < length c) (A.declaration air.now).periodic }
    requires lookups { AreLookupsOf (A.declaration air.now) (read_all lookups.now) }
    requires permutation_width { 0 < length lookups.now
        → permutation.now.width ≡ length lookups.now + 1 }
    requires challenges { length permutation_challenges.now ≡ 2 * length lookups.now }
    requires terminals { 0 < length lookups.now → length permutation_values.now ≡ 1 }
    ensures { let table = checked_table
        (table_traces main.now (option_map (λ m. m.now) preprocessed.entry)
        (A.declaration air.now).periodic public_values.now)
        (read_all lookups.now) permutation.now permutation_challenges.now permutation_values.now in
        IsBatchChecked F.ring EF.ring EF.embed table (A.trees air.now) result }
{
    let height = main.height();
    if !has_height(preprocessed, height) {
        return Err(CheckFailure::PreprocessedHeight);
    }
    if !have_height(lookups.len(), permutation, height) {
        return Err(CheckFailure::PermutationHeight);
    }
    for row in 0..height {
        let places = failing_places(
            alloc,
            air,
            main,
            preprocessed,
            permutation,
            permutation_challenges,
            permutation_values,
            public_values,
            lookups,
            lookup_gadget,
            row,
        )?;
        if !places.is_empty() {
            return Err(CheckFailure::Failing { row, places });
        }
    }
    Ok(())
}
