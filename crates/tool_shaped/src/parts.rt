//! Whether a trace has the columns and the rows that its AIR declares, part by part.
ghost use Rattle.std.specs.Int.{IsPowerOfTwo};
ghost use Rattle.std.specs.Prelude.{◌≡◌, ◌↔◌, All, IfOk, IsTrue, length};
ghost use Rattle.air_core.specs.Check.{HasHeight};
ghost use Rattle.commit_core.specs.Periodic.{IsPeriod};
ghost use Rattle.batch_setup.specs.Setup.{log_of};
ghost use Rattle.tool_shaped.specs.Parts.{HasSizes, IsHeightWithin};

use air_check::has_height;
use air_core::BaseAir;
use commit_core::PeriodicColumns;
use p3_field::{FieldCore, Mem};
use p3_matrix::{RowMajorMatrix, is_power_of_two, log2_strict_usize};
use std::alloc::Global;

// Whether there are as many columns as the AIR declares, at least one, and as many public values.
pub(crate) fn has_sizes<F: FieldCore, A: BaseAir<F>>(
    air: &A,
    trace: &RowMajorMatrix<F>,
    public_values: &[F],
) -> bool
    ensures { IsTrue result ↔ HasSizes (A.declaration air.now) trace.now.width
        (length public_values.now) }
{
    let width = air.width();
    trace.width() == width && width > 0 && public_values.len() == air.num_public_values()
}

// The logarithm of a power of two.
pub(crate) fn log_of_rows(rows: usize) -> usize
    requires { IsPowerOfTwo rows }
    ensures { result ≡ log_of rows }
{
    log2_strict_usize(rows)
}

// Whether so many rows are a power of two, whose logarithm lies within these bounds.
pub(crate) fn is_height(rows: usize, least: usize, most: usize) -> bool
    ensures { IsTrue result ↔ IsHeightWithin least most rows }
{
    if !is_power_of_two(rows) {
        return false;
    }
    let log = log_of_rows(rows);
    least <= log && log <= most
}

// Whether each periodic column can be laid over so many rows.
pub(crate) fn have_periods<F: FieldCore, A: BaseAir<F>>(air: &A, rows: usize) -> bool
    ensures { IsTrue result
        ↔ All (λ column. IsPeriod rows (length column)) (A.declaration air.now).periodic }
{
    match PeriodicColumns::new(air.periodic_columns(), rows) {
        Ok(_) => true,
        Err(_) => false,
    }
}

// Whether the preprocessed trace, where there is one, has so many rows.
pub(crate) fn is_prepared<F: FieldCore, A: BaseAir<F>>(
    alloc: Global,
    air: &A,
    rows: usize,
) -> Mem<bool>
    ensures { IfOk result (λ b. IsTrue b ↔ HasHeight (A.declaration air.now).preprocessed rows) }
{
    let trace = air.preprocessed_trace(alloc)?;
    Ok(has_height(trace.as_ref(), rows))
}
