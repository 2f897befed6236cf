//! Tables: what they declare and record, and the check of their rows.
ghost use Rattle.std.specs.Prelude.{◌≡◌, ◌<◌, length, All, IsTrue};
ghost use Rattle.std.specs.Option.{option_map};
ghost use Rattle.air_core.specs.Shape.{width_of};

use crate::printing::{push_values, push_word};
use crate::reading::{Case, bears};
use crate::recorded::push_recorded;
use air_check::check_constraints;
use air_core::{Air, AirLayout, BaseAir, InteractionSymbolicBuilder};
use air_tables::{SwapAir, WheelAir};
use p3_field::{BabyBear, Mem};
use p3_matrix::RowMajorMatrix;
use std::alloc::Global;

/// What a table declares, or the answer to a call of a recording builder after it.
pub fn table<A: Air<BabyBear>>(alloc: Global, out: &mut String, air: &A, case: &Case) -> Mem<()> {
    if case.call == "declared" {
        return declared(alloc, out, air);
    }
    let layout = AirLayout::from_air::<BabyBear, A>(air);
    let mut builder = InteractionSymbolicBuilder::<BabyBear>::new(alloc, layout)?;
    air.eval(&mut builder)?;
    push_recorded(alloc, out, &builder, case)
}

// The width, the columns whose next row is read, of the main trace and of the preprocessed one, the number of constraints,
// the hint on their degree, whether the trace is taken for bits, and the preprocessed values.
fn declared<A: BaseAir<BabyBear>>(alloc: Global, out: &mut String, air: &A) -> Mem<()> {
    let width = AirLayout::from_air::<BabyBear, A>(air).main_width;
    let main = air.main_next_row_columns();
    let preprocessed = air.preprocessed_next_row_columns();
    let (count, degree) = (air.num_constraints(), air.max_constraint_degree());
    let bits = air.assumes_boolean_trace();
    push_word(
        out,
        format_args!("{width} {main:?} {preprocessed:?} {count:?} {degree:?} {bits}"),
    )?;
    match air.preprocessed_trace(alloc)? {
        Some(trace) => push_values(alloc, out, trace.as_slice()),
        None => push_word(out, "none"),
    }
}

/// What the check says of rows of the swap table, or of the wheel's.
pub fn check(alloc: Global, out: &mut String, case: &Case) -> Mem<()> {
    match case.call {
        "swap" => checked(alloc, out, &SwapAir, case),
        "wheel" if case.at[0] < 20 => {
            checked(alloc, out, &WheelAir::new(alloc, case.at[0])?, case)
        }
        _ => push_word(out, "bad case"),
    }
}

// Whether the trace, or none, has so many columns.
fn has_width(trace: Option<&RowMajorMatrix<BabyBear>>, width: usize) -> bool
    ensures { IsTrue result → width_of (option_map (λ m. m.now) trace.entry) ≡ width }
{
    match trace {
        Some(m) => m.width() == width,
        None => width == 0,
    }
}

// What the check says of a table's rows.
fn checked<A: Air<BabyBear>>(alloc: Global, out: &mut String, air: &A, case: &Case) -> Mem<()>
    requires { All (λ c. 0 < length c) (A.declaration air.now).periodic }
{
    let (cells, width) = (bears(alloc, &case.first)?, air.width());
    let public_values = bears(alloc, &case.second)?;
    let trace = air.preprocessed_trace(alloc)?;
    let preprocessed = trace.as_ref();
    if cells.is_empty() || width == 0 || cells.len() % width != 0 {
        return push_word(out, "bad case");
    }
    let main = RowMajorMatrix::new(cells, width);
    if public_values.len() != air.num_public_values()
        || !has_width(preprocessed, air.preprocessed_width())
        || main.height() == 0
    {
        return push_word(out, "bad case");
    }
    match check_constraints(alloc, air, &main, preprocessed, &public_values) {
        Ok(()) => push_word(out, "met"),
        Err(error) => push_word(out, error),
    }
}
