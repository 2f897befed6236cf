//! Whether a trace and public values have the shape that an AIR declares.
ghost use Rattle.std.specs.Prelude.{◌↔◌, IfOk, IsTrue};
ghost use Rattle.batch_setup.specs.Packed.{source_of};
ghost use Rattle.tool_shaped.specs.Parts.{HasInstanceShape, HasShape};

use crate::parts::{has_sizes, have_periods, is_height, is_prepared};
use crate::room::has_room;
use air_core::{Air, BaseAir};
use batch_setup::TableInstance;
use p3_field::{FieldCore, Mem, RingCore, TwoAdicCore, TwoAdicField};
use p3_matrix::RowMajorMatrix;
use std::alloc::Global;

// Whether a trace and public values have the AIR's shape, where the logarithm of the height lies within these bounds.
fn has_shape<F: TwoAdicField, A: Air<F>>(
    alloc: Global,
    air: &A,
    trace: &RowMajorMatrix<F>,
    public_values: &[F],
    least: usize,
    most: usize,
) -> Mem<bool>
    ensures { IfOk result (λ b. IsTrue b ↔ HasShape F.ring F.TWO_ADICITY least most
        (source_of A.declaration A.trees A.interactions air.now) trace.now public_values.now) }
{
    let rows = trace.height();
    if !has_sizes(air, trace, public_values) {
        return Ok(false);
    }
    if !is_height(rows, least, most) {
        return Ok(false);
    }
    if !have_periods(air, rows) {
        return Ok(false);
    }
    let prepared = is_prepared(alloc, air, rows)?;
    if !prepared {
        return Ok(false);
    }
    has_room(alloc, air, rows)
}

// Whether an instance has the shape.
pub(crate) fn instance_has_shape<F: TwoAdicField, A: Air<F>>(
    alloc: Global,
    instance: &TableInstance<'_, F, A>,
    least: usize,
    most: usize,
) -> Mem<bool>
    ensures { IfOk result (λ b. IsTrue b ↔ HasInstanceShape F.ring F.TWO_ADICITY least most
        A.declaration A.trees A.interactions instance.now) }
{
    has_shape(
        alloc,
        instance.air,
        instance.trace,
        &instance.public_values,
        least,
        most,
    )
}
