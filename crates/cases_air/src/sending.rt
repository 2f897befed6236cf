//! The sending table, and degrees beside its periodic column.
ghost use Rattle.std.specs.Prelude.{◌≡◌, ◌<◌, ◌≤◌, length, IfOk};

use air_core::SymbolicExpression;
use air_tables::SendingAir;
use p3_field::{BabyBear, FieldCore, Mem, RingCore};
use std::alloc::Global;

/// The sending table with the preprocessed column 1, 2 and the periodic column 1.
pub fn sending_air(alloc: Global) -> Mem<SendingAir<BabyBear>> {
    let steps = vec![in alloc; BabyBear::ONE, BabyBear::TWO]?;
    let mut periodic = Vec::new(alloc);
    periodic.push(vec![in alloc; BabyBear::ONE]?)?;
    Ok(SendingAir { steps, periodic })
}

/// The degree over so many rows of a constraint that reads what the sending table declares, where its periodic column has
/// period 2; zero of another one.
pub fn degree_over(
    alloc: Global,
    constraint: &SymbolicExpression<BabyBear>,
    rows: usize,
) -> Mem<usize> {
    let air = sending_air(alloc)?;
    let declared = constraint.reads_declared(&air);
    if rows == 0 || !declared {
        return Ok(0);
    }
    Ok(constraint.poly_degree(rows, &[2]))
}
