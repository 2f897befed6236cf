//! The bounds on what a batch's lookups may send.
ghost use Rattle.std.specs.Prelude.{◌≡◌, ℕ, ◌-◌, ◌^◌, ◌<◌, ◌≤◌, length, map, IfOk};
ghost use Rattle.std.specs.Prelude.{slice_index_or as get_or};
ghost use Rattle.p3_field.specs.Checks.{in_turn};
ghost use Rattle.p3_lookup.specs.Bus.{bus_count, batch_buses};
ghost use Rattle.p3_lookup.specs.Written.{read_all};
ghost use Rattle.verifier_shape.specs.ShapeChecks.{bound_at, heights_of};
ghost use Rattle.batch_statement.specs.Verdict.{IsVerdict};

use crate::powers::power_of_two;
use batch_statement::BatchVerificationError;
use p3_field::{Field, FieldCore, Mem, PrimeCore64, PrimeField64, RingCore};
use p3_lookup::{Lookups, check_multiplicity_height_bound};
use std::alloc::Global;

// The heights of tables with these degree bits.
fn heights(alloc: Global, degree_bits: &[usize], masks: usize) -> Mem<Vec<usize>>
    requires { (i : ℕ) → i < length degree_bits.now → get_or degree_bits.now i 0 < 64 }
    ensures { IfOk result (λ v.
        v.items ≡ heights_of masks degree_bits.now (length degree_bits.now)) }
{
    let mut heights = Vec::with_capacity(alloc, degree_bits.len())?;
    for index in 0..degree_bits.len() {
        let log_height = degree_bits[index].saturating_sub(masks);
        heights.push(power_of_two(log_height))?;
    }
    Ok(heights)
}

/// The check of each bus: `MultiplicityBound` exactly where on some bus the sum of bounds times heights reaches the field's
/// order, with the first such bus: from there on what is sent could wrap to zero.
pub fn check_bounds<F: PrimeField64, R>(
    alloc: Global,
    lookups: &[Lookups<F>],
    degree_bits: &[usize],
    masks: usize,
) -> Result<(), BatchVerificationError<R>>
    requires lengths { length degree_bits.now ≡ length lookups.now }
    requires fits { (i : ℕ) → i < length degree_bits.now → get_or degree_bits.now i 0 < 64 }
    ensures { let tables = map read_all lookups.now in
        IsVerdict (in_turn (bus_count (batch_buses tables))
        (bound_at F.ORDER_U64 tables (heights_of masks degree_bits.now (length degree_bits.now))))
        result }
{
    let heights = match heights(alloc, degree_bits, masks) {
        Ok(heights) => heights,
        Err(_) => return Err(BatchVerificationError::OutOfMemory),
    };
    match check_multiplicity_height_bound(lookups, &heights) {
        Ok(()) => Ok(()),
        Err(e) => Err(BatchVerificationError::Lookup(e)),
    }
}
