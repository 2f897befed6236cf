//! The trace.
ghost use Rattle.std.specs.Prelude.{◌≡◌, ◌^◌, ◌≤◌, [], ◌∷◌, IfOk};
ghost use Rattle.p3_field.specs.BabyBear.{baby_bear_ring};
ghost use Rattle.example_fib_air.specs.Fib.{fib_rows};

use p3_field::{BabyBear, Mem, RingCore};
use p3_matrix::RowMajorMatrix;
use std::alloc::Global;

/// The trace of 2^`log_rows` rows, up to 2^10: row i has the numbers i and i + 1 of the sequence that starts with `start` and `start`. The only
/// error is running out of memory.
pub fn fib_trace(alloc: Global, start: BabyBear, log_rows: usize) -> Mem<RowMajorMatrix<BabyBear>>
    requires { log_rows ≤ 10 }
    ensures { IfOk result (λ m. m ≡ fib_rows baby_bear_ring start (2 ^ log_rows)) }
{
    let mut values = Vec::new(alloc);
    let mut left = start;
    let mut right = start;
    for _ in 0..1usize << log_rows {
        values.push(left)?;
        values.push(right)?;
        let next = left + right;
        left = right;
        right = next;
    }
    Ok(RowMajorMatrix::new(values, 2))
}

/// The public values: the start and the number. The only error is running out of memory.
pub fn fib_publics(alloc: Global, start: BabyBear, number: BabyBear) -> Mem<Vec<BabyBear>>
    ensures { IfOk result (λ v. v.items ≡ start ∷ number ∷ []) }
{
    Ok(Vec::from_array(alloc, [start, number])?)
}
