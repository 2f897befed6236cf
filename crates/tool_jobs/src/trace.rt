//! The traces of a job's tables, each in one buffer that is made as large as it will be.
ghost use Rattle.std.specs.Int.{IsPowerOfTwo};
ghost use Rattle.std.specs.Prelude.{◌≡◌, ◌%◌, ◌^◌, ◌≤◌, ◌++◌, ◌∷◌, [], IfOk, OnOk, length, map};
ghost use Rattle.std.specs.Prelude.{slice_index_or as get_or};
ghost use Rattle.p3_field.specs.BabyBear.{baby_bear_ring};
ghost use Rattle.law_tool_valid.specs.Job.{swap_row, trace_of, wheel_cell as wheel_cell_of};
ghost use Rattle.law_tool_valid.specs.Job.{swap_of, wheel_of, give_of, hash_of};
ghost use Rattle.tool_jobs.specs.Jobs.{read_given};
ghost use Rattle.air_tables.specs.Wheel.{turns};

use crate::table::GivenWord;
use blake3_prime::{TraceError, generate_trace_rows};
use p3_field::{BabyBear, Mem, RingCore};
use p3_matrix::RowMajorMatrix;
use std::alloc::{AllocError, Global};

// 2^`k`.
fn rows_of(k: usize) -> usize
    requires { k ≤ 10 }
    ensures size { result ≡ 2 ^ k }
    ensures few { result ≤ 1024 }
{
    1 << k
}

// Appends a row of two cells.
fn push_row(values: &mut Vec<BabyBear>, left: BabyBear, right: BabyBear) -> Mem<()>
    ensures { OnOk result (values.new.items ≡ values.old.items ++ left ∷ right ∷ []) }
{
    values.push(left)?;
    values.push(right)?;
    Ok(())
}

// Appends row `i` of a swap table that begins with (a, b).
fn push_swap_row(values: &mut Vec<BabyBear>, i: usize, a: BabyBear, b: BabyBear) -> Mem<()>
    ensures { OnOk result (values.new.items ≡ values.old.items ++ swap_row a b i) }
{
    if i % 2 == 0 {
        push_row(values, a, b)
    } else {
        push_row(values, b, a)
    }
}

// The trace of the swap table of 2^`k` rows that begins with (a, b).
pub(crate) fn swap_trace(
    alloc: Global,
    k: usize,
    a: BabyBear,
    b: BabyBear,
) -> Mem<RowMajorMatrix<BabyBear>>
    requires { k ≤ 10 }
    ensures { IfOk result (λ m. m ≡ trace_of baby_bear_ring (swap_of k a b)) }
{
    let rows = rows_of(k);
    let mut values = Vec::with_capacity(alloc, 2 * rows)?;
    for i in 0..rows {
        push_swap_row(&mut values, i, a, b)?;
    }
    Ok(RowMajorMatrix::new(values, 2))
}

// 3 in the rows of even number, 5 in those of odd number.
fn turn(i: usize) -> BabyBear
    ensures { result ≡ get_or (turns baby_bear_ring) (i % 2) baby_bear_ring.zero }
{
    if i % 2 == 0 {
        BabyBear::from_u64(3)
    } else {
        BabyBear::from_u64(5)
    }
}

// The trace of the wheel of 2^`k` rows.
pub(crate) fn wheel_trace(alloc: Global, k: usize) -> Mem<RowMajorMatrix<BabyBear>>
    requires { k ≤ 10 }
    ensures { IfOk result (λ m. m ≡ trace_of baby_bear_ring (wheel_of k)) }
{
    let rows = rows_of(k);
    let mut values = Vec::with_capacity(alloc, rows)?;
    for i in 0..rows {
        values.push(BabyBear::from_u64(i as u64 + 1) * turn(i))?;
    }
    Ok(RowMajorMatrix::new_col(values))
}

// The trace of a table that gives these words.
pub(crate) fn give_trace(alloc: Global, words: &[GivenWord]) -> Mem<RowMajorMatrix<BabyBear>>
    requires { length words.now ≤ 1024 }
    ensures { IfOk result (λ m. m ≡ trace_of baby_bear_ring (give_of (map read_given words.now))) }
{
    let mut values = Vec::with_capacity(alloc, 2 * words.len())?;
    for given in words {
        push_row(
            &mut values,
            given.word,
            BabyBear::from_u64(given.count as u64),
        )?;
    }
    Ok(RowMajorMatrix::new(values, 2))
}

// The trace of a table of these compressions. Of the refusals of `generate_trace_rows` only running out of memory can come.
pub(crate) fn hash_trace(alloc: Global, rows: &[[u32; 24]]) -> Mem<RowMajorMatrix<BabyBear>>
    requires power { IsPowerOfTwo (length rows.now) }
    requires few { length rows.now ≤ 8 }
    ensures { IfOk result (λ m. m ≡ trace_of baby_bear_ring (hash_of rows.now)) }
{
    match generate_trace_rows(alloc, rows, 0) {
        Ok(trace) => Ok(trace),
        Err(TraceError::OutOfMemory) => Err(AllocError),
        Err(TraceError::NotPowerOfTwo) => unreachable!(),
        Err(TraceError::TooLong) => unreachable!(),
        Err(TraceError::WrongCharacteristic) => unreachable!(),
        Err(TraceError::NoInput) => unreachable!(),
    }
}
