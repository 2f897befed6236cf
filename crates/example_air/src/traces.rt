//! The traces of a list of bytes.
ghost use Rattle.std.specs.Prelude.{◌≡◌, ◌+◌, ◌<◌, ◌≤◌, ◌++◌, IfOk, OnOk, length};
ghost use Rattle.p3_field.specs.BabyBear.{baby_bear_ring};
ghost use Rattle.p3_field.specs.Poly.{tabulate};
ghost use Rattle.example_air.specs.Bytes.{bits_row, bits_rows, bytes_rows, byte_times};

use p3_field::{BabyBear, Mem, RingCore};
use p3_matrix::RowMajorMatrix;
use std::alloc::Global;

// Appends the row of a byte: its bits, the lowest first, and the byte.
fn push_row(values: &mut Vec<BabyBear>, byte: u8) -> Mem<()>
    ensures { OnOk result (values.new.items ≡ values.old.items ++ bits_row baby_bear_ring byte) }
{
    for i in 0..8usize {
        values.push(BabyBear::from_u64((byte >> i) as u64 % 2))?;
    }
    values.push(BabyBear::from_u64(byte as u64))?;
    Ok(())
}

/// The table of bits of up to 1024 bytes: for each byte a row with its bits, the lowest first, and the byte. The only error is running out
/// of memory.
pub fn bits_trace(alloc: Global, bytes: &[u8]) -> Mem<RowMajorMatrix<BabyBear>>
    requires { length bytes.now ≤ 1024 }
    ensures { IfOk result (λ m. m ≡ bits_rows baby_bear_ring bytes.now) }
{
    let mut values = Vec::with_capacity(alloc, 9 * bytes.len())?;
    for byte in bytes {
        push_row(&mut values, *byte)?;
    }
    Ok(RowMajorMatrix::new(values, 9))
}

// How often each byte stands there.
fn times_of(bytes: &[u8]) -> [u64; 256]
    requires { length bytes.now ≤ 1024 }
    ensures { result ≡ tabulate 256 (byte_times bytes.now) }
{
    let mut counts = [0; 256];
    for byte in bytes {
        counts[*byte as usize] += 1;
    }
    counts
}

/// The table of all bytes for a list of up to 1024: in row b how often b stands in the list. The only error is running out of memory.
pub fn bytes_trace(alloc: Global, bytes: &[u8]) -> Mem<RowMajorMatrix<BabyBear>>
    requires { length bytes.now ≤ 1024 }
    ensures { IfOk result (λ m. m ≡ bytes_rows baby_bear_ring bytes.now) }
{
    let counts = times_of(bytes);
    let mut values = Vec::with_capacity(alloc, 256)?;
    for byte in 0..256 {
        values.push(BabyBear::from_u64(counts[byte]))?;
    }
    Ok(RowMajorMatrix::new_col(values))
}
