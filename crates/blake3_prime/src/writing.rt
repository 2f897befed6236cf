//! Words written to a row.
ghost use Rattle.std.specs.Prelude.{◌≡◌, ℕ, ◌+◌, ◌<◌, ◌≤◌, ◌⊎◌, length, slice_index_or};
ghost use Rattle.std.specs.Int.{bit_at};
ghost use Rattle.p3_field.specs.Ring.{of_nat};
ghost use Rattle.air_gadgets.specs.Words.{limb};

use air_gadgets::u32_to_bits_le;
use p3_field::{Field, RingCore};

/// Writes the 32 bits of a word from place `at` on, the lowest first (not in Plonky3). All other cells
/// stay.
pub fn write_word<F: Field>(row: &mut [F], at: usize, word: u32)
    requires { at + 32 ≤ length row.old }
    ensures length { length row.new ≡ length row.old }
    ensures bits { (k : ℕ) (d : F) → k < 32
        → slice_index_or row.new (at + k) d ≡ of_nat F.ring (bit_at word k) }
    ensures others { (k : ℕ) (d : F) → (k < at) ⊎ (at + 32 ≤ k)
        → slice_index_or row.new k d ≡ slice_index_or row.old k d }
{
    let bits: [F; 32] = u32_to_bits_le(word);
    for i in 0..32 {
        row[at + i] = bits[i];
    }
}

/// Writes the two limbs of 16 bits of a word from place `at` on, the low one first (not in Plonky3). All other
/// cells stay.
pub fn write_limbs<F: Field>(row: &mut [F], at: usize, word: u32)
    requires { at + 2 ≤ length row.old }
    ensures length { length row.new ≡ length row.old }
    ensures limbs { (k : ℕ) (d : F) → k < 2
        → slice_index_or row.new (at + k) d ≡ of_nat F.ring (limb word k) }
    ensures others { (k : ℕ) (d : F) → (k < at) ⊎ (at + 2 ≤ k)
        → slice_index_or row.new k d ≡ slice_index_or row.old k d }
{
    row[at] = <F as RingCore>::from_u64((word % 65536) as u64);
    row[at + 1] = <F as RingCore>::from_u64((word / 65536) as u64);
}
