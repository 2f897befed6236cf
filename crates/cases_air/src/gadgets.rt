//! The gadgets, at a row whose cells they don't read.

use crate::cells::row_of;
use crate::printing::{push_values, push_word};
use crate::reading::{Case, short};
use air_check::DebugConstraintBuilder;
use air_core::AirBuilder;
use air_gadgets::{add2, add3, pack_bits_le, u32_to_bits_le, xor, xor_32_shift};
use p3_field::{BabyBear, FieldCore, Mem, RingCore};
use std::alloc::Global;

// The limbs of a word.
fn limbs(word: u32) -> [BabyBear; 2] {
    [
        BabyBear::from_u64((word % 65536) as u64),
        BabyBear::from_u64((word / 65536) as u64),
    ]
}

// The bits of a word, of which the second is one less and the first two more, as often as `carried` says.
fn carried_bits(word: u32, carried: usize) -> [BabyBear; 32] {
    let mut bits = u32_to_bits_le(word);
    let less = BabyBear::from_u64(carried as u64);
    bits[0] = bits[0] + less + less;
    bits[1] = bits[1] - less;
    bits
}

/// The values of what a gadget asserts of words, or the value that it gives.
pub fn gadget(alloc: Global, out: &mut String, case: &Case) -> Mem<()> {
    let words = case.first.as_slice();
    let (a, b) = (short(words, 0), short(words, 1));
    let (c, d) = (short(words, 2), short(words, 3));
    let cells = [BabyBear::ZERO; 8];
    let row = row_of(&cells, &cells, &cells, &[BabyBear::ZERO]);
    let mut builder = DebugConstraintBuilder::<BabyBear, BabyBear>::new(alloc, row);
    match case.call {
        "add2" => add2(&mut builder, limbs(a), limbs(b), limbs(c))?,
        "add3" => add3(&mut builder, limbs(a), limbs(b), limbs(c), limbs(d))?,
        "xor_32_shift" => {
            let bits = carried_bits(c, case.at[1]);
            xor_32_shift(&mut builder, limbs(a), u32_to_bits_le(b), bits, case.at[0])?;
        }
        "pack_bits_le" => {
            let packed = pack_bits_le(&mut builder, &carried_bits(a, 0))?;
            builder.assert_zero(packed)?;
        }
        "xor" => {
            let [x, _] = limbs(a);
            let [y, _] = limbs(b);
            let both = xor(&mut builder, x, y)?;
            builder.assert_zero(both)?;
        }
        _ => return push_word(out, "bad case"),
    }
    push_values(alloc, out, builder.values())
}
