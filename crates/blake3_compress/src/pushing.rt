//! Words pushed to a row, by their bits or by their limbs, the lowest first.
ghost use Rattle.std.specs.Prelude.{◌≡◌, ℕ, ◌^◌, List, IfOk, length};
ghost use Rattle.std.specs.Int.{bit_at};
ghost use Rattle.p3_field.specs.Poly.{tabulate};
ghost use Rattle.air_gadgets.specs.Words.{limb};
ghost use Rattle.blake3_compress.specs.TraceRow.{bit_cells, limb_cells};
ghost use Rattle.blake3_compress.specs.Generated.{input_of, Pushed};

use air_gadgets::u32_to_bits_le;
use p3_field::{Mem, PrimeCharacteristicRing, RingCore};

/// Pushes the 32 bits of a word as elements.
pub fn push_bits<F: PrimeCharacteristicRing>(values: &mut Vec<F>, word: u32) -> Mem<()>
    ensures { IfOk result (λ _.
        Pushed F.ring values.old.items values.new.items (tabulate 32 (bit_at word))) }
{
    let bits: [F; 32] = u32_to_bits_le(word);
    values.extend_from_slice(&bits)?;
    Ok(())
}

/// Pushes the two limbs of 16 bits of a word as elements.
pub fn push_limbs<F: PrimeCharacteristicRing>(values: &mut Vec<F>, word: u32) -> Mem<()>
    ensures { IfOk result (λ _.
        Pushed F.ring values.old.items values.new.items (tabulate 2 (limb word))) }
{
    values.push(<F as RingCore>::from_u64((word % 65536) as u64))?;
    values.push(<F as RingCore>::from_u64((word / 65536) as u64))?;
    Ok(())
}

/// Pushes words by their bits.
pub fn push_bit_words<F: PrimeCharacteristicRing>(values: &mut Vec<F>, words: &[u32]) -> Mem<()>
    ensures { IfOk result (λ _.
        Pushed F.ring values.old.items values.new.items
        (bit_cells (length words.now) (input_of words.now))) }
{
    for i in 0..words.len() {
        push_bits(values, words[i])?;
    }
    Ok(())
}

/// Pushes words by their limbs.
pub fn push_limb_words<F: PrimeCharacteristicRing>(values: &mut Vec<F>, words: &[u32]) -> Mem<()>
    ensures { IfOk result (λ _.
        Pushed F.ring values.old.items values.new.items
        (limb_cells (length words.now) (input_of words.now))) }
{
    for i in 0..words.len() {
        push_limbs(values, words[i])?;
    }
    Ok(())
}
