//! The challenger over SHA-256.
ghost use Rattle.std.specs.Prelude.{◌≡◌, ℕ, ◌%◌, ◌^◌, replicate, refl};
ghost use Rattle.p3_field.specs.BabyBear.{reduce};
ghost use Rattle.p3_challenger.specs.Sha256.{observed, observed_extension, drawn_element, after_draw, drawn_extension, after_extension_draw, bits_drawn};
ghost use Rattle.p3_challenger.specs.Laws.Draws.{bits_drawn_below};

use crate::{CanObserve, CanSample, CanSampleBits, GrindingChallenger};
use p3_field::{BabyBear, PrimeCore64, QuarticExtension, RingCore};
use sha2::{Digest, Sha256};

/// A challenger over SHA-256 (FIPS 180-4): a chain of 32 bytes, and how many draws are left in it.
///
/// An observed element's value is hashed after the chain as 4 little-endian bytes, and leaves no
/// draw. A draw is the next 16 bytes of the chain, as a little-endian number modulo the order; where
/// no draw is left the chain is hashed first, and then has two. An extension element is observed and
/// drawn as its four coefficients, in basis order. The rule is this project's own, and not that of
/// Plonky3's `HashChallenger`. No call takes memory.
#[derive(Clone, Copy, Debug, PartialEq, Eq)]
pub struct Sha256Challenger {
    /// The chain.
    pub chain: [u8; 32],
    /// How many draws are left: 2 for both halves of the chain, 1 for the second, 0 for none. One from `new` never has more
    /// than two; above two a draw takes the second half, and leaves one draw fewer.
    pub left: u8,
}

impl Sha256Challenger {
    /// A chain of zeros with no draw left.
    pub fn new() -> Self
        ensures chain { result.chain ≡ replicate 32 0 }
        ensures left { result.left ≡ 0 }
    {
        Sha256Challenger {
            chain: [0; 32],
            left: 0,
        }
    }
}

#[tactic(auto, unfolding(crate::specs::Sha256::observed))]
impl CanObserve<BabyBear> for Sha256Challenger {
    ghost observed = { observed };

    /// One element, in one compression of SHA-256.
    fn observe(&mut self, value: &BabyBear) {
        let mut message = [0; 36];
        message[..32].copy_from_slice(&self.chain);
        message[32..].copy_from_slice(&(value.as_canonical_u64() as u32).to_le_bytes());
        self.chain = Sha256::digest(&message);
        self.left = 0;
    }
}

// 2 ^ 64
const TWO_64: u128 = 18_446_744_073_709_551_616;

// The number modulo the order, by its words of 64 bits: 2 ^ 64 is 1172168163 modulo the order.
#[tactic(auto, using(crate::specs::Laws::Reduction::words_reduce))]
fn reduced(number: u128) -> BabyBear
    ensures { result ≡ reduce number }
{
    let high = (number / TWO_64) as u64 % BabyBear::ORDER_U64;
    let low = (number % TWO_64) as u64 % BabyBear::ORDER_U64;
    BabyBear::from_u64(high * 1_172_168_163 + low)
}

#[tactic(auto, unfolding(crate::specs::Sha256::drawn_element, crate::specs::Sha256::after_draw))]
impl CanSample<BabyBear> for Sha256Challenger {
    ghost drawn = { drawn_element };

    ghost after_draw = { after_draw };

    /// One element. Where no draw is left, the chain is hashed first, in one compression.
    fn sample(&mut self) -> BabyBear {
        if self.left == 0 {
            self.chain = Sha256::digest(&self.chain);
            self.left = 2;
        }
        let mut half = [0; 16];
        if self.left == 2 {
            half.copy_from_slice(&self.chain[..16]);
        } else {
            half.copy_from_slice(&self.chain[16..]);
        }
        self.left -= 1;
        reduced(u128::from_le_bytes(half))
    }
}

#[tactic(auto, unfolding(crate::specs::Sha256::observed_extension))]
impl CanObserve<QuarticExtension> for Sha256Challenger {
    ghost observed = { observed_extension };

    /// The four coefficients, that of 1 first.
    fn observe(&mut self, value: &QuarticExtension) {
        self.observe(&value.c0);
        self.observe(&value.c1);
        self.observe(&value.c2);
        self.observe(&value.c3);
    }
}

#[tactic(auto, unfolding(crate::specs::Sha256::drawn_extension, crate::specs::Sha256::after_extension_draw))]
impl CanSample<QuarticExtension> for Sha256Challenger {
    ghost drawn = { drawn_extension };

    ghost after_draw = { after_extension_draw };

    /// Four draws, of which the first is the coefficient of 1.
    fn sample(&mut self) -> QuarticExtension {
        let c0 = self.sample();
        let c1 = self.sample();
        let c2 = self.sample();
        let c3 = self.sample();
        QuarticExtension { c0, c1, c2, c3 }
    }
}

#[tactic(auto, using(crate::specs::Laws::Bits::few_bits))]
impl CanSampleBits for Sha256Challenger {
    ghost order = { 2013265921 };

    ghost bits_drawn = { bits_drawn };

    ghost after_bits = { λ s _. after_draw s };

    /// The low bits of one drawn element's canonical value. The order is the field's, 2013265921.
    fn sample_bits(&mut self, bits: usize) -> usize {
        let value: BabyBear = self.sample();
        value.as_canonical_u64() as usize % (1 << bits)
    }

    ghost bits_below = { λ s bits _. bits_drawn_below s bits };
}

impl GrindingChallenger for Sha256Challenger {
    type Witness = BabyBear;

    /// Observes the witness and draws the bits, unless `bits` is zero.
    fn check_witness(&mut self, bits: usize, value: BabyBear) -> bool {
        if bits == 0 {
            return true;
        }
        self.observe(&value);
        self.sample_bits(bits) == 0
    }

    /// Tries the elements in order, each on a copy of the state.
    fn grind(&mut self, bits: usize) -> Option<BabyBear> {
        for n in 0..BabyBear::ORDER_U64 {
            let mut trial = *self;
            let witness = BabyBear::from_u64(n);
            if trial.check_witness(bits, witness) {
                *self = trial;
                return Some(witness);
            }
        }
        None
    }

    ghost same_order = { refl };
}
