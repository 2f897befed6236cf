//! A challenger whose challenges are known before anything is observed.
ghost use Rattle.std.specs.Prelude.{refl};
ghost use Rattle.std.proofs.lemmas.Nat.{pow_pos};

use p3_challenger::{CanObserve, CanSample, CanSampleBits, GrindingChallenger};
use p3_field::{BabyBear, QuarticExtension, RingCore};

/// Draws `next` once and `later` from then on, whatever it observes. Its bits are all zero, so each grinding value passes.
#[derive(Clone, Copy)]
pub struct FixedChallenger {
    /// The next challenge.
    pub next: QuarticExtension,
    /// Each one after it.
    pub later: QuarticExtension,
}

impl<T> CanObserve<T> for FixedChallenger {
    ghost observed = { λ s _. s };

    /// Nothing changes.
    fn observe(&mut self, _value: &T) {}
}

impl CanSample<QuarticExtension> for FixedChallenger {
    ghost drawn = { λ s. s.next };

    ghost after_draw = { λ s. record { next = s.later; later = s.later } };

    fn sample(&mut self) -> QuarticExtension {
        let drawn = self.next;
        self.next = self.later;
        drawn
    }
}

impl CanSample<BabyBear> for FixedChallenger {
    ghost drawn = { λ s. s.next.c0 };

    ghost after_draw = { λ s. s };

    /// The next challenge's constant coefficient, and nothing changes.
    fn sample(&mut self) -> BabyBear {
        self.next.c0
    }
}

impl CanSampleBits for FixedChallenger {
    ghost order = { 2013265921 };

    ghost bits_drawn = { λ _ _. 0 };

    ghost after_bits = { λ s _. s };

    fn sample_bits(&mut self, _bits: usize) -> usize {
        0
    }

    ghost bits_below = { λ s bits _. pow_pos bits };
}

impl GrindingChallenger for FixedChallenger {
    type Witness = BabyBear;

    fn check_witness(&mut self, bits: usize, value: BabyBear) -> bool {
        if bits == 0 {
            return true;
        }
        self.observe(&value);
        self.sample_bits(bits) == 0
    }

    /// Zero, which passes as each element does.
    fn grind(&mut self, bits: usize) -> Option<BabyBear> {
        let least = BabyBear::ZERO;
        if self.check_witness(bits, least) {
            Some(least)
        } else {
            None
        }
    }

    ghost same_order = { refl };
}
