//! `BabyBear` as a prime field and a two-adic field.
ghost use Rattle.std.specs.Prelude.{◌≡◌, ℕ, ◌+◌, ◌-◌, ◌*◌, ◌/◌, ◌%◌, ◌^◌, ◌<◌, ◌≤◌, cond, ◌↔◌};
ghost use Rattle.p3_field.specs.Ring.{Ring, RingLaws, pow, of_nat, sub};
ghost use Rattle.p3_field.specs.BabyBear.{reduce, baby_bear_ring, baby_bear_inv, baby_bear_root};
ghost use Rattle.p3_field.specs.Laws.BabyBearField.{baby_bear_field_laws, baby_bear_31, baby_bear_same_eq, baby_bear_eq_same, baby_bear_canonical_of, baby_bear_of_canonical, baby_bear_root_laws};
ghost use Rattle.std.proofs.Common.{rules, refl, arith, lit<};

use crate::baby_bear::BabyBear;
use crate::generic::product_of_squares;
use crate::{FieldCore, PrimeCharacteristicRing, PrimeCore64, RingCore, TwoAdicCore};

#[tactic(auto, using(crate::specs::Laws::BabyBearField::baby_bear_is_zero), unfolding(crate::specs::BabyBear::baby_bear_inv))]
impl FieldCore for BabyBear {
    ghost GENERATOR = { reduce 31 };

    ghost inv = { baby_bear_inv };

    const GENERATOR: BabyBear = BabyBear { value: 31 };

    fn is_zero(&self) -> bool {
        self.value == 0
    }

    fn try_inverse(&self) -> Option<BabyBear> {
        if self.is_zero() {
            None
        } else {
            Some(self.inverse())
        }
    }

    // By Fermat, x^(p-2), where p - 2 = (2^27 - 1) + 2^28 + 2^29 + 2^30.
    fn inverse(&self) -> BabyBear {
        let (ones, square) = product_of_squares(*self, 27);
        let a = square.square();
        let b = a.square();
        let c = b.square();
        ones * a * b * c
    }

    ghost field_laws = { baby_bear_field_laws };

    ghost generator_not_zero = { baby_bear_31 };

    ghost eq_same = { baby_bear_same_eq };

    ghost same_eq = { baby_bear_eq_same };
}

impl PrimeCore64 for BabyBear {
    ghost ORDER_U64 = { 2013265921 };

    ghost canonical = { λ x. x.value };

    const ORDER_U64: u64 = 2013265921;

    fn as_canonical_u64(&self) -> u64 {
        self.value as u64
    }

    ghost canonical_below = { λ x. x.in_range };

    ghost of_canonical = { baby_bear_of_canonical };

    ghost canonical_of = { baby_bear_canonical_of };
}

impl TwoAdicCore for BabyBear {
    ghost TWO_ADICITY = { 27 };

    ghost root = { baby_bear_root };

    const TWO_ADICITY: usize = 27;

    // Squarings of 31^15 = 440564289, which has order 2^27.
    fn two_adic_generator(bits: usize) -> BabyBear {
        BabyBear { value: 440564289 }.exp_power_of_2(27 - bits)
    }

    ghost below_64 = { lit< tt };

    ghost root_laws = { baby_bear_root_laws };
}
