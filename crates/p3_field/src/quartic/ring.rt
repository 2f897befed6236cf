//! The arithmetic of `QuarticExtension`.
ghost use Rattle.std.specs.Prelude.{◌≡◌, ℕ, ◌+◌, ◌-◌, ◌*◌, ◌/◌, ◌%◌, ◌^◌, ◌<◌, ◌≤◌, cond};
ghost use Rattle.p3_field.specs.Ring.{Ring, RingLaws, pow, of_nat, sub};
ghost use Rattle.p3_field.specs.BabyBear.{baby_bear_ring};
ghost use Rattle.p3_field.specs.Quartic.{quartic_ring, to_four_coefficients, of_baby_bear_value};
ghost use Rattle.p3_field.specs.Laws.QuarticRings.{weighted_four};
ghost use Rattle.p3_field.specs.Laws.QuarticLaws.{quartic_laws};
ghost use Rattle.std.proofs.Common.{rules, refl, lit<};

use crate::baby_bear::ring::{eleven, product, reduced};
use crate::baby_bear::{BEAR_0, BEAR_1, BEAR_2, BabyBear};
use crate::quartic::QuarticExtension;
use crate::{PrimeCharacteristicRing, RingCore};
use std::ops::{Add, Mul, Neg, Sub};

#[tactic(auto, unfolding(crate::specs::Quartic::quartic_ring))]
impl Add for QuarticExtension {
    type Output = QuarticExtension;

    ghost add_gives = { λ x y r. r ≡ quartic_ring.add x y };

    fn add(self, rhs: QuarticExtension) -> QuarticExtension {
        QuarticExtension {
            c0: self.c0 + rhs.c0,
            c1: self.c1 + rhs.c1,
            c2: self.c2 + rhs.c2,
            c3: self.c3 + rhs.c3,
        }
    }
}

#[tactic(auto, unfolding(crate::specs::Quartic::quartic_ring))]
impl Sub for QuarticExtension {
    type Output = QuarticExtension;

    ghost sub_gives = { λ x y r. r ≡ sub quartic_ring x y };

    fn sub(self, rhs: QuarticExtension) -> QuarticExtension {
        QuarticExtension {
            c0: self.c0 - rhs.c0,
            c1: self.c1 - rhs.c1,
            c2: self.c2 - rhs.c2,
            c3: self.c3 - rhs.c3,
        }
    }
}

#[tactic(auto, unfolding(crate::specs::Quartic::quartic_ring))]
impl Neg for QuarticExtension {
    type Output = QuarticExtension;

    ghost neg_gives = { λ x r. r ≡ quartic_ring.neg x };

    fn neg(self) -> QuarticExtension {
        QuarticExtension {
            c0: -self.c0,
            c1: -self.c1,
            c2: -self.c2,
            c3: -self.c3,
        }
    }
}

// The coefficients of `x` times these values, summed and reduced once.
#[tactic(auto, using(crate::specs::Laws::BabyBearLaws::reduce_products))]
fn weighted_sum(x: QuarticExtension, a: BabyBear, b: BabyBear, c: BabyBear, d: BabyBear) -> BabyBear
    ensures { result ≡ weighted_four baby_bear_ring (to_four_coefficients x) a b c d }
{
    reduced(product(x.c0, a) + product(x.c1, b) + product(x.c2, c) + product(x.c3, d))
}

#[tactic(auto, using(crate::specs::Laws::QuarticLaws::quartic_product))]
impl Mul for QuarticExtension {
    type Output = QuarticExtension;

    ghost mul_gives = { λ x y r. r ≡ quartic_ring.mul x y };

    fn mul(self, rhs: QuarticExtension) -> QuarticExtension {
        let w = eleven();
        let (d1, d2, d3) = (w * rhs.c1, w * rhs.c2, w * rhs.c3);
        QuarticExtension {
            c0: weighted_sum(self, rhs.c0, d3, d2, d1),
            c1: weighted_sum(self, rhs.c1, rhs.c0, d3, d2),
            c2: weighted_sum(self, rhs.c2, rhs.c1, rhs.c0, d3),
            c3: weighted_sum(self, rhs.c3, rhs.c2, rhs.c1, rhs.c0),
        }
    }
}

#[tactic(auto, using(crate::specs::Laws::QuarticLaws::of_baby_bear_of_nat, crate::specs::Laws::QuarticLaws::quartic_same), unfolding(crate::specs::Quartic::quartic_ring, crate::specs::BabyBear::baby_bear_ring))]
impl RingCore for QuarticExtension {
    ghost ring = { quartic_ring };

    ghost ZERO = { quartic_ring.zero };

    ghost ONE = { quartic_ring.one };

    ghost TWO = { quartic_ring.add quartic_ring.one quartic_ring.one };

    const ZERO: QuarticExtension = QuarticExtension {
        c0: BEAR_0,
        c1: BEAR_0,
        c2: BEAR_0,
        c3: BEAR_0,
    };

    const ONE: QuarticExtension = QuarticExtension {
        c0: BEAR_1,
        c1: BEAR_0,
        c2: BEAR_0,
        c3: BEAR_0,
    };

    const TWO: QuarticExtension = QuarticExtension {
        c0: BEAR_2,
        c1: BEAR_0,
        c2: BEAR_0,
        c3: BEAR_0,
    };

    fn from_bool(b: bool) -> QuarticExtension {
        of_baby_bear(BabyBear::from_bool(b))
    }

    fn from_u16(n: u16) -> QuarticExtension {
        of_baby_bear(BabyBear::from_u16(n))
    }

    fn from_u64(n: u64) -> QuarticExtension {
        of_baby_bear(BabyBear::from_u64(n))
    }

    ghost ring_laws = { quartic_laws };

    ghost clones_are_copies = { λ x y h. h };

    ghost zero_is = { refl };

    ghost one_is = { refl };

    ghost two_is = { refl };

    ghost arrays_fit = { lit< tt };
}

impl PrimeCharacteristicRing for QuarticExtension {
    ghost may_add = { Prim.search rules };

    ghost adds = { λ x y r h. h };

    ghost may_sub = { Prim.search rules };

    ghost subs = { λ x y r h. h };

    ghost may_mul = { Prim.search rules };

    ghost muls = { λ x y r h. h };

    ghost may_neg = { Prim.search rules };

    ghost negs = { λ x r h. h };
}

// The constant polynomial.
#[tactic(auto, using(crate::specs::Laws::QuarticLaws::quartic_same), unfolding(crate::specs::BabyBear::baby_bear_ring))]
pub(crate) fn of_baby_bear(x: BabyBear) -> QuarticExtension
    ensures { result ≡ of_baby_bear_value x }
{
    QuarticExtension {
        c0: x,
        c1: BabyBear::ZERO,
        c2: BabyBear::ZERO,
        c3: BabyBear::ZERO,
    }
}
