//! The arithmetic of `BabyBear`.
ghost use Rattle.std.specs.Prelude.{◌≡◌, ℕ, ◌+◌, ◌-◌, ◌*◌, ◌/◌, ◌%◌, ◌^◌, ◌<◌, ◌≤◌, cond};
ghost use Rattle.p3_field.specs.Ring.{Ring, RingLaws, pow, of_nat, sub};
ghost use Rattle.p3_field.specs.BabyBear.{order, reduce, baby_bear_ring};
ghost use Rattle.p3_field.specs.Laws.BabyBearLaws.{baby_bear_laws};
ghost use Rattle.std.proofs.Common.{rules, refl, lit<};

use crate::baby_bear::BabyBear;
use crate::{PrimeCharacteristicRing, RingCore};
use std::ops::{Add, Mul, Neg, Sub};

const P: u64 = 2013265921;

// The value that is `n` modulo p. LLVM makes a multiplication of this division by a constant.
pub(crate) fn reduced(n: u64) -> BabyBear
    ensures { result ≡ reduce n }
{
    BabyBear {
        value: (n % P) as u32,
    }
}

// The value that is `n` modulo p, for `n` below 2p.
#[tactic(auto, using(crate::specs::Laws::BabyBearLaws::baby_bear_is))]
fn reduced_once(n: u32) -> BabyBear
    requires { n < 2 * order }
    ensures { result ≡ reduce n }
{
    let p = P as u32;
    BabyBear {
        value: if n < p { n } else { n - p },
    }
}

// The product of the two numbers, before it is reduced: four of them have a sum below 2^64.
#[tactic(auto, using(crate::specs::Laws::BabyBearLaws::product_below))]
pub(crate) fn product(x: BabyBear, y: BabyBear) -> u64
    ensures value { result ≡ x.value * y.value }
    ensures small { result ≤ (order - 1) * (order - 1) }
{
    x.value as u64 * y.value as u64
}

// The w of x^4 - w, the modulus of the quartic extension.
pub(crate) fn eleven() -> BabyBear
    ensures { result ≡ reduce 11 }
{
    reduced(11)
}

#[tactic(auto, unfolding(crate::specs::BabyBear::baby_bear_ring))]
impl Add for BabyBear {
    type Output = BabyBear;

    ghost add_gives = { λ x y r. r ≡ baby_bear_ring.add x y };

    fn add(self, rhs: BabyBear) -> BabyBear {
        reduced_once(self.value + rhs.value)
    }
}

#[tactic(auto, using(crate::specs::Laws::BabyBearLaws::baby_bear_sub))]
impl Sub for BabyBear {
    type Output = BabyBear;

    ghost sub_gives = { λ x y r. r ≡ sub baby_bear_ring x y };

    fn sub(self, rhs: BabyBear) -> BabyBear {
        reduced_once(self.value + (P as u32 - rhs.value))
    }
}

#[tactic(auto, unfolding(crate::specs::BabyBear::baby_bear_ring))]
impl Mul for BabyBear {
    type Output = BabyBear;

    ghost mul_gives = { λ x y r. r ≡ baby_bear_ring.mul x y };

    fn mul(self, rhs: BabyBear) -> BabyBear {
        reduced(product(self, rhs))
    }
}

#[tactic(auto, unfolding(crate::specs::BabyBear::baby_bear_ring))]
impl Neg for BabyBear {
    type Output = BabyBear;

    ghost neg_gives = { λ x r. r ≡ baby_bear_ring.neg x };

    fn neg(self) -> BabyBear {
        reduced_once(P as u32 - self.value)
    }
}

#[tactic(auto, using(crate::specs::Laws::BabyBearLaws::baby_bear_of_nat), unfolding(crate::specs::BabyBear::baby_bear_ring))]
impl RingCore for BabyBear {
    ghost ring = { baby_bear_ring };

    ghost ZERO = { baby_bear_ring.zero };

    ghost ONE = { baby_bear_ring.one };

    ghost TWO = { baby_bear_ring.add baby_bear_ring.one baby_bear_ring.one };

    const ZERO: BabyBear = BabyBear { value: 0 };

    const ONE: BabyBear = BabyBear { value: 1 };

    const TWO: BabyBear = BabyBear { value: 2 };

    fn from_bool(b: bool) -> BabyBear {
        if b { BabyBear::ONE } else { BabyBear::ZERO }
    }

    fn from_u16(n: u16) -> BabyBear {
        reduced(n as u64)
    }

    fn from_u64(n: u64) -> BabyBear {
        reduced(n)
    }

    ghost ring_laws = { baby_bear_laws };

    ghost clones_are_copies = { λ x y h. h };

    ghost zero_is = { refl };

    ghost one_is = { refl };

    ghost two_is = { refl };

    ghost arrays_fit = { lit< tt };
}

impl PrimeCharacteristicRing for BabyBear {
    ghost may_add = { Prim.search rules };

    ghost adds = { λ x y r h. h };

    ghost may_sub = { Prim.search rules };

    ghost subs = { λ x y r h. h };

    ghost may_mul = { Prim.search rules };

    ghost muls = { λ x y r h. h };

    ghost may_neg = { Prim.search rules };

    ghost negs = { λ x r h. h };
}
