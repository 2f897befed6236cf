//! The arithmetic of `Gf256`.
ghost use Rattle.std.specs.Prelude.{◌≡◌};
ghost use Rattle.p3_field.specs.Ring.{of_nat, sub};
ghost use Rattle.p3_field.specs.Gf256.{times_x, byte_mul, of_byte, gf256_ring};
ghost use Rattle.p3_field.specs.Laws.Gf256Laws.{gf256_laws};
ghost use Rattle.std.proofs.Common.{rules, refl, lit<};

use crate::gf256::Gf256;
use crate::{PrimeCharacteristicRing, RingCore};
use std::ops::{Add, Mul, Neg, Sub};

// The product with x.
fn times_x(a: u8) -> u8
    ensures { result ≡ times_x a }
{
    (a << 1) ^ (27 * (a >> 7))
}

// The product, from the highest bit of `b`.
fn byte_mul(a: u8, b: u8) -> u8
    ensures { result ≡ byte_mul 8 a b }
{
    let mut product = 0;
    for turn in 0..8u32 {
        product = times_x(product) ^ (a * (b >> (7 - turn) & 1));
    }
    product
}

// The value with this byte.
#[tactic(auto, using(crate::specs::Laws::Gf256Laws::gf256_of_byte))]
fn of_byte(n: u8) -> Gf256
    ensures { result ≡ of_byte n }
{
    Gf256 { value: n }
}

#[tactic(auto, unfolding(crate::specs::Gf256::gf256_ring))]
impl Add for Gf256 {
    type Output = Gf256;

    ghost add_gives = { λ x y r. r ≡ gf256_ring.add x y };

    fn add(self, rhs: Gf256) -> Gf256 {
        of_byte(self.value ^ rhs.value)
    }
}

#[tactic(auto, unfolding(crate::specs::Gf256::gf256_ring))]
impl Sub for Gf256 {
    type Output = Gf256;

    ghost sub_gives = { λ x y r. r ≡ sub gf256_ring x y };

    fn sub(self, rhs: Gf256) -> Gf256 {
        of_byte(self.value ^ rhs.value)
    }
}

#[tactic(auto, unfolding(crate::specs::Gf256::gf256_ring))]
impl Mul for Gf256 {
    type Output = Gf256;

    ghost mul_gives = { λ x y r. r ≡ gf256_ring.mul x y };

    fn mul(self, rhs: Gf256) -> Gf256 {
        of_byte(byte_mul(self.value, rhs.value))
    }
}

#[tactic(auto, unfolding(crate::specs::Gf256::gf256_ring))]
impl Neg for Gf256 {
    type Output = Gf256;

    ghost neg_gives = { λ x r. r ≡ gf256_ring.neg x };

    fn neg(self) -> Gf256 {
        self
    }
}

// The sum of `n` ones.
#[tactic(auto, using(crate::specs::Laws::Gf256Laws::gf256_of_nat))]
fn ones(n: u64) -> Gf256
    ensures { result ≡ of_nat gf256_ring n }
{
    of_byte((n % 2) as u8)
}

#[tactic(auto, using(crate::specs::Laws::Gf256Laws::same_gf256), unfolding(crate::specs::Gf256::gf256_ring))]
impl RingCore for Gf256 {
    ghost ring = { gf256_ring };

    ghost ZERO = { gf256_ring.zero };

    ghost ONE = { gf256_ring.one };

    ghost TWO = { gf256_ring.add gf256_ring.one gf256_ring.one };

    const ZERO: Gf256 = Gf256 { value: 0 };

    const ONE: Gf256 = Gf256 { value: 1 };

    const TWO: Gf256 = Gf256 { value: 0 };

    fn from_bool(b: bool) -> Gf256 {
        if b { Gf256::ONE } else { Gf256::ZERO }
    }

    fn from_u16(n: u16) -> Gf256 {
        ones(n as u64)
    }

    fn from_u64(n: u64) -> Gf256 {
        ones(n)
    }

    ghost ring_laws = { gf256_laws };

    ghost clones_are_copies = { λ x y h. h };

    ghost zero_is = { refl };

    ghost one_is = { refl };

    ghost two_is = { refl };

    ghost arrays_fit = { lit< tt };
}

impl PrimeCharacteristicRing for Gf256 {
    ghost may_add = { Prim.search rules };

    ghost adds = { λ x y r h. h };

    ghost may_sub = { Prim.search rules };

    ghost subs = { λ x y r h. h };

    ghost may_mul = { Prim.search rules };

    ghost muls = { λ x y r h. h };

    ghost may_neg = { Prim.search rules };

    ghost negs = { λ x r h. h };
}
