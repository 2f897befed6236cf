//! Fields: their traits with their laws, the BabyBear field, its quartic extension, and cosets of
//! two-adic subgroups.
//!
//! The traits, types and calls are those of Plonky3's `p3-field` and `p3-baby-bear`; `Gf256` is this project's own. "Not
//! in Plonky3" in a comment, here and in the other crates, says so. Each field trait has a core without operators: a
//! bound of an associated type, or of a trait's parameter, names the core (`FieldCore`), and functions name the trait
//! above it (`Field`).
//!
//! The definitions that the contracts cite are in `specs/`: rings and fields as plain data with
//! laws (`Ring`, `Field`), polynomials as lists of coefficients (`Poly`), those with given values
//! (`Newton`), cosets and their polynomials (`Domain`), and the fields (`BabyBear`, `Quartic`,
//! `Gf256`). `specs/Laws` has what is proved of them.
#![tactic(auto)]

ghost use Rattle.std.specs.Prelude.{◌≡◌, ℕ, ◌+◌, ◌-◌, ◌*◌, ◌/◌, ◌%◌, ◌^◌, ◌<◌, ◌≤◌, length, get_or, List, Bool, true, IsTrue, ◌↔◌, IfOk, cond, if◌then◌else◌, MatchOption, IsSome, map};
ghost use Rattle.std.specs.List.{flat_map};
ghost use prog.Memory.{size, align};
ghost use denote.Param.{layout};
ghost use Rattle.p3_field.specs.Ring.{Ring, RingLaws, pow, of_nat, sub};
ghost use Rattle.p3_field.specs.Field.{FieldLaws, RingHom, TwoAdicLaws, VectorLaws, combine};

use std::alloc::{AllocError, Global};
use std::ops::{Add, Mul, Neg, Sub};

mod baby_bear;
mod coset;
mod generic;
mod gf256;
pub mod meanings;
mod own;
mod quartic;

pub use baby_bear::BabyBear;
pub use coset::TwoAdicMultiplicativeCoset;
pub use gf256::Gf256;
pub use quartic::QuarticExtension;

/// A result whose only error is running out of memory (not in Plonky3).
pub type Mem<T> = Result<T, AllocError>;

/// A commutative ring without its operators: the core of `PrimeCharacteristicRing`.
///
/// `ring` gives the operations as data, and every value of the type meets `ring_laws`.
pub trait RingCore: Copy {
    // Zero, one, sums, products and opposites as data.
    ghost ring: { Ring Self };

    // The constants, as the clauses name them.
    ghost ZERO: { Self };

    ghost ONE: { Self };

    ghost TWO: { Self };

    /// Zero.
    const ZERO: Self;

    /// One.
    const ONE: Self;

    /// One plus one, which is zero in characteristic two.
    const TWO: Self;

    /// One for true, zero for false.
    fn from_bool(b: bool) -> Self
        ensures { result ≡ cond b ring.one ring.zero };

    /// The sum of `n` ones.
    fn from_u16(n: u16) -> Self
        ensures { result ≡ of_nat ring n };

    /// The sum of `n` ones.
    fn from_u64(n: u64) -> Self
        ensures { result ≡ of_nat ring n };

    // The operations are those of a commutative ring.
    ghost ring_laws: { RingLaws ring };

    // A copy is the value itself.
    ghost clones_are_copies: { (x y : Self) → Self.is_clone x y → y ≡ x };

    // The constants are the ring's zero and one, and two is the sum of two ones.
    ghost zero_is: { ZERO ≡ ring.zero };

    ghost one_is: { ONE ≡ ring.one };

    ghost two_is: { TWO ≡ ring.add ring.one ring.one };

    // Generic code keeps values in arrays: one of 1,024 values takes less than 2^63 bytes, also where each stands
    // beside a number of 32 bits.
    ghost arrays_fit: { 1024 * (size (layout Self.row) + align (layout Self.row)) < 2 ^ 62 };
}

/// A field without its operators: the core of `Field`.
pub trait FieldCore: RingCore + Eq {
    // The constant, as the clauses name it.
    ghost GENERATOR: { Self };

    // The inverse; of zero it is some value, which no call answers.
    ghost inv: { Self → Self };

    /// A fixed value that isn't zero, by which a coset is shifted off its subgroup
    /// (`Field::GENERATOR` of `p3-field`, which generates the multiplicative group). That it lies outside of each two-adic
    /// subgroup is a law for `BabyBear` (`baby_bear_31_power`), and none of this trait.
    const GENERATOR: Self;

    /// Whether this is zero.
    fn is_zero(&self) -> bool
        ensures { IsTrue result ↔ (self.now ≡ Self.ring.zero) };

    /// The inverse; None exactly for zero.
    fn try_inverse(&self) -> Option<Self>
        ensures { MatchOption result (self.now ≡ Self.ring.zero)
            (λ y. (y ≡ inv self.now) × ((self.now ≡ Self.ring.zero) → ⊥)) };

    /// The inverse of a value that isn't zero (test: `is_zero`).
    fn inverse(&self) -> Self
        requires { (self.now ≡ Self.ring.zero) → ⊥ }
        ensures { result ≡ inv self.now };

    // One isn't zero, and a value that isn't zero times its inverse is one.
    ghost field_laws: { FieldLaws Self.ring inv };

    // The generator isn't zero.
    ghost generator_not_zero: { GENERATOR ≡ Self.ring.zero → ⊥ };

    // Values that `==` tells equal are one.
    ghost eq_same: { (x y : Self) → Self.eq x y ≡ true → x ≡ y };

    // A value equals itself.
    ghost same_eq: { (x : Self) → Self.eq x x ≡ true };
}

/// A prime field of less than 2^64 elements without its operators: the core of `PrimeField64`.
pub trait PrimeCore64: FieldCore {
    // The constant, as the clauses name it.
    ghost ORDER_U64: { ℕ };

    // The number of a value.
    ghost canonical: { Self → ℕ };

    /// The number of elements.
    const ORDER_U64: u64;

    /// The only number below `ORDER_U64` of which `from_u64` gives this value.
    fn as_canonical_u64(&self) -> u64
        ensures { result ≡ canonical self.now };

    // The number is below the order.
    ghost canonical_below: { (x : Self) → canonical x < ORDER_U64 };

    // The number gives the value back.
    ghost of_canonical: { (x : Self) → of_nat Self.ring (canonical x) ≡ x };

    // Numbers are taken modulo the order.
    ghost canonical_of: { (n : ℕ) → canonical (of_nat Self.ring n) ≡ n % ORDER_U64 };
}

/// A field with subgroups of size 2^k, without its operators: the core of `TwoAdicField`.
pub trait TwoAdicCore: FieldCore {
    // The constant, as the clauses name it.
    ghost TWO_ADICITY: { ℕ };

    // The generator of the subgroup of size 2^k.
    ghost root: { ℕ → Self };

    /// The logarithm to base 2 of the size of the largest such subgroup; it is below 64.
    const TWO_ADICITY: usize;

    /// The generator of the subgroup of size 2^`bits`, for `bits` up to `TWO_ADICITY`: generator 0
    /// is one, generator 1 is minus one, and the square of generator k+1 is generator k.
    fn two_adic_generator(bits: usize) -> Self
        requires { bits ≤ TWO_ADICITY }
        ensures { result ≡ root bits };

    // A size fits 64 bits.
    ghost below_64: { TWO_ADICITY < 64 };

    // Generator 0 is one, generator 1 minus one, which isn't one, and the square of each is the one before.
    ghost root_laws: { TwoAdicLaws Self.ring TWO_ADICITY root };
}

/// A commutative ring with its operators (`PrimeCharacteristicRing` of `p3-field`): `+`, `-`, `*`
/// and unary `-` may be used at all values, and are the operations of `ring`.
pub trait PrimeCharacteristicRing: RingCore
    + Add<Self, Output = Self>
    + Sub<Self, Output = Self>
    + Mul<Self, Output = Self>
    + Neg<Output = Self> {
    /// The product with itself.
    fn square(self) -> Self
        ensures { result ≡ Self.ring.mul self self }
    {
        self * self
    }

    /// The product of `n` factors `self`: one for `n` = 0.
    final fn exp_u64(self, n: u64) -> Self
        ensures { result ≡ pow Self.ring self n }
    {
        generic::power(self, n)
    }

    /// The power 2^`k`, by `k` squarings.
    final fn exp_power_of_2(self, k: usize) -> Self
        ensures { result ≡ pow Self.ring self (2 ^ k) }
    {
        generic::repeated_square(self, k)
    }

    // Any two values have a sum, and it is the ring's; likewise the difference, the product and the opposite.
    ghost may_add: { (x y : Self) → Self.can_add x y };

    ghost adds: { (x y r : Self) → Self.add_gives x y r → r ≡ Self.ring.add x y };

    ghost may_sub: { (x y : Self) → Self.can_sub x y };

    ghost subs: { (x y r : Self) → Self.sub_gives x y r → r ≡ sub Self.ring x y };

    ghost may_mul: { (x y : Self) → Self.can_mul x y };

    ghost muls: { (x y r : Self) → Self.mul_gives x y r → r ≡ Self.ring.mul x y };

    ghost may_neg: { (x : Self) → Self.can_neg x };

    ghost negs: { (x r : Self) → Self.neg_gives x r → r ≡ Self.ring.neg x };
}

/// A field (`Field` of `p3-field`).
pub trait Field: FieldCore + PrimeCharacteristicRing {}

impl<T: FieldCore + PrimeCharacteristicRing> Field for T {}

/// A prime field of less than 2^64 elements (`PrimeField64` of `p3-field`).
pub trait PrimeField64: Field + PrimeCore64 {}

impl<T: Field + PrimeCore64> PrimeField64 for T {}

/// A field with subgroups of size 2^k for k up to `TWO_ADICITY` (`TwoAdicField` of `p3-field`).
pub trait TwoAdicField: Field + TwoAdicCore {}

impl<T: Field + TwoAdicCore> TwoAdicField for T {}

/// Values with `DIMENSION` coefficients in the field `F` (`BasedVectorSpace` of `p3-field`).
///
/// `coefficients` is a value's list of coefficients, and `from_coefficients` the value of such a list.
pub trait BasedVectorSpace<F: FieldCore>: Copy {
    // The constant, as the clauses name it.
    ghost DIMENSION: { ℕ };

    // A value's coefficients, in basis order.
    ghost coefficients: { Self → List F };

    // The value of a list of coefficients.
    ghost from_coefficients: { List F → Self };

    /// The number of coefficients; it isn't zero.
    const DIMENSION: usize;

    /// Coefficient `i`, for `i` below `DIMENSION`.
    fn basis_coefficient(&self, i: usize) -> F
        requires { i < DIMENSION }
        ensures { result ≡ get_or (coefficients self.now) i F.ring.zero };

    /// The coefficients of the first value, then those of the second, and so on.
    fn flatten_to_base(alloc: Global, values: &[Self]) -> Mem<Vec<F>>
        ensures { IfOk result (λ v. v.items ≡ flat_map coefficients values.now) };

    /// The values of which `flatten_to_base` gives `values`, whose number is a multiple of
    /// `DIMENSION`.
    fn reconstitute_from_base(alloc: Global, values: &[F]) -> Mem<Vec<Self>>
        requires { length values.now % DIMENSION ≡ 0 }
        ensures { IfOk result (λ v. flat_map coefficients v.items ≡ values.now) };

    // Each value has one list of `DIMENSION` coefficients, each such list one value, and there is a coefficient.
    ghost vector_laws: { VectorLaws DIMENSION coefficients from_coefficients };
}

/// A field above `F` with a basis of `DIMENSION` elements (`ExtensionField` of `p3-field`).
///
/// `embed` takes a value of `F` to this field, `basis` gives the basis, and each value is the sum
/// of its coefficients times the basis elements.
pub trait ExtensionField<F: FieldCore>: Field + BasedVectorSpace<F> {
    // The value of this field that a value of the base is.
    ghost embed: { F → Self };

    // Basis element i.
    ghost basis: { ℕ → Self };

    /// A value of the base as a value of this field; sums and products are kept.
    fn from_base(x: F) -> Self
        ensures { result ≡ embed x };

    /// The sum of `c[i]` times basis element i; None exactly where the number of coefficients
    /// isn't `DIMENSION`.
    fn from_ext_basis_coefficients(c: &[Self]) -> Option<Self>
        ensures { MatchOption result (length c.now ≡ Self.DIMENSION → ⊥)
            (λ y. (length c.now ≡ Self.DIMENSION) × (y ≡ combine Self.ring basis 0 c.now)) };

    // Zero, one, sums and products of the base are kept.
    ghost embed_laws: { RingHom F.ring Self.ring embed };

    // A value is the sum of its coefficients times the basis elements.
    ghost basis_laws: { (x : Self)
        → combine Self.ring basis 0 (map embed (Self.coefficients x)) ≡ x };
}
