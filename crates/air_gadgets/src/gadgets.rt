//! Gadgets on words of 32 bits (`utils` of Plonky3's `p3-air`).
//!
//! A word is given by its two limbs of 16 bits or by its 32 bits, the lowest first.
ghost use Rattle.std.specs.Prelude.{◌≡◌, ℕ, ◌+◌, ◌-◌, ◌*◌, ◌%◌, ◌^◌, ◌<◌, [], IfOk, OnErr, IsOk, IsTrue, length};
ghost use Rattle.air_core.specs.Clauses.{GivesOfOne, GivesOfTwo, GivesOfThree, AppendsOfOne, AppendsEachOfThree, AppendsSomeOfThree, AppendsEachOfFour, AppendsSomeOfFour};
ghost use Rattle.air_core.specs.Tree.{Tree, sum, product, over_base};
ghost use Rattle.air_gadgets.specs.Gadgets.{RepresentAt, number, difference_of_three, difference_of_four, with_high, zero_or_minus, zero_to_minus_twice, add2_trees, add3_trees, packed_bits, xor_tree, xor_shift_bit, xor_shift_trees, word_bits};

use air_core::AirBuilder;
use p3_field::{Mem, PrimeCharacteristicRing, RingCore};

// x - y - z.
fn difference_of_three<AB: AirBuilder>(
    builder: &mut AB,
    x: AB::Expr,
    y: AB::Expr,
    z: AB::Expr,
) -> Mem<AB::Expr>
    ensures later { AB.later builder.old builder.new }
    ensures keeps_shape { AB.shape builder.new ≡ AB.shape builder.old }
    ensures answers { IsTrue AB.never_fails → IsOk result }
    ensures appends { AB.appends builder.old builder.new [] [] }
    ensures represents { GivesOfThree (AB.represents builder.old) x y z (AB.represents builder.new)
        difference_of_three result }
{
    let first = builder.sub(x, y)?;
    builder.sub(first, z)
}

// x - y - z - w.
fn difference_of_four<AB: AirBuilder>(
    builder: &mut AB,
    x: AB::Expr,
    y: AB::Expr,
    z: AB::Expr,
    w: AB::Expr,
) -> Mem<AB::Expr>
    ensures later { AB.later builder.old builder.new }
    ensures keeps_shape { AB.shape builder.new ≡ AB.shape builder.old }
    ensures answers { IsTrue AB.never_fails → IsOk result }
    ensures appends { AB.appends builder.old builder.new [] [] }
    ensures represents { (s t u v : Tree AB.F) → AB.represents builder.old x s
        → AB.represents builder.old y t → AB.represents builder.old z u
        → AB.represents builder.old w v
        → IfOk result (λ e. AB.represents builder.new e (difference_of_four s t u v)) }
{
    let first = difference_of_three(builder, x, y, z)?;
    builder.sub(first, w)
}

// low + 2^16 high.
fn with_high<AB: AirBuilder>(builder: &mut AB, low: AB::Expr, high: AB::Expr) -> Mem<AB::Expr>
    ensures later { AB.later builder.old builder.new }
    ensures keeps_shape { AB.shape builder.new ≡ AB.shape builder.old }
    ensures answers { IsTrue AB.never_fails → IsOk result }
    ensures appends { AB.appends builder.old builder.new [] [] }
    ensures represents { GivesOfTwo (AB.represents builder.old) low high (AB.represents builder.new)
        (with_high AB.F.ring) result }
{
    let weight = builder.constant(<AB::F as RingCore>::from_u64(1 << 16))?;
    let weighed = builder.mul(weight, high)?;
    builder.add(low, weighed)
}

// y (x + n).
fn times_more<AB: AirBuilder>(builder: &mut AB, y: AB::Expr, x: AB::Expr, n: u64) -> Mem<AB::Expr>
    ensures later { AB.later builder.old builder.new }
    ensures keeps_shape { AB.shape builder.new ≡ AB.shape builder.old }
    ensures answers { IsTrue AB.never_fails → IsOk result }
    ensures appends { AB.appends builder.old builder.new [] [] }
    ensures represents { GivesOfTwo (AB.represents builder.old) y x (AB.represents builder.new)
        (λ s t. product s (sum t (number AB.F.ring n))) result }
{
    let carry = builder.constant(<AB::F as RingCore>::from_u64(n))?;
    let more = builder.add(x, carry)?;
    builder.mul(y, more)
}

// Asserts that x (x + n) is zero.
fn assert_zero_or_one<AB: AirBuilder>(builder: &mut AB, n: u64, x: AB::Expr) -> Mem<()>
    ensures later { AB.later builder.old builder.new }
    ensures keeps_shape { AB.shape builder.new ≡ AB.shape builder.old }
    ensures answers { IsTrue AB.never_fails → IsOk result }
    ensures appends { AppendsOfOne (AB.represents builder.old) x
        (AB.appends builder.old builder.new) (λ t. over_base (zero_or_minus AB.F.ring n t)) result }
    ensures on_error { OnErr result (AB.appends builder.old builder.new [] []) }
{
    let both = times_more(builder, x, x, n)?;
    builder.assert_zero(both)
}

// Asserts that x (x + n) (x + 2n) is zero.
fn assert_zero_to_two<AB: AirBuilder>(builder: &mut AB, n: u64, x: AB::Expr) -> Mem<()>
    requires { n < 2 ^ 63 }
    ensures later { AB.later builder.old builder.new }
    ensures keeps_shape { AB.shape builder.new ≡ AB.shape builder.old }
    ensures answers { IsTrue AB.never_fails → IsOk result }
    ensures appends { AppendsOfOne (AB.represents builder.old) x
        (AB.appends builder.old builder.new) (λ t. over_base (zero_to_minus_twice AB.F.ring n t))
        result }
    ensures on_error { OnErr result (AB.appends builder.old builder.new [] []) }
{
    let both = times_more(builder, x, x, n)?;
    let all = times_more(builder, both, x, 2 * n)?;
    builder.assert_zero(all)
}

/// Asserts that the word a is b + c modulo 2^32, where each word is given by two limbs of 16 bits, the low one first.
///
/// With acc16 = a0 - b0 - c0 and acc = acc16 + 2^16 (a1 - b1 - c1), the constraints are acc (acc + 2^32) and
/// acc16 (acc16 + 2^16), in this order. Over a prime field of more than 2^20 elements they are zero exactly for the
/// sum, where each limb is below 2^16. On an error some of the first of them were appended, and nothing else. After
/// `air_core::utils::add2`.
pub fn add2<AB: AirBuilder>(
    builder: &mut AB,
    a: [AB::Expr; 2],
    b: [AB::Expr; 2],
    c: [AB::Expr; 2],
) -> Mem<()>
    ensures later { AB.later builder.old builder.new }
    ensures keeps_shape { AB.shape builder.new ≡ AB.shape builder.old }
    ensures answers { IsTrue AB.never_fails → IsOk result }
    ensures appends { AppendsEachOfThree (RepresentAt (AB.represents builder.old)) a b c
        (AB.appends builder.old builder.new) (add2_trees AB.F.ring) result }
    ensures on_error { AppendsSomeOfThree (RepresentAt (AB.represents builder.old)) a b c
        (AB.appends builder.old builder.new) (add2_trees AB.F.ring) result }
{
    let low = difference_of_three(builder, a[0], b[0], c[0])?;
    let high = difference_of_three(builder, a[1], b[1], c[1])?;
    let whole = with_high(builder, low, high)?;
    assert_zero_or_one(builder, 1 << 32, whole)?;
    assert_zero_or_one(builder, 1 << 16, low)
}

/// Asserts that the word a is b + c + d modulo 2^32, where each word is given by two limbs of 16 bits, the low one
/// first.
///
/// With acc16 = a0 - b0 - c0 - d0 and acc = acc16 + 2^16 (a1 - b1 - c1 - d1), the constraints are
/// acc (acc + 2^32) (acc + 2^33) and acc16 (acc16 + 2^16) (acc16 + 2^17), in this order. Over a prime field of more
/// than 2^20 elements they are zero exactly for the sum, where each limb is below 2^16. On an error some of the first
/// of them were appended, and nothing else. After `air_core::utils::add3`.
pub fn add3<AB: AirBuilder>(
    builder: &mut AB,
    a: [AB::Expr; 2],
    b: [AB::Expr; 2],
    c: [AB::Expr; 2],
    d: [AB::Expr; 2],
) -> Mem<()>
    ensures later { AB.later builder.old builder.new }
    ensures keeps_shape { AB.shape builder.new ≡ AB.shape builder.old }
    ensures answers { IsTrue AB.never_fails → IsOk result }
    ensures appends { AppendsEachOfFour (RepresentAt (AB.represents builder.old)) a b c d
        (AB.appends builder.old builder.new) (add3_trees AB.F.ring) result }
    ensures on_error { AppendsSomeOfFour (RepresentAt (AB.represents builder.old)) a b c d
        (AB.appends builder.old builder.new) (add3_trees AB.F.ring) result }
{
    let low = difference_of_four(builder, a[0], b[0], c[0], d[0])?;
    let high = difference_of_four(builder, a[1], b[1], c[1], d[1])?;
    let whole = with_high(builder, low, high)?;
    assert_zero_to_two(builder, 1 << 32, whole)?;
    assert_zero_to_two(builder, 1 << 16, low)
}

/// The sum of bit i times 2^i, the lowest bit first: the number of these bits (`air_core::utils::pack_bits_le`). It appends
/// nothing, on an error neither.
pub fn pack_bits_le<AB: AirBuilder>(builder: &mut AB, bits: &[AB::Expr]) -> Mem<AB::Expr>
    ensures later { AB.later builder.old builder.new }
    ensures keeps_shape { AB.shape builder.new ≡ AB.shape builder.old }
    ensures answers { IsTrue AB.never_fails → IsOk result }
    ensures appends { AB.appends builder.old builder.new [] [] }
    ensures represents { GivesOfOne (RepresentAt (AB.represents builder.old)) bits.now
        (AB.represents builder.new) (λ t. packed_bits AB.F.ring t 0 (length bits.now)) result }
{
    let two = builder.constant(<AB::F as RingCore>::from_u64(2))?;
    let mut sum = builder.constant(<AB::F as RingCore>::from_u64(0))?;
    for i in (0..bits.len()).rev() {
        let twice = builder.mul(two, sum)?;
        sum = builder.add(bits[i], twice)?;
    }
    Ok(sum)
}

/// x + y - 2xy, over any field: of values that are zero or one their exclusive or (not in Plonky3). It appends nothing,
/// on an error neither.
pub fn xor<AB: AirBuilder>(builder: &mut AB, x: AB::Expr, y: AB::Expr) -> Mem<AB::Expr>
    ensures later { AB.later builder.old builder.new }
    ensures keeps_shape { AB.shape builder.new ≡ AB.shape builder.old }
    ensures answers { IsTrue AB.never_fails → IsOk result }
    ensures appends { AB.appends builder.old builder.new [] [] }
    ensures represents { GivesOfTwo (AB.represents builder.old) x y (AB.represents builder.new)
        (xor_tree AB.F.ring) result }
{
    let sum = builder.add(x, y)?;
    let two = builder.constant(<AB::F as RingCore>::from_u64(2))?;
    let both = builder.mul(x, y)?;
    let twice = builder.mul(two, both)?;
    let difference = builder.sub(sum, twice)?;
    Ok(difference)
}

// The bits of b xor (c rotated to the left by s).
fn xor_shift_bits<AB: AirBuilder>(
    builder: &mut AB,
    b: [AB::Expr; 32],
    c: [AB::Expr; 32],
    s: usize,
) -> Mem<[AB::Expr; 32]>
    ensures later { AB.later builder.old builder.new }
    ensures keeps_shape { AB.shape builder.new ≡ AB.shape builder.old }
    ensures answers { IsTrue AB.never_fails → IsOk result }
    ensures appends { AB.appends builder.old builder.new [] [] }
    ensures represents { GivesOfTwo (RepresentAt (AB.represents builder.old)) b c
        (RepresentAt (AB.represents builder.new)) (λ t u. xor_shift_bit AB.F.ring t u s) result }
{
    let mut bits = [b[0]; 32];
    for i in 0..32 {
        bits[i] = xor(builder, b[i], c[(i + (32 - s % 32)) % 32])?;
    }
    Ok(bits)
}

// The limbs of b xor (c rotated to the left by s), the low one first.
fn xor_shift_limbs<AB: AirBuilder>(
    builder: &mut AB,
    b: [AB::Expr; 32],
    c: [AB::Expr; 32],
    s: usize,
) -> Mem<(AB::Expr, AB::Expr)>
    ensures later { AB.later builder.old builder.new }
    ensures keeps_shape { AB.shape builder.new ≡ AB.shape builder.old }
    ensures answers { IsTrue AB.never_fails → IsOk result }
    ensures appends { AB.appends builder.old builder.new [] [] }
    ensures represents { (t u : ℕ → Tree AB.F) → RepresentAt (AB.represents builder.old) b t
        → RepresentAt (AB.represents builder.old) c u
        → IfOk result (λ p. AB.represents builder.new p.0
        (packed_bits AB.F.ring (xor_shift_bit AB.F.ring t u s) 0 16)
        × AB.represents builder.new p.1
        (packed_bits AB.F.ring (xor_shift_bit AB.F.ring t u s) 16 16)) }
{
    let bits = xor_shift_bits(builder, b, c, s)?;
    let all = &bits[..];
    let low = pack_bits_le(builder, &all[..16])?;
    let high = pack_bits_le(builder, &all[16..])?;
    Ok((low, high))
}

/// Asserts that the 32 elements of c are bits, and that the word a is b xor (c rotated to the left by s): of a there
/// are two limbs of 16 bits, of b and c 32 bits, the lowest first. A shift counts modulo 32.
///
/// The constraints are x (x - 1) for each bit x of c, then a0 and a1 minus the packed 16 bits of that half. Of bits
/// x and y the exclusive or is x + y - 2xy. On an error some of the first of them were appended, and nothing else. After
/// `air_core::utils::xor_32_shift`.
pub fn xor_32_shift<AB: AirBuilder>(
    builder: &mut AB,
    a: [AB::Expr; 2],
    b: [AB::Expr; 32],
    c: [AB::Expr; 32],
    s: usize,
) -> Mem<()>
    ensures later { AB.later builder.old builder.new }
    ensures keeps_shape { AB.shape builder.new ≡ AB.shape builder.old }
    ensures answers { IsTrue AB.never_fails → IsOk result }
    ensures appends { AppendsEachOfThree (RepresentAt (AB.represents builder.old)) a b c
        (AB.appends builder.old builder.new) (λ t u v. xor_shift_trees AB.F.ring t u v s) result }
    ensures on_error { AppendsSomeOfThree (RepresentAt (AB.represents builder.old)) a b c
        (AB.appends builder.old builder.new) (λ t u v. xor_shift_trees AB.F.ring t u v s) result }
{
    builder.assert_bools(&c)?;
    let (low, high) = xor_shift_limbs(builder, b, c, s)?;
    builder.assert_eq(a[0], low)?;
    builder.assert_eq(a[1], high)?;
    Ok(())
}

/// The 32 bits of a word as elements, the lowest first (`air_core::utils::u32_to_bits_le`).
pub fn u32_to_bits_le<F: PrimeCharacteristicRing>(word: u32) -> [F; 32]
    ensures { result ≡ word_bits F.ring word }
{
    let mut bits = [F::ZERO; 32];
    for i in 0..32 {
        bits[i] = F::from_u64((word >> i) as u64 % 2);
    }
    bits
}
