//! Sums of words by bits as constraints, where one and one is zero. Each function takes the bits as expressions.
ghost use Rattle.std.specs.Prelude.{◌≡◌, ℕ, suc, ◌+◌, ◌-◌, ◌%◌, ◌<◌, [], ◌∷◌, IfOk, OnErr, IsOk, IsTrue};
ghost use Rattle.p3_field.specs.Poly.{tabulate};
ghost use Rattle.air_core.specs.Clauses.{GivesOfThree, GivesOfTwo};
ghost use Rattle.air_core.specs.Tree.{Tree, sum, product, over_base};
ghost use Rattle.air_gadgets.specs.Gadgets.{RepresentAt};
ghost use Rattle.air_core.specs.Appended.{Appended, AppendedSome, OnFailure};
ghost use Rattle.blake3_binary.specs.Clauses.{AppendedOfThree, AppendedSomeOfThree};
ghost use Rattle.blake3_binary.specs.Sums.{majority, carry_in, with_carries, carries_trees, sum2_trees, sum3_trees, turned};

use air_core::AirBuilder;
use p3_field::Mem;

// (x + z) (y + z) + z.
fn majority<AB: AirBuilder>(
    builder: &mut AB,
    x: AB::Expr,
    y: AB::Expr,
    z: AB::Expr,
) -> Mem<AB::Expr>
    ensures later { AB.later builder.old builder.new }
    ensures keeps_shape { AB.shape builder.new ≡ AB.shape builder.old }
    ensures answers { IsTrue AB.never_fails → IsOk result }
    ensures appends { AB.appends builder.old builder.new [] [] }
    ensures represents { GivesOfThree (AB.represents builder.old) x y z (AB.represents builder.new)
        majority result }
{
    let first = builder.add(x, z)?;
    let second = builder.add(y, z)?;
    let both = builder.mul(first, second)?;
    let all = builder.add(both, z)?;
    Ok(all)
}

// x + y + z.
fn sum_of_three<AB: AirBuilder>(
    builder: &mut AB,
    x: AB::Expr,
    y: AB::Expr,
    z: AB::Expr,
) -> Mem<AB::Expr>
    ensures later { AB.later builder.old builder.new }
    ensures keeps_shape { AB.shape builder.new ≡ AB.shape builder.old }
    ensures answers { IsTrue AB.never_fails → IsOk result }
    ensures appends { AB.appends builder.old builder.new [] [] }
    ensures represents { GivesOfThree (AB.represents builder.old) x y z (AB.represents builder.new)
        (λ s t u. sum (sum s t) u) result }
{
    let first = builder.add(x, y)?;
    let all = builder.add(first, z)?;
    Ok(all)
}

/// The bits of x xor (y turned to the left by s), as sums.
pub fn turned_bits<AB: AirBuilder>(
    builder: &mut AB,
    x: [AB::Expr; 32],
    y: [AB::Expr; 32],
    s: usize,
) -> Mem<[AB::Expr; 32]>
    ensures later { AB.later builder.old builder.new }
    ensures keeps_shape { AB.shape builder.new ≡ AB.shape builder.old }
    ensures answers { IsTrue AB.never_fails → IsOk result }
    ensures appends { AB.appends builder.old builder.new [] [] }
    ensures represents { GivesOfTwo (RepresentAt (AB.represents builder.old)) x y
        (RepresentAt (AB.represents builder.new)) (λ t u. turned t u s) result }
{
    let mut bits = [x[0]; 32];
    for i in 0..32 {
        bits[i] = builder.add(x[i], y[(i + (32 - s % 32)) % 32])?;
    }
    Ok(bits)
}

// The carries into the places of x + y, where s is the sum.
fn carries_in<AB: AirBuilder>(
    builder: &mut AB,
    x: [AB::Expr; 32],
    y: [AB::Expr; 32],
    s: [AB::Expr; 32],
) -> Mem<[AB::Expr; 32]>
    ensures later { AB.later builder.old builder.new }
    ensures keeps_shape { AB.shape builder.new ≡ AB.shape builder.old }
    ensures answers { IsTrue AB.never_fails → IsOk result }
    ensures appends { AB.appends builder.old builder.new [] [] }
    ensures represents { GivesOfThree (RepresentAt (AB.represents builder.old)) x y s
        (RepresentAt (AB.represents builder.new)) carry_in result }
{
    let mut carries = [s[0]; 32];
    for i in 0..32 {
        carries[i] = sum_of_three(builder, s[i], x[i], y[i])?;
    }
    Ok(carries)
}

// The sum of x and y at place i, with the carry into that place from 1 on.
fn carried_bit<AB: AirBuilder>(
    builder: &mut AB,
    x: &[AB::Expr; 32],
    y: &[AB::Expr; 32],
    k: &[AB::Expr; 31],
    i: usize,
) -> Mem<AB::Expr>
    requires { i < 32 }
    ensures later { AB.later builder.old builder.new }
    ensures keeps_shape { AB.shape builder.new ≡ AB.shape builder.old }
    ensures answers { IsTrue AB.never_fails → IsOk result }
    ensures appends { AB.appends builder.old builder.new [] [] }
    ensures represents { GivesOfThree (RepresentAt (AB.represents builder.old)) x.now y.now k.now
        (AB.represents builder.new) (λ t u v. with_carries t u v i) result }
{
    if i == 0 {
        builder.add(x[0], y[0])
    } else {
        sum_of_three(builder, x[i], y[i], k[i - 1])
    }
}

// The sum of x and y bit by bit, with the carries k into places 1 to 31.
fn carried_bits<AB: AirBuilder>(
    builder: &mut AB,
    x: [AB::Expr; 32],
    y: [AB::Expr; 32],
    k: [AB::Expr; 31],
) -> Mem<[AB::Expr; 32]>
    ensures later { AB.later builder.old builder.new }
    ensures keeps_shape { AB.shape builder.new ≡ AB.shape builder.old }
    ensures answers { IsTrue AB.never_fails → IsOk result }
    ensures appends { AB.appends builder.old builder.new [] [] }
    ensures represents { GivesOfThree (RepresentAt (AB.represents builder.old)) x y k
        (RepresentAt (AB.represents builder.new)) with_carries result }
{
    let mut bits = [x[0]; 32];
    for i in 0..32 {
        bits[i] = carried_bit(builder, &x, &y, &k, i)?;
    }
    Ok(bits)
}

// Asserts that the carry out of a place is the majority of its bits and the carry into it.
fn assert_next<AB: AirBuilder>(
    builder: &mut AB,
    x: AB::Expr,
    y: AB::Expr,
    carry: AB::Expr,
    next: AB::Expr,
) -> Mem<()>
    ensures later { AB.later builder.old builder.new }
    ensures keeps_shape { AB.shape builder.new ≡ AB.shape builder.old }
    ensures answers { IsTrue AB.never_fails → IsOk result }
    ensures appends { (s t u v : Tree AB.F) → AB.represents builder.old x s
        → AB.represents builder.old y t → AB.represents builder.old carry u
        → AB.represents builder.old next v
        → IfOk result (λ _. AB.appends builder.old builder.new
        (over_base (sum (majority s t u) v) ∷ []) []) }
    ensures on_error { OnErr result (AB.appends builder.old builder.new [] []) }
{
    let both = majority(builder, x, y, carry)?;
    let all = builder.add(both, next)?;
    builder.assert_zero(all)?;
    Ok(())
}

// Asserts the carries into places 1 to 31 of x + y.
fn assert_carries_in<AB: AirBuilder>(
    builder: &mut AB,
    x: [AB::Expr; 32],
    y: [AB::Expr; 32],
    carries: [AB::Expr; 32],
) -> Mem<()>
    ensures later { AB.later builder.old builder.new }
    ensures keeps_shape { AB.shape builder.new ≡ AB.shape builder.old }
    ensures answers { IsTrue AB.never_fails → IsOk result }
    ensures appends { AppendedOfThree (RepresentAt (AB.represents builder.old)) x y carries
        (Appended AB.appends builder.old builder.new)
        (λ t u v. tabulate 31 (λ i. sum (majority (t i) (u i) (v i)) (v (suc i)))) result }
    ensures on_error { AppendedSomeOfThree (RepresentAt (AB.represents builder.old)) x y carries
        (AppendedSome AB.appends builder.old builder.new)
        (λ t u v. tabulate 31 (λ i. sum (majority (t i) (u i) (v i)) (v (suc i)))) result }
{
    for i in 0..31 {
        assert_next(builder, x[i], y[i], carries[i], carries[i + 1])?;
    }
    Ok(())
}

/// Asserts that s is x + y modulo 2^32, each by its bits: no carry comes into place 0, and into each other place the carry of
/// the place below. Where s is the sum, s + x + y at a place is the carry into it.
pub fn assert_sum2<AB: AirBuilder>(
    builder: &mut AB,
    x: [AB::Expr; 32],
    y: [AB::Expr; 32],
    s: [AB::Expr; 32],
) -> Mem<()>
    ensures later { AB.later builder.old builder.new }
    ensures keeps_shape { AB.shape builder.new ≡ AB.shape builder.old }
    ensures answers { IsTrue AB.never_fails → IsOk result }
    ensures appends { AppendedOfThree (RepresentAt (AB.represents builder.old)) x y s
        (Appended AB.appends builder.old builder.new) sum2_trees result }
    ensures on_error { AppendedSomeOfThree (RepresentAt (AB.represents builder.old)) x y s
        (AppendedSome AB.appends builder.old builder.new) sum2_trees result }
{
    let carries = carries_in(builder, x, y, s)?;
    builder.assert_zero(carries[0])?;
    assert_carries_in(builder, x, y, carries)?;
    Ok(())
}

// Asserts that k has the carry of x + y into place 1.
fn assert_first_carry<AB: AirBuilder>(
    builder: &mut AB,
    x: AB::Expr,
    y: AB::Expr,
    carry: AB::Expr,
) -> Mem<()>
    ensures later { AB.later builder.old builder.new }
    ensures keeps_shape { AB.shape builder.new ≡ AB.shape builder.old }
    ensures answers { IsTrue AB.never_fails → IsOk result }
    ensures appends { (s t u : Tree AB.F) → AB.represents builder.old x s
        → AB.represents builder.old y t → AB.represents builder.old carry u
        → IfOk result (λ _. AB.appends builder.old builder.new
        (over_base (sum (product s t) u) ∷ []) []) }
    ensures on_error { OnErr result (AB.appends builder.old builder.new [] []) }
{
    let both = builder.mul(x, y)?;
    let all = builder.add(both, carry)?;
    builder.assert_zero(all)?;
    Ok(())
}

// Asserts that k has the carries of x + y into places 2 to 31.
fn assert_later_carries<AB: AirBuilder>(
    builder: &mut AB,
    x: [AB::Expr; 32],
    y: [AB::Expr; 32],
    k: [AB::Expr; 31],
) -> Mem<()>
    ensures later { AB.later builder.old builder.new }
    ensures keeps_shape { AB.shape builder.new ≡ AB.shape builder.old }
    ensures answers { IsTrue AB.never_fails → IsOk result }
    ensures appends { AppendedOfThree (RepresentAt (AB.represents builder.old)) x y k
        (Appended AB.appends builder.old builder.new)
        (λ t u v. tabulate 30 (λ i. sum (majority (t (suc i)) (u (suc i)) (v i)) (v (suc i))))
        result }
    ensures on_error { AppendedSomeOfThree (RepresentAt (AB.represents builder.old)) x y k
        (AppendedSome AB.appends builder.old builder.new)
        (λ t u v. tabulate 30 (λ i. sum (majority (t (suc i)) (u (suc i)) (v i)) (v (suc i))))
        result }
{
    for i in 0..30 {
        assert_next(builder, x[i + 1], y[i + 1], k[i], k[i + 1])?;
    }
    Ok(())
}

// Asserts that k has the carries of x + y into places 1 to 31.
fn assert_carries<AB: AirBuilder>(
    builder: &mut AB,
    x: [AB::Expr; 32],
    y: [AB::Expr; 32],
    k: [AB::Expr; 31],
) -> Mem<()>
    ensures later { AB.later builder.old builder.new }
    ensures keeps_shape { AB.shape builder.new ≡ AB.shape builder.old }
    ensures answers { IsTrue AB.never_fails → IsOk result }
    ensures appends { AppendedOfThree (RepresentAt (AB.represents builder.old)) x y k
        (Appended AB.appends builder.old builder.new) carries_trees result }
    ensures on_error { AppendedSomeOfThree (RepresentAt (AB.represents builder.old)) x y k
        (AppendedSome AB.appends builder.old builder.new) carries_trees result }
{
    assert_first_carry(builder, x[0], y[0], k[0])?;
    assert_later_carries(builder, x, y, k)?;
    Ok(())
}

/// Asserts that k has the carries of x + y into places 1 to 31, and that s is x + y + z modulo 2^32, each by its bits.
pub fn assert_sum3<AB: AirBuilder>(
    builder: &mut AB,
    x: [AB::Expr; 32],
    y: [AB::Expr; 32],
    z: [AB::Expr; 32],
    k: [AB::Expr; 31],
    s: [AB::Expr; 32],
) -> Mem<()>
    ensures later { AB.later builder.old builder.new }
    ensures keeps_shape { AB.shape builder.new ≡ AB.shape builder.old }
    ensures answers { IsTrue AB.never_fails → IsOk result }
    ensures appends { (t u v w p : ℕ → Tree AB.F) → RepresentAt (AB.represents builder.old) x t
        → RepresentAt (AB.represents builder.old) y u → RepresentAt (AB.represents builder.old) z v
        → RepresentAt (AB.represents builder.old) k w → RepresentAt (AB.represents builder.old) s p
        → IfOk result (λ _. Appended AB.appends builder.old builder.new (sum3_trees t u v w p)) }
    ensures on_error { (t u v w p : ℕ → Tree AB.F) → RepresentAt (AB.represents builder.old) x t
        → RepresentAt (AB.represents builder.old) y u → RepresentAt (AB.represents builder.old) z v
        → RepresentAt (AB.represents builder.old) k w → RepresentAt (AB.represents builder.old) s p
        → OnFailure result (AppendedSome AB.appends builder.old builder.new
        (sum3_trees t u v w p)) }
{
    assert_carries(builder, x, y, k)?;
    let both = carried_bits(builder, x, y, k)?;
    assert_sum2(builder, both, z, s)?;
    Ok(())
}
