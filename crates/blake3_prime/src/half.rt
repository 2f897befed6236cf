//! Half a step as constraints.
ghost use Rattle.std.specs.Prelude.{◌≡◌, ◌+◌, ◌^◌, ◌<◌, ◌≤◌, IfOk, IsOk, IsTrue};
ghost use Rattle.air_gadgets.specs.Gadgets.{add2_trees, add3_trees, xor_shift_trees};
ghost use Rattle.air_core.specs.Appended.{Appended, AppendedSome, OnFailure};
ghost use Rattle.blake3_prime.specs.Trees.{from_column, packed_limbs, half_trees};

use crate::places::Columns;
use crate::reading::{limbs_at, packed_at};
use air_core::AirBuilder;
use air_gadgets::{add2, add3, xor_32_shift};
use blake3_compress::bits_at;
use p3_field::Mem;

// Asserts that the word by limbs at `sum` is that at `a` and those by bits at `b` and `message`, modulo 2^32.
fn assert_sum_of_three<AB: AirBuilder>(
    builder: &mut AB,
    sum: usize,
    a: usize,
    b: usize,
    message: usize,
) -> Mem<()>
    requires wide { 9168 ≤ (AB.shape builder.old).main }
    requires within_sum { sum + 2 ≤ 9168 }
    requires within_a { a + 2 ≤ 9168 }
    requires within_b { b + 32 ≤ 9168 }
    requires within_message { message + 32 ≤ 9168 }
    ensures later { AB.later builder.old builder.new }
    ensures keeps_shape { AB.shape builder.new ≡ AB.shape builder.old }
    ensures answers { IsTrue AB.never_fails → IsOk result }
    ensures appends { IfOk result (λ _. Appended AB.appends builder.old builder.new
        (add3_trees AB.F.ring (from_column sum) (from_column a)
        (packed_limbs AB.F.ring (from_column b)) (packed_limbs AB.F.ring (from_column message)))) }
    ensures on_error { OnFailure result
        (AppendedSome AB.appends builder.old builder.new
        (add3_trees AB.F.ring (from_column sum) (from_column a)
        (packed_limbs AB.F.ring (from_column b)) (packed_limbs AB.F.ring (from_column message)))) }
{
    let all = limbs_at(builder, sum)?;
    let first = limbs_at(builder, a)?;
    let second = packed_at(builder, b)?;
    let third = packed_at(builder, message)?;
    add3(builder, all, first, second, third)?;
    Ok(())
}

// Asserts that the word by limbs at `sum` is that at `c` and that by bits at `d`, modulo 2^32.
fn assert_sum_of_two<AB: AirBuilder>(builder: &mut AB, sum: usize, c: usize, d: usize) -> Mem<()>
    requires wide { 9168 ≤ (AB.shape builder.old).main }
    requires within_sum { sum + 2 ≤ 9168 }
    requires within_c { c + 2 ≤ 9168 }
    requires within_d { d + 32 ≤ 9168 }
    ensures later { AB.later builder.old builder.new }
    ensures keeps_shape { AB.shape builder.new ≡ AB.shape builder.old }
    ensures answers { IsTrue AB.never_fails → IsOk result }
    ensures appends { IfOk result
        (λ _. Appended AB.appends builder.old builder.new
        (add2_trees AB.F.ring (from_column sum) (from_column c)
        (packed_limbs AB.F.ring (from_column d)))) }
    ensures on_error { OnFailure result
        (AppendedSome AB.appends builder.old builder.new
        (add2_trees AB.F.ring (from_column sum) (from_column c)
        (packed_limbs AB.F.ring (from_column d)))) }
{
    let all = limbs_at(builder, sum)?;
    let first = limbs_at(builder, c)?;
    let second = packed_at(builder, d)?;
    add2(builder, all, first, second)?;
    Ok(())
}

// Asserts that the cells at `turned` are bits and that the word by limbs at `a` is that by bits at `d` xor theirs, turned to
// the left by s.
pub fn assert_turned<AB: AirBuilder>(
    builder: &mut AB,
    a: usize,
    d: usize,
    turned: usize,
    s: usize,
) -> Mem<()>
    requires wide { 9168 ≤ (AB.shape builder.old).main }
    requires within_a { a + 2 ≤ 9168 }
    requires within_d { d + 32 ≤ 9168 }
    requires within_turned { turned + 32 ≤ 9168 }
    ensures later { AB.later builder.old builder.new }
    ensures keeps_shape { AB.shape builder.new ≡ AB.shape builder.old }
    ensures answers { IsTrue AB.never_fails → IsOk result }
    ensures appends { IfOk result
        (λ _. Appended AB.appends builder.old builder.new
        (xor_shift_trees AB.F.ring (from_column a) (from_column d) (from_column turned) s)) }
    ensures on_error { OnFailure result
        (AppendedSome AB.appends builder.old builder.new
        (xor_shift_trees AB.F.ring (from_column a) (from_column d) (from_column turned) s)) }
{
    let limbs = limbs_at(builder, a)?;
    let bits = bits_at(builder, d)?;
    let others = bits_at(builder, turned)?;
    xor_32_shift(builder, limbs, bits, others, s)?;
    Ok(())
}

// Asserts that half a step with a message word, which turns d by s and b by t, leads from some words to others.
pub fn assert_half<AB: AirBuilder>(
    builder: &mut AB,
    s: usize,
    t: usize,
    before: Columns,
    message: usize,
    after: Columns,
) -> Mem<()>
    requires wide { 9168 ≤ (AB.shape builder.old).main }
    requires within_before_a { before.a + 2 ≤ 9168 }
    requires within_before_b { before.b + 32 ≤ 9168 }
    requires within_before_c { before.c + 2 ≤ 9168 }
    requires within_before_d { before.d + 32 ≤ 9168 }
    requires within_after_a { after.a + 2 ≤ 9168 }
    requires within_after_b { after.b + 32 ≤ 9168 }
    requires within_after_c { after.c + 2 ≤ 9168 }
    requires within_after_d { after.d + 32 ≤ 9168 }
    requires within_message { message + 32 ≤ 9168 }
    ensures later { AB.later builder.old builder.new }
    ensures keeps_shape { AB.shape builder.new ≡ AB.shape builder.old }
    ensures answers { IsTrue AB.never_fails → IsOk result }
    ensures appends { IfOk result (λ _. Appended AB.appends builder.old builder.new
        (half_trees AB.F.ring s t (from_column before.a) (from_column before.b)
        (from_column before.c) (from_column before.d) (from_column message) (from_column after.a)
        (from_column after.b) (from_column after.c) (from_column after.d))) }
    ensures on_error { OnFailure result
        (AppendedSome AB.appends builder.old builder.new
        (half_trees AB.F.ring s t (from_column before.a) (from_column before.b)
        (from_column before.c) (from_column before.d) (from_column message) (from_column after.a)
        (from_column after.b) (from_column after.c) (from_column after.d))) }
{
    assert_sum_of_three(builder, after.a, before.a, before.b, message)?;
    assert_turned(builder, after.a, before.d, after.d, s)?;
    assert_sum_of_two(builder, after.c, before.c, after.d)?;
    assert_turned(builder, after.c, before.b, after.b, t)?;
    Ok(())
}
