//! The steps as constraints.
ghost use Rattle.std.specs.Prelude.{◌≡◌, ◌+◌, ◌-◌, ◌*◌, ◌/◌, ◌%◌, ◌<◌, ◌≤◌, IfOk, IsOk, IsTrue};
ghost use Rattle.air_core.specs.Appended.{Appended, AppendedSome, OnFailure};
ghost use Rattle.blake3_binary.specs.Trees.{half_step_trees, binary_steps_trees};
ghost use Rattle.blake3_binary.specs.Places.{IsInRow, first_sum_trees, second_sum_trees, placed_trees, binary_step_trees};

use crate::adding::{assert_sum2, assert_sum3};
use crate::places::{a_word, b_place, c_word, d_place, half_column, message_column};
use crate::reading::carries_at;
use crate::words::{Word, turned_at, word_at};
use air_core::AirBuilder;
use blake3_compress::bits_at;
use p3_field::Mem;

// Asserts the first sum of half a step: a and b, with their carries from `cells` on, and a message word. It is d xor (d
// after it, turned to the left by s).
fn assert_first_sum<AB: AirBuilder>(
    builder: &mut AB,
    s: usize,
    a: Word,
    b: usize,
    d: usize,
    message: usize,
    cells: usize,
) -> Mem<()>
    requires wide { 11536 ≤ (AB.shape builder.old).main }
    requires within_a { IsInRow a }
    requires within_b { b + 32 ≤ 11536 }
    requires within_d { d + 32 ≤ 11536 }
    requires within_message { message + 32 ≤ 11536 }
    requires within_cells { cells + 95 ≤ 11536 }
    ensures later { AB.later builder.old builder.new }
    ensures keeps_shape { AB.shape builder.new ≡ AB.shape builder.old }
    ensures answers { IsTrue AB.never_fails → IsOk result }
    ensures appends { IfOk result
        (λ _. Appended AB.appends builder.old builder.new
        (first_sum_trees AB.F.ring s a b d message cells)) }
    ensures on_error { OnFailure result
        (AppendedSome AB.appends builder.old builder.new
        (first_sum_trees AB.F.ring s a b d message cells)) }
{
    let x = word_at(builder, a)?;
    let y = bits_at(builder, b)?;
    let z = bits_at(builder, message)?;
    let carries = carries_at(builder, cells)?;
    let sum = turned_at(builder, d, cells + 31, s)?;
    assert_sum3(builder, x, y, z, carries, sum)?;
    Ok(())
}

// Asserts the second sum of half a step: c and d after it. It is b xor (b after it, turned to the left by t).
fn assert_second_sum<AB: AirBuilder>(
    builder: &mut AB,
    t: usize,
    c: Word,
    b: usize,
    cells: usize,
) -> Mem<()>
    requires wide { 11536 ≤ (AB.shape builder.old).main }
    requires within_c { IsInRow c }
    requires within_b { b + 32 ≤ 11536 }
    requires within_cells { cells + 95 ≤ 11536 }
    ensures later { AB.later builder.old builder.new }
    ensures keeps_shape { AB.shape builder.new ≡ AB.shape builder.old }
    ensures answers { IsTrue AB.never_fails → IsOk result }
    ensures appends { IfOk result
        (λ _. Appended AB.appends builder.old builder.new
        (second_sum_trees AB.F.ring t c b cells)) }
    ensures on_error { OnFailure result
        (AppendedSome AB.appends builder.old builder.new (second_sum_trees AB.F.ring t c b cells)) }
{
    let x = word_at(builder, c)?;
    let y = bits_at(builder, cells + 31)?;
    let sum = turned_at(builder, b, cells + 63, t)?;
    assert_sum2(builder, x, y, sum)?;
    Ok(())
}

// Asserts half a step on words in these places, whose own cells stand from `cells` on.
fn assert_placed<AB: AirBuilder>(
    builder: &mut AB,
    s: usize,
    t: usize,
    a: Word,
    b: usize,
    c: Word,
    d: usize,
    message: usize,
    cells: usize,
) -> Mem<()>
    requires wide { 11536 ≤ (AB.shape builder.old).main }
    requires within_a { IsInRow a }
    requires within_b { b + 32 ≤ 11536 }
    requires within_c { IsInRow c }
    requires within_d { d + 32 ≤ 11536 }
    requires within_message { message + 32 ≤ 11536 }
    requires within_cells { cells + 95 ≤ 11536 }
    ensures later { AB.later builder.old builder.new }
    ensures keeps_shape { AB.shape builder.new ≡ AB.shape builder.old }
    ensures answers { IsTrue AB.never_fails → IsOk result }
    ensures appends { IfOk result
        (λ _. Appended AB.appends builder.old builder.new
        (placed_trees AB.F.ring s t a b c d message cells)) }
    ensures on_error { OnFailure result
        (AppendedSome AB.appends builder.old builder.new
        (placed_trees AB.F.ring s t a b c d message cells)) }
{
    assert_first_sum(builder, s, a, b, d, message, cells)?;
    assert_second_sum(builder, t, c, b, cells)?;
    Ok(())
}

// Step g of half round n.
fn assert_half_step<AB: AirBuilder>(builder: &mut AB, n: usize, g: usize) -> Mem<()>
    requires wide { 11536 ≤ (AB.shape builder.old).main }
    requires halves { n < 28 }
    requires steps { g < 4 }
    ensures later { AB.later builder.old builder.new }
    ensures keeps_shape { AB.shape builder.new ≡ AB.shape builder.old }
    ensures answers { IsTrue AB.never_fails → IsOk result }
    ensures appends { IfOk result
        (λ _. Appended AB.appends builder.old builder.new (half_step_trees AB.F.ring n g)) }
    ensures on_error { OnFailure result
        (AppendedSome AB.appends builder.old builder.new (half_step_trees AB.F.ring n g)) }
{
    let turn = n % 4 / 2;
    let a = a_word(n, g % 4);
    let b = b_place(n, (g + turn) % 4);
    let c = c_word(n, (g + 2 * turn) % 4);
    let d = d_place(n, (g + 3 * turn) % 4);
    let message = message_column(n, g);
    let cells = half_column(n, g);
    assert_placed(
        builder,
        16 - 8 * (n % 2),
        12 - 5 * (n % 2),
        a,
        b,
        c,
        d,
        message,
        cells,
    )?;
    Ok(())
}

// Step k of the 56.
fn assert_step<AB: AirBuilder>(builder: &mut AB, k: usize) -> Mem<()>
    requires wide { 11536 ≤ (AB.shape builder.old).main }
    requires steps { k < 56 }
    ensures later { AB.later builder.old builder.new }
    ensures keeps_shape { AB.shape builder.new ≡ AB.shape builder.old }
    ensures answers { IsTrue AB.never_fails → IsOk result }
    ensures appends { IfOk result
        (λ _. Appended AB.appends builder.old builder.new (binary_step_trees AB.F.ring k)) }
    ensures on_error { OnFailure result
        (AppendedSome AB.appends builder.old builder.new (binary_step_trees AB.F.ring k)) }
{
    for h in 0..2 {
        assert_half_step(builder, 2 * (k / 4) + h, k % 4)?;
    }
    Ok(())
}

/// Appends the constraints of the steps.
pub fn assert_steps<AB: AirBuilder>(builder: &mut AB) -> Mem<()>
    requires wide { 11536 ≤ (AB.shape builder.old).main }
    ensures later { AB.later builder.old builder.new }
    ensures keeps_shape { AB.shape builder.new ≡ AB.shape builder.old }
    ensures answers { IsTrue AB.never_fails → IsOk result }
    ensures appends { IfOk result
        (λ _. Appended AB.appends builder.old builder.new (binary_steps_trees AB.F.ring)) }
    ensures on_error { OnFailure result
        (AppendedSome AB.appends builder.old builder.new (binary_steps_trees AB.F.ring)) }
{
    for k in 0..56 {
        assert_step(builder, k)?;
    }
    Ok(())
}
