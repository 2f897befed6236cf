//! The rounds as constraints.
ghost use Rattle.std.specs.Prelude.{◌≡◌, ℕ, ◌+◌, ◌*◌, ◌^◌, ◌<◌, ◌≤◌, List, [], ◌∷◌, ◌++◌, IfOk, OnErr, IsOk, IsTrue, length, map};
ghost use Rattle.air_core.specs.Joined.{joined};
ghost use Rattle.air_core.specs.Appended.{Appended, AppendedSome, OnFailure};
ghost use Rattle.blake3_prime.specs.Trees.{step_half_trees, step_trees, steps_trees, rounds_trees};

use crate::half::assert_half;
use crate::places::{message_column, step_columns};
use air_core::AirBuilder;
use p3_field::Mem;

// Step g of half round n.
fn assert_step_half<AB: AirBuilder>(builder: &mut AB, n: usize, g: usize) -> Mem<()>
    requires wide { 9168 ≤ (AB.shape builder.old).main }
    requires halves { n < 28 }
    requires steps { g < 4 }
    ensures later { AB.later builder.old builder.new }
    ensures keeps_shape { AB.shape builder.new ≡ AB.shape builder.old }
    ensures answers { IsTrue AB.never_fails → IsOk result }
    ensures appends { IfOk result
        (λ _. Appended AB.appends builder.old builder.new (step_half_trees AB.F.ring n g)) }
    ensures on_error { OnFailure result
        (AppendedSome AB.appends builder.old builder.new (step_half_trees AB.F.ring n g)) }
{
    let turn = n % 4 / 2;
    let before = step_columns(n, turn, g);
    let after = step_columns(n + 1, turn, g);
    let message = message_column(n, g);
    assert_half(
        builder,
        16 - 8 * (n % 2),
        12 - 5 * (n % 2),
        before,
        message,
        after,
    )?;
    Ok(())
}

// Step g of the p-th four steps, by columns or by diagonals: its two halves.
fn assert_step<AB: AirBuilder>(builder: &mut AB, p: usize, g: usize) -> Mem<()>
    requires wide { 9168 ≤ (AB.shape builder.old).main }
    requires turns { p < 14 }
    requires steps { g < 4 }
    ensures later { AB.later builder.old builder.new }
    ensures keeps_shape { AB.shape builder.new ≡ AB.shape builder.old }
    ensures answers { IsTrue AB.never_fails → IsOk result }
    ensures appends { IfOk result
        (λ _. Appended AB.appends builder.old builder.new (step_trees AB.F.ring p g)) }
    ensures on_error { OnFailure result
        (AppendedSome AB.appends builder.old builder.new (step_trees AB.F.ring p g)) }
{
    for h in 0..2 {
        assert_step_half(builder, 2 * p + h, g)?;
    }
    Ok(())
}

// The p-th four steps.
fn assert_steps<AB: AirBuilder>(builder: &mut AB, p: usize) -> Mem<()>
    requires wide { 9168 ≤ (AB.shape builder.old).main }
    requires turns { p < 14 }
    ensures later { AB.later builder.old builder.new }
    ensures keeps_shape { AB.shape builder.new ≡ AB.shape builder.old }
    ensures answers { IsTrue AB.never_fails → IsOk result }
    ensures appends { IfOk result
        (λ _. Appended AB.appends builder.old builder.new (steps_trees AB.F.ring p)) }
    ensures on_error { OnFailure result
        (AppendedSome AB.appends builder.old builder.new (steps_trees AB.F.ring p)) }
{
    for g in 0..4 {
        assert_step(builder, p, g)?;
    }
    Ok(())
}

/// Appends the constraints of the rounds.
pub fn assert_rounds<AB: AirBuilder>(builder: &mut AB) -> Mem<()>
    requires wide { 9168 ≤ (AB.shape builder.old).main }
    ensures later { AB.later builder.old builder.new }
    ensures keeps_shape { AB.shape builder.new ≡ AB.shape builder.old }
    ensures answers { IsTrue AB.never_fails → IsOk result }
    ensures appends { IfOk result
        (λ _. Appended AB.appends builder.old builder.new (rounds_trees AB.F.ring)) }
    ensures on_error { OnFailure result
        (AppendedSome AB.appends builder.old builder.new (rounds_trees AB.F.ring)) }
{
    for p in 0..14 {
        assert_steps(builder, p)?;
    }
    Ok(())
}
