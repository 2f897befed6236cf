//! The constraints of lookups, handed to a builder.
ghost use Rattle.std.specs.Prelude.{◌≡◌, ◌+◌, ◌*◌, ◌^◌, ◌<◌, ◌≤◌, false, [], ◌∷◌, length, map, All, IfOk, OnErr, IsOk, IsTrue};
ghost use Rattle.air_core.specs.Clauses.{GivesOfOne, GivesOfTwo, AppendsOfOne};
ghost use Rattle.air_core.specs.Tree.{sum, difference, product, over_extension, SomeFirst, cell as cell_tree, ext_cell as ext_cell_tree};
ghost use Rattle.air_core.specs.Shape.{Declares, DeclaresExt};
ghost use Rattle.p3_lookup.specs.Lookup.{IsLookup};
ghost use Rattle.p3_lookup.specs.Written.{read, read_all};
ghost use Rattle.p3_lookup.specs.Trees.{base_tree, beta_tree, column_tree, fraction_tree, fraction_trees, sum_tree, first_tree, running_trees};

use crate::fraction::{constant_ext, fraction_parts};
use crate::lookup::Lookup;
use air_core::{AirBuilder, Cell, ExtCell, ExtensionBuilder, PermutationAirBuilder};
use p3_field::{FieldCore, Mem, RingCore};

// The base of a lookup, and beta.
fn lookup_challenges<AB: PermutationAirBuilder>(
    builder: &mut AB,
    index: usize,
) -> Mem<(AB::ExprEF, AB::ExprEF)>
    requires declared { 2 * index + 1 < (AB.shape builder.old).challenges }
    requires small { index < 2 ^ 62 }
    ensures keeps_shape { AB.shape builder.new ≡ AB.shape builder.old }
    ensures answers { IsTrue AB.never_fails → IsOk result }
    ensures appends { AB.appends builder.old builder.new [] [] }
    ensures represents { IfOk result
        (λ p. AB.represents_ext builder.new p.0 (base_tree index)
        × AB.represents_ext builder.new p.1 (beta_tree index)) }
{
    let base = builder.ext_cell(ExtCell::Challenge(2 * index))?;
    let beta = builder.ext_cell(ExtCell::Challenge(2 * index + 1))?;
    Ok((base, beta))
}

// x * y - z, where x is a permutation column of this row.
fn scaled_less<AB: PermutationAirBuilder>(
    builder: &mut AB,
    column: usize,
    y: AB::ExprEF,
    z: AB::ExprEF,
) -> Mem<AB::ExprEF>
    requires declared { column < (AB.shape builder.old).permutation }
    ensures keeps_shape { AB.shape builder.new ≡ AB.shape builder.old }
    ensures answers { IsTrue AB.never_fails → IsOk result }
    ensures appends { AB.appends builder.old builder.new [] [] }
    ensures represents { GivesOfTwo (AB.represents_ext builder.old) y z
        (AB.represents_ext builder.new) (λ s t. difference (product (column_tree false column) s) t)
        result }
{
    let x = builder.ext_cell(ExtCell::Permutation {
        next: false,
        column,
    })?;
    let scaled = builder.mul_ext(x, y)?;
    builder.sub_ext(scaled, z)
}

// The constraint of a lookup's fraction.
fn assert_fraction<AB: PermutationAirBuilder>(
    builder: &mut AB,
    lookup: &Lookup<AB::F>,
    index: usize,
) -> Mem<()>
    requires column { index + 1 < (AB.shape builder.old).permutation }
    requires challenges { 2 * index + 1 < (AB.shape builder.old).challenges }
    requires small { index < 2 ^ 62 }
    requires lookup { IsLookup (AB.shape builder.old) (read lookup.now) }
    ensures later { AB.later builder.old builder.new }
    ensures keeps_shape { AB.shape builder.new ≡ AB.shape builder.old }
    ensures answers { IsTrue AB.never_fails → IsOk result }
    ensures appends { IfOk result
        (λ _. AB.appends builder.old builder.new
        (over_extension (fraction_tree AB.F.ring index (read lookup.now)) ∷ []) []) }
    ensures on_error { OnErr result (AB.appends builder.old builder.new [] []) }
{
    let challenges = lookup_challenges(builder, index)?;
    let parts = fraction_parts(
        builder,
        &lookup.elements,
        &lookup.multiplicities,
        challenges,
    )?;
    let difference = scaled_less(builder, index + 1, parts.0, parts.1)?;
    builder.assert_zero_ext(difference)
}

// The constraints of the fractions, in order.
pub(crate) fn assert_fractions<AB: PermutationAirBuilder>(
    builder: &mut AB,
    lookups: &[Lookup<AB::F>],
) -> Mem<()>
    requires columns { length lookups.now < (AB.shape builder.old).permutation }
    requires challenges { 2 * length lookups.now ≤ (AB.shape builder.old).challenges }
    requires lookups { All (IsLookup (AB.shape builder.old)) (read_all lookups.now) }
    ensures later { AB.later builder.old builder.new }
    ensures keeps_shape { AB.shape builder.new ≡ AB.shape builder.old }
    ensures answers { IsTrue AB.never_fails → IsOk result }
    ensures appends { IfOk result
        (λ _. AB.appends builder.old builder.new
        (map over_extension (fraction_trees AB.F.ring 0 (read_all lookups.now))) []) }
    ensures on_error { OnErr result
        (SomeFirst (AB.appends builder.old builder.new)
        (map over_extension (fraction_trees AB.F.ring 0 (read_all lookups.now))) []) }
{
    for i in 0..lookups.len() {
        assert_fraction(builder, &lookups[i], i)?;
    }
    Ok(())
}

// A sum and one more permutation column.
fn with_column<AB: PermutationAirBuilder>(
    builder: &mut AB,
    x: AB::ExprEF,
    column: usize,
) -> Mem<AB::ExprEF>
    requires declared { column < (AB.shape builder.old).permutation }
    ensures keeps_shape { AB.shape builder.new ≡ AB.shape builder.old }
    ensures answers { IsTrue AB.never_fails → IsOk result }
    ensures appends { AB.appends builder.old builder.new [] [] }
    ensures represents { GivesOfOne (AB.represents_ext builder.old) x
        (AB.represents_ext builder.new) (λ s. sum s (column_tree false column)) result }
{
    let fraction = builder.ext_cell(ExtCell::Permutation {
        next: false,
        column,
    })?;
    builder.add_ext(x, fraction)
}

// The sum of the first fractions.
fn sum_of_fractions<AB: PermutationAirBuilder>(builder: &mut AB, count: usize) -> Mem<AB::ExprEF>
    requires declared { count < (AB.shape builder.old).permutation }
    ensures keeps_shape { AB.shape builder.new ≡ AB.shape builder.old }
    ensures answers { IsTrue AB.never_fails → IsOk result }
    ensures appends { AB.appends builder.old builder.new [] [] }
    ensures represents { IfOk result
        (λ e. AB.represents_ext builder.new e (sum_tree AB.F.ring count)) }
{
    let mut sum = constant_ext(builder, <AB::F as RingCore>::ZERO)?;
    for i in 0..count {
        sum = with_column(builder, sum, i + 1)?;
    }
    Ok(sum)
}

// The product with a selector.
fn selected<AB: ExtensionBuilder>(
    builder: &mut AB,
    selector: Cell,
    x: AB::ExprEF,
) -> Mem<AB::ExprEF>
    requires declared { Declares (AB.shape builder.old) selector }
    ensures keeps_shape { AB.shape builder.new ≡ AB.shape builder.old }
    ensures answers { IsTrue AB.never_fails → IsOk result }
    ensures appends { AB.appends builder.old builder.new [] [] }
    ensures represents { GivesOfOne (AB.represents_ext builder.old) x
        (AB.represents_ext builder.new) (λ t. product (cell_tree selector) t) result }
{
    let cell = builder.cell(selector)?;
    let factor = builder.lift(cell)?;
    builder.mul_ext(factor, x)
}

// The constraint that an expression is zero where the selector isn't.
fn assert_selected<AB: ExtensionBuilder>(builder: &mut AB, selector: Cell, x: AB::ExprEF) -> Mem<()>
    requires declared { Declares (AB.shape builder.old) selector }
    ensures later { AB.later builder.old builder.new }
    ensures keeps_shape { AB.shape builder.new ≡ AB.shape builder.old }
    ensures answers { IsTrue AB.never_fails → IsOk result }
    ensures appends { AppendsOfOne (AB.represents_ext builder.old) x
        (AB.appends builder.old builder.new) (λ t. over_extension (product (cell_tree selector) t))
        result }
    ensures on_error { OnErr result (AB.appends builder.old builder.new [] []) }
{
    let chosen = selected(builder, selector, x)?;
    builder.assert_zero_ext(chosen)
}

// The constraint that the running sum begins at zero.
fn assert_first<AB: PermutationAirBuilder>(builder: &mut AB) -> Mem<()>
    requires declared { 0 < (AB.shape builder.old).permutation }
    ensures later { AB.later builder.old builder.new }
    ensures keeps_shape { AB.shape builder.new ≡ AB.shape builder.old }
    ensures answers { IsTrue AB.never_fails → IsOk result }
    ensures appends { IfOk result
        (λ _. AB.appends builder.old builder.new (over_extension first_tree ∷ []) []) }
    ensures on_error { OnErr result (AB.appends builder.old builder.new [] []) }
{
    let running = builder.ext_cell(ExtCell::Permutation {
        next: false,
        column: 0,
    })?;
    assert_selected(builder, Cell::FirstRow, running)
}

// A cell minus the running sum minus a sum.
fn excess<AB: PermutationAirBuilder>(
    builder: &mut AB,
    end: ExtCell,
    x: AB::ExprEF,
) -> Mem<AB::ExprEF>
    requires declared { 0 < (AB.shape builder.old).permutation }
    requires end { DeclaresExt (AB.shape builder.old) end }
    ensures keeps_shape { AB.shape builder.new ≡ AB.shape builder.old }
    ensures answers { IsTrue AB.never_fails → IsOk result }
    ensures appends { AB.appends builder.old builder.new [] [] }
    ensures represents { GivesOfOne (AB.represents_ext builder.old) x
        (AB.represents_ext builder.new)
        (λ t. difference (difference (ext_cell_tree end) (column_tree false 0)) t) result }
{
    let to = builder.ext_cell(end)?;
    let from = builder.ext_cell(ExtCell::Permutation {
        next: false,
        column: 0,
    })?;
    let growth = builder.sub_ext(to, from)?;
    builder.sub_ext(growth, x)
}

// The constraint that a sum leads from the running sum to a cell, where the selector isn't zero.
fn assert_step<AB: PermutationAirBuilder>(
    builder: &mut AB,
    selector: Cell,
    end: ExtCell,
    x: AB::ExprEF,
) -> Mem<()>
    requires declared { 0 < (AB.shape builder.old).permutation }
    requires selector { Declares (AB.shape builder.old) selector }
    requires end { DeclaresExt (AB.shape builder.old) end }
    ensures later { AB.later builder.old builder.new }
    ensures keeps_shape { AB.shape builder.new ≡ AB.shape builder.old }
    ensures answers { IsTrue AB.never_fails → IsOk result }
    ensures appends { AppendsOfOne (AB.represents_ext builder.old) x
        (AB.appends builder.old builder.new)
        (λ t. over_extension (product (cell_tree selector)
        (difference (difference (ext_cell_tree end) (column_tree false 0)) t))) result }
    ensures on_error { OnErr result (AB.appends builder.old builder.new [] []) }
{
    let rest = excess(builder, end, x)?;
    assert_selected(builder, selector, rest)
}

// The constraints of the running sum, in order.
pub(crate) fn assert_running<AB: PermutationAirBuilder>(builder: &mut AB, count: usize) -> Mem<()>
    requires declared { count < (AB.shape builder.old).permutation }
    requires terminal { 0 < (AB.shape builder.old).terminals }
    ensures later { AB.later builder.old builder.new }
    ensures keeps_shape { AB.shape builder.new ≡ AB.shape builder.old }
    ensures answers { IsTrue AB.never_fails → IsOk result }
    ensures appends { IfOk result
        (λ _. AB.appends builder.old builder.new
        (map over_extension (running_trees AB.F.ring count)) []) }
    ensures on_error { OnErr result
        (SomeFirst (AB.appends builder.old builder.new)
        (map over_extension (running_trees AB.F.ring count)) []) }
{
    assert_first(builder)?;
    let sum = sum_of_fractions(builder, count)?;
    let next = ExtCell::Permutation {
        next: true,
        column: 0,
    };
    assert_step(builder, Cell::Transition, next, sum)?;
    assert_step(builder, Cell::LastRow, ExtCell::Terminal, sum)
}
