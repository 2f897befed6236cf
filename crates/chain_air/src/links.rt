//! The constraints between rows, and with the public values.
ghost use Rattle.std.specs.Prelude.{◌≡◌, ℕ, ◌+◌, ◌*◌, ◌<◌, ◌≤◌, List, [], ◌∷◌, IfOk, OnErr, IsOk, IsTrue};
ghost use Rattle.air_core.specs.declared.cells.Cell.TheVariants.{FirstRow, LastRow};
ghost use Rattle.air_core.specs.Appended.{Appended, AppendedSome, OnFailure};
ghost use Rattle.air_core.specs.Shape.{Declares};
ghost use Rattle.air_core.specs.Tree.{Tree, over_base};
ghost use Rattle.chain_air.specs.Trees.{DeclaresChain, selected, link_tree, link_trees, public_word_trees, edge_trees, linking_trees};

use air_core::{AirBuilder, Cell};
use blake3_prime::reading::packed_at;
use p3_field::Mem;

// Asserts that x is the value of the cell y where the selector isn't zero.
fn assert_selected<AB: AirBuilder>(
    builder: &mut AB,
    selector: Cell,
    x: AB::Expr,
    y: Cell,
) -> Mem<()>
    requires selector { Declares (AB.shape builder.old) selector }
    requires cell { Declares (AB.shape builder.old) y }
    ensures later { AB.later builder.old builder.new }
    ensures keeps_shape { AB.shape builder.new ≡ AB.shape builder.old }
    ensures answers { IsTrue AB.never_fails → IsOk result }
    ensures appends { (t : Tree AB.F) → AB.represents builder.old x t
        → IfOk result (λ _. AB.appends builder.old builder.new
        (over_base (selected selector t y) ∷ []) []) }
    ensures on_error { OnErr result (AB.appends builder.old builder.new [] []) }
{
    let s = builder.cell(selector)?;
    let b = builder.cell(y)?;
    let d = builder.sub(x, b)?;
    let p = builder.mul(s, d)?;
    builder.assert_zero(p)
}

// Asserts that bit i of the next row's chaining value is bit i of the output.
fn assert_link<AB: AirBuilder>(builder: &mut AB, i: usize) -> Mem<()>
    requires declares { DeclaresChain (AB.shape builder.old) }
    requires bits { i < 256 }
    ensures later { AB.later builder.old builder.new }
    ensures keeps_shape { AB.shape builder.new ≡ AB.shape builder.old }
    ensures answers { IsTrue AB.never_fails → IsOk result }
    ensures appends { IfOk result
        (λ _. Appended AB.appends builder.old builder.new (link_tree i ∷ [])) }
    ensures on_error { OnFailure result
        (AppendedSome AB.appends builder.old builder.new (link_tree i ∷ [])) }
{
    let next = builder.cell(Cell::Main {
        next: true,
        column: 512 + i,
    })?;
    let output = Cell::Main {
        next: false,
        column: 8656 + i,
    };
    assert_selected(builder, Cell::Transition, next, output)?;
    Ok(())
}

// Asserts that the next row's chaining value is the output's first 8 words.
fn assert_links<AB: AirBuilder>(builder: &mut AB) -> Mem<()>
    requires declares { DeclaresChain (AB.shape builder.old) }
    ensures later { AB.later builder.old builder.new }
    ensures keeps_shape { AB.shape builder.new ≡ AB.shape builder.old }
    ensures answers { IsTrue AB.never_fails → IsOk result }
    ensures appends { IfOk result (λ _. Appended AB.appends builder.old builder.new link_trees) }
    ensures on_error { OnFailure result
        (AppendedSome AB.appends builder.old builder.new link_trees) }
{
    for i in 0..256 {
        assert_link(builder, i)?;
    }
    Ok(())
}

// Asserts that the limbs of the word whose bits stand from a column on are two public values where the selector isn't zero.
fn assert_public_word<AB: AirBuilder>(
    builder: &mut AB,
    selector: Cell,
    column: usize,
    public: usize,
) -> Mem<()>
    requires declares { DeclaresChain (AB.shape builder.old) }
    requires selector { Declares (AB.shape builder.old) selector }
    requires within_column { column + 32 ≤ 9168 }
    requires within_publics { public + 2 ≤ 32 }
    ensures later { AB.later builder.old builder.new }
    ensures keeps_shape { AB.shape builder.new ≡ AB.shape builder.old }
    ensures answers { IsTrue AB.never_fails → IsOk result }
    ensures appends { IfOk result
        (λ _. Appended AB.appends builder.old builder.new
        (public_word_trees AB.F.ring selector column public)) }
    ensures on_error { OnFailure result
        (AppendedSome AB.appends builder.old builder.new
        (public_word_trees AB.F.ring selector column public)) }
{
    let limbs = packed_at(builder, column)?;
    assert_selected(builder, selector, limbs[0], Cell::Public(public))?;
    assert_selected(builder, selector, limbs[1], Cell::Public(public + 1))?;
    Ok(())
}

// Asserts that of 8 words.
fn assert_edge<AB: AirBuilder>(
    builder: &mut AB,
    selector: Cell,
    column: usize,
    public: usize,
) -> Mem<()>
    requires declares { DeclaresChain (AB.shape builder.old) }
    requires selector { Declares (AB.shape builder.old) selector }
    requires within_column { column + 256 ≤ 9168 }
    requires within_publics { public + 16 ≤ 32 }
    ensures later { AB.later builder.old builder.new }
    ensures keeps_shape { AB.shape builder.new ≡ AB.shape builder.old }
    ensures answers { IsTrue AB.never_fails → IsOk result }
    ensures appends { IfOk result
        (λ _. Appended AB.appends builder.old builder.new
        (edge_trees AB.F.ring selector column public)) }
    ensures on_error { OnFailure result
        (AppendedSome AB.appends builder.old builder.new
        (edge_trees AB.F.ring selector column public)) }
{
    for w in 0..8 {
        assert_public_word(builder, selector, column + 32 * w, public + 2 * w)?;
    }
    Ok(())
}

/// Appends the constraints between rows, and with the public values.
pub fn assert_linking<AB: AirBuilder>(builder: &mut AB) -> Mem<()>
    requires declares { DeclaresChain (AB.shape builder.old) }
    ensures later { AB.later builder.old builder.new }
    ensures keeps_shape { AB.shape builder.new ≡ AB.shape builder.old }
    ensures answers { IsTrue AB.never_fails → IsOk result }
    ensures appends { IfOk result
        (λ _. Appended AB.appends builder.old builder.new (linking_trees AB.F.ring)) }
    ensures on_error { OnFailure result
        (AppendedSome AB.appends builder.old builder.new (linking_trees AB.F.ring)) }
{
    assert_links(builder)?;
    assert_edge(builder, Cell::FirstRow, 512, 0)?;
    assert_edge(builder, Cell::LastRow, 8656, 16)?;
    Ok(())
}
