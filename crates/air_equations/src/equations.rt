//! Gadgets: equations under a selector.
ghost use Rattle.std.specs.Prelude.{◌≡◌, [], ◌∷◌, IfOk, OnErr, IsOk, IsTrue};
ghost use Rattle.air_core.specs.Clauses.{AppendsOfTwo};
ghost use Rattle.air_core.specs.Shape.{Declares};
ghost use Rattle.air_core.specs.Tree.{cell as cell_tree, over_base, sum};
ghost use Rattle.air_equations.specs.Equation.{equal_when};

use air_core::{AirBuilder, Cell};
use p3_field::{FieldCore, Mem};

/// Asserts that x and y are equal on each row where the selector isn't zero: `Cell::FirstRow` on the first row, `Cell::LastRow` on the
/// last, `Cell::Transition` on each but the last (`when_first_row().assert_eq(x, y)` of `p3-air`, and so on). One constraint is appended,
/// the selector times the difference x - y; on an error of the builder nothing is.
pub fn assert_eq_when<AB: AirBuilder>(
    builder: &mut AB,
    selector: Cell,
    x: AB::Expr,
    y: AB::Expr,
) -> Mem<()>
    requires { Declares (AB.shape builder.old) selector }
    ensures later { AB.later builder.old builder.new }
    ensures keeps_shape { AB.shape builder.new ≡ AB.shape builder.old }
    ensures answers { IsTrue AB.never_fails → IsOk result }
    ensures appends { AppendsOfTwo (AB.represents builder.old) x y
        (AB.appends builder.old builder.new) (λ s t. over_base (equal_when selector s t)) result }
    ensures on_error { OnErr result (AB.appends builder.old builder.new [] []) }
{
    let difference = builder.sub(x, y)?;
    let here = builder.cell(selector)?;
    let product = builder.mul(here, difference)?;
    builder.assert_zero(product)
}

/// The same of two cells: on the rows of the selector they are equal.
pub fn assert_cells_eq_when<AB: AirBuilder>(
    builder: &mut AB,
    selector: Cell,
    x: Cell,
    y: Cell,
) -> Mem<()>
    requires selector { Declares (AB.shape builder.old) selector }
    requires left { Declares (AB.shape builder.old) x }
    requires right { Declares (AB.shape builder.old) y }
    ensures later { AB.later builder.old builder.new }
    ensures keeps_shape { AB.shape builder.new ≡ AB.shape builder.old }
    ensures answers { IsTrue AB.never_fails → IsOk result }
    ensures appends { IfOk result
        (λ _. AB.appends builder.old builder.new
        (over_base (equal_when selector (cell_tree x) (cell_tree y)) ∷ []) []) }
    ensures on_error { OnErr result (AB.appends builder.old builder.new [] []) }
{
    let left = builder.cell(x)?;
    let right = builder.cell(y)?;
    assert_eq_when(builder, selector, left, right)
}

/// The same of a cell and the sum of two: on the rows of the selector x is y + z.
pub fn assert_sum_when<AB: AirBuilder>(
    builder: &mut AB,
    selector: Cell,
    x: Cell,
    y: Cell,
    z: Cell,
) -> Mem<()>
    requires selector { Declares (AB.shape builder.old) selector }
    requires total { Declares (AB.shape builder.old) x }
    requires left { Declares (AB.shape builder.old) y }
    requires right { Declares (AB.shape builder.old) z }
    ensures later { AB.later builder.old builder.new }
    ensures keeps_shape { AB.shape builder.new ≡ AB.shape builder.old }
    ensures answers { IsTrue AB.never_fails → IsOk result }
    ensures appends { IfOk result
        (λ _. AB.appends builder.old builder.new
        (over_base (equal_when selector (cell_tree x) (sum (cell_tree y) (cell_tree z))) ∷ []) []) }
    ensures on_error { OnErr result (AB.appends builder.old builder.new [] []) }
{
    let total = builder.cell(x)?;
    let left = builder.cell(y)?;
    let right = builder.cell(z)?;
    let added = builder.add(left, right)?;
    assert_eq_when(builder, selector, total, added)
}
