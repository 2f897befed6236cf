//! Expressions of lookups, handed to a builder.
ghost use Rattle.std.specs.Prelude.{◌≡◌, ◌<◌, ◌-◌, List, [], length, map, All, IfOk, IsOk, IsTrue};
ghost use Rattle.p3_field.specs.Poly.{eval_poly};
ghost use Rattle.air_core.specs.Tree.{Tree};
ghost use Rattle.air_core.specs.Shape.{Declares, ReadsIn, ReadsSendable};
ghost use Rattle.air_core.specs.Symbolic.{tree_at, tree_of, Ordered};
ghost use Rattle.p3_lookup.specs.Trees.{trees};

use air_core::{AirBuilder, ExtensionBuilder, Node, SymbolicExpression};
use p3_field::{FieldCore, Mem, RingCore};

// The expression that represents the tree at a place, whose cells are all of the base field.
fn expression_at<AB: AirBuilder>(
    builder: &mut AB,
    nodes: &[Node<AB::F>],
    place: usize,
) -> Mem<AB::Expr>
    requires within { place < length nodes.now }
    requires ordered { Ordered nodes.now }
    requires reads { ReadsSendable (AB.shape builder.old) (tree_at nodes.now place) }
    ensures keeps_shape { AB.shape builder.new ≡ AB.shape builder.old }
    ensures answers { IsTrue AB.never_fails → IsOk result }
    ensures appends { AB.appends builder.old builder.new [] [] }
    ensures represents { IfOk result (λ e. AB.represents builder.new e (tree_at nodes.now place)) }
{
    match nodes[place] {
        Node::Constant(x) => builder.constant(x),
        Node::Base(cell) => builder.cell(cell),
        Node::Extension(_) => builder.constant(<AB::F as RingCore>::ZERO),
        Node::Sum(x, y) => {
            let left = expression_at(builder, nodes, x)?;
            let right = expression_at(builder, nodes, y)?;
            builder.add(left, right)
        }
        Node::Difference(x, y) => {
            let left = expression_at(builder, nodes, x)?;
            let right = expression_at(builder, nodes, y)?;
            builder.sub(left, right)
        }
        Node::Product(x, y) => {
            let left = expression_at(builder, nodes, x)?;
            let right = expression_at(builder, nodes, y)?;
            builder.mul(left, right)
        }
    }
}

// The expression of the extension that represents a symbolic expression's tree.
pub(crate) fn lifted<AB: ExtensionBuilder>(
    builder: &mut AB,
    x: &SymbolicExpression<AB::F>,
) -> Mem<AB::ExprEF>
    requires reads { ReadsSendable (AB.shape builder.old) (tree_of x.now) }
    ensures keeps_shape { AB.shape builder.new ≡ AB.shape builder.old }
    ensures answers { IsTrue AB.never_fails → IsOk result }
    ensures appends { AB.appends builder.old builder.new [] [] }
    ensures represents { IfOk result (λ e. AB.represents_ext builder.new e (tree_of x.now)) }
{
    let nodes = x.nodes();
    let base = expression_at(builder, nodes, nodes.len() - 1)?;
    builder.lift(base)
}
