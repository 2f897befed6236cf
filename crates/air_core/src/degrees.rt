//! The degree of a list's last tree, by the degrees of cells.
ghost use Rattle.std.specs.Prelude.{◌≡◌, ℕ, ◌<◌, max, length, map, [], All, IfOk};
ghost use Rattle.air_core.specs.Degree.{capped_sum, degree, greatest, node_degree};
ghost use Rattle.air_core.specs.Recording.{trees_at};
ghost use Rattle.air_core.specs.Symbolic.{tree_at, tree_of, trees_after, Ordered, OperandsBelow, IsExpression};
ghost use Rattle.air_core.specs.declared.cells.Cell.{Cell as CellOf};
ghost use Rattle.air_core.specs.declared.cells.ExtCell.{ExtCell as ExtCellOf};

use crate::cells::{Cell, ExtCell};
use crate::node::Node;
use crate::recorded::Assertion;
use p3_field::{FieldCore, Mem, RingCore};
use std::alloc::Global;

/// The degree that each cell has.
pub trait CellDegrees {
    // The degree of a cell.
    ghost base: { Self → CellOf → ℕ };

    // The degree of a cell of the extension.
    ghost extension: { Self → ExtCellOf → ℕ };

    /// The degree of a cell.
    fn of_cell(&self, cell: Cell) -> usize
        ensures { result ≡ base self.now cell };

    /// The degree of a cell of the extension.
    fn of_ext_cell(&self, cell: ExtCell) -> usize
        ensures { result ≡ extension self.now cell };
}

/// The degree of the last node's tree. The nodes' degrees are computed in order, each once. Where memory for them is
/// out, the last one is computed by recursion, which takes a step for each path down to a leaf.
pub fn root_degree<F: FieldCore, D: CellDegrees>(nodes: &Vec<Node<F>>, cells: &D) -> usize
    requires { IsExpression nodes.now.items }
    ensures { result ≡ degree (D.base cells.now) (D.extension cells.now) (tree_of nodes.now.items) }
{
    let root = nodes.len() - 1;
    match degrees_in_order(*nodes.allocator(), nodes, cells) {
        Ok(degrees) => degrees[root],
        Err(_) => degree_at(nodes, root, cells),
    }
}

/// The largest degree of the asserted trees, or zero where none is asserted. The nodes' degrees are computed in order, each
/// once, and no tree is copied.
pub fn largest_degree<F: FieldCore, D: CellDegrees>(
    alloc: Global,
    nodes: &[Node<F>],
    asserted: &[Assertion],
    cells: &D,
) -> Mem<usize>
    requires ordered { Ordered nodes.now }
    requires asserted { All (λ a. a.place < length nodes.now) asserted.now }
    ensures { IfOk result (λ d.
        d ≡ greatest 0 (map (degree (D.base cells.now) (D.extension cells.now))
        (trees_at nodes.now asserted.now))) }
{
    let degrees = degrees_in_order(alloc, nodes, cells)?;
    let mut largest: usize = 0;
    for assertion in asserted {
        largest = largest.max(degrees[assertion.place]);
    }
    Ok(largest)
}

// The degree of a node whose operands have these degrees.
fn degree_of_node<F: FieldCore, D: CellDegrees>(node: Node<F>, below: &[usize], cells: &D) -> usize
    requires { OperandsBelow (length below.now) node }
    ensures { result ≡ node_degree (D.base cells.now) (D.extension cells.now) below.now node }
{
    match node {
        Node::Constant(_) => 0,
        Node::Base(cell) => cells.of_cell(cell),
        Node::Extension(cell) => cells.of_ext_cell(cell),
        Node::Sum(x, y) => below[x].max(below[y]),
        Node::Difference(x, y) => below[x].max(below[y]),
        Node::Product(x, y) => below[x].saturating_add(below[y]),
    }
}

// The degree of each node's tree, in order.
fn degrees_in_order<F: FieldCore, D: CellDegrees>(
    alloc: Global,
    nodes: &[Node<F>],
    cells: &D,
) -> Mem<Vec<usize>>
    requires { Ordered nodes.now }
    ensures { IfOk result (λ v.
        v.items ≡ map (degree (D.base cells.now) (D.extension cells.now))
        (trees_after [] nodes.now)) }
{
    let mut degrees = Vec::with_capacity(alloc, nodes.len())?;
    for place in 0..nodes.len() {
        let degree = degree_of_node(nodes[place], &degrees, cells);
        degrees.push(degree)?;
    }
    Ok(degrees)
}

// The degree of the tree at a place.
fn degree_at<F: FieldCore, D: CellDegrees>(nodes: &[Node<F>], place: usize, cells: &D) -> usize
    requires within { place < length nodes.now }
    requires ordered { Ordered nodes.now }
    ensures { result ≡ degree (D.base cells.now) (D.extension cells.now) (tree_at nodes.now place) }
{
    match nodes[place] {
        Node::Constant(_) => 0,
        Node::Base(cell) => cells.of_cell(cell),
        Node::Extension(cell) => cells.of_ext_cell(cell),
        Node::Sum(x, y) => {
            let left = degree_at(nodes, x, cells);
            left.max(degree_at(nodes, y, cells))
        }
        Node::Difference(x, y) => {
            let left = degree_at(nodes, x, cells);
            left.max(degree_at(nodes, y, cells))
        }
        Node::Product(x, y) => {
            let left = degree_at(nodes, x, cells);
            left.saturating_add(degree_at(nodes, y, cells))
        }
    }
}
