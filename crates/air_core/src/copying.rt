//! Expressions of nodes in a list: a node and all that it stands on, each once.
ghost use Rattle.std.specs.Prelude.{◌≡◌, ◌≢◌, ℕ, ◌+◌, ◌<◌, ◌≤◌, ◌++◌, List, [], ◌∷◌, length, IfOk, Some};
ghost use Rattle.std.specs.Ordering.{nat_cmp};
ghost use Rattle.std.specs.BTreeMap.{get};
ghost use Rattle.air_core.specs.Symbolic.{tree_at, tree_of, Ordered, IsExpression};
ghost use Rattle.air_core.specs.Copying.{IsCopied, CopiesTo};

use crate::node::Node;
use crate::symbolic::SymbolicExpression;
use p3_field::{FieldCore, Mem, RingCore};
use std::alloc::Global;
use std::collections::BTreeMap;

/// The expression whose root is the node at a place. It has the nodes that the root stands on, each once.
pub fn expression_at<F: FieldCore>(
    alloc: Global,
    nodes: &[Node<F>],
    place: usize,
) -> Mem<SymbolicExpression<F>>
    requires within { place < length nodes.now }
    requires ordered { Ordered nodes.now }
    ensures tree { IfOk result (λ e. tree_of e ≡ tree_at nodes.now place) }
    ensures few { IfOk result (λ e. length e ≤ place + 1) }
{
    let mut copies = Vec::new(alloc);
    let mut places = BTreeMap::new(alloc);
    copy_at(nodes, place, &mut copies, &mut places)?;
    Ok(SymbolicExpression::new(copies))
}

// Copies the node at a place and what it stands on, but what has a copy, and gives the place of its copy.
fn copy_at<F: FieldCore>(
    nodes: &[Node<F>],
    place: usize,
    copies: &mut Vec<Node<F>>,
    places: &mut BTreeMap<usize, usize>,
) -> Mem<usize>
    requires within { place < length nodes.now }
    requires ordered { Ordered nodes.now }
    requires copied { IsCopied nodes.now copies.old.items (get nat_cmp places.old) }
    ensures { IfOk result (λ p.
        CopiesTo nodes.now copies.old.items copies.new.items (get nat_cmp places.old)
        (get nat_cmp places.new) place p) }
{
    if let Some(copy) = places.get(&place) {
        return Ok(*copy);
    }
    match nodes[place] {
        Node::Constant(x) => add_copy(place, Node::Constant(x), copies, places),
        Node::Base(c) => add_copy(place, Node::Base(c), copies, places),
        Node::Extension(c) => add_copy(place, Node::Extension(c), copies, places),
        Node::Sum(x, y) => {
            let left = copy_at(nodes, x, copies, places)?;
            let right = copy_at(nodes, y, copies, places)?;
            add_copy(place, Node::Sum(left, right), copies, places)
        }
        Node::Difference(x, y) => {
            let left = copy_at(nodes, x, copies, places)?;
            let right = copy_at(nodes, y, copies, places)?;
            add_copy(place, Node::Difference(left, right), copies, places)
        }
        Node::Product(x, y) => {
            let left = copy_at(nodes, x, copies, places)?;
            let right = copy_at(nodes, y, copies, places)?;
            add_copy(place, Node::Product(left, right), copies, places)
        }
    }
}

// Adds a copy of the node at a place.
fn add_copy<F: FieldCore>(
    place: usize,
    node: Node<F>,
    copies: &mut Vec<Node<F>>,
    places: &mut BTreeMap<usize, usize>,
) -> Mem<usize>
    ensures last { IfOk result (λ p. p ≡ length copies.old.items) }
    ensures copies { IfOk result (λ _. copies.new.items ≡ copies.old.items ++ node ∷ []) }
    ensures here { IfOk result (λ p. get nat_cmp places.new place ≡ Some p) }
    ensures others { IfOk result
        (λ _. (i : ℕ) → i ≢ place → get nat_cmp places.new i ≡ get nat_cmp places.old i) }
{
    let copy = copies.len();
    copies.push(node)?;
    places.insert(place, copy)?;
    Ok(copy)
}
