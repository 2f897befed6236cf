//! Nodes of constraint trees.

use crate::cells::{Cell, ExtCell};

/// A node of a constraint tree in a list of nodes. An operand is named by its place in the list, before the node
/// (after `p3_air`'s symbolic expressions, whose operands are shared pointers).
#[derive(Clone, Copy, PartialEq, Eq, Debug)]
pub enum Node<F> {
    /// A constant.
    Constant(F),
    /// A cell of the base field.
    Base(Cell),
    /// A cell of the extension.
    Extension(ExtCell),
    /// The sum of the nodes at the two places.
    Sum(usize, usize),
    /// The node at the first place minus that at the second.
    Difference(usize, usize),
    /// The product of the nodes at the two places.
    Product(usize, usize),
}
