//! Constraint trees as values, and their degrees.
ghost use Rattle.std.specs.Prelude.{◌≡◌, ℕ, ◌+◌, ◌-◌, ◌*◌, ◌/◌, ◌^◌, ◌<◌, ◌≤◌, min, length, List, IfOk, slice_index};
ghost use Rattle.air_core.specs.Tree.{Tree};
ghost use Rattle.air_core.specs.Shape.{ReadsIn};
ghost use Rattle.air_core.specs.Symbolic.{tree_of, IsExpression};
ghost use Rattle.air_core.specs.Degree.{degree, multiple, polynomial_degree, periodic_degree as periodic_degree_of, HasPeriod};
ghost use Rattle.air_core.specs.declared.node.Node.{Node as NodeOf};

use crate::cells::{Cell, ExtCell};
use crate::degrees::{CellDegrees, root_degree};
use crate::node::Node;
use p3_field::{FieldCore, Mem, RingCore};
use std::alloc::Global;
use std::marker::Model;

/// A constraint as a value that owns its tree (`crate::SymbolicExpression`): the nodes in a list, where the
/// operands of a node stand before it, and the root is the last node. Nothing is simplified.
///
/// A contract sees it as its nodes, and `tree_of` of them is its tree.
#[derive(Drop)]
pub struct SymbolicExpression<F> {
    nodes: Vec<Node<F>>,
}

impl<F> Model for SymbolicExpression<F> {
    ghost use Rattle.std.specs.Prelude.{List};
    ghost use Rattle.air_core.specs.declared.node.Node.{Node};
    ghost use Rattle.air_core.specs.Symbolic.{IsExpression};

    ghost Value = { List (Node F) };

    ghost view = { λ e. e.nodes.items };

    ghost invariant = { λ e. IsExpression e.nodes.items };
}

impl<F> SymbolicExpression<F> {
    /// The expression with these nodes, of which the last is the root. There is at least one, and the operands of
    /// each stand before it.
    pub fn new(nodes: Vec<Node<F>>) -> Self
        requires { IsExpression nodes.items }
        ensures { result ≡ nodes.items }
    {
        SymbolicExpression { nodes }
    }

    /// The nodes, of which the last is the root.
    pub fn nodes(&self) -> &[Node<F>]
        ensures nodes { result.now ≡ self.now }
        ensures expression { IsExpression self.now }
    {
        &self.nodes
    }
}

impl<F: FieldCore> SymbolicExpression<F> {
    /// An expression equal to this one.
    pub fn try_clone(&self, alloc: Global) -> Mem<Self>
        ensures { IfOk result (λ e. e ≡ self.now) }
    {
        let nodes = Vec::from_slice(alloc, &self.nodes)?;
        Ok(SymbolicExpression { nodes })
    }

    /// The degree of the tree, where cells have these degrees.
    pub(crate) fn degree_by<D: CellDegrees>(&self, cells: &D) -> usize
        ensures { result ≡ degree (D.base cells.now) (D.extension cells.now) (tree_of self.now) }
    {
        root_degree(&self.nodes, cells)
    }

    /// The degree as a multiple of the trace's height: one for cells of the traces, periodic columns and the
    /// selectors of the first and the last row, zero for constants, public values, challenges, the terminal and the
    /// transition selector. A sum or a difference has the larger degree, and a product their sum, which stops at the
    /// greatest `usize`.
    pub fn degree_multiple(&self) -> usize
        ensures { result ≡ multiple 0 (tree_of self.now) }
    {
        self.degree_multiple_with_transition(0)
    }

    /// `degree_multiple`, where the transition selector has degree `t`.
    pub fn degree_multiple_with_transition(&self, t: usize) -> usize
        ensures { result ≡ multiple t (tree_of self.now) }
    {
        self.degree_by(&Multiples { transition: t })
    }

    /// The degree of the polynomial over a trace of `trace_len` rows, which isn't zero. `periods` has the length of
    /// each periodic column that the expression reads. The sums stop at the greatest `usize`.
    pub fn poly_degree(&self, trace_len: usize, periods: &[usize]) -> usize
        requires rows { 0 < trace_len }
        requires periods { ReadsIn (HasPeriod periods.now) (λ _. Unit {0}) (tree_of self.now) }
        ensures { result ≡ polynomial_degree trace_len periods.now (tree_of self.now) }
    {
        self.degree_by(&OverRows {
            rows: trace_len,
            periods,
        })
    }
}

/// The least degree d' for which d' times the height `n` is at least the degree `d` of a polynomial: d / n rounded
/// up. The height isn't zero (not in Plonky3).
pub fn constraint_degree_from_poly_degree(d: usize, n: usize) -> usize
    requires { 0 < n }
    ensures enough { d ≤ result * n }
    ensures least { (k : ℕ) → d ≤ k * n → result ≤ k }
{
    d.div_ceil(n)
}

// Degrees as multiples of the height, where the transition selector has this one.
#[derive(Drop)]
pub(crate) struct Multiples {
    pub(crate) transition: usize,
}

impl CellDegrees for Multiples {
    ghost use Rattle.air_core.specs.Degree.{cell_multiple, ext_multiple};

    ghost base = { λ d c. cell_multiple d.transition c };

    ghost extension = { λ _ c. ext_multiple c };

    fn of_cell(&self, cell: Cell) -> usize {
        match cell {
            Cell::Public(_) => 0,
            Cell::Transition => self.transition,
            _ => 1,
        }
    }

    fn of_ext_cell(&self, cell: ExtCell) -> usize {
        match cell {
            ExtCell::Permutation { .. } => 1,
            _ => 0,
        }
    }
}

// Degrees of polynomials over so many rows, where the periodic columns have these periods.
#[derive(Drop)]
pub(crate) struct OverRows<'a> {
    pub(crate) rows: usize,
    pub(crate) periods: &'a [usize],
}

impl<'a> CellDegrees for OverRows<'a> {
    ghost use Rattle.air_core.specs.Degree.{cell_degree, ext_degree};

    ghost base = { λ d c. cell_degree d.rows d.periods.now c };

    ghost extension = { λ d c. ext_degree d.rows c };

    fn of_cell(&self, cell: Cell) -> usize {
        match cell {
            Cell::Periodic(i) => periodic_degree(self.rows, self.periods, i),
            Cell::Public(_) => 0,
            Cell::Transition => 1,
            _ => self.rows.saturating_sub(1),
        }
    }

    fn of_ext_cell(&self, cell: ExtCell) -> usize {
        match cell {
            ExtCell::Permutation { .. } => self.rows.saturating_sub(1),
            _ => 0,
        }
    }
}

// The degree of periodic column i over so many rows, zero where it has no period.
fn periodic_degree(rows: usize, periods: &[usize], i: usize) -> usize
    ensures { result ≡ periodic_degree_of rows (slice_index periods.now i) }
{
    if i >= periods.len() || periods[i] == 0 {
        return 0;
    }
    let period = periods[i];
    (period - 1) * (rows / period)
}
