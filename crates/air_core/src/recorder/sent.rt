//! The interactions that a recording builder has recorded, as values of their own.
ghost use Rattle.std.specs.Prelude.{◌≡◌, ℕ, ◌<◌, ◌↔◌, List, [], length, map, get_or, All, IfOk, IsOk, IsTrue};
ghost use Rattle.air_core.specs.Symbolic.{tree_at, tree_of, Ordered};
ghost use Rattle.std.specs.Option.{option_copied};
ghost use Rattle.air_core.specs.Placed.{Placed};
ghost use Rattle.air_core.specs.Recording.{interaction_at, sent_at};
ghost use Rattle.air_core.specs.Shape.{declared_shape, IsInteraction};

use crate::base::BaseAir;
use crate::cells::Count;
use crate::copying::expression_at;
use crate::node::Node;
use crate::reads::all_sendable;
use crate::recorder::InteractionSymbolicBuilder;
use crate::symbolic::SymbolicExpression;
use p3_field::{Field, FieldCore, Mem, RingCore};
use std::alloc::Global;

impl<F: Field> InteractionSymbolicBuilder<F> {
    /// How many interactions there are. Each has at least one count.
    pub fn num_interactions(&self) -> usize
        ensures number { result ≡ length self.now.interactions }
        ensures counted { All (λ p. 0 < length p.counts) self.now.interactions }
    {
        self.interactions.len()
    }

    /// The fields of an interaction: its tuples one after another.
    pub fn interaction_fields(&self, alloc: Global, index: usize) -> Mem<Vec<SymbolicExpression<F>>>
        requires { index < length self.now.interactions }
        ensures { IfOk result (λ v. (d : Placed)
            → map tree_of v.items ≡ (interaction_at self.now.nodes
            (get_or self.now.interactions index d)).fields) }
    {
        let recorded = &self.interactions[index];
        expressions_at(alloc, &self.nodes, &recorded.fields)
    }

    /// The counts of an interaction, one a tuple.
    pub fn interaction_counts(&self, alloc: Global, index: usize) -> Mem<Vec<SymbolicExpression<F>>>
        requires { index < length self.now.interactions }
        ensures { IfOk result (λ v. (d : Placed)
            → map tree_of v.items ≡ map (λ c. tree_at self.now.nodes c.value)
            (get_or self.now.interactions index d).counts) }
    {
        let recorded = &self.interactions[index];
        counts_at(alloc, &self.nodes, &recorded.counts)
    }

    /// The bounds of an interaction's counts, in order.
    pub fn interaction_bounds(&self, alloc: Global, index: usize) -> Mem<Vec<u32>>
        requires { index < length self.now.interactions }
        ensures { IfOk result (λ v. (d : Placed)
            → v.items ≡ map (λ c. c.bound) (get_or self.now.interactions index d).counts) }
    {
        let recorded = &self.interactions[index];
        bounds_of(alloc, &recorded.counts)
    }

    // Whether an interaction reads only what the AIR's interactions may read.
    fn interaction_reads_declared<A: BaseAir<F>>(
        &self,
        alloc: Global,
        air: &A,
        index: usize,
    ) -> Mem<bool>
        requires { index < length self.now.interactions }
        ensures { IfOk result (λ b. (d : Placed) → IsTrue b
            ↔ IsInteraction (declared_shape (A.declaration air.now))
            (interaction_at self.now.nodes (get_or self.now.interactions index d))) }
    {
        let _ = &self.interactions;
        let fields = self.interaction_fields(alloc, index)?;
        let counts = self.interaction_counts(alloc, index)?;
        if !all_sendable(&fields, air) {
            return Ok(false);
        }
        Ok(all_sendable(&counts, air))
    }

    /// Whether each interaction reads only what an interaction of this AIR may read: constants, and public values, main and
    /// preprocessed cells that it declares, next cells only in declared next columns (not in Plonky3). Where there is no
    /// interaction, the answer is Ok.
    pub fn interactions_read_declared<A: BaseAir<F>>(&self, alloc: Global, air: &A) -> Mem<bool>
        ensures declared { IfOk result
            (λ b. IsTrue b ↔ All (IsInteraction (declared_shape (A.declaration air.now)))
            (sent_at self.now.nodes self.now.interactions)) }
        ensures none { self.now.interactions ≡ [] → IsOk result }
    {
        for index in 0..self.num_interactions() {
            if !self.interaction_reads_declared(alloc, air, index)? {
                return Ok(false);
            }
        }
        Ok(true)
    }

    /// The name of an interaction's bus, or None for a local one.
    pub fn interaction_bus(&self, index: usize) -> Option<&str>
        requires { index < length self.now.interactions }
        ensures { (d : Placed) → option_copied result ≡ (get_or self.now.interactions index d).bus }
    {
        let recorded = &self.interactions[index];
        match &recorded.bus {
            Some(name) => Some(name.as_str()),
            None => None,
        }
    }
}

// The bounds of these counts.
fn bounds_of(alloc: Global, counts: &[Count<usize>]) -> Mem<Vec<u32>>
    ensures { IfOk result (λ v. v.items ≡ map (λ c. c.bound) counts.now) }
{
    let mut bounds = Vec::with_capacity(alloc, counts.len())?;
    for count in counts {
        bounds.push(count.bound)?;
    }
    Ok(bounds)
}

// The expressions at these places.
fn expressions_at<F: FieldCore>(
    alloc: Global,
    nodes: &[Node<F>],
    places: &[usize],
) -> Mem<Vec<SymbolicExpression<F>>>
    requires ordered { Ordered nodes.now }
    requires within { All (λ i. i < length nodes.now) places.now }
    ensures { IfOk result (λ v. map tree_of v.items ≡ map (tree_at nodes.now) places.now) }
{
    let mut expressions = Vec::with_capacity(alloc, places.len())?;
    for place in places {
        expressions.push(expression_at(alloc, nodes, *place)?)?;
    }
    Ok(expressions)
}

// The expressions of these counts.
fn counts_at<F: FieldCore>(
    alloc: Global,
    nodes: &[Node<F>],
    counts: &[Count<usize>],
) -> Mem<Vec<SymbolicExpression<F>>>
    requires ordered { Ordered nodes.now }
    requires within { All (λ c. c.value < length nodes.now) counts.now }
    ensures { IfOk result (λ v.
        map tree_of v.items ≡ map (λ c. tree_at nodes.now c.value) counts.now) }
{
    let mut expressions = Vec::with_capacity(alloc, counts.len())?;
    for count in counts {
        expressions.push(expression_at(alloc, nodes, count.value)?)?;
    }
    Ok(expressions)
}
