//! The builder that records constraints and interactions.
ghost use Rattle.std.specs.Prelude.{◌≡◌, ◌<◌, ◌%◌, [], ◌∷◌, length, map, IfOk, OnErr, IsTrue, IsOk, false, true, string_bytes};
ghost use Rattle.std.specs.Option.{option_map};
ghost use Rattle.std.proofs.Common.{lit<};
ghost use Rattle.air_core.specs.Clauses.{GivesOfOne, GivesOfTwo, AppendsOfOne, SendsTuple, SendsTuples};
ghost use Rattle.air_core.specs.Layout.{layout_shape};
ghost use Rattle.air_core.specs.Symbolic.{node_tree, trees_after, OperandsBelow};
ghost use Rattle.air_core.specs.Recording.{Recording, IsLater, HasAppended, RepresentsAt, Computes, place_or_zero, tree_or_zero, bus_of, name_of, count_or_zero, asserting, sending};
ghost use Rattle.air_core.specs.Tree.{sum, difference, product, global, local};
ghost use Rattle.air_core.specs.declared.node.Node.TheVariants.{Constant};
ghost use Rattle.air_core.specs.Laws.Recording.{later-same, later-along, later-shape, represents-later, appends-none, appends-along, asserting-appends, sending-appends, computes-represents, lifts-represents};

mod largest;
mod read;
mod sent;

use crate::builder::{AirBuilder, ExtensionBuilder, InteractionBuilder, PermutationAirBuilder};
use crate::cells::{Cell, Count, ExtCell};
use crate::layout::AirLayout;
use crate::node::Node;
use crate::recorded::{Assertion, RecordedInteraction};
use p3_field::{Field, FieldCore, Mem, RingCore};
use std::alloc::Global;
use std::marker::Model;

/// Records the constraints and interactions that it is handed (`p3_lookup::InteractionSymbolicBuilder`). An
/// expression is the place of its node; one that this builder didn't give reads as zero. A contract sees the builder
/// as the record `Recording`.
#[derive(Drop)]
pub struct InteractionSymbolicBuilder<F> {
    alloc: Global,
    layout: AirLayout,
    nodes: Vec<Node<F>>,
    asserted: Vec<Assertion>,
    interactions: Vec<RecordedInteraction>,
}

impl<F> Model for InteractionSymbolicBuilder<F> {
    ghost use Rattle.air_core.specs.Recording.{Recording, IsRecording};

    ghost Value = { Recording F };

    ghost view = { λ b. record {
      layout = b.layout;
      nodes = b.nodes.items;
      asserted = b.asserted.items;
      interactions = b.interactions.items;
    } };

    ghost invariant = { λ b.
        IsRecording (record {
          layout = b.layout;
          nodes = b.nodes.items;
          asserted = b.asserted.items;
          interactions = b.interactions.items;
        }) };
}

// The place of an expression among `count` nodes, or that of the first node.
fn known(count: usize, x: usize) -> usize
    requires { 0 < count }
    ensures place { result ≡ place_or_zero count x }
    ensures within { result < count }
{
    if x < count { x } else { 0 }
}

// The places of expressions among `count` nodes.
fn known_all(alloc: Global, count: usize, xs: &[usize]) -> Mem<Vec<usize>>
    requires { 0 < count }
    ensures { IfOk result (λ v. v.items ≡ map (place_or_zero count) xs.now) }
{
    let mut places = Vec::with_capacity(alloc, xs.len())?;
    for x in xs {
        places.push(known(count, *x))?;
    }
    Ok(places)
}

// The counts, by their places among `count` nodes.
fn known_counts(alloc: Global, count: usize, xs: &[Count<usize>]) -> Mem<Vec<Count<usize>>>
    requires { 0 < count }
    ensures { IfOk result (λ v. v.items ≡ map (count_or_zero count) xs.now) }
{
    let mut counts = Vec::with_capacity(alloc, xs.len())?;
    for x in xs {
        counts.push(Count {
            value: known(count, x.value),
            bound: x.bound,
        })?;
    }
    Ok(counts)
}

impl<F: Field> InteractionSymbolicBuilder<F> {
    /// A builder that declares the cells of this layout, and has nothing recorded.
    pub fn new(alloc: Global, layout: AirLayout) -> Mem<Self>
        ensures layout { IfOk result (λ b. b.layout ≡ layout) }
        ensures first { IfOk result (λ b. b.nodes ≡ Constant F.ring.zero ∷ []) }
        ensures asserted { IfOk result (λ b. b.asserted ≡ []) }
        ensures interactions { IfOk result (λ b. b.interactions ≡ []) }
    {
        let mut nodes = Vec::new(alloc);
        nodes.push(Node::Constant(F::ZERO))?;
        Ok(InteractionSymbolicBuilder {
            alloc,
            layout,
            nodes,
            asserted: Vec::new(alloc),
            interactions: Vec::new(alloc),
        })
    }

    // Adds a node whose operands are among the nodes.
    fn push(&mut self, node: Node<F>) -> Mem<usize>
        requires { OperandsBelow (length self.old.nodes) node }
        ensures appends { HasAppended self.old self.new [] [] }
        ensures represents { IfOk result
            (λ e. RepresentsAt self.new.nodes e (node_tree (trees_after [] self.old.nodes) node)) }
    {
        let place = self.nodes.len();
        self.nodes.push(node)?;
        Ok(place)
    }

    // The place of an expression.
    fn place(&self, x: usize) -> usize
        ensures place { result ≡ place_or_zero (length self.now.nodes) x }
        ensures within { result < length self.now.nodes }
    {
        known(self.nodes.len(), x)
    }

    // Adds the sum of two expressions.
    fn push_sum(&mut self, x: usize, y: usize) -> Mem<usize>
        ensures appends { HasAppended self.old self.new [] [] }
        ensures represents { GivesOfTwo (RepresentsAt self.old.nodes) x y
            (RepresentsAt self.new.nodes) sum result }
        ensures known { IfOk result
            (λ e. RepresentsAt self.new.nodes e
            (sum (tree_or_zero self.old.nodes x) (tree_or_zero self.old.nodes y))) }
    {
        let left = self.place(x);
        let right = self.place(y);
        self.push(Node::Sum(left, right))
    }

    // Adds the difference of two expressions.
    fn push_difference(&mut self, x: usize, y: usize) -> Mem<usize>
        ensures appends { HasAppended self.old self.new [] [] }
        ensures represents { GivesOfTwo (RepresentsAt self.old.nodes) x y
            (RepresentsAt self.new.nodes) difference result }
        ensures known { IfOk result
            (λ e. RepresentsAt self.new.nodes e
            (difference (tree_or_zero self.old.nodes x) (tree_or_zero self.old.nodes y))) }
    {
        let left = self.place(x);
        let right = self.place(y);
        self.push(Node::Difference(left, right))
    }

    // Adds the product of two expressions.
    fn push_product(&mut self, x: usize, y: usize) -> Mem<usize>
        ensures appends { HasAppended self.old self.new [] [] }
        ensures represents { GivesOfTwo (RepresentsAt self.old.nodes) x y
            (RepresentsAt self.new.nodes) product result }
        ensures known { IfOk result
            (λ e. RepresentsAt self.new.nodes e
            (product (tree_or_zero self.old.nodes x) (tree_or_zero self.old.nodes y))) }
    {
        let left = self.place(x);
        let right = self.place(y);
        self.push(Node::Product(left, right))
    }

    // Appends an assertion.
    fn assert(&mut self, x: usize, in_extension: bool) -> Mem<()>
        ensures appends { AppendsOfOne (RepresentsAt self.old.nodes) x
            (HasAppended self.old self.new) (λ t. record { tree = t; in_extension = in_extension })
            result }
        ensures asserted { IfOk result (λ _. self.new ≡ asserting self.old x in_extension) }
        ensures keeps_shape { OnErr result (self.new ≡ self.old) }
        ensures on_error { OnErr result (HasAppended self.old self.new [] []) }
    {
        let place = self.place(x);
        self.asserted.push(Assertion {
            place,
            in_extension,
        })?;
        Ok(())
    }

    // Keeps an interaction.
    fn keep(&mut self, bus: Option<String>, fields: &[usize], counts: &[Count<usize>]) -> Mem<()>
        requires counted { 0 < length counts.now }
        requires whole { length fields.now % length counts.now ≡ 0 }
        ensures sent { IfOk result
            (λ _. self.new ≡ sending self.old (option_map string_bytes bus) fields.now counts.now) }
        ensures keeps_shape { OnErr result (self.new ≡ self.old) }
    {
        let fields = known_all(self.alloc, self.nodes.len(), fields)?;
        let counts = known_counts(self.alloc, self.nodes.len(), counts)?;
        self.interactions.push(RecordedInteraction {
            bus,
            fields,
            counts,
        })?;
        Ok(())
    }

    // Appends an interaction.
    fn send(&mut self, bus: Option<String>, fields: &[usize], counts: &[Count<usize>]) -> Mem<()>
        requires counted { 0 < length counts.now }
        requires whole { length fields.now % length counts.now ≡ 0 }
        ensures later { IsLater self.old self.new }
        ensures appends { SendsTuples (RepresentsAt self.old.nodes)
            (bus_of (option_map string_bytes bus)) fields.now counts.now
            (HasAppended self.old self.new) result }
        ensures sent { IfOk result
            (λ _. self.new ≡ sending self.old (option_map string_bytes bus) fields.now counts.now) }
        ensures on_error { OnErr result (HasAppended self.old self.new [] []) }
    {
        self.keep(bus, fields, counts)
    }
}

impl<F: Field> AirBuilder for InteractionSymbolicBuilder<F> {
    type F = F;

    type Expr = usize;

    ghost represents = { λ b e t. RepresentsAt b.nodes e t };

    ghost later = { IsLater };

    ghost appends = { HasAppended };

    ghost asserts = { λ a x b. b ≡ asserting a x false };

    ghost computes = { Computes };

    ghost shape = { λ b. layout_shape b.layout };

    ghost never_fails = { false };

    ghost only_asserting_fails = { false };

    fn cell(&mut self, c: Cell) -> Mem<usize> {
        self.push(Node::Base(c))
    }

    fn constant(&mut self, x: F) -> Mem<usize> {
        self.push(Node::Constant(x))
    }

    fn add(&mut self, x: usize, y: usize) -> Mem<usize> {
        self.push_sum(x, y)
    }

    fn sub(&mut self, x: usize, y: usize) -> Mem<usize> {
        self.push_difference(x, y)
    }

    fn mul(&mut self, x: usize, y: usize) -> Mem<usize> {
        self.push_product(x, y)
    }

    fn assert_zero(&mut self, x: usize) -> Mem<()> {
        self.assert(x, false)
    }

    ghost arrays_fit = { lit< tt };

    ghost later_same = { later-same };

    ghost later_along = { later-along };

    ghost later_shape = { later-shape };

    ghost persists = { represents-later };

    ghost appends_none = { appends-none };

    ghost appends_later = { λ a b t i h. h.later };

    ghost appends_along = { appends-along };

    ghost never_fails_sure = { λ h. h };

    ghost computes_represents = { computes-represents };

    ghost asserts_appends = { λ a b x t h e. asserting-appends a b x false t h e };
}

impl<F: Field> ExtensionBuilder for InteractionSymbolicBuilder<F> {
    type ExprEF = usize;

    ghost represents_ext = { λ b e t. RepresentsAt b.nodes e t };

    ghost asserts_ext = { λ a x b. b ≡ asserting a x true };

    ghost computes_ext = { Computes };

    ghost lifts = { λ a x b e. RepresentsAt b.nodes e (tree_or_zero a.nodes x) };

    fn lift(&mut self, x: usize) -> Mem<usize>
        ensures keeps_shape { layout_shape self.new.layout ≡ layout_shape self.old.layout }
        ensures appends { HasAppended self.old self.new [] [] }
        ensures answers { IsTrue false → IsOk result }
        ensures sure { IsTrue false → IsOk result }
        ensures lifts { IfOk result
            (λ e. RepresentsAt self.new.nodes e (tree_or_zero self.old.nodes x)) }
        ensures represents { GivesOfOne (RepresentsAt self.old.nodes) x
            (RepresentsAt self.new.nodes) (λ t. t) result }

        // An expression of the base is one of the extension as it is: nothing is allocated.
        ensures always { IsOk result }
    {
        Ok(self.place(x))
    }

    fn add_ext(&mut self, x: usize, y: usize) -> Mem<usize> {
        self.push_sum(x, y)
    }

    fn sub_ext(&mut self, x: usize, y: usize) -> Mem<usize> {
        self.push_difference(x, y)
    }

    fn mul_ext(&mut self, x: usize, y: usize) -> Mem<usize> {
        self.push_product(x, y)
    }

    fn assert_zero_ext(&mut self, x: usize) -> Mem<()> {
        self.assert(x, true)
    }

    ghost arrays_fit_ext = { lit< tt };

    ghost persists_ext = { represents-later };

    ghost computes_ext_represents = { computes-represents };

    ghost lifts_represents = { lifts-represents };

    ghost asserts_ext_appends = { λ a b x t h e. asserting-appends a b x true t h e };
}

impl<F: Field> PermutationAirBuilder for InteractionSymbolicBuilder<F> {
    fn ext_cell(&mut self, c: ExtCell) -> Mem<usize> {
        self.push(Node::Extension(c))
    }
}

impl<F: Field> InteractionBuilder for InteractionSymbolicBuilder<F> {
    ghost sends = { λ a bus xs cs b. b ≡ sending a (name_of bus) xs cs };

    fn push_interaction(&mut self, bus_name: &str, fields: &[usize], count: Count<usize>) -> Mem<()>
        ensures later { IsLater self.old self.new }
        ensures keeps_shape { layout_shape self.new.layout ≡ layout_shape self.old.layout }
        ensures answers { IsTrue false → IsOk result }
        ensures appends { SendsTuple (RepresentsAt self.old.nodes) (global bus_name.now) fields.now
            count (HasAppended self.old self.new) result }
        ensures sure { IsTrue false → IsOk result }
        ensures sends { IfOk result
            (λ _. self.new ≡ sending self.old (name_of (global bus_name.now)) fields.now
            (count ∷ [])) }
        ensures on_error { OnErr result (HasAppended self.old self.new [] []) }
    {
        let bus = String::from_str(self.alloc, bus_name)?;
        self.send(Some(bus), fields, &[count])
    }

    fn push_local_interaction(&mut self, fields: &[usize], counts: &[Count<usize>]) -> Mem<()>
        requires counted { 0 < length counts.now }
        requires whole { length fields.now % length counts.now ≡ 0 }
        ensures later { IsLater self.old self.new }
        ensures keeps_shape { layout_shape self.new.layout ≡ layout_shape self.old.layout }
        ensures answers { IsTrue false → IsOk result }
        ensures appends { SendsTuples (RepresentsAt self.old.nodes) local fields.now counts.now
            (HasAppended self.old self.new) result }
        ensures sure { IsTrue false → IsOk result }
        ensures sends { IfOk result
            (λ _. self.new ≡ sending self.old (name_of local) fields.now counts.now) }
        ensures on_error { OnErr result (HasAppended self.old self.new [] []) }
    {
        self.send(None, fields, counts)
    }

    ghost sends_appends = { sending-appends };
}
