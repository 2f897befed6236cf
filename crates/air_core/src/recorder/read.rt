//! What a recording builder has recorded, as values of their own.
ghost use Rattle.std.specs.Prelude.{◌≡◌, ℕ, ◌+◌, ◌<◌, ◌++◌, List, [], ◌∷◌, length, map, All, IfOk, IsOk, Bool, true, false, not, cond};
ghost use Rattle.air_core.specs.Tree.{Tree};
ghost use Rattle.air_core.specs.Layout.{place_count, ListsEachOnce};
ghost use Rattle.air_core.specs.Symbolic.{tree_at, tree_of, Ordered};
ghost use Rattle.air_core.specs.Recording.{trees_at, asserted_in, asserted_at, trees_over, AreTheirPlaces, indices_from, is_in};
ghost use Rattle.air_core.specs.declared.node.Node.{Node as NodeOf};

use crate::copying::expression_at;
use crate::layout::ConstraintLayout;
use crate::node::Node;
use crate::recorded::Assertion;
use crate::recorder::InteractionSymbolicBuilder;
use crate::symbolic::SymbolicExpression;
use p3_field::{Field, FieldCore, Mem, RingCore};
use std::alloc::Global;

impl<F: Field> InteractionSymbolicBuilder<F> {
    /// The constraints asserted over the base field, in order. Where there are none, the answer is Ok.
    pub fn base_constraints(&self, alloc: Global) -> Mem<Vec<SymbolicExpression<F>>>
        ensures trees { IfOk result
            (λ v. map tree_of v.items
            ≡ trees_at self.now.nodes (asserted_in false self.now.asserted)) }
        ensures asserted { IfOk result
            (λ v. map tree_of v.items
            ≡ trees_over false (asserted_at self.now.nodes self.now.asserted)) }
        ensures none { trees_over false (asserted_at self.now.nodes self.now.asserted) ≡ []
            → IsOk result }
    {
        expressions(alloc, &self.nodes, &self.asserted, false)
    }

    /// The constraints asserted over the extension, in order. Where there are none, the answer is Ok.
    pub fn extension_constraints(&self, alloc: Global) -> Mem<Vec<SymbolicExpression<F>>>
        ensures trees { IfOk result
            (λ v. map tree_of v.items
            ≡ trees_at self.now.nodes (asserted_in true self.now.asserted)) }
        ensures asserted { IfOk result
            (λ v. map tree_of v.items
            ≡ trees_over true (asserted_at self.now.nodes self.now.asserted)) }
        ensures none { trees_over true (asserted_at self.now.nodes self.now.asserted) ≡ []
            → IsOk result }
    {
        expressions(alloc, &self.nodes, &self.asserted, true)
    }

    /// The places of both kinds of constraints among all, which are numbered from 0 in the order of assertion: each
    /// place stands once in one of both lists, and each list ascends.
    pub fn constraint_layout(&self, alloc: Global) -> Mem<ConstraintLayout>
        ensures base { IfOk result (λ l. l.base_indices ≡ indices_from false 0 self.now.asserted) }
        ensures extension { IfOk result
            (λ l. l.ext_indices ≡ indices_from true 0 self.now.asserted) }
        ensures total { IfOk result (λ l. place_count l ≡ length self.now.asserted) }
        ensures once { IfOk result ListsEachOnce }
        ensures base_places { IfOk result
            (λ l. AreTheirPlaces false self.now.asserted l.base_indices) }
        ensures extension_places { IfOk result
            (λ l. AreTheirPlaces true self.now.asserted l.ext_indices) }
        ensures base_below { IfOk result
            (λ l. All (λ i. i < length self.now.asserted) l.base_indices) }
        ensures extension_below { IfOk result
            (λ l. All (λ i. i < length self.now.asserted) l.ext_indices) }
    {
        let base_indices = indices(alloc, &self.asserted, false)?;
        let ext_indices = indices(alloc, &self.asserted, true)?;
        Ok(ConstraintLayout {
            base_indices,
            ext_indices,
        })
    }
}

// Whether the assertion was made over the extension, or, where that is what is asked, over the base field.
fn is_asked(assertion: Assertion, in_extension: bool) -> bool
    ensures { result ≡ is_in in_extension assertion }
{
    if assertion.in_extension {
        in_extension
    } else {
        !in_extension
    }
}

// The expressions of the assertions over the base field, or over the extension.
fn expressions<F: FieldCore>(
    alloc: Global,
    nodes: &[Node<F>],
    asserted: &[Assertion],
    in_extension: bool,
) -> Mem<Vec<SymbolicExpression<F>>>
    requires ordered { Ordered nodes.now }
    requires asserted { All (λ a. a.place < length nodes.now) asserted.now }
    ensures trees { IfOk result
        (λ v. map tree_of v.items ≡ trees_at nodes.now (asserted_in in_extension asserted.now)) }
    ensures none { asserted_in in_extension asserted.now ≡ [] → IsOk result }
{
    let mut expressions = Vec::new(alloc);
    for assertion in asserted {
        if is_asked(*assertion, in_extension) {
            expressions.push(expression_at(alloc, nodes, assertion.place)?)?;
        }
    }
    Ok(expressions)
}

// The places of the assertions over the base field, or over the extension, among all.
fn indices(alloc: Global, asserted: &[Assertion], in_extension: bool) -> Mem<Vec<usize>>
    ensures { IfOk result (λ v. v.items ≡ indices_from in_extension 0 asserted.now) }
{
    let mut indices = Vec::new(alloc);
    for place in 0..asserted.len() {
        let asked = is_asked(asserted[place], in_extension);
        push_if(&mut indices, place, asked)?;
    }
    Ok(indices)
}

// Appends the place where it is asked for.
fn push_if(indices: &mut Vec<usize>, place: usize, asked: bool) -> Mem<()>
    ensures { IfOk result (λ _.
        indices.new.items ≡ indices.old.items ++ cond asked (place ∷ []) []) }
{
    if asked {
        indices.push(place)?;
    }
    Ok(())
}
