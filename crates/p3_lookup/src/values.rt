//! Values of lookups at a row.
ghost use Rattle.std.specs.Prelude.{◌≡◌, ℕ, ◌+◌, ◌*◌, ◌<◌, List, [], length, map, All};
ghost use Rattle.p3_field.specs.Poly.{eval_poly};
ghost use Rattle.air_core.specs.Shape.{ReadsSendable};
ghost use Rattle.air_core.specs.Symbolic.{tree_at, tree_of, Ordered};
ghost use Rattle.air_core.specs.RowCheck.{tree_value_at_row, row_shape};
ghost use Rattle.p3_lookup.specs.Lookup.{map_sent, pair_up};
ghost use Rattle.p3_lookup.specs.Written.{tree_count};
ghost use Rattle.p3_lookup.specs.Term.{term};
ghost use Rattle.p3_lookup.specs.Honest.{terms_of};
ghost use Rattle.p3_lookup.specs.Generated.{embedded_at};
ghost use Rattle.p3_lookup.specs.RowTerms.{AreTermsAdded};

use crate::term::Term;
use crate::terminal::GenerateError;
use air_core::{Count, Node, RowValues, SymbolicExpression};
use p3_field::{ExtensionField, Field, FieldCore, PrimeCharacteristicRing, RingCore};

// The value of the tree at a place.
fn value_in<'a, F: Field>(nodes: &[Node<F>], place: usize, row: &RowValues<'a, F, F>) -> F
    requires within { place < length nodes.now }
    requires ordered { Ordered nodes.now }
    requires reads { ReadsSendable (row_shape row.now) (tree_at nodes.now place) }
    ensures { result ≡ tree_value_at_row F.ring F.ring (λ x. x) row.now (tree_at nodes.now place) }
{
    match nodes[place] {
        Node::Constant(x) => x,
        Node::Base(cell) => row.cell(cell),
        Node::Extension(_) => F::ZERO,
        Node::Sum(x, y) => {
            let left = value_in(nodes, x, row);
            left + value_in(nodes, y, row)
        }
        Node::Difference(x, y) => {
            let left = value_in(nodes, x, row);
            left - value_in(nodes, y, row)
        }
        Node::Product(x, y) => {
            let left = value_in(nodes, x, row);
            left * value_in(nodes, y, row)
        }
    }
}

/// The value of a sendable expression at a row, in the base field (not in Plonky3).
pub fn sent_value<'a, F: Field>(x: &SymbolicExpression<F>, row: &RowValues<'a, F, F>) -> F
    requires reads { ReadsSendable (row_shape row.now) (tree_of x.now) }
    ensures { result ≡ tree_value_at_row F.ring F.ring (λ x. x) row.now (tree_of x.now) }
{
    let nodes = x.nodes();
    value_in(nodes, nodes.len() - 1, row)
}

// The value of an expression, in the extension.
fn embedded_value<'a, F: Field, EF: ExtensionField<F>>(
    x: &SymbolicExpression<F>,
    row: &RowValues<'a, F, F>,
) -> EF
    requires reads { ReadsSendable (row_shape row.now) (tree_of x.now) }
    ensures { result ≡ embedded_at F.ring EF.embed row.now (tree_of x.now) }
{
    EF::from_base(sent_value(x, row))
}

// The sum of the values of a tuple's e_k times beta^k.
fn combined_value<'a, F: Field, EF: ExtensionField<F>>(
    tuple: &[SymbolicExpression<F>],
    row: &RowValues<'a, F, F>,
    beta: EF,
) -> EF
    requires reads { All (ReadsSendable (row_shape row.now)) (map tree_of tuple.now) }
    ensures { result ≡ eval_poly EF.ring
        (map (embedded_at F.ring EF.embed row.now) (map tree_of tuple.now)) beta }
{
    let mut sum = EF::ZERO;
    for i in (0..tuple.len()).rev() {
        sum = embedded_value::<F, EF>(&tuple[i], row) + beta * sum;
    }
    sum
}

// A tuple's count over its denominator.
fn term_value<'a, F: Field, EF: ExtensionField<F>>(
    tuple: &[SymbolicExpression<F>],
    count: &SymbolicExpression<F>,
    row: &RowValues<'a, F, F>,
    challenges: (EF, EF),
) -> Term<EF>
    requires tuple { All (ReadsSendable (row_shape row.now)) (map tree_of tuple.now) }
    requires count { ReadsSendable (row_shape row.now) (tree_of count.now) }
    ensures { result ≡ term EF.ring challenges.0 challenges.1
        (map_sent (embedded_at F.ring EF.embed row.now)
        (record { tuple = map tree_of tuple.now; count = tree_of count.now })) }
{
    Term {
        count: embedded_value::<F, EF>(count, row),
        denominator: challenges.0 - combined_value(tuple, row, challenges.1),
    }
}

// Appends the terms of a lookup at a row, or gives the first whose denominator is zero. The place is the number of the row
// and that of the lookup.
pub(crate) fn push_terms<'a, F: Field, EF: ExtensionField<F>>(
    terms: &mut Vec<Term<EF>>,
    elements: &[Vec<SymbolicExpression<F>>],
    multiplicities: &[Count<SymbolicExpression<F>>],
    row: &RowValues<'a, F, F>,
    challenges: (EF, EF),
    place: (usize, usize),
) -> Result<(), GenerateError>
    requires counted { length multiplicities.now ≡ length elements.now }
    requires tuples { All (All (ReadsSendable (row_shape row.now)))
        (map (map tree_of) (map (λ v. v.items) elements.now)) }
    requires counts { All (λ c. ReadsSendable (row_shape row.now) c.value)
        (map tree_count multiplicities.now) }
    ensures { AreTermsAdded EF.ring
        (terms_of EF.ring challenges.0 challenges.1 (embedded_at F.ring EF.embed row.now)
        (pair_up (map (map tree_of) (map (λ v. v.items) elements.now))
        (map tree_count multiplicities.now))) place.0 place.1 terms.old.items terms.new.items
        result }
{
    for i in 0..elements.len() {
        let term = term_value(&elements[i], &multiplicities[i].value, row, challenges);
        if term.denominator.is_zero() {
            let (row, lookup) = place;
            return Err(GenerateError::DenominatorZero {
                row,
                lookup,
                tuple: i,
            });
        }
        terms.push(term)?;
    }
    Ok(())
}
