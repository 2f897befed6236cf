//! Degrees of the constraints of lookups.
ghost use Rattle.std.specs.Prelude.{◌≡◌, ℕ, List, length, map};
ghost use Rattle.p3_field.specs.Poly.{eval_poly};
ghost use Rattle.air_core.specs.Degree.{multiple};
ghost use Rattle.air_core.specs.Tree.{Tree};
ghost use Rattle.air_core.specs.Symbolic.{tree_of};
ghost use Rattle.p3_lookup.specs.Lookup.{HasCountForEach, pair_up};
ghost use Rattle.p3_lookup.specs.Written.{read, tree_count};
ghost use Rattle.p3_lookup.specs.Trees.{trees};
ghost use Rattle.p3_lookup.specs.Packing.{lookup_degree};
ghost use Rattle.p3_lookup.specs.Emission.{AreDegreesOf};

use crate::lookup::Lookup;
use air_core::{Count, SymbolicExpression};
use p3_field::{Field, FieldCore, RingCore};

// The degree of a tuple's sum, where beta has degree zero.
fn tuple_degree<F: Field>(tuple: &[SymbolicExpression<F>], t: usize) -> usize
    ensures { (b : Tree F) → multiple t b ≡ 0
        → result ≡ multiple t (eval_poly (trees F.ring) (map tree_of tuple.now) b) }
{
    let mut degree = 0usize;
    for i in (0..tuple.len()).rev() {
        degree = tuple[i].degree_multiple_with_transition(t).max(degree);
    }
    degree
}

// The degrees of the common denominator and of the numerator of a lookup's terms, where its base and beta have degree
// zero.
fn parts_degrees<F: Field>(
    elements: &[Vec<SymbolicExpression<F>>],
    multiplicities: &[Count<SymbolicExpression<F>>],
    t: usize,
) -> (usize, usize)
    requires counted { length multiplicities.now ≡ length elements.now }
    ensures { (a b : Tree F) → multiple t a ≡ 0 → multiple t b ≡ 0
        → AreDegreesOf F.ring t a b result
        (pair_up (map (map tree_of) (map (λ v. v.items) elements.now))
        (map tree_count multiplicities.now)) }
{
    let mut common = 0usize;
    let mut numerator = 0usize;
    for i in (0..elements.len()).rev() {
        let denominator = tuple_degree(&elements[i], t);
        let count = multiplicities[i].value.degree_multiple_with_transition(t);
        let own = count.saturating_add(common);
        numerator = own.max(denominator.saturating_add(numerator));
        common = denominator.saturating_add(common);
    }
    (common, numerator)
}

// The largest degree of the constraints of a table with this lookup alone.
pub(crate) fn degree_of<F: Field>(lookup: &Lookup<F>, t: usize) -> usize
    requires counted { HasCountForEach (read lookup.now) }
    ensures { result ≡ lookup_degree F.ring t (read lookup.now) }
{
    let (common, numerator) = parts_degrees(&lookup.elements, &lookup.multiplicities, t);
    let fraction = 1usize.saturating_add(common).max(numerator);
    fraction.max(2).max(t.saturating_add(1))
}
