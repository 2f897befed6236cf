//! Whether lookups read only what their table may send.
ghost use Rattle.std.specs.Prelude.{◌≡◌, ◌↔◌, ◌<◌, ◌≤◌, ℕ, List, [], length, map, get_or, All, IsTrue};
ghost use Rattle.air_core.specs.Shape.{Declaration, declared_shape, ReadsSendable};
ghost use Rattle.air_core.specs.Symbolic.{tree_of};
ghost use Rattle.p3_lookup.specs.Lookup.{IsLookup};
ghost use Rattle.p3_lookup.specs.Written.{read, read_all, tree_count};

use air_core::{BaseAir, Count, SymbolicExpression};
use p3_field::{Field, FieldCore, RingCore};
use p3_lookup::{Lookup, Lookups};

// Whether each field of a tuple reads only what the AIR may send.
fn is_sendable<F: Field, A: BaseAir<F>>(tuple: &[SymbolicExpression<F>], air: &A) -> bool
    ensures { IsTrue result ↔ All (ReadsSendable (declared_shape (A.declaration air.now)))
        (map tree_of tuple.now) }
{
    for expression in tuple {
        if !expression.reads_sendable(air) {
            return false;
        }
    }
    true
}

// Whether each field of each tuple does.
fn tuples_are_sendable<F: Field, A: BaseAir<F>>(
    tuples: &[Vec<SymbolicExpression<F>>],
    air: &A,
) -> bool
    ensures { IsTrue result ↔ All (All (ReadsSendable (declared_shape (A.declaration air.now))))
        (map (λ v. map tree_of v.items) tuples.now) }
{
    for tuple in tuples {
        if !is_sendable(tuple, air) {
            return false;
        }
    }
    true
}

// Whether each count does.
fn counts_are_sendable<F: Field, A: BaseAir<F>>(
    counts: &[Count<SymbolicExpression<F>>],
    air: &A,
) -> bool
    ensures { IsTrue result ↔ All
        (λ c. ReadsSendable (declared_shape (A.declaration air.now)) c.value)
        (map tree_count counts.now) }
{
    for count in counts {
        if !count.value.reads_sendable(air) {
            return false;
        }
    }
    true
}

// Whether the lookup reads only what the AIR may send, and has one count for each tuple.
fn is_lookup<F: Field, A: BaseAir<F>>(lookup: &Lookup<F>, air: &A) -> bool
    ensures { IsTrue result ↔ IsLookup (declared_shape (A.declaration air.now)) (read lookup.now) }
{
    if lookup.multiplicities.len() != lookup.elements.len() {
        return false;
    }
    if !tuples_are_sendable(&lookup.elements, air) {
        return false;
    }
    counts_are_sendable(&lookup.multiplicities, air)
}

// Whether each lookup does and has.
fn are_lookups<F: Field, A: BaseAir<F>>(lookups: &[Lookup<F>], air: &A) -> bool
    ensures { IsTrue result ↔ All (IsLookup (declared_shape (A.declaration air.now)))
        (read_all lookups.now) }
{
    for i in 0..lookups.len() {
        if !is_lookup(&lookups[i], air) {
            return false;
        }
    }
    true
}

// Whether this is so of each of the first `n` tables.
pub(crate) fn lookups_fit<F: Field, A: BaseAir<F>>(
    airs: &[A],
    lookups: &[Lookups<F>],
    n: usize,
) -> bool
    requires airs { n ≤ length airs.now }
    requires lookups { n ≤ length lookups.now }
    ensures { IsTrue result ↔ ((k : ℕ) → k < n → (d : Declaration F)
        → All (IsLookup (declared_shape (get_or (map A.declaration airs.now) k d)))
        (get_or (map read_all lookups.now) k [])) }
{
    for i in 0..n {
        if !are_lookups(lookups[i].as_slice(), &airs[i]) {
            return false;
        }
    }
    true
}
