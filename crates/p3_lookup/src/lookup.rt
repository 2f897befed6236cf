//! Lookups as values.
ghost use Rattle.std.specs.Prelude.{◌≡◌, map, length};
ghost use Rattle.p3_lookup.specs.Written.{Written, bus_of_kind};

use crate::kind::Kind;
use air_core::{Count, SymbolicExpression};
use std::marker::Model;

/// The tuples that a table sends on a bus, and how often each (`p3_lookup::Lookup`). A contract sees it as the record
/// `Written`.
#[derive(Drop)]
pub struct Lookup<F> {
    /// Whom it speaks to.
    pub kind: Kind,
    /// The tuples.
    pub elements: Vec<Vec<SymbolicExpression<F>>>,
    /// How often each is sent.
    pub multiplicities: Vec<Count<SymbolicExpression<F>>>,
}

impl<F> Model for Lookup<F> {
    ghost use Rattle.std.specs.Prelude.{map};
    ghost use Rattle.p3_lookup.specs.Written.{Written, bus_of_kind};

    ghost Value = { Written F };

    ghost view = { λ l. record {
      bus = bus_of_kind l.kind;
      elements = map (λ v. v.items) l.elements.items;
      multiplicities = l.multiplicities.items;
    } };
}

/// The lookups of a table, in order (`p3_lookup::Lookups`). A contract sees them as a list.
#[derive(Drop)]
pub struct Lookups<F> {
    lookups: Vec<Lookup<F>>,
}

impl<F> Model for Lookups<F> {
    ghost use Rattle.std.specs.Prelude.{List};
    ghost use Rattle.p3_lookup.specs.Written.{Written};

    ghost Value = { List (Written F) };

    ghost view = { λ l. l.lookups.items };
}

impl<F> Lookups<F> {
    /// These lookups.
    pub fn new(lookups: Vec<Lookup<F>>) -> Self
        ensures { result ≡ lookups.items }
    {
        Lookups { lookups }
    }

    /// The lookups, in order.
    pub fn as_slice(&self) -> &[Lookup<F>]
        ensures { result.now ≡ self.now }
    {
        &self.lookups
    }
}

impl<F> Lookup<F> {
    /// The lookup of this kind, with these tuples and a count for each.
    pub fn new(
        kind: Kind,
        elements: Vec<Vec<SymbolicExpression<F>>>,
        multiplicities: Vec<Count<SymbolicExpression<F>>>,
    ) -> Self
        ensures { result ≡ record {
          bus = bus_of_kind kind;
          elements = map (λ v. v.items) elements.items;
          multiplicities = multiplicities.items;
        } }
    {
        Lookup {
            kind,
            elements,
            multiplicities,
        }
    }
}
