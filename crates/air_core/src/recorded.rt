//! What a recording builder keeps of assertions and interactions.
ghost use Rattle.std.specs.Prelude.{◌≡◌, Option};

use crate::cells::Count;
use std::marker::Model;

/// An asserted expression: the place of its node, and whether it was asserted over the extension.
#[derive(Clone, Copy)]
pub struct Assertion {
    /// The place of the node.
    pub place: usize,
    /// Whether it was asserted over the extension.
    pub in_extension: bool,
}

/// An interaction whose expressions are named by the places of their nodes. A contract sees it as the record
/// `Placed`.
#[derive(Drop)]
pub struct RecordedInteraction {
    /// The name of the bus, or None for a local interaction.
    pub bus: Option<String>,
    /// The fields: tuples one after another.
    pub fields: Vec<usize>,
    /// The counts, one a tuple.
    pub counts: Vec<Count<usize>>,
}

impl Model for RecordedInteraction {
    ghost use Rattle.std.specs.Prelude.{string_bytes};
    ghost use Rattle.std.specs.Option.{option_map};
    ghost use Rattle.air_core.specs.Placed.{Placed};

    ghost Value = { Placed };

    ghost view = { λ i. record {
      bus = option_map string_bytes i.bus;
      fields = i.fields.items;
      counts = i.counts.items;
    } };
}
