//! Messages as values.
use std::marker::Model;

/// A tuple of values that is sent on a bus, and how often (not in Plonky3). A contract sees it as the record `Message` of
/// `p3_lookup`.
#[derive(Drop)]
pub struct Message<F> {
    /// The number of the bus.
    pub bus: usize,
    /// The values.
    pub tuple: Vec<F>,
    /// How often it is sent: an element of the field, so one that is sent as often as the characteristic says counts zero.
    pub count: F,
}

impl<F> Model for Message<F> {
    ghost use Rattle.p3_lookup.specs.Messages.{Message as MessageData};

    ghost Value = { MessageData F };

    ghost view = { λ m. record { bus = m.bus; tuple = m.tuple.items; count = m.count } };
}
