//! Terms of a lookup's fraction.
use std::marker::Model;

/// A tuple's count over its denominator. A contract sees it as the record `Term`.
#[derive(Drop)]
pub(crate) struct Term<EF> {
    /// The count.
    pub count: EF,
    /// The denominator.
    pub denominator: EF,
}

impl<EF> Model for Term<EF> {
    ghost use Rattle.p3_lookup.specs.Term.{Term as TermData};

    ghost Value = { TermData EF };

    ghost view = { λ t. record { count = t.count; denominator = t.denominator } };
}
