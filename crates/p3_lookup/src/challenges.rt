//! The challenges of lookups.
ghost use Rattle.std.specs.Prelude.{◌≡◌, ℕ, ◌+◌, List, IfOk};
ghost use Rattle.p3_lookup.specs.Challenge.{ChallengesData, challenges_with};

use p3_field::{Field, FieldCore, Mem, PrimeCharacteristicRing, RingCore};
use std::alloc::Global;
use std::marker::Model;

/// The challenges of a batch's lookups (`p3_lookup::Challenges`): the two that are drawn, and each bus's base. A contract
/// sees it as the record `ChallengesData`.
#[derive(Drop)]
pub struct Challenges<EF> {
    /// The first challenge.
    pub alpha: EF,
    /// The second challenge.
    pub beta: EF,
    /// For each bus its base.
    pub bus_prefix: Vec<EF>,
}

impl<EF> Model for Challenges<EF> {
    ghost use Rattle.p3_lookup.specs.Challenge.{ChallengesData};

    ghost Value = { ChallengesData EF };

    ghost view = { λ c. record {
      alpha = c.alpha;
      beta = c.beta;
      bus_prefix = c.bus_prefix.items;
    } };
}

impl<EF: Field> Challenges<EF> {
    /// The challenges of a batch with so many buses and tuples up to this width: the base of bus b is alpha +
    /// (b + 1) beta^width.
    pub fn new(alloc: Global, alpha: EF, beta: EF, max_width: usize, num_buses: usize) -> Mem<Self>
        ensures { IfOk result (λ c. c ≡ challenges_with EF.ring alpha beta max_width num_buses) }
    {
        let power = beta.exp_u64(max_width as u64);
        let mut bus_prefix = Vec::with_capacity(alloc, num_buses)?;
        for bus in 0..num_buses {
            let number = EF::from_u64(bus as u64 + 1);
            bus_prefix.push(alpha + number * power)?;
        }
        Ok(Challenges {
            alpha,
            beta,
            bus_prefix,
        })
    }
}
