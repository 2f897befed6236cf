//! The prover's typed state.

ghost use Rattle.std.specs.Prelude.{◌≡◌, ℕ, MatchOption, ◌<◌, ◌^◌};
ghost use Rattle.p3_field.specs.Ring.{of_nat};
ghost use Rattle.p3_challenger.specs.Grind.{PassesGrinding, checked_state, IsLeast};
ghost use Rattle.p3_challenger.specs.States.{NextIs, IsStep, next_bits, played};

use crate::GrindingChallenger;
use crate::script::InteractionKind;
use crate::states::next_number;
use crate::typed_state::{Proving, TypedState};
use p3_field::{PrimeCore64, RingCore};

/// The prover's typed state, as Plonky3's `p3_challenger::fs::ProverState`.
pub type ProverState<C> = TypedState<C, Proving>;

impl<C> TypedState<C, Proving> {
    /// Plays a Pow step by `grind` at its bits, where 2^bits is below the field's order. The answer is the element of least canonical value
    /// that passes. It is None exactly where no element passes; then no step is played, and nothing changes.
    pub fn pow(&mut self) -> Option<C::Witness>
    where
        C: GrindingChallenger,
        requires turn { NextIs (IsStep InteractionKind.Pow) self.old.remaining }
        requires few { 2 ^ next_bits self.old.remaining < C.Witness.ORDER_U64 }
        ensures answer { let bits = next_bits self.old.remaining in MatchOption result
            ((n : ℕ) → n < C.Witness.ORDER_U64
            → PassesGrinding C.observed C.bits_drawn self.old.state bits (of_nat C.Witness.ring n)
            → ⊥)
            (λ w. IsLeast (λ n. PassesGrinding C.observed C.bits_drawn self.old.state bits
            (of_nat C.Witness.ring n)) (C.Witness.canonical w)) }
        ensures state { MatchOption result
            (self.new ≡ self.old)
            (λ w. self.new ≡ played self.old
            (checked_state C.observed C.after_bits self.old.state (next_bits self.old.remaining)
            w)) }
    {
        let witness = self.challenger.grind(next_number(&self.remaining))?;
        let _ = self.remaining.pop_front();
        Some(witness)
    }
}
