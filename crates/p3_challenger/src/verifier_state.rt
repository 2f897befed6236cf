//! The verifier's typed state.

ghost use Rattle.std.specs.Prelude.{◌≡◌, IsTrue, ◌↔◌, ◌<◌, ◌^◌};
ghost use Rattle.p3_challenger.specs.Grind.{PassesGrinding, checked_state};
ghost use Rattle.p3_challenger.specs.States.{NextIs, IsStep, next_bits, played};

use crate::GrindingChallenger;
use crate::script::InteractionKind;
use crate::states::next_number;
use crate::typed_state::{TypedState, Verifying};
use p3_field::PrimeCore64;

/// The verifier's typed state, as Plonky3's `p3_challenger::fs::VerifierState`.
pub type VerifierState<C> = TypedState<C, Verifying>;

impl<C> TypedState<C, Verifying> {
    /// Plays a Pow step by `check_witness` at its bits, where 2^bits is below the field's order: whether the value passes. The step is played
    /// also where it doesn't.
    pub fn pow(&mut self, value: C::Witness) -> bool
    where
        C: GrindingChallenger,
        requires turn { NextIs (IsStep InteractionKind.Pow) self.old.remaining }
        requires few { 2 ^ next_bits self.old.remaining < C.Witness.ORDER_U64 }
        ensures answer { IsTrue result
            ↔ PassesGrinding C.observed C.bits_drawn self.old.state (next_bits self.old.remaining)
            value }
        ensures state { self.new
            ≡ played self.old (checked_state C.observed C.after_bits self.old.state
            (next_bits self.old.remaining) value) }
    {
        let passes = self
            .challenger
            .check_witness(next_number(&self.remaining), value);
        let _ = self.remaining.pop_front();
        passes
    }
}
