//! Prover and verifier along a worked pattern.

ghost use Rattle.std.specs.Prelude.{◌≡◌, map, length, IfOk, IfSome, IsTrue, ◌↔◌, ◌<◌, ◌^◌};
ghost use Rattle.std.specs.List.{fold};
ghost use Rattle.p3_field.specs.Ring.{of_nat};
ghost use Rattle.p3_challenger.specs.Grind.{PassesGrinding, checked_state};
ghost use Rattle.p3_challenger.specs.Separator.{encoding};
ghost use Rattle.cases_ground.specs.Worked.{worked_steps, told};

use p3_challenger::{
    CanObserve, CanSample, DomainSeparator, GrindingChallenger, ProverState, VerifierState,
};
use p3_field::{Mem, PrimeCore64, PrimeField64, RingCore};
use std::alloc::Global;

/// What one side has at the end: the grinding value, whether it passed, the draw, and the challenger.
#[derive(Drop)]
pub struct Side<F, C> {
    /// The grinding value.
    pub witness: F,
    /// Whether it passes.
    pub passes: bool,
    /// What was drawn.
    pub drawn: F,
    /// The challenger at the end.
    pub challenger: C,
}

/// Plays the prover's side; None where no value passes.
#[tactic(auto, unfolding(crate::specs::Worked::worked_steps))]
pub fn prover_side<F: PrimeField64, C: GrindingChallenger<Witness = F> + CanSample<F> + Drop>(
    alloc: Global,
    challenger: C,
    separator: &DomainSeparator,
    bits: usize,
    sent: F,
    known: &[F],
) -> Mem<Option<Side<F, C>>>
    requires steps { separator.now.steps ≡ worked_steps (length known.now) bits }
    requires few { 2 ^ bits < F.ORDER_U64 }
    ensures passes { IfOk result (λ o. IfSome o (λ s. IsTrue s.passes)) }
    ensures drawn { IfOk result
        (λ o. IfSome o (λ s. let begun = fold C.observed challenger
        (map (of_nat F.ring) (encoding separator.now)) in
        s.drawn ≡ C.drawn (checked_state C.observed C.after_bits
        (told C.observed begun sent known.now) bits s.witness))) }
    ensures state { IfOk result
        (λ o. IfSome o (λ s. let begun = fold C.observed challenger
        (map (of_nat F.ring) (encoding separator.now)) in
        s.challenger ≡ C.after_draw
        (checked_state C.observed C.after_bits (told C.observed begun sent known.now) bits
        s.witness))) }
{
    let mut state = ProverState::new::<F>(alloc, challenger, separator)?;
    state.message(&sent);
    state.public(known);
    let Some(witness) = state.pow() else {
        let _challenger = state.abort();
        return Ok(None);
    };
    let drawn: F = state.challenge();
    state.bracket();
    state.bracket();
    Ok(Some(Side {
        witness,
        passes: true,
        drawn,
        challenger: state.finalize(),
    }))
}

/// Plays the verifier's side, which goes on also where the value fails. From one challenger it ends as the prover's does.
#[tactic(auto, unfolding(crate::specs::Worked::worked_steps))]
pub fn verifier_side<F: PrimeField64, C: GrindingChallenger<Witness = F> + CanSample<F> + Drop>(
    alloc: Global,
    challenger: C,
    separator: &DomainSeparator,
    bits: usize,
    sent: F,
    known: &[F],
    witness: F,
) -> Mem<Side<F, C>>
    requires steps { separator.now.steps ≡ worked_steps (length known.now) bits }
    requires few { 2 ^ bits < F.ORDER_U64 }
    ensures passes { IfOk result
        (λ s. let begun = fold C.observed challenger
        (map (of_nat F.ring) (encoding separator.now)) in
        IsTrue s.passes ↔ PassesGrinding C.observed C.bits_drawn
        (told C.observed begun sent known.now) bits witness) }
    ensures drawn { IfOk result
        (λ s. let begun = fold C.observed challenger
        (map (of_nat F.ring) (encoding separator.now)) in
        s.drawn ≡ C.drawn (checked_state C.observed C.after_bits
        (told C.observed begun sent known.now) bits witness)) }
    ensures state { IfOk result
        (λ s. let begun = fold C.observed challenger
        (map (of_nat F.ring) (encoding separator.now)) in
        s.challenger ≡ C.after_draw
        (checked_state C.observed C.after_bits (told C.observed begun sent known.now) bits
        witness)) }
{
    let mut state = VerifierState::new::<F>(alloc, challenger, separator)?;
    state.message(&sent);
    state.public(known);
    let passes = state.pow(witness);
    let drawn: F = state.challenge();
    state.bracket();
    state.bracket();
    Ok(Side {
        witness,
        passes,
        drawn,
        challenger: state.finalize(),
    })
}
