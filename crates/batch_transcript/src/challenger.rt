//! What a batch asks of its challenger.
ghost use Rattle.p3_challenger.specs.Script.{ChallengerOf};

use p3_challenger::{CanObserve, CanSample, GrindingChallenger};
use p3_field::{ExtensionField, PrimeField64};

/// A challenger that a batch can be played with: it observes elements of both fields and commitments, draws elements of both fields,
/// and grinds elements of the base field (not in Plonky3). Each challenger with these parts has it.
///
/// `functions` gives its ghost functions as one record, of which the script's fold speaks.
pub trait BatchChallenger<F, EF, Com> {
    ghost functions: { ChallengerOf Self F EF Com };
}

impl<
    F: PrimeField64,
    EF: ExtensionField<F>,
    Com,
    C: GrindingChallenger<Witness = F>
        + CanObserve<EF>
        + CanObserve<Com>
        + CanSample<F>
        + CanSample<EF>,
> BatchChallenger<F, EF, Com> for C {
    ghost functions = { record {
      observe = ⟦<C as CanObserve<F>>⟧.observed;
      observe_extension = ⟦<C as CanObserve<EF>>⟧.observed;
      observe_opaque = ⟦<C as CanObserve<Com>>⟧.observed;
      draw = ⟦<C as CanSample<EF>>⟧.drawn;
      after_draw = ⟦<C as CanSample<EF>>⟧.after_draw;
      draw_bits = C.bits_drawn;
      after_bits = C.after_bits;
    } };
}
