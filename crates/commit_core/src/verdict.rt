//! What a verification is to a verifier that has checks of its own: a law as the contract of a function that computes
//! nothing.
ghost use Rattle.std.specs.Prelude.{List};
ghost use Rattle.p3_field.specs.Checks.{Check, HasOneRefusal};
ghost use Rattle.commit_core.specs.Claims.{CommitmentClaim};

use crate::pcs::Pcs;
use p3_field::{
    BasedVectorSpace, ExtensionField, Field, FieldCore, PrimeCharacteristicRing, RingCore,
    TwoAdicCore,
};

/// A verification is one check (not in Plonky3): it holds where the proof opens the claims, is refused with the scheme's
/// first fault, and has exactly one refusal where it fails. So it may be a row among a verifier's own checks, of which
/// there is then one first that fails.
pub fn a_verification_is_a_check<E: ExtensionField<P::Val>, C, P: Pcs<E, C>>()
    ensures { (pcs : P) (challenger : C) (claims : List (CommitmentClaim E P.Commitment P.Domain))
        (proof : P.Proof)
        → HasOneRefusal (record {
          refusal = P.fault pcs challenger claims proof;
          holds = P.opens pcs challenger claims proof;
        }) }
{}
