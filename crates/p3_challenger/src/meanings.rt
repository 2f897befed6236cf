//! What the transcript's definitions promise: laws as the contracts of functions that compute nothing.

ghost use Rattle.std.specs.Prelude.{◌≡◌, ◌↔◌, ◌∷◌, [], List, ℕ, true};
ghost use Rattle.p3_field.specs.Quartic.{quartic_coefficients};
ghost use Rattle.p3_challenger.specs.Grind.{PassesGrinding, checked_state};
ghost use Rattle.p3_challenger.specs.Script.{ChallengerOf, Elements, passes, after_grinding};
ghost use Rattle.p3_challenger.specs.Elements.{ElementChallenger, IsOverElements, PlaysFlat};
ghost use Rattle.p3_challenger.specs.Sha256Functions.{sha256_functions, sha256_elements};

use p3_field::BabyBear;

/// The test of a grinding value along a script is the challenger's own, as `GrindingChallenger` has it: a value passes the one exactly where it
/// passes the other, and both leave one state, also where it fails.
pub fn grindings_are_checked<S, F, E, M>()
    ensures answer { (c : ChallengerOf S F E M) (s : S) (bits : ℕ) (w : F)
        → (passes c s bits (Elements (w ∷ [])) ≡ true)
        ↔ PassesGrinding c.observe c.draw_bits s bits w }
    ensures state { (c : ChallengerOf S F E M) (s : S) (bits : ℕ) (w : F)
        → after_grinding c s bits (Elements (w ∷ []))
        ≡ checked_state c.observe c.after_bits s bits w }
{}

/// A typed transcript over a challenger that observes and draws base elements is a transcript over base elements.
pub fn typed_is_flat<S, F, E, M>()
    ensures { (c : ChallengerOf S F E M) (b : ElementChallenger S F) (coefficients : E → List F)
        (opaque : M → List F) (dimension : ℕ)
        → IsOverElements c b coefficients opaque dimension
        → PlaysFlat c b coefficients opaque dimension }
{}

/// `Sha256Challenger` is such a challenger for `QuarticExtension`, however opaque values are observed as base elements.
pub fn sha256_is_flat<M>()
    ensures { (opaque : M → List BabyBear)
        → IsOverElements (sha256_functions opaque) sha256_elements quartic_coefficients opaque 4 }
{}
