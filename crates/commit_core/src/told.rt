//! What `==` and `clone` of the refusals of periodic columns say: a law as the contract of a function that computes nothing.
ghost use Rattle.std.specs.Prelude.{◌≡◌, ◌↔◌, true};

use crate::periodic::PeriodicColumnShapeError;

/// `==` of the refusals of periodic columns is true exactly where they are equal (`equality`), a clone is equal to what is cloned
/// (`clones`), and no clone fails (`sure`).
pub fn shape_errors_are_told()
    ensures equality { (d e : PeriodicColumnShapeError)
        → (⟦<PeriodicColumnShapeError as PartialEq>⟧.eq d e ≡ true) ↔ (d ≡ e) }
    ensures clones { (d e : PeriodicColumnShapeError)
        → ⟦<PeriodicColumnShapeError as Clone>⟧.is_clone d e → d ≡ e }
    ensures sure { (e : PeriodicColumnShapeError)
        → ⟦<PeriodicColumnShapeError as Clone>⟧.is_infallible e }
{}
