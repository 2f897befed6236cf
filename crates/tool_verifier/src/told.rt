//! What `==` and `clone` of statuses say: a law as the contract of a function that computes nothing.
ghost use Rattle.std.specs.Prelude.{◌≡◌, ◌↔◌, true};

use crate::status::Status;

/// `==` of statuses is true exactly where they are equal (`equality`), a clone is equal to what is cloned (`clones`), and no clone
/// fails (`sure`).
pub fn statuses_are_told()
    ensures equality { (s t : Status) → (⟦<Status as PartialEq>⟧.eq s t ≡ true) ↔ (s ≡ t) }
    ensures clones { (s t : Status) → ⟦<Status as Clone>⟧.is_clone s t → s ≡ t }
    ensures sure { (s : Status) → ⟦<Status as Clone>⟧.is_infallible s }
{}
