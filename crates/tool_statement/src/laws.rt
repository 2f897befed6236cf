//! What `==` and `clone` of stated tables say: a law as the contract of a function that computes nothing.
ghost use Rattle.std.specs.Prelude.{◌≡◌, ◌↔◌, true};

use crate::table::TableStatement;

/// `==` of stated tables is true exactly where they are equal (`equality`), a clone is equal to what is cloned (`clones`), and no
/// clone fails (`sure`).
pub fn stated_tables_are_told()
    ensures equality { (s t : TableStatement)
        → (⟦<TableStatement as PartialEq>⟧.eq s t ≡ true) ↔ (s ≡ t) }
    ensures clones { (s t : TableStatement)
        → ⟦<TableStatement as Clone>⟧.is_clone s t → s ≡ t }
    ensures sure { (s : TableStatement) → ⟦<TableStatement as Clone>⟧.is_infallible s }
{}
