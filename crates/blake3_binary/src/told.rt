//! What `==` and `clone` of inputs say: a law as the contract of a function that computes nothing.
ghost use Rattle.std.specs.Prelude.{◌≡◌, ◌↔◌, true};

use crate::input::Blake3CompressionInput;

/// `==` of inputs is true exactly where they are equal (`equality`), a clone is equal to what is cloned (`clones`), and no clone
/// fails (`sure`).
pub fn inputs_are_told()
    ensures equality { (x y : Blake3CompressionInput)
        → (⟦<Blake3CompressionInput as PartialEq>⟧.eq x y ≡ true) ↔ (x ≡ y) }
    ensures clones { (x y : Blake3CompressionInput)
        → ⟦<Blake3CompressionInput as Clone>⟧.is_clone x y → x ≡ y }
    ensures sure { (x : Blake3CompressionInput)
        → ⟦<Blake3CompressionInput as Clone>⟧.is_infallible x }
{}
