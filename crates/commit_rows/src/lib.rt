//! Schemes that commit to matrices and open their rows, the same over an extension, and multilinear schemes, as traits. After
//! Plonky3's `p3-commit` (`Mmcs`, `ExtensionMmcs`, `MultilinearPcs`).
//!
//! What is opened of a batch of matrices is in `specs/` (`Batches`).
#![tactic(auto)]

mod extension_mmcs;
mod mmcs;
mod multilinear;

pub use extension_mmcs::{ExtensionMmcs, ExtensionMmcsData};
pub use mmcs::{BatchOpening, BatchOpeningRef, Mmcs, greatest_height};
pub use multilinear::MultilinearPcs;
