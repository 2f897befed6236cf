//! The constraint folders of tables with lookups. After Plonky3's `p3-batch-stark`.
//!
//! The definitions that the contracts cite are in `specs/`: what a folder reads (`FolderState`).
#![tactic(auto)]

mod folds;
mod verifier_folder;

pub use folds::{VerifierConstraintFolderWithLookups, verifier_fold_with_lookups};
pub use verifier_folder::VerifierFolderWithLookups;
