//! The prover's constraint folder for a table with lookups: it folds the AIR's constraints and after them those of the
//! lookups, at one point of the quotient domain. After Plonky3's `p3-batch-stark`.
//!
//! The definitions that the contracts cite are in `specs/`: what the folder reads (`FolderState`).
#![tactic(auto)]

mod fold;
mod folder;

pub use fold::{ProverConstraintFolderWithLookups, prover_fold_with_lookups};
pub use folder::ProverFolderWithLookups;
