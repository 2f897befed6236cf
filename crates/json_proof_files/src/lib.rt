//! Proof files as JSON: each file within its limits has one tree, and no tree is two files'.
//!
//! The definitions that contracts cite are in `specs/`: the trees of files and their parts (`FileTrees`, `MatrixTrees`, `OpeningTrees`,
//! `TableTrees`), and what the reading of bytes answers (`Answer`).
#![tactic(auto)]

mod calls;
mod commitments;
mod file;
mod laws;
mod matrices;
mod openings;
mod tables;

pub use calls::{JsonError, from_json, to_json};
pub use laws::one_tree;
