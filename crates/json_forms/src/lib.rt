//! Values as trees of JSON: each value within its limits has one tree, and no tree is two values'.
//!
//! The definitions that contracts cite are in `specs/`: the trees of parts (`Trees`), and which value a tree is (`Readings`).
#![tactic(auto)]

mod forms;
mod lists;
mod members;
mod trees;

pub use forms::{JsonForm, NumberIn};
pub use lists::{ListOf, Present};
pub use members::{ObjectReader, ObjectWriter};
pub use trees::TreeError;
