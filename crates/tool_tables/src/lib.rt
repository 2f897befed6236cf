//! The program's tables with lookups, each as an AIR over any field, and one type for all of its tables.
//!
//! Each module has one kind of table. Declarations, constraint trees and interactions are definitions of `specs/`, and the `impl`s of
//! `BaseAir` and `Air` are proved to answer and to append exactly these.
#![tactic(auto)]

mod meanings;
mod tool;
mod words;

pub use meanings::tables_send_one_width;
pub use tool::ToolAir;
pub use words::WordsAir;
