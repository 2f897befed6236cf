//! The lines that the program's `verify` prints of hash tables: for each row the words of a compression's input and output, off the polynomials that a proof
//! commits to. The calls by which these are read, `committed_columns` and `trace_domain`, serve for any table.
//!
//! The definitions that contracts cite are in `specs/`: the words of a row (`RowWords`), its line (`RowText`), the cells at a point (`Columns`), the lines of
//! a statement's tables and when a proof has them (`PrintedRows`), and what is printed of a compression (`Compressions`). `specs/Laws` has what is proved of
//! them.
#![tactic(auto)]

mod columns;
mod laws;
mod lines;
mod rows;
mod text;
mod words;

pub use columns::committed_columns;
pub use laws::{accepted_hash_matrices, compressions_are_printed};
pub use lines::hash_lines;
pub use rows::trace_domain;
