//! The program's jobs of five kinds of tables: their text, their traces, what is stated of them, and whether they are balanced.
//!
//! The definitions that contracts cite are in `specs/`: how a job is seen as plain data, its limits and its words (`Jobs`), what is stated
//! of a table (`Stated`), and the least value that is unbalanced (`Unbalanced`). Jobs themselves, their traces and when they are balanced
//! are defined in `law_tool_valid`.
#![tactic(auto)]

mod balance;
mod job;
mod meanings;
mod table;
mod text;
mod trace;

pub use balance::first_unbalanced;
pub use job::{statements_of, traces_of};
pub use meanings::airs_are_the_jobs;
pub use table::{GivenWord, JobTable};
pub use text::{WholeJob, read_job, write_job};
