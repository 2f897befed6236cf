//! The shell of a run: what a program does with its words, its input and its output, whatever its commands are.
//!
//! A type of [`Commands`] says how words name a command, whether that reads the input, and what it answers. [`run`] does what the words
//! say, and its clauses are stated once for all programs. The definitions that contracts cite are in `specs/`: what a program is (`Program`),
//! what a run answers (`Run`), what is answered for bytes that are no text (`BadInput`), and the status that an exit code tells (`Exit`).
#![tactic(auto)]

mod bad_input_answer;
mod commands;
mod exit;
mod shell;

pub use bad_input_answer::bad_input;
pub use commands::Commands;
pub use exit::{exit_code, run_to_exit};
pub use shell::run;
