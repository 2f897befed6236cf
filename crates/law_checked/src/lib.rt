//! What the check of rows and an honest prover's quotient say of a batch that is proved: laws over plain data.
//!
//! The functions compute nothing. The definitions that their contracts cite are in `specs/`: constraints whose selectors are factors (`Factors`), and what a check
//! finds (`Found`).
#![tactic(auto)]

mod laws;

pub use laws::{checked_batches_are_valid, valid_batches_have_quotients};
