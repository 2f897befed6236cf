//! A table of a chain of BLAKE3 compressions (not in Plonky3): each row is one compression, and its chaining value is the first 8
//! words of the output of the row before it. The first row's chaining value and the last row's first 8 words are public.
//!
//! The constraints of a compression are those of `blake3_prime`. The definitions that the contracts cite are in `specs/`: the
//! constraints (`Trees`), chains (`Chain`), what the constraints mean (`Meanings`) and the generated rows (`Generated`).
#![tactic(auto)]

mod air;
mod chaining;
mod generation;
mod links;
pub mod meanings;
mod ranges;

pub use air::ChainAir;
pub use chaining::{chain_end, chain_publics};
pub use generation::generate_chain_rows;
pub use ranges::chaining_fits;
