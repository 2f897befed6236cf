//! Rows of compressions of BLAKE3 over fields of characteristic two, 64 rows in each word, after the packed generator of
//! Plonky3's `p3-blake3-air`.
//!
//! Bit j of a word is lane j. A word of 32 bits of each of 64 compressions is held by its 32 planes: plane k has bit k of all of
//! them, so each step of G is done on 64 compressions at once.
//!
//! The definitions that the contracts cite are in `specs/`: the packed rows (`PackedRows`); for the functions below the public
//! ones words of lanes (`Lanes`), pairs of input words (`Inputs`), states (`States`), and blocks of 64 rows (`Blocks`).
#![tactic(auto)]

mod generation;
mod inputs;
mod planes;
mod pushing;
mod random;
mod state;
mod steps;
mod transposing;

pub use generation::generate_binary_trace_packed;
pub use random::PackedTraces;
