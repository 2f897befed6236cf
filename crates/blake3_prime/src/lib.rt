//! The compression of BLAKE3 as an AIR over prime fields, after Plonky3's `p3-blake3-air`: a row is one compression.
//!
//! The definitions that the contracts cite are in `specs/`: the constraints (`Trees`), what they mean (`Meanings`) and the
//! generated rows (`Rows`). The compression on words and the row of one are in `blake3_compress`.
#![tactic(auto)]

mod air;
mod columns;
mod edges;
mod generation;
mod half;
pub mod meanings;
mod places;
mod random;
pub mod reading;
mod rounds;
mod writing;

pub use air::{Blake3Air, NUM_BLAKE3_COLS};
pub use blake3_compress::TraceError;
pub use columns::{Blake3Cols, Blake3State, FullRound};
pub use generation::generate_trace_rows;
pub use writing::{write_limbs, write_word};

/// Bits of a limb (`p3_blake3_air::constants`).
pub const BITS_PER_LIMB: usize = 16;

/// Limbs of a word (`p3_blake3_air::constants`).
pub const U32_LIMBS: usize = 2;

const _: () = prove!(U32_LIMBS * BITS_PER_LIMB == 32);
