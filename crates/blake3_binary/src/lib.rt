//! The compression of BLAKE3 as an AIR over fields of characteristic two, after the binary AIR of Plonky3's `p3-blake3-air`.
//!
//! A row of 11536 cells is one compression, each word by its bits. A sum of words is given by its carries: exclusive or is
//! addition, so the constraints have degree 2, and a rotation costs nothing.
//!
//! The definitions that the contracts cite are in `specs/`: sums bit by bit (`Sums`), the constraints (`Trees`), the row of
//! one compression (`Row`), what the constraints mean (`Meanings`), where the words stand (`Places`), and the rows of the
//! generators (`Rows`, `Random`).
#![tactic(auto)]

mod adding;
mod air;
mod columns;
mod generation;
mod input;
pub mod meanings;
mod places;
mod random;
mod reading;
mod rounds;
mod told;
mod words;

pub use air::{Blake3BinaryAir, NUM_BLAKE3_BINARY_COLS};
pub use blake3_compress::TraceError;
pub use columns::{Blake3BinaryCols, Blake3BinaryGCols};
pub use generation::{check_rows, generate_binary_trace_rows};
pub use input::Blake3CompressionInput;
pub use random::random_inputs;
pub use told::inputs_are_told;
