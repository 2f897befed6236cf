//! The names of Plonky3's `p3-blake3-air` in one place: BLAKE3's compression as an AIR over prime fields, and in characteristic two.
//! The items stand in `blake3_prime`, `blake3_binary` and `blake3_packed`, and carry their contracts.
#![tactic(auto)]

pub use blake3_binary::{
    Blake3BinaryAir, Blake3BinaryCols, Blake3BinaryGCols, Blake3CompressionInput,
    NUM_BLAKE3_BINARY_COLS, generate_binary_trace_rows,
};
pub use blake3_packed::{PackedTraces, generate_binary_trace_packed};
pub use blake3_prime::{
    BITS_PER_LIMB, Blake3Air, Blake3Cols, Blake3State, FullRound, NUM_BLAKE3_COLS, TraceError,
    U32_LIMBS, generate_trace_rows,
};
