//! One compression as a caller gives it.

/// One compression (`p3_blake3_air::Blake3CompressionInput`).
#[derive(Clone, Copy, Debug, Default, PartialEq, Eq)]
pub struct Blake3CompressionInput {
    /// The chaining value.
    pub chaining_value: [u32; 8],
    /// The block.
    pub block: [u32; 16],
    /// The counter.
    pub counter: u64,
    /// The block's length.
    pub block_len: u32,
    /// The flags.
    pub flags: u32,
}
