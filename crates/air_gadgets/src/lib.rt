//! Gadgets on words of 32 bits and on bits: expressions and constraints that AIRs share. After `utils` of Plonky3's `p3-air`.
//!
//! The definitions that the contracts cite are in `specs/`: the trees (`Gadgets`), and what they mean of words (`Words`).
#![tactic(auto)]

mod gadgets;
pub mod meanings;

pub use gadgets::{add2, add3, pack_bits_le, u32_to_bits_le, xor, xor_32_shift};
