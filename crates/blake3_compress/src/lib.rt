//! The compression of BLAKE3 on words, and the parts of a trace row that stand for one.
//!
//! It is what the AIRs of Plonky3's `p3-blake3-air` have in common, over prime fields and in characteristic two: they stand
//! on one `compress`. A compression takes 28 words: the block's 16, the chaining value's 8, the counter's low and high half,
//! the block's length and the flags, in this order. A word has 32 bits.
//!
//! The definitions that the contracts cite are in `specs/`: the compression of the BLAKE3 paper (`Compress`), half rounds
//! (`HalfRounds`), the row of the AIR over prime fields (`TraceRow`), what a generator of rows holds (`Generated`), and the words that
//! cells are or count as (`Reading`).
#![tactic(auto)]

mod compression;
mod error;
pub mod meanings;
mod pushing;
mod reading;
mod schedule;
mod words;

pub use compression::compress;
pub use error::TraceError;
pub use pushing::{push_bit_words, push_bits, push_limb_words, push_limbs};
pub use reading::{bits_at, cell_at, word_at};
pub use schedule::scheduled_word;
pub use words::{
    FourWords, IV, StateWords, after_half_round, first_words, made_words, taken_words, xor_words,
};
