//! Linear codes over the columns of a matrix. After Plonky3's `p3-commit` (`Encoder`).
//!
//! What a code is of a matrix is in `specs/` (`Encoder`).
#![tactic(auto)]

mod encoder;

pub use encoder::{EncodeError, Encoder};
