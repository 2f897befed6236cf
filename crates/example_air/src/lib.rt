//! How to add an AIR of one's own: bytes with their bits, beside a table of all bytes, joined by a lookup; and how to prove and verify such
//! tables.
//!
//! The definitions that contracts cite are in `specs/`: the tables with their traces (`Bytes`), what a row means (`Meanings`), what is stated of
//! the tables and what an accepted proof means (`Statement`), and the batch that is proved (`Proving`).
#![tactic(auto)]

mod air;
mod meanings;
mod prove;
mod traces;
mod verify;

pub use air::ExampleAir;
pub use meanings::rows_are_bytes;
pub use prove::{prove_bytes, prove_tables};
pub use traces::{bits_trace, bytes_trace};
pub use verify::verify_bytes;
