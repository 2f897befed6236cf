//! Byte input and output for programs whose runs are proved: where bytes come from, where a text goes, an input read to its end
//! under a limit, and a text written whole.
//!
//! A program is generic over [`Source`] and [`Sink`]. It runs over std's streams ([`StdSource`], [`StdSink`]), and its tests run
//! over memory ([`MemorySource`], [`MemorySink`]). An end counts its faults, so that a clause can say that a fault is answered
//! only where one happened.
#![tactic(auto)]

mod answers;
mod ends;
mod memory;
mod streams;
mod whole;

pub use answers::{InputStream, OutputStream};
pub use ends::{Failed, InputError, Sink, Source};
pub use memory::{MemorySink, MemorySource};
pub use streams::{StdSink, StdSource};
pub use whole::{MAX_BYTES, read_whole, write_whole};
