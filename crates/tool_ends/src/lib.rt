//! Ends that never fail: bytes in memory ([`SteadySource`]), an input without an end ([`EndlessSource`]), and an output that takes
//! everything and keeps its number of bytes alone ([`NullSink`]).
//!
//! Each counts no fault, so a run over them answers no fault of theirs.
#![tactic(auto)]

mod sinks;
mod sources;

pub use sinks::NullSink;
pub use sources::{EndlessSource, SteadySource};
