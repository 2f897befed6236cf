//! The transcript of a batch, after Plonky3's `p3-batch-stark`.
//!
//! A shape fixes a batch's steps and its separator. Prover and verifier play these steps phase by phase, each with a transcript that owns the
//! challenger. A phase's condition is its turn, so phases out of order are refused before a program runs.
//!
//! The definitions that the contracts cite are in `specs/`: the script of a batch and what is drawn along it (`BatchScript`), what a phase does
//! (`Running`), grinding values (`Grinding`), the layout of the lookups' challenges (`Buses`), and when shapes are told apart (`Shapes`).
#![tactic(auto)]

mod buses;
mod challenger;
mod failure;
pub mod meanings;
mod prover_transcript;
mod shape;
mod transcript;
mod verifier_transcript;

pub use buses::{empty_layout, layout};
pub use challenger::BatchChallenger;
pub use failure::{BatchTranscriptFailure, GrindStep, TranscriptError};
pub use prover_transcript::BatchProverTranscript;
pub use shape::BatchShape;
pub use transcript::BatchTranscript;
pub use verifier_transcript::BatchVerifierTranscript;
