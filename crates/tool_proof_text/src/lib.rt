//! The text of a batch proof over the plain backend: each proof within the limits has exactly one, and no text is two proofs'.
//!
//! [`write_proof_part`] appends the text, and [`read_proof_part`] reads the proof whose text stands from a byte of a file to its end, or
//! names the line of the fault. [`ProofText`] is the form of the text, for files in which a proof is a part. The definitions that the
//! contracts cite are in `specs/`: `ProofText`, `Openings` and `Matrices`.
#![tactic(auto)]

mod commitments;
mod laws;
mod matrices;
mod openings;
mod proof;

pub use commitments::{CommitmentText, CommitmentsText};
pub use laws::{one_fault, one_text, read_back};
pub use matrices::MatrixText;
pub use openings::{InstanceText, OpenedText, PreprocessedText, ValuesText};
pub use proof::{
    DegreeText, ProofText, TerminalText, ToolProof, read_proof_part, write_proof_part,
};
