//! When a statement with traces is valid, part by part: what an honest prover's proof of it is accepted for. It is stated over data
//! alone, and nothing is computed.
//!
//! The definitions are in `specs/`: a statement with its traces, table by table (`Traced`), and the conditions (`Valid`). The functions
//! compute nothing: their contracts are laws of these definitions. After Plonky3's `p3-batch-stark` (`prove_batch`).
#![tactic(auto)]

pub mod meanings;
