//! The honest proof of a statement with traces, as a definition: part by part in the order of the script, each draw being that of the
//! transcript over the parts before; and the events for which there is none. Nothing is computed.
//!
//! The definitions are in `specs/` (`HonestProof`). The functions compute nothing: their contracts are laws of these definitions. After
//! Plonky3's `p3-batch-stark` (`prove_batch`).
#![tactic(auto)]

pub mod meanings;
