//! An honest proof of a valid statement is accepted: no check of a batch's verifier fails, unless its point of the openings lies on the
//! rows of a table. And a backend that masks nothing opens it. It is stated over data alone, and nothing is computed.
//!
//! The functions compute nothing: their contracts are laws of the definitions of `law_valid`, `law_honest` and `verifier_batch`,
//! and of the backend's contracts.
#![tactic(auto)]

pub mod meanings;
pub mod openings;
