//! Which checks of a batch proof fail: all of them, and not the first alone.
//!
//! The definitions that the contracts cite are in `specs/`: checks with when each is asked, and which of them are named (`Asked`), of
//! several lists and of calls (`Named`); those of a batch proof by their parts (`Parts`, `Shape`, `Audit`), and of its openings
//! (`Opened`); the report of a proof over stated heights (`Report`).
#![tactic(auto)]

mod audit;
mod claims;
mod grinding;
mod identities;
mod meanings;
mod naming;
mod opened;
mod openings;
mod script;
mod shape;

pub use audit::{BatchAudit, audit_batch};
pub use meanings::there_is_one_audit;
