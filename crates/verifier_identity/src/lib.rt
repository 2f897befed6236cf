//! The identities of a batch's tables at the drawn point, which a verifier tests in the place of the tables' constraints, and the sum
//! of the terminals: the last checks of a verifier. After Plonky3's `p3-batch-stark` (`VerifierData`, `verify_batch`).
//!
//! The definitions that the contracts cite are in `specs/`. Of one table: the identity, its checks and what is read (`Identity`,
//! `VerifierData`), permutation rows (`OpenedRows`), and periodic columns (`PeriodicValues`). Of all tables: what a table reads of what
//! is opened (`MadeRows`), the checks of each table, and that of the terminals (`TableIdentity`).
#![tactic(auto)]

mod identity;
mod made_rows;
pub mod meanings;
mod periods;
mod rows;
mod table;
mod tables;
mod terminals;
mod whole;

pub use identity::{IdentityData, VerifierData};
pub use periods::periodic_values_at;
pub use rows::{recombined_row, zero_row};
pub use terminals::check_terminals;
pub use whole::{check_identities, check_identity_at};
