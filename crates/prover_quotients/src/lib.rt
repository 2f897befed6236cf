//! The quotients of a batch of tables, and their commitment: a prover's work between the challenge that folds the constraints and the drawn
//! point. After Plonky3's `p3-batch-stark` (`prove_batch`).
//!
//! The definitions that the contracts cite are in `specs/`: where each table's matrices stand (`Places`), what prover data holds of a table and the
//! values of its columns on a domain (`OpenedCommitment`), what is given of a batch (`Tables`), and what is answered (`Asked`).
#![tactic(auto)]

mod batch;
mod columns;
mod domains;
mod places;
mod table;

pub use batch::commit_quotients;
