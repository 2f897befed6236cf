//! The openings of a batch: what a prover asks its backend to open, and what is opened of each table. After Plonky3's
//! `p3-batch-stark` (`prove_batch`).
//!
//! The definitions that the contracts cite are in `specs/`: the requests, round by round (`Asked`); the check that they are
//! opened, and what a prover has before it (`Check`); the opened values, taken apart table by table (`Rows`, `Taken`).
#![tactic(auto)]

mod batch;
mod counts;
mod openings;
mod points;
mod requests;
mod rows;
mod tables;

pub use batch::open_batch;
