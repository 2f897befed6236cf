//! A table as a proof commits to it, over data alone: polynomials, their values at a point and on the rows, the identity of
//! its constraints with their quotient, the honest quotient, and the challenges by which a false identity passes.
//!
//! The functions compute nothing: their contracts are laws of the definitions in `specs/`. These are the fields' laws
//! (`Fields`), the table with its values (`Committed`), its polynomials (`Polynomials`), traces and their rows (`Traces`,
//! `Rows`), rows over the base field (`BaseRows`), the identity (`Identity`), the honest quotient (`Quotient`), unlucky challenges (`Unlucky`, `Batch`) and opened
//! values (`Opened`). After Plonky3's `p3-batch-stark`, of whose prover and verifier they are the mathematics.
#![tactic(auto)]

pub mod fields;
pub mod identity;
pub mod lookups;
pub mod opened;
pub mod polynomials;
pub mod quotient;
pub mod rows;
pub mod soundness;
