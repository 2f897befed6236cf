//! The values of a table's quotient on its domain, which a prover commits to in chunks: the fold of the table's constraints at each
//! point, over the value there of the polynomial that vanishes on the rows. After Plonky3's `p3-batch-stark` (`quotient_values`).
//!
//! The definitions that the contracts cite are in `specs/`: what is given of a table on the domain (`Evaluations`), and what the
//! constraints read there point by point (`QuotientRows`). What the values are is said by `law_committed`.
#![tactic(auto)]

mod chunks;
mod columns;
pub mod meanings;
mod powers;
mod quotient;
mod selectors;
mod values;

pub use chunks::quotient_chunks;
pub use values::quotient_values;
