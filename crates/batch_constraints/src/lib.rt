//! The constraints of a table with lookups as values: which they are, their degrees, into how many chunks the table's
//! quotient is split, and how many values it opens. After Plonky3's `p3-batch-stark` (`symbolic`, `security`).
//!
//! The definitions that the contracts cite are in `specs/`: the list of a table's constraints (`BatchTrees`), degrees and
//! chunk counts (`Sizing`), counts of openings (`Openings`).
#![tactic(auto)]

pub mod meanings;
mod openings;
mod sizing;
mod symbolic;

pub use openings::num_batched_openings;
pub use sizing::{
    get_log_num_quotient_chunks, get_log_num_quotient_chunks_for_domain, get_max_constraint_degree,
};
pub use symbolic::{get_constraint_layout, get_symbolic_constraints};
