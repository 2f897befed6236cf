//! Each name of `p3_batch_stark`, as a caller imports it, and proofs of bytes by `example_air`.
#![tactic(auto)]

#[cfg(test)]
mod compared;
#[cfg(test)]
mod example;
pub mod names;
