//! Transforms between the coefficients of polynomials and their values on cosets. After Plonky3's `p3-dft`.
//!
//! The definitions that the contracts cite are in `specs/Transform.antt`.
#![tactic(auto)]

mod batch;
mod column;
mod naive;
mod radix2;
mod rows;

pub use batch::TwoAdicSubgroupDft;
pub use column::{interpolant_on_coset, interpolants_on_coset, values_on_coset};
pub use naive::{NaiveDft, polynomial_value};
pub use radix2::Radix2Dit;
