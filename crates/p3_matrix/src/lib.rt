//! Matrices of field elements, by rows. After Plonky3's `p3-matrix` and `p3-util`.
//!
//! Contracts see a matrix as the record `Rows` of `specs/Matrix.antt`.
#![tactic(auto)]

mod dense;
mod extension;
mod interpolation;
mod inverses;
mod util;

pub use dense::{Dimensions, RowMajorMatrix};
pub use extension::flatten_matrix;
pub use interpolation::{interpolate_coset, sum_of_powers};
pub use inverses::batch_multiplicative_inverse;
pub use util::{checked_log_size_sum, is_power_of_two, log2_ceil_usize, log2_strict_usize};
