//! Evaluation domains, periodic columns, and commitment schemes as traits. After Plonky3's `p3-commit`.
//!
//! Contracts see a domain by the definitions of `specs/Space.antt`, and its polynomials by those of `p3_field`'s
//! `specs/Domain.antt`. What a scheme commits to, opens and verifies is said by `specs/Commitments.antt`, over claims as
//! plain data (`specs/Claims.antt`), and when it refuses by `specs/Failure.antt`.
#![tactic(auto)]

mod claims;
mod coset;
mod degrees;
mod domain;
mod failure;
mod interpolation;
mod parts;
mod pcs;
mod periodic;
mod periodic_evaluator;
mod periodic_table;
mod periodic_values;
mod selectors;
mod split;
mod told;
mod univariate;
mod verdict;

pub use claims::{
    CommitmentOpening, CommitmentWithOpeningPoints, MatrixOpening, OpenedValues,
    OpenedValuesForMatrix, OpenedValuesForPoint, OpenedValuesForRound, OpeningRequest,
    PointOpening,
};
pub use coset::CosetPcs;
pub use degrees::{repeated_columns_have_degrees, selectors_have_degrees};
pub use domain::{PolynomialSpace, are_disjoint};
pub use failure::PcsFailure;
pub use parts::{a_split_is_one, parts_are_disjoint};
pub use pcs::{Pcs, Val};
pub use periodic::{PeriodicColumnShapeError, PeriodicColumns};
pub use periodic_evaluator::PeriodicEvaluator;
pub use periodic_table::PeriodicLdeTable;
pub use selectors::{LagrangeSelectors, first_selector_at, last_selector_at};
pub use split::{paired, rows_from};
pub use told::shape_errors_are_told;
pub use univariate::UnivariateStarkPcs;
pub use verdict::a_verification_is_a_check;
