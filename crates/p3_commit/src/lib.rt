//! The names of Plonky3's `p3-commit` in one place: evaluation domains, periodic columns, the encoder, and commitment schemes as traits.
//! The items stand in `commit_core`, `commit_encoder` and `commit_rows`, and carry their contracts.
#![tactic(auto)]

pub use commit_core::{
    CommitmentOpening, CommitmentWithOpeningPoints, CosetPcs, LagrangeSelectors, MatrixOpening,
    OpenedValues, OpenedValuesForMatrix, OpenedValuesForPoint, OpenedValuesForRound,
    OpeningRequest, Pcs, PcsFailure, PeriodicColumnShapeError, PeriodicColumns, PeriodicEvaluator,
    PeriodicLdeTable, PointOpening, PolynomialSpace, UnivariateStarkPcs, Val, a_split_is_one,
    a_verification_is_a_check, are_disjoint, first_selector_at, last_selector_at,
    parts_are_disjoint, repeated_columns_have_degrees, rows_from, selectors_have_degrees,
};
pub use commit_encoder::{EncodeError, Encoder};
pub use commit_rows::{
    BatchOpening, BatchOpeningRef, ExtensionMmcs, ExtensionMmcsData, Mmcs, MultilinearPcs,
    greatest_height,
};
