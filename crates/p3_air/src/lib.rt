//! The names of Plonky3's `p3-air` in one place: AIRs, their builders, symbolic expressions, gadgets on words, and the check of rows.
//! The items stand in `air_core`, `air_gadgets` and `air_check`, and carry their contracts.
#![tactic(auto)]

pub use air_check::{CheckFailure, DebugConstraintBuilder, check_constraints};
pub use air_core::{
    Air, AirBuilder, AirLayout, BaseAir, BaseCells, Cell, ConstraintLayout, Count, ExtCell,
    ExtensionBuilder, InteractionBuilder, InteractionSymbolicBuilder, Node, PermutationAirBuilder,
    RowValues, SymbolicExpression, constraint_degree_from_poly_degree, preprocessed_at, trees,
};
pub use air_gadgets::{add2, add3, meanings, pack_bits_le, u32_to_bits_le, xor, xor_32_shift};
