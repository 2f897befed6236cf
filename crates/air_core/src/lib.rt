//! AIRs: tables with constraints between their rows, and the builders that take these constraints.
//!
//! The traits, types and calls are those of Plonky3's `p3-air` and, for interactions, `p3-lookup`. An AIR declares its
//! cells, one list of constraint trees and one list of interactions; `eval` appends exactly these to any builder, in
//! order.
//!
//! The definitions that the contracts cite are in `specs/`: trees with their values (`Tree`), declared cells (`Shape`),
//! what calls say of trees (`Clauses`), degrees (`Degree`), what builders hold (`Symbolic`, `Recording`, `RowCheck`), layouts (`Layout`), rows that meet
//! constraints (`Check`), values of trees along maps (`Maps`), and cells at a point (`CellValues`).
#![tactic(auto)]

mod base;
mod base_cells;
mod builder;
mod cells;
mod copying;
mod degrees;
mod layout;
mod node;
mod reads;
mod recorded;
mod recorder;
mod row_values;
mod symbolic;
pub mod trees;

pub use base::{Air, BaseAir};
pub use base_cells::BaseCells;
pub use builder::{AirBuilder, ExtensionBuilder, InteractionBuilder, PermutationAirBuilder};
pub use cells::{Cell, Count, ExtCell};
pub use layout::{AirLayout, ConstraintLayout};
pub use node::Node;
pub use recorder::InteractionSymbolicBuilder;
pub use row_values::{RowValues, preprocessed_at};
pub use symbolic::{SymbolicExpression, constraint_degree_from_poly_degree};
