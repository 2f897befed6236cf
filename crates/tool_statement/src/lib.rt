//! What a proof file of the program states: its configuration, the tables of a statement, and the data that prover and verifier share of
//! them.
//!
//! The definitions that contracts cite are in `specs/`: the configuration (`Config`), a statement's tables (`StatedTables`).
#![tactic(auto)]

mod config;
mod laws;
mod shared;
mod table;

pub use config::{ToolConfig, tool_config};
pub use laws::stated_tables_are_told;
pub use shared::{ToolCommon, airs_of, prover_data, public_values_of, shared_data};
pub use table::TableStatement;
