//! Lookups: tables that send tuples to each other, and the argument by which a verifier sees that what is sent is taken.
//!
//! The types and calls are those of Plonky3's `p3-lookup`. A lookup sends tuples on a bus, each as often as its count
//! says. For two drawn challenges a tuple has a denominator, and a table's terminal is the sum of its counts over their
//! denominators; the terminals of a batch sum to zero where nothing is left over on any bus.
//!
//! The definitions that the contracts cite are in `specs/`: lookups (`Lookup`, `Written`), sums of fractions (`Term`),
//! the constraints (`Trees`), the honest columns (`Honest`, `Rows`, `Generated`), and messages (`Messages`).
#![tactic(auto)]

mod bound;
mod challenges;
mod copying;
mod degree;
mod emission;
mod expression;
mod fraction;
mod from_air;
mod gadget;
mod generate;
mod kind;
mod lookup;
pub mod meanings;
mod packing;
mod term;
mod terminal;
mod values;

pub use bound::check_multiplicity_height_bound;
pub use challenges::Challenges;
pub use gadget::{LogUpGadget, LookupProtocol};
pub use kind::Kind;
pub use lookup::{Lookup, Lookups};
pub use terminal::{GenerateError, LookupError, LookupTerminal};
pub use values::sent_value;
