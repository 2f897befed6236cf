//! Whether tables have the shapes that a prover of batches asks for, as a test for AIRs that are known at run time alone.
//!
//! The definitions that the contracts cite are in `law_joining` (`IsShaped`), and in `specs/` its parts, which one test each decides
//! (`Parts`).
#![tactic(auto)]

mod parts;
mod room;
mod shape;
mod shaped;

pub use shaped::{are_shaped, is_shaped};
