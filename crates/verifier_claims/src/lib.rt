//! What a batch proof claims of its commitments: for each committed matrix its domain, the points at which it is opened, and
//! the values there, after the checks that make the claims well-formed. After Plonky3's `p3-batch-stark`
//! (`commitments_with_opening_points`).
//!
//! The definitions that the contracts cite are in `specs/`: the claims round by round (`Claims`), and the checks in order
//! (`ClaimChecks`).
#![tactic(auto)]

mod claim_checks;
mod claim_parts;
mod claim_rounds;
mod claims;
mod domains;
mod opened_rows;
mod preprocessed;

pub use claims::{OpeningArgumentWithQuotientDomains, commitments_with_opening_points};
pub use domains::domain_fits;
pub use preprocessed::has_bits;
