//! The versions of a batch's transcript.
#![tactic(auto)]

/// Which transcript a run has. They differ in the separator alone: in its version byte, and in its instance label, which in version 2 also
/// has each instance's number of lookups (not in Plonky3, which has one version).
#[derive(Clone, Copy, Debug, PartialEq, Eq)]
pub enum TranscriptVersion {
    /// Version 1: the label has the widths alone.
    V1,
    /// Version 2: the label has the numbers of lookups behind the widths.
    V2,
}
