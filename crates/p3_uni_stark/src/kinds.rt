//! The fold of constraints that are listed by kinds: a law as the contract of a function that computes nothing.
ghost use Rattle.p3_uni_stark.specs.Kinds.{FoldsByKinds};

use p3_field::{Field, FieldCore, RingCore};

/// Where each constraint has its place once in one of a layout's two lists, the sum of the values at one list's places
/// times the powers that `decompose_alpha` gives them and that at the other's are together the fold of all values in
/// the order of assertion.
pub fn fold_by_kinds<EF: Field>()
    ensures { FoldsByKinds EF.ring }
{}
