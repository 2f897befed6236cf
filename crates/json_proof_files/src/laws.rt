//! What a tree tells: a law as the contract of a function that computes nothing.

ghost use Rattle.json_proof_files.specs.Answer.{TreesTell};

/// Each file within the limits has one tree, and a tree is that of one file alone.
pub fn one_tree()
    ensures { TreesTell }
{}
