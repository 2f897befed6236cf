//! The joining of AIRs with the prover and the verifier of batches.
#![tactic(auto)]
