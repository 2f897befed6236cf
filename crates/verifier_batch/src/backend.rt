//! The check of a batch's claims by the backend.
ghost use Rattle.std.specs.Prelude.{◌≡◌, ℕ};
ghost use Rattle.verifier_batch.specs.OpeningChecks.{opens_check};
ghost use Rattle.batch_statement.specs.Verdict.{IsVerdict};

use batch_config::Settings;
use batch_statement::BatchVerificationError;
use commit_core::{
    CommitmentOpening, CosetPcs, Pcs, PcsFailure, PolynomialSpace, UnivariateStarkPcs,
};
use p3_field::{
    BasedVectorSpace, ExtensionField, Field, FieldCore, PrimeCharacteristicRing, PrimeCore64,
    PrimeField64, RingCore, TwoAdicCore, TwoAdicField,
};
use p3_uni_stark::{
    Challenge, Challenger, Commitment, Domain, PcsError, PcsProof, StarkGenericConfig, Val,
    VerificationError,
};
use std::alloc::Global;

/// The backend's check of claims from the challenger's state: `InvalidOpeningArgument` with the backend's first fault exactly where the proof doesn't
/// open them. `preprocessed` is the place of the claim whose commitment is that of preprocessed columns.
#[tactic(auto, unfolding(p3_field::specs::Checks::NoneFails, p3_field::specs::Checks::FirstFails))]
pub fn opened_claims<SC: StarkGenericConfig>(
    alloc: Global,
    config: &SC,
    claims: Vec<CommitmentOpening<Challenge<SC>, Commitment<SC>, Domain<SC>>>,
    proof: &PcsProof<SC>,
    challenger: Challenger<SC>,
    preprocessed: Option<usize>,
) -> Result<(), BatchVerificationError<PcsError<SC>>>
    ensures { IsVerdict (opens_check (⟦<SC as Settings>⟧.backend config.now) challenger claims.items
        proof.now) result }
{
    let mut challenger = challenger;
    match config
        .pcs()
        .verify_with_preprocessing(alloc, claims, proof, &mut challenger, preprocessed)
    {
        Ok(()) => Ok(()),
        Err(PcsFailure::OutOfMemory) => Err(BatchVerificationError::OutOfMemory),
        Err(PcsFailure::Refused(fault)) => Err(BatchVerificationError::Verification(
            VerificationError::InvalidOpeningArgument(fault),
        )),
    }
}
