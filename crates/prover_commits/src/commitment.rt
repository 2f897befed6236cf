//! What a backend answers when it is asked to commit to matrices.
ghost use Rattle.std.specs.Prelude.{◌≡◌, IfOk};
ghost use Rattle.prover_answer.specs.Verdict.{IsProverVerdict};
ghost use Rattle.prover_commits.specs.Commitment.{commit_part};

use batch_setup::{Committed, ProverPhase};
use commit_core::{CosetPcs, Pcs, PcsFailure, PolynomialSpace, UnivariateStarkPcs};
use p3_field::{
    BasedVectorSpace, ExtensionField, Field, FieldCore, PrimeCharacteristicRing, PrimeCore64,
    PrimeField64, RingCore, TwoAdicCore, TwoAdicField,
};
use p3_matrix::RowMajorMatrix;
use p3_uni_stark::{Commitment, Domain, PcsProverError, StarkGenericConfig, Val};
use prover_answer::{ProverSettings, ProvingError};
use std::alloc::Global;

/// The backend's commitment to matrices on domains, and what it keeps of them (not in Plonky3): the answer is `Pcs` with this phase
/// exactly where the backend refuses. Only out of memory is free.
#[tactic(auto, unfolding(p3_field::specs::Checks::NoneFails, p3_field::specs::Checks::FirstFails))]
pub fn commit_matrices<SC: StarkGenericConfig>(
    alloc: Global,
    config: &SC,
    phase: ProverPhase,
    evaluations: Vec<(Domain<SC>, RowMajorMatrix<Val<SC>>)>,
) -> Result<(Commitment<SC>, Committed<SC>), ProvingError<PcsProverError<SC>>>
    ensures verdict { IsProverVerdict
        (commit_part phase (SC.Pcs.commit_fault (SC.pcs_of config.now)) evaluations.items) result }
    ensures committed { IfOk result
        (⟦<SC as ProverSettings>⟧.commits_to config.now evaluations.items) }
{
    match config.pcs().commit(alloc, evaluations) {
        Ok(committed) => Ok(committed),
        Err(PcsFailure::OutOfMemory) => Err(ProvingError::OutOfMemory),
        Err(PcsFailure::Refused(source)) => Err(ProvingError::Pcs { phase, source }),
    }
}
