//! The commitment to the permutation columns of a batch.
ghost use Rattle.std.specs.Prelude.{◌≡◌, [], None, Ok, IfOk};
ghost use Rattle.prover_answer.specs.Batch.{CommitsToSome};
ghost use Rattle.prover_answer.specs.Proving.{fault_of_some};
ghost use Rattle.prover_answer.specs.Verdict.{IsProverVerdict};
ghost use Rattle.prover_commits.specs.Commitment.{commit_part};

use crate::commit_matrices;
use batch_config::Settings;
use batch_setup::{Committed, ProverPhase};
use commit_core::{CosetPcs, Pcs, PolynomialSpace, UnivariateStarkPcs};
use p3_field::{
    BasedVectorSpace, ExtensionField, Field, FieldCore, PrimeCharacteristicRing, PrimeCore64,
    PrimeField64, RingCore, TwoAdicCore, TwoAdicField,
};
use p3_matrix::RowMajorMatrix;
use p3_uni_stark::{Commitment, Domain, PcsProverError, StarkGenericConfig, Val};
use prover_answer::{ProverSettings, ProvingError};
use std::alloc::Global;

/// The commitment to the permutation columns of a batch, as `permutation_columns` gives them, and the prover data of them
/// (`prove_batch` of `p3-batch-stark`). Where no table has lookups there is none, nothing is asked of the backend, and no memory is wanted
/// (`none`). Else the answer is `Pcs` with the phase `PermutationCommitment` exactly where the backend refuses, and only out of memory is
/// free.
pub fn commit_permutations<SC: StarkGenericConfig>(
    alloc: Global,
    config: &SC,
    columns: Vec<(Domain<SC>, RowMajorMatrix<Val<SC>>)>,
) -> Result<Option<(Commitment<SC>, Committed<SC>)>, ProvingError<PcsProverError<SC>>>
    ensures verdict { IsProverVerdict
        (commit_part ProverPhase.PermutationCommitment
        (fault_of_some (SC.Pcs.commit_fault (SC.pcs_of config.now))) columns.items) result }
    ensures none { columns.items ≡ [] → result ≡ Ok None }
    ensures committed { IfOk result
        (CommitsToSome (⟦<SC as ProverSettings>⟧.commits_to config.now) columns.items) }
{
    if columns.is_empty() {
        return Ok(None);
    }
    let committed = commit_matrices(alloc, config, ProverPhase::PermutationCommitment, columns)?;
    Ok(Some(committed))
}
