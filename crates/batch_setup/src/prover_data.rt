//! The data that a prover of a batch is given.
ghost use Rattle.std.specs.Prelude.{◌≡◌, None, [], replicate, IfOk};

use batch_statement::SharedData;
use commit_core::Pcs;
use p3_field::{Field, FieldCore, Mem, RingCore};
use p3_uni_stark::{Challenge, Challenger, Commitment, StarkGenericConfig, Val};
use std::alloc::Global;

/// What a prover keeps for itself.
#[derive(Drop)]
pub struct PreprocessedProverData<PD> {
    /// The backend's prover data of the preprocessed traces: None where no table has any.
    pub preprocessed_prover_data: Option<PD>,
}

/// What a configuration's backend keeps of what it committed to.
pub type Committed<SC> = <<SC as StarkGenericConfig>::Pcs as Pcs<
    Challenge<SC>,
    Challenger<SC>,
>>::ProverData;

/// What a prover keeps for itself, over a configuration (`ProverOnlyData` of `p3-batch-stark`).
pub type ProverOnlyData<SC> = PreprocessedProverData<Committed<SC>>;

/// What a prover shares with the verifier, and what it keeps.
#[derive(Drop)]
pub struct SetupData<F, Com, PD> {
    /// What it shares.
    pub common: SharedData<F, Com>,
    /// What it keeps.
    pub prover_only: PreprocessedProverData<PD>,
}

/// A prover's data over a configuration (`ProverData` of `p3-batch-stark`).
pub type ProverData<SC> = SetupData<Val<SC>, Commitment<SC>, Committed<SC>>;

impl<PD> PreprocessedProverData<PD> {
    /// The data where no table has a preprocessed trace (`ProverOnlyData::empty`).
    pub fn empty() -> Self
        ensures { result.preprocessed_prover_data ≡ None }
    {
        PreprocessedProverData {
            preprocessed_prover_data: None,
        }
    }
}

impl<F: Field, Com, PD> SetupData<F, Com, PD> {
    /// The data of so many tables without preprocessed columns and without lookups (`ProverData::empty`).
    pub fn empty(alloc: Global, n: usize) -> Mem<Self>
        ensures common { IfOk result
            (λ d. d.common ≡ record { preprocessed = None; lookups = replicate n [] }) }
        ensures prover_data { IfOk result (λ d. d.prover_only.preprocessed_prover_data ≡ None) }
    {
        let common = SharedData::empty(alloc, n)?;
        let prover_only = PreprocessedProverData::empty();
        Ok(SetupData {
            common,
            prover_only,
        })
    }
}
