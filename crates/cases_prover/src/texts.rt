//! The texts of errors.

use batch_setup::ProverPhase;
use batch_transcript::GrindStep;
use p3_field::Mem;
use prover_answer::ProvingError;
use std::alloc::Global;

/// The texts of why a batch can't be proved, one after another.
pub fn texts(alloc: Global) -> Mem<String> {
    let refused: ProvingError<u64> = ProvingError::Pcs {
        phase: ProverPhase::Opening,
        source: 7,
    };
    let bound: ProvingError<u64> = ProvingError::MultiplicityBound { bus: 3 };
    let zero: ProvingError<u64> = ProvingError::LookupDenominatorZero {
        instance: 1,
        row: 2,
    };
    let missing: ProvingError<u64> = ProvingError::WitnessNotFound {
        step: GrindStep::Ood,
    };
    let memory: ProvingError<u64> = ProvingError::OutOfMemory;
    format!(in alloc; "{refused}; {bound}; {zero}; {missing}; {memory}")
}
