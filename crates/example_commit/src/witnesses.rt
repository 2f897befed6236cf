//! A caller of any scheme that commits to multilinear polynomials: it commits, opens, and verifies what was opened.
ghost use Rattle.std.specs.Prelude.{◌≡◌, IfOk};
ghost use Rattle.commit_core.specs.Failure.{NoneInTurn, IfRefused};
ghost use Rattle.example_commit.specs.Causes.{CauseInTurn};

use commit_core::PcsFailure;
use commit_rows::MultilinearPcs;
use p3_field::{
    BasedVectorSpace, ExtensionField, Field, FieldCore, PrimeCharacteristicRing, RingCore,
};
use std::alloc::Global;

/// Commits to a witness, opens it by a protocol, and verifies the opening as one who gets the commitment and the proof
/// alone (not in Plonky3): these two. `challenger` is the transcript's state before. The verifier's has taken in the
/// commitment, and accepts always.
///
/// `Refused` comes exactly where the scheme refuses to commit to the witness, or else to open what it gave for a
/// commitment to it, and has one cause. `OutOfMemory` may come in place of any answer.
pub fn witness_verified<E: ExtensionField<P::Val>, C: Copy, P: MultilinearPcs<E, C>>(
    alloc: Global,
    pcs: &P,
    witness: P::Witness,
    protocol: &P::OpeningProtocol,
    challenger: C,
) -> Result<(P::Commitment, P::Proof), PcsFailure<P::ProverError>>
    ensures refused { IfRefused result
        (CauseInTurn (P.commit_fault pcs.now witness)
        (λ (w : P.Commitment × P.ProverData). P.holds pcs.now w.1 w.0 witness)
        (λ w. P.open_fault pcs.now w.1 protocol.now)) }
    ensures granted { IfOk result
        (λ _. NoneInTurn (P.commit_fault pcs.now witness)
        (λ (w : P.Commitment × P.ProverData). P.holds pcs.now w.1 w.0 witness)
        (λ w. P.open_fault pcs.now w.1 protocol.now)) }
    ensures committed { IfOk result (λ w. (d : P.ProverData) × P.holds pcs.now d w.0 witness) }
    ensures opens { IfOk result
        (λ w. P.opens pcs.now (P.observed pcs.now w.0 challenger) w.0 protocol.now w.1) }
{
    let mut prover = challenger;
    let (commitment, prover_data) = pcs.commit(alloc, witness, &mut prover)?;
    let proof = pcs.open(alloc, prover_data, protocol, &mut prover)?;
    let mut verifier = challenger;
    pcs.observe_commitment(&commitment, &mut verifier);
    match pcs.verify(alloc, &commitment, &proof, &mut verifier, protocol) {
        Ok(()) => Ok((commitment, proof)),
        Err(PcsFailure::OutOfMemory) => Err(PcsFailure::OutOfMemory),
        Err(PcsFailure::Refused(_)) => unreachable!(),
    }
}
