//! What is drawn along a proof.
ghost use Rattle.std.specs.Prelude.{◌≡◌, ◌^◌, ◌<◌, map, length, IfOk};
ghost use Rattle.p3_field.specs.Poly.{tabulate};
ghost use Rattle.batch_statement.specs.Statement.{stated};
ghost use Rattle.verifier_shape.specs.ShapeChecks.{bounds_with, HasRightShape};
ghost use Rattle.batch_statement.specs.Verdict.{IsVerdict};
ghost use Rattle.verifier_draws.specs.Draws.{drawn, grinding_checks, table_challenges};

use crate::phases::play_phases;
use crate::shapes::{batch_shape, preprocessed_commitment};
use crate::terminals::terminals_there;
use air_core::{Air, BaseAir};
use batch_statement::{BatchVerificationError, SharedData, TablesProof};
use batch_transcript::BatchChallenger;
use p3_challenger::{CanObserve, CanSample, GrindingChallenger};
use p3_field::{BasedVectorSpace, ExtensionField, PrimeCore64, PrimeField64, RingCore};
use std::alloc::Global;
use transcript_version::TranscriptVersion;
use verifier_shape::ShapeBounds;

/// What is drawn along a proof (not in Plonky3): the challenges of each table's lookups, those that the verifier draws for all
/// tables, and the challenger after them.
#[derive(Drop)]
pub struct Drawn<E, C> {
    /// For each table the challenges of its lookups: for each lookup the base of its bus, then beta.
    pub challenges: Vec<Vec<E>>,
    /// The challenge that folds the constraints.
    pub alpha: E,
    /// The point of the openings.
    pub zeta: E,
    /// The challenger as the backend's opening finds it.
    pub challenger: C,
}

/// Draws what a verifier draws along a proof whose shape was found right, and checks its two grinding values (the first steps
/// after the shape's checks in `verify_batch` of Plonky3's `p3-batch-stark`).
///
/// The answer is the refusal of the first check of `grinding_checks` that fails: `UnexpectedLookupPowWitness` where no table has
/// lookups and there is a value before their challenges; where some table has lookups `MissingLookupPowWitness` where there is
/// none, else `NonCanonicalLookupPowWitness` where it isn't zero at zero bits, else `LookupPowWitness` where it fails the
/// challenger's test; then `NonCanonicalOodPowWitness` and `OodPowWitness` in the same way for the value before zeta. Where none
/// fails, it is what is drawn along the script of the statement and the
/// proof, begun by this version's separator. Only out of memory is free.
///
/// No check of the proof's shape fails, and 2 to the bits of each grinding is below the field's order.
pub fn check_draws<
    F: PrimeField64,
    EF: ExtensionField<F>,
    Com,
    C: GrindingChallenger<Witness = F>
        + CanObserve<EF>
        + CanObserve<Com>
        + CanSample<F>
        + CanSample<EF>
        + Drop,
    A: Air<F>,
    Opening,
    R,
>(
    alloc: Global,
    airs: &[A],
    public_values: &[Vec<F>],
    common: &SharedData<F, Com>,
    proof: &TablesProof<F, EF, Com, Opening>,
    bounds: ShapeBounds,
    challenger: C,
    version: TranscriptVersion,
    lookup_bits: usize,
    ood_bits: usize,
) -> Result<Drawn<EF, C>, BatchVerificationError<R>>
    requires shape { HasRightShape R F.ring (bounds_with F.ORDER_U64 bounds)
        (stated A.declaration A.trees airs.now public_values.now common.now) proof.now }
    requires lookup { 2 ^ lookup_bits < F.ORDER_U64 }
    requires ood { 2 ^ ood_bits < F.ORDER_U64 }
    ensures verdict { let s = stated A.declaration A.trees airs.now public_values.now common.now in
        IsVerdict (grinding_checks (⟦<C as BatchChallenger<F, EF, Com>>⟧.functions) F.ring EF.ring
        EF.DIMENSION challenger version bounds.zk lookup_bits ood_bits s proof.now) result }
    ensures challenges { let s = stated A.declaration A.trees airs.now public_values.now
        common.now in
        IfOk result (λ d. map (λ v. v.items) d.challenges.items
        ≡ tabulate (length airs.now) (table_challenges EF.ring
        (drawn (⟦<C as BatchChallenger<F, EF, Com>>⟧.functions) F.ring EF.ring EF.DIMENSION
        challenger version bounds.zk lookup_bits ood_bits s proof.now) s)) }
    ensures alpha { let s = stated A.declaration A.trees airs.now public_values.now common.now in
        IfOk result (λ d. d.alpha
        ≡ (drawn (⟦<C as BatchChallenger<F, EF, Com>>⟧.functions) F.ring EF.ring EF.DIMENSION
        challenger version bounds.zk lookup_bits ood_bits s proof.now).alpha) }
    ensures zeta { let s = stated A.declaration A.trees airs.now public_values.now common.now in
        IfOk result (λ d. d.zeta
        ≡ (drawn (⟦<C as BatchChallenger<F, EF, Com>>⟧.functions) F.ring EF.ring EF.DIMENSION
        challenger version bounds.zk lookup_bits ood_bits s proof.now).zeta) }
    ensures state { let s = stated A.declaration A.trees airs.now public_values.now common.now in
        IfOk result (λ d. d.challenger
        ≡ (drawn (⟦<C as BatchChallenger<F, EF, Com>>⟧.functions) F.ring EF.ring EF.DIMENSION
        challenger version bounds.zk lookup_bits ood_bits s proof.now).opening) }
{
    let shape = batch_shape(
        alloc,
        airs,
        common,
        version,
        bounds.zk,
        lookup_bits,
        ood_bits,
    )?;
    let terminals = terminals_there(alloc, proof.terminals())?;
    play_phases(
        alloc,
        challenger,
        shape,
        &proof.degree_bits,
        &proof.commitments.main,
        public_values,
        preprocessed_commitment(common),
        &common.lookups,
        proof.commitments.permutation.as_ref(),
        &terminals,
        &proof.commitments.quotient_chunks,
        proof.commitments.random.as_ref(),
        proof.lookup_pow_witness,
        proof.ood_pow_witness,
    )
}
