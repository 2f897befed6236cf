//! The checks of a batch proof that fail, all of them, and the steps of its script.
ghost use Rattle.std.specs.Prelude.{◌≡◌, ◌^◌, ◌<◌, IfOk, length, map};
ghost use Rattle.batch_statement.specs.Statement.{WellFormed, read_common, stated};
ghost use Rattle.verifier_batch.specs.OpeningChecks.{HasShapeFor, AreLogChunks};
ghost use Rattle.verifier_draws.specs.Draws.{script_shape};
ghost use Rattle.audit_batch.specs.Audit.{HasWitness, NamesFaults};
ghost use Rattle.audit_batch.specs.Report.{IsPlayedText, steps_text};

use crate::claims::name_claims;
use crate::grinding::{name_lookup_grinding, name_ood_grinding};
use crate::naming::{name_answer, name_test};
use crate::openings::name_openings;
use crate::script::fold_proof;
use crate::shape::name_shape;
use air_core::{Air, BaseAir};
use audit_script::FoldedScript;
use batch_config::Settings;
use batch_statement::{BatchProof, BatchVerificationError, CommonData};
use batch_transcript::{BatchShape, BatchTranscriptFailure};
use commit_core::{CosetPcs, Pcs, PolynomialSpace, UnivariateStarkPcs};
use p3_challenger::{CanObserve, CanSample, CanSampleBits, GrindingChallenger};
use p3_field::{
    BasedVectorSpace, ExtensionField, Field, FieldCore, Mem, PrimeCharacteristicRing, PrimeCore64,
    PrimeField64, RingCore, TwoAdicCore, TwoAdicField,
};
use p3_uni_stark::{Challenge, Challenger, Commitment, PcsError, StarkGenericConfig, Val};
use std::alloc::Global;
use verifier_batch::shape_bounds;
use verifier_draws::batch_shape;
use verifier_identity::check_terminals;

/// What is found of a batch proof (not in Plonky3).
#[derive(Drop)]
pub struct BatchAudit<PcsErr> {
    /// A line for each step of the script, where it is played, and else nothing.
    pub steps: Vec<u8>,
    /// The refusals of all checks that are asked and fail, in the verifier's order.
    pub faults: Vec<BatchVerificationError<PcsErr>>,
}

// Names all faults of a proof whose shape is right, where the value that the script needs is missing: the script isn't played.
fn audit_unplayed<SC: StarkGenericConfig, A: Air<Val<SC>>>(
    alloc: Global,
    config: &SC,
    airs: &[A],
    proof: &BatchProof<SC>,
    public_values: &[Vec<Val<SC>>],
    common: &CommonData<SC>,
    chunks: &[usize],
    shape: &BatchShape,
) -> Mem<Vec<BatchVerificationError<PcsError<SC>>>>
    requires formed { WellFormed (map A.declaration airs.now) (read_common common.now) }
    requires shape { HasShapeFor SC.Pcs.Error SC.Val.ring (⟦<SC as Settings>⟧.setting config.now)
        (stated A.declaration A.trees airs.now public_values.now common.now) proof.now }
    requires chunks { AreLogChunks (⟦<SC as Settings>⟧.setting config.now)
        (stated A.declaration A.trees airs.now public_values.now common.now) proof.now
        (length airs.now) chunks.now }
    requires script { let setting = ⟦<SC as Settings>⟧.setting config.now in
        let statement = stated A.declaration A.trees airs.now public_values.now common.now in
        shape.now ≡ script_shape setting.version setting.zk setting.lookup_bits setting.ood_bits
        statement }
    requires missing { HasWitness shape.now.num_lookup_instances proof.now.lookup_pow_witness → ⊥ }
    ensures { IfOk result (λ v.
        NamesFaults (⟦<SC as Settings>⟧.setting config.now) (⟦<SC as Settings>⟧.backend config.now)
        (stated A.declaration A.trees airs.now public_values.now common.now) proof.now v.items) }
{
    let mut faults = Vec::new(alloc);
    let missing = BatchTranscriptFailure::MissingLookupPowWitness {
        bits: shape.lookup_pow_bits,
    };
    name_test(
        &mut faults,
        false,
        BatchVerificationError::Transcript(missing),
    )?;
    name_claims(
        &mut faults,
        config,
        airs,
        proof,
        public_values,
        common,
        chunks,
    )?;
    name_answer(&mut faults, check_terminals(proof))?;
    Ok(faults)
}

// Plays the script of a proof whose shape is right, where that value is there, and names all faults.
fn audit_played<SC: StarkGenericConfig, A: Air<Val<SC>>>(
    alloc: Global,
    config: &SC,
    airs: &[A],
    proof: &BatchProof<SC>,
    public_values: &[Vec<Val<SC>>],
    common: &CommonData<SC>,
    chunks: &[usize],
    shape: &BatchShape,
) -> Mem<BatchAudit<PcsError<SC>>>
    requires formed { WellFormed (map A.declaration airs.now) (read_common common.now) }
    requires shape { HasShapeFor SC.Pcs.Error SC.Val.ring (⟦<SC as Settings>⟧.setting config.now)
        (stated A.declaration A.trees airs.now public_values.now common.now) proof.now }
    requires chunks { AreLogChunks (⟦<SC as Settings>⟧.setting config.now)
        (stated A.declaration A.trees airs.now public_values.now common.now) proof.now
        (length airs.now) chunks.now }
    requires script { let setting = ⟦<SC as Settings>⟧.setting config.now in
        let statement = stated A.declaration A.trees airs.now public_values.now common.now in
        shape.now ≡ script_shape setting.version setting.zk setting.lookup_bits setting.ood_bits
        statement }
    requires lookup_bits { 2 ^ shape.now.lookup_pow_bits < SC.Val.ORDER_U64 }
    requires ood_bits { 2 ^ shape.now.ood_pow_bits < SC.Val.ORDER_U64 }
    requires there { HasWitness shape.now.num_lookup_instances proof.now.lookup_pow_witness }
    ensures steps { let statement = stated A.declaration A.trees airs.now public_values.now
        common.now in
        IfOk result (λ a. a.steps.items
        ≡ steps_text (⟦<SC as Settings>⟧.setting config.now) (⟦<SC as Settings>⟧.backend config.now)
        statement proof.now (λ x. map SC.Val.canonical (SC.Challenge.coefficients x))) }
    ensures faults { IfOk result
        (λ a. NamesFaults (⟦<SC as Settings>⟧.setting config.now)
        (⟦<SC as Settings>⟧.backend config.now)
        (stated A.declaration A.trees airs.now public_values.now common.now) proof.now
        a.faults.items) }
{
    let challenger = config.initialise_challenger();
    let FoldedScript { text, draws } = fold_proof::<
        Val<SC>,
        Challenge<SC>,
        Commitment<SC>,
        Challenger<SC>,
        _,
    >(alloc, challenger, shape, public_values, common, proof)?;
    let mut faults = Vec::new(alloc);
    let tables = shape.num_lookup_instances;
    name_lookup_grinding(
        &mut faults,
        tables,
        shape.lookup_pow_bits,
        proof.lookup_pow_witness,
        draws.lookup_passed,
    )?;
    name_ood_grinding(
        &mut faults,
        shape.ood_pow_bits,
        proof.ood_pow_witness,
        draws.ood_passed,
    )?;
    name_openings(
        &mut faults,
        alloc,
        config,
        airs,
        proof,
        public_values,
        common,
        chunks,
        tables,
        draws,
    )?;
    name_answer(&mut faults, check_terminals(proof))?;
    Ok(BatchAudit {
        steps: text,
        faults,
    })
}

// The same of both, where the shape is right.
fn audit_shaped<SC: StarkGenericConfig, A: Air<Val<SC>>>(
    alloc: Global,
    config: &SC,
    airs: &[A],
    proof: &BatchProof<SC>,
    public_values: &[Vec<Val<SC>>],
    common: &CommonData<SC>,
    chunks: &[usize],
) -> Mem<BatchAudit<PcsError<SC>>>
    requires formed { WellFormed (map A.declaration airs.now) (read_common common.now) }
    requires shape { HasShapeFor SC.Pcs.Error SC.Val.ring (⟦<SC as Settings>⟧.setting config.now)
        (stated A.declaration A.trees airs.now public_values.now common.now) proof.now }
    requires chunks { AreLogChunks (⟦<SC as Settings>⟧.setting config.now)
        (stated A.declaration A.trees airs.now public_values.now common.now) proof.now
        (length airs.now) chunks.now }
    ensures steps { IfOk result
        (λ a. IsPlayedText (⟦<SC as Settings>⟧.setting config.now)
        (⟦<SC as Settings>⟧.backend config.now)
        (stated A.declaration A.trees airs.now public_values.now common.now) proof.now
        (λ x. map SC.Val.canonical (SC.Challenge.coefficients x)) a.steps.items) }
    ensures faults { IfOk result
        (λ a. NamesFaults (⟦<SC as Settings>⟧.setting config.now)
        (⟦<SC as Settings>⟧.backend config.now)
        (stated A.declaration A.trees airs.now public_values.now common.now) proof.now
        a.faults.items) }
{
    let shape = batch_shape(
        alloc,
        airs,
        common,
        config.transcript_version(),
        SC::Pcs::ZK,
        config.lookup_proof_of_work_bits(),
        config.ood_proof_of_work_bits(),
    )?;
    if shape.num_lookup_instances == 0 || proof.lookup_pow_witness.is_some() {
        return audit_played(
            alloc,
            config,
            airs,
            proof,
            public_values,
            common,
            chunks,
            &shape,
        );
    }
    let faults = audit_unplayed(
        alloc,
        config,
        airs,
        proof,
        public_values,
        common,
        chunks,
        &shape,
    )?;
    Ok(BatchAudit {
        steps: Vec::new(alloc),
        faults,
    })
}

/// All checks of a batch proof that are asked and fail, and the steps of its script (not in Plonky3): which checks are asked is said by `audit`, and the
/// refusals of those that fail are named in its order (`faults`). The steps are there exactly where the proof's shape is right and the grinding value
/// that the script needs isn't missing; they are those of the challenger's own calls, which go on where a grinding value fails its test (`steps`).
/// The only error is running out of memory.
///
/// No fault is named exactly where `verify_batch` accepts, and else the first that is named is its refusal (`there_is_one_audit`).
///
/// The shared data is well-formed for the AIRs (test: `fits`). Nothing is asked of the proof.
pub fn audit_batch<SC: StarkGenericConfig, A: Air<Val<SC>>>(
    alloc: Global,
    config: &SC,
    airs: &[A],
    proof: &BatchProof<SC>,
    public_values: &[Vec<Val<SC>>],
    common: &CommonData<SC>,
) -> Mem<BatchAudit<PcsError<SC>>>
    requires { WellFormed (map A.declaration airs.now) (read_common common.now) }
    ensures steps { IfOk result
        (λ a. IsPlayedText (⟦<SC as Settings>⟧.setting config.now)
        (⟦<SC as Settings>⟧.backend config.now)
        (stated A.declaration A.trees airs.now public_values.now common.now) proof.now
        (λ x. map SC.Val.canonical (SC.Challenge.coefficients x)) a.steps.items) }
    ensures faults { IfOk result
        (λ a. NamesFaults (⟦<SC as Settings>⟧.setting config.now)
        (⟦<SC as Settings>⟧.backend config.now)
        (stated A.declaration A.trees airs.now public_values.now common.now) proof.now
        a.faults.items) }
{
    let mut faults = Vec::new(alloc);
    let bounds = shape_bounds(config);
    let chunks = name_shape(
        &mut faults,
        alloc,
        airs,
        public_values,
        common,
        proof,
        bounds,
    )?;
    if faults.is_empty() {
        return audit_shaped(alloc, config, airs, proof, public_values, common, &chunks);
    }
    name_answer(&mut faults, check_terminals(proof))?;
    Ok(BatchAudit {
        steps: Vec::new(alloc),
        faults,
    })
}
