//! The parts of a batch's verification, over a configuration.
ghost use Rattle.std.specs.Prelude.{◌≡◌, ℕ, ◌+◌, ◌<◌, ◌≤◌, length, map, IfOk, IfErr};
ghost use Rattle.p3_field.specs.Checks.{in_turn};
ghost use Rattle.p3_field.specs.Poly.{tabulate};
ghost use Rattle.batch_statement.specs.Words.{bits_at};
ghost use Rattle.verifier_batch.specs.OpeningChecks.{shape_bounds_of, log_chunks_of_table, HasShapeFor, AreLogChunks, made_domains};
ghost use Rattle.batch_config.specs.Setting.{masks as masks_of};
ghost use Rattle.verifier_shape.specs.ShapeChecks.{bounds_with, shape_checks, HasRightCounts};
ghost use Rattle.batch_statement.specs.Statement.{WellFormed, read_common, stated};
ghost use Rattle.batch_statement.specs.Verdict.{IsVerdict};
ghost use Rattle.verifier_batch.specs.BatchChecks.{all_lookup_challenges, draw_part, drawn_of, identities_at, table_challenges_of};

use air_core::{Air, BaseAir};
use batch_config::Settings;
use batch_statement::{BatchProof, BatchVerificationError, CommonData};
use commit_core::{CosetPcs, Pcs, PolynomialSpace, UnivariateStarkPcs};
use p3_challenger::{CanObserve, CanSample, CanSampleBits, GrindingChallenger};
use p3_field::{
    BasedVectorSpace, ExtensionField, Field, FieldCore, PrimeCharacteristicRing, PrimeCore64,
    PrimeField64, RingCore, TwoAdicCore, TwoAdicField,
};
use p3_uni_stark::{Challenge, Challenger, Domain, PcsError, StarkGenericConfig, Val};
use std::alloc::Global;
use verifier_draws::{Drawn, check_draws};
use verifier_identity::check_identities;
use verifier_shape::{ShapeBounds, check_shape};

/// The numbers of a configuration that a proof's shape depends on (not in Plonky3).
pub fn shape_bounds<SC: StarkGenericConfig>(config: &SC) -> ShapeBounds
    ensures bounds { bounds_with SC.Val.ORDER_U64 result
        ≡ shape_bounds_of (⟦<SC as Settings>⟧.setting config.now) }
    ensures zk { result.zk ≡ SC.Pcs.ZK }
    ensures masks { result.masks ≡ masks_of (⟦<SC as Settings>⟧.setting config.now) }
    ensures dimension { result.dimension ≡ SC.Challenge.DIMENSION }
    ensures fits { result.most < 64 }
    ensures masked { result.masks ≤ result.least }
    ensures few { result.masks ≤ 1 }
{
    let pcs = config.pcs();
    let masks = config.is_zk();
    ShapeBounds {
        zk: SC::Pcs::ZK,
        masks,
        least: pcs.log_min_trace_height() + masks,
        most: pcs.log_max_trace_height(),
        dimension: SC::Challenge::DIMENSION,
    }
}

// The checks of the proof's shape, which give for each table the logarithm of the number of its quotient's chunks before masking.
pub(crate) fn check_batch_shape<SC: StarkGenericConfig, A: Air<Val<SC>>>(
    alloc: Global,
    config: &SC,
    airs: &[A],
    proof: &BatchProof<SC>,
    public_values: &[Vec<Val<SC>>],
    common: &CommonData<SC>,
) -> Result<Vec<usize>, BatchVerificationError<PcsError<SC>>>
    requires { WellFormed (map A.declaration airs.now) (read_common common.now) }
    ensures verdict { IsVerdict
        (shape_checks SC.Val.ring (shape_bounds_of (⟦<SC as Settings>⟧.setting config.now))
        (stated A.declaration A.trees airs.now public_values.now common.now) proof.now) result }
    ensures chunks { IfOk result
        (λ v. AreLogChunks (⟦<SC as Settings>⟧.setting config.now)
        (stated A.declaration A.trees airs.now public_values.now common.now) proof.now
        (length airs.now) v.items) }
    ensures memory { IfErr result (λ e. e ≡ BatchVerificationError.OutOfMemory
        → HasRightCounts SC.Pcs.Error SC.Pcs.ZK
        (stated A.declaration A.trees airs.now public_values.now common.now) proof.now) }
{
    check_shape(
        alloc,
        airs,
        public_values,
        common,
        proof,
        shape_bounds(config),
    )
}

// What is drawn along the proof from the configuration's state on, and the checks of its grinding values.
pub(crate) fn check_batch_draws<SC: StarkGenericConfig, A: Air<Val<SC>>>(
    alloc: Global,
    config: &SC,
    airs: &[A],
    proof: &BatchProof<SC>,
    public_values: &[Vec<Val<SC>>],
    common: &CommonData<SC>,
) -> Result<Drawn<Challenge<SC>, Challenger<SC>>, BatchVerificationError<PcsError<SC>>>
    requires { HasShapeFor SC.Pcs.Error SC.Val.ring (⟦<SC as Settings>⟧.setting config.now)
        (stated A.declaration A.trees airs.now public_values.now common.now) proof.now }
    ensures verdict { IsVerdict (draw_part (⟦<SC as Settings>⟧.setting config.now)
        (stated A.declaration A.trees airs.now public_values.now common.now) proof.now) result }
    ensures challenges { let s = stated A.declaration A.trees airs.now public_values.now
        common.now in
        IfOk result (λ d. map (λ v. v.items) d.challenges.items
        ≡ tabulate (length airs.now)
        (table_challenges_of (⟦<SC as Settings>⟧.setting config.now) s proof.now)) }
    ensures alpha { IfOk result (λ d. d.alpha
        ≡ (drawn_of (⟦<SC as Settings>⟧.setting config.now)
        (stated A.declaration A.trees airs.now public_values.now common.now) proof.now).alpha) }
    ensures zeta { IfOk result (λ d. d.zeta
        ≡ (drawn_of (⟦<SC as Settings>⟧.setting config.now)
        (stated A.declaration A.trees airs.now public_values.now common.now) proof.now).zeta) }
    ensures state { IfOk result (λ d. d.challenger
        ≡ (drawn_of (⟦<SC as Settings>⟧.setting config.now)
        (stated A.declaration A.trees airs.now public_values.now common.now) proof.now).opening) }
{
    check_draws(
        alloc,
        airs,
        public_values,
        common,
        proof,
        shape_bounds(config),
        config.initialise_challenger(),
        config.transcript_version(),
        config.lookup_proof_of_work_bits(),
        config.ood_proof_of_work_bits(),
    )
}

// The checks of the tables' identities at the drawn point, with these challenges and these domains of the quotients' chunks.
pub(crate) fn check_batch_identities<SC: StarkGenericConfig, A: Air<Val<SC>>>(
    alloc: Global,
    config: &SC,
    airs: &[A],
    proof: &BatchProof<SC>,
    public_values: &[Vec<Val<SC>>],
    common: &CommonData<SC>,
    challenges: &[Vec<Challenge<SC>>],
    domains: &[Vec<Domain<SC>>],
    alpha: Challenge<SC>,
    zeta: Challenge<SC>,
) -> Result<(), BatchVerificationError<PcsError<SC>>>
    requires formed { WellFormed (map A.declaration airs.now) (read_common common.now) }
    requires shape { HasShapeFor SC.Pcs.Error SC.Val.ring (⟦<SC as Settings>⟧.setting config.now)
        (stated A.declaration A.trees airs.now public_values.now common.now) proof.now }
    requires challenges { let s = stated A.declaration A.trees airs.now public_values.now
        common.now in
        map (λ v. v.items) challenges.now
        ≡ tabulate (length airs.now)
        (table_challenges_of (⟦<SC as Settings>⟧.setting config.now) s proof.now) }
    requires domains { map (λ v. v.items) domains.now
        ≡ made_domains (⟦<SC as Settings>⟧.setting config.now)
        (stated A.declaration A.trees airs.now public_values.now common.now) proof.now
        (length airs.now) }
    requires fits { let s = stated A.declaration A.trees airs.now public_values.now common.now in
        (i : ℕ) → i < length airs.now
        → bits_at proof.now.degree_bits i
        + log_chunks_of_table (⟦<SC as Settings>⟧.setting config.now) s proof.now i
        ≤ SC.Val.TWO_ADICITY }
    ensures { let s = stated A.declaration A.trees airs.now public_values.now common.now in
        IsVerdict (in_turn (length airs.now)
        (identities_at (⟦<SC as Settings>⟧.setting config.now) s proof.now
        (map (λ v. v.items) challenges.now) (map (λ v. v.items) domains.now) alpha zeta)) result }
{
    check_identities(
        alloc,
        airs,
        public_values,
        common,
        proof,
        shape_bounds(config),
        challenges,
        domains,
        alpha,
        zeta,
    )
}
