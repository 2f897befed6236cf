//! How few challenges are unlucky for an accepted proof: laws as the contract of a function that computes nothing.
ghost use Rattle.std.specs.Prelude.{◌≡◌, ℕ, ◌<◌, ◌≤◌, List, All, Contains, map, length, sum};
ghost use Rattle.law_committed.specs.Batch.{DividedTable, IsUnluckyAlphaOfBatch, IsUnluckyZetaOfBatch};
ghost use Rattle.law_committed.specs.Identity.{chunk_count_of};
ghost use Rattle.law_committed.specs.Unlucky.{AreDistinct, IsUnluckyAlpha, IsUnluckyAlphaAt, IsUnluckyZeta};
ghost use Rattle.batch_statement.specs.Statement.{WellFormed, read_common, stated};
ghost use Rattle.verifier_batch.specs.BatchChecks.{Accepted};
ghost use Rattle.law_soundness.specs.CommittedBatch.{chunk_count, committed_batch, committed_quotient};
ghost use Rattle.law_soundness.specs.UnluckyCounts.{most_alphas, most_zetas};

use crate::soundness::PlainConfig;
use air_core::{Air, BaseAir};
use batch_config::Settings;
use batch_statement::{BatchProof, CommonData};
use commit_core::{CosetPcs, Pcs, PolynomialSpace, UnivariateStarkPcs};
use law_committed::fields::fields_have_laws;
use p3_challenger::{CanObserve, CanSample, CanSampleBits, GrindingChallenger};
use p3_dft::TwoAdicSubgroupDft;
use p3_field::{
    BasedVectorSpace, ExtensionField, Field, FieldCore, PrimeCharacteristicRing, PrimeCore64,
    PrimeField64, RingCore, TwoAdicCore, TwoAdicField,
};
use p3_uni_stark::StarkGenericConfig;
use plain_pcs::{PlainCommitment, PlainPcs, opened_claims_bind};

/// How many challenges are unlucky at most for the tables that an accepted proof commits to (not in Plonky3). Counts are of lists without
/// repetitions.
///
/// At one row of a table fewer alphas are than it has constraints (`row_alphas`), and none without constraints (`none`). For one table of
/// n rows, N constraints and C chunks at most n (N - 1) alphas are (`table_alphas`), and at most the larger of the
/// largest degree of its constraints and n (C + 1) - 1 zetas, whatever alpha is (`table_zetas`). C is the number of chunks that the
/// verifier counts (`chunks`). For the whole batch at most the sums of these over its tables are (`alphas`, `zetas`).
pub fn few_challenges_are_unlucky<F, D, E, C, A>(
    config: &PlainConfig<F, D, E, C>,
    airs: &[A],
    proof: &BatchProof<PlainConfig<F, D, E, C>>,
    public_values: &[Vec<F>],
    common: &CommonData<PlainConfig<F, D, E, C>>,
)
where
    F: TwoAdicField + PrimeField64,
    D: TwoAdicSubgroupDft<F>,
    E: ExtensionField<F>,
    C: Copy
        + CanObserve<E>
        + CanSample<E>
        + CanSample<F>
        + GrindingChallenger<Witness = F>
        + CanObserve<PlainCommitment<F>>,
    A: Air<F>,
    requires formed { WellFormed (map A.declaration airs.now) (read_common common.now) }
    requires accepted { let s = stated A.declaration A.trees airs.now public_values.now
        common.now in
        Accepted (⟦<PlainConfig<F, D, E, C> as Settings>⟧.setting config.now)
        (⟦<PlainConfig<F, D, E, C> as Settings>⟧.backend config.now) s proof.now }
    ensures row_alphas { let c = ⟦<PlainConfig<F, D, E, C> as Settings>⟧.setting config.now in
        let s = stated A.declaration A.trees airs.now public_values.now common.now in
        (t : DividedTable F E) (row : ℕ) (alphas : List E)
        → Contains (committed_batch c config.now.pcs.log_blowup s proof.now) t → 0 < length t.trees
        → AreDistinct c.extension.ring.zero alphas
        → All (IsUnluckyAlphaAt c.field c.extension t.table t.trees row) alphas
        → length alphas < length t.trees }
    ensures none { let c = ⟦<PlainConfig<F, D, E, C> as Settings>⟧.setting config.now in
        let s = stated A.declaration A.trees airs.now public_values.now common.now in
        (t : DividedTable F E) (alpha : E)
        → Contains (committed_batch c config.now.pcs.log_blowup s proof.now) t → length t.trees ≡ 0
        → IsUnluckyAlpha c.field c.extension t.table t.trees alpha → ⊥ }
    ensures table_alphas { let c = ⟦<PlainConfig<F, D, E, C> as Settings>⟧.setting config.now in
        let s = stated A.declaration A.trees airs.now public_values.now common.now in
        (t : DividedTable F E) (alphas : List E)
        → Contains (committed_batch c config.now.pcs.log_blowup s proof.now) t
        → AreDistinct c.extension.ring.zero alphas
        → All (IsUnluckyAlpha c.field c.extension t.table t.trees) alphas
        → length alphas ≤ most_alphas t }
    ensures table_zetas { let c = ⟦<PlainConfig<F, D, E, C> as Settings>⟧.setting config.now in
        let s = stated A.declaration A.trees airs.now public_values.now common.now in
        (t : DividedTable F E) (alpha : E) (zetas : List E)
        → Contains (committed_batch c config.now.pcs.log_blowup s proof.now) t
        → AreDistinct c.extension.ring.zero zetas
        → All (IsUnluckyZeta c.field c.extension t.table t.trees t.quotient alpha) zetas
        → length zetas ≤ most_zetas t }
    ensures chunks { let c = ⟦<PlainConfig<F, D, E, C> as Settings>⟧.setting config.now in
        let s = stated A.declaration A.trees airs.now public_values.now common.now in
        (i : ℕ) → i < length airs.now
        → chunk_count_of (committed_quotient c config.now.pcs.log_blowup s proof.now i)
        ≡ chunk_count c s proof.now i }
    ensures alphas { let c = ⟦<PlainConfig<F, D, E, C> as Settings>⟧.setting config.now in
        let s = stated A.declaration A.trees airs.now public_values.now common.now in
        let batch = committed_batch c config.now.pcs.log_blowup s proof.now in
        (alphas : List E) → AreDistinct c.extension.ring.zero alphas
        → All (IsUnluckyAlphaOfBatch c.field c.extension batch) alphas
        → length alphas ≤ sum (map most_alphas batch) }
    ensures zetas { let c = ⟦<PlainConfig<F, D, E, C> as Settings>⟧.setting config.now in
        let s = stated A.declaration A.trees airs.now public_values.now common.now in
        let batch = committed_batch c config.now.pcs.log_blowup s proof.now in
        (alpha : E) (zetas : List E) → AreDistinct c.extension.ring.zero zetas
        → All (IsUnluckyZetaOfBatch c.field c.extension batch alpha) zetas
        → length zetas ≤ sum (map most_zetas batch) }
{
    opened_claims_bind::<F, E>();
    fields_have_laws::<F, E>();
}
