//! What the rows of hash tables are: a law as the contract of a function that computes nothing.
ghost use Rattle.std.specs.Prelude.{◌≡◌, ℕ, ◌^◌, ◌<◌, List, map, length};
ghost use Rattle.std.specs.Prelude.{slice_index_or as get_or};
ghost use Rattle.blake3_compress.specs.Compress.{Input};
ghost use Rattle.blake3_compress.specs.TraceRow.{AreWords, trace_row};
ghost use Rattle.blake3_prime.specs.Trees.{blake3_trees};
ghost use Rattle.batch_statement.specs.Words.{bits_at};
ghost use Rattle.batch_statement.specs.Statement.{WellFormed, read_common, stated};
ghost use Rattle.verifier_batch.specs.BatchChecks.{Accepted};
ghost use Rattle.law_committed.specs.BaseRows.{main_row};
ghost use Rattle.law_soundness.specs.CommittedBatch.{committed_table_at};
ghost use Rattle.law_soundness.specs.Meaning.{IsAlphaUnlucky, IsZetaUnlucky};

use air_core::{Air, BaseAir};
use batch_config::Settings;
use batch_statement::{BatchProof, CommonData};
use blake3_prime::meanings::row_means;
use commit_core::{CosetPcs, Pcs, PolynomialSpace, UnivariateStarkPcs};
use law_committed::fields::fields_have_laws;
use law_soundness::PlainConfig;
use p3_challenger::{CanObserve, CanSample, CanSampleBits, GrindingChallenger};
use p3_dft::TwoAdicSubgroupDft;
use p3_field::{
    BasedVectorSpace, ExtensionField, Field, FieldCore, PrimeCharacteristicRing, PrimeCore64,
    PrimeField64, RingCore, TwoAdicCore, TwoAdicField,
};
use p3_uni_stark::StarkGenericConfig;
use plain_pcs::{PlainCommitment, PlainPcs, opened_claims_bind};

/// Where a proof is accepted and neither the drawn alpha nor the drawn zeta is unlucky, each committed row of a hash table is that of one
/// compression of 28 words (not in Plonky3). A hash table is one whose AIR has the constraints and the columns of `Blake3Air`; it may
/// have lookups too. A row are the values of the main columns over the base field at the row's point (`main_row`).
///
/// The order of the field is above 2^20.
pub fn accepted_hashes_are_compressions<F, D, E, C, A>(
    config: &PlainConfig<F, D, E, C>,
    airs: &[A],
    proof: &BatchProof<PlainConfig<F, D, E, C>>,
    public_values: &[Vec<F>],
    common: &CommonData<PlainConfig<F, D, E, C>>,
)
where
    F: TwoAdicField + PrimeField64,
    D: TwoAdicSubgroupDft<F>,
    E: ExtensionField<F>,
    C: Copy
        + CanObserve<E>
        + CanSample<E>
        + CanSample<F>
        + GrindingChallenger<Witness = F>
        + CanObserve<PlainCommitment<F>>,
    A: Air<F>,
    requires order { 2 ^ 20 < F.ORDER_U64 }
    requires formed { WellFormed (map A.declaration airs.now) (read_common common.now) }
    requires accepted { let s = stated A.declaration A.trees airs.now public_values.now
        common.now in
        Accepted (⟦<PlainConfig<F, D, E, C> as Settings>⟧.setting config.now)
        (⟦<PlainConfig<F, D, E, C> as Settings>⟧.backend config.now) s proof.now }
    ensures { let c = ⟦<PlainConfig<F, D, E, C> as Settings>⟧.setting config.now in
        let s = stated A.declaration A.trees airs.now public_values.now common.now in
        (IsAlphaUnlucky c config.now.pcs.log_blowup s proof.now → ⊥)
        → (IsZetaUnlucky c config.now.pcs.log_blowup s proof.now → ⊥) → (i row : ℕ) (air : A)
        → i < length airs.now
        → A.trees (get_or airs.now i air) ≡ blake3_trees F.ring
        → (A.declaration (get_or airs.now i air)).width ≡ 9168
        → row < 2 ^ bits_at proof.now.degree_bits i
        → (x : Input) × AreWords x
        × (main_row c.field (committed_table_at c config.now.pcs.log_blowup s proof.now i) row
        ≡ trace_row F.ring x) }
{
    opened_claims_bind::<F, E>();
    fields_have_laws::<F, E>();
    row_means::<F>();
}
