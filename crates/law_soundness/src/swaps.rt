//! How the swap tables of an accepted proof end: a law as the contract of a function that computes nothing.
ghost use Rattle.std.specs.Prelude.{◌≡◌, ℕ, ◌<◌, List, [], map, length};
ghost use Rattle.std.specs.Prelude.{slice_index_or as get_or};
ghost use Rattle.air_tables.specs.Swap.{swap_trees};
ghost use Rattle.batch_statement.specs.Words.{bits_at};
ghost use Rattle.batch_statement.specs.Statement.{WellFormed, read_common, stated};
ghost use Rattle.verifier_batch.specs.BatchChecks.{Accepted};
ghost use Rattle.law_soundness.specs.Meaning.{IsAlphaUnlucky, IsZetaUnlucky};
ghost use Rattle.law_soundness.specs.Swapped.{EndsSwapped, swap_publics};

use crate::soundness::PlainConfig;
use air_core::{Air, BaseAir};
use batch_config::Settings;
use batch_statement::{BatchProof, CommonData};
use commit_core::{CosetPcs, Pcs, PolynomialSpace, UnivariateStarkPcs};
use law_committed::fields::fields_have_laws;
use p3_challenger::{CanObserve, CanSample, CanSampleBits, GrindingChallenger};
use p3_dft::TwoAdicSubgroupDft;
use p3_field::{
    BasedVectorSpace, ExtensionField, Field, FieldCore, PrimeCharacteristicRing, PrimeCore64,
    PrimeField64, RingCore, TwoAdicCore, TwoAdicField,
};
use p3_uni_stark::StarkGenericConfig;
use plain_pcs::{PlainCommitment, PlainPcs, opened_claims_bind};

/// Where a proof is accepted and neither the drawn alpha nor the drawn zeta is unlucky, each swap table's statement is true: its third
/// public value is the second where the table has one row, and else the first (not in Plonky3). A swap table is one whose AIR has the
/// constraints of `SwapAir`; it may have lookups too.
pub fn accepted_swaps_end<F, D, E, C, A>(
    config: &PlainConfig<F, D, E, C>,
    airs: &[A],
    proof: &BatchProof<PlainConfig<F, D, E, C>>,
    public_values: &[Vec<F>],
    common: &CommonData<PlainConfig<F, D, E, C>>,
)
where
    F: TwoAdicField + PrimeField64,
    D: TwoAdicSubgroupDft<F>,
    E: ExtensionField<F>,
    C: Copy
        + CanObserve<E>
        + CanSample<E>
        + CanSample<F>
        + GrindingChallenger<Witness = F>
        + CanObserve<PlainCommitment<F>>,
    A: Air<F>,
    requires formed { WellFormed (map A.declaration airs.now) (read_common common.now) }
    requires accepted { let s = stated A.declaration A.trees airs.now public_values.now
        common.now in
        Accepted (⟦<PlainConfig<F, D, E, C> as Settings>⟧.setting config.now)
        (⟦<PlainConfig<F, D, E, C> as Settings>⟧.backend config.now) s proof.now }
    ensures { let c = ⟦<PlainConfig<F, D, E, C> as Settings>⟧.setting config.now in
        let s = stated A.declaration A.trees airs.now public_values.now common.now in
        (IsAlphaUnlucky c config.now.pcs.log_blowup s proof.now → ⊥)
        → (IsZetaUnlucky c config.now.pcs.log_blowup s proof.now → ⊥)
        → (i : ℕ) (air : A) (a b x : F) → i < length airs.now
        → A.trees (get_or airs.now i air) ≡ swap_trees → get_or s.publics i [] ≡ swap_publics a b x
        → EndsSwapped (bits_at proof.now.degree_bits i) a b x }
{
    opened_claims_bind::<F, E>();
    fields_have_laws::<F, E>();
}
