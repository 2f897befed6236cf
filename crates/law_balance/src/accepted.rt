//! What an accepted batch proof says of what its tables send, over the plain scheme: a law as the contract of a function that
//! computes nothing.
ghost use Rattle.std.specs.Prelude.{map};
ghost use Rattle.batch_statement.specs.Statement.{WellFormed, read_common, stated};
ghost use Rattle.verifier_batch.specs.BatchChecks.{Accepted};
ghost use Rattle.law_balance.specs.Accepted.{BalanceUnlessUnlucky, FewAlphasAreUnlucky, FewBetasMeet, HasFewerBuses};

use air_core::{Air, BaseAir};
use batch_config::Settings;
use batch_statement::{BatchProof, CommonData};
use commit_core::{CosetPcs, Pcs, PolynomialSpace, UnivariateStarkPcs};
use law_committed::fields::fields_have_laws;
use law_soundness::PlainConfig;
use p3_challenger::{CanObserve, CanSample, CanSampleBits, GrindingChallenger};
use p3_dft::TwoAdicSubgroupDft;
use p3_field::{
    BasedVectorSpace, ExtensionField, Field, FieldCore, PrimeCharacteristicRing, PrimeCore64,
    PrimeField64, RingCore, TwoAdicCore, TwoAdicField,
};
use p3_uni_stark::StarkGenericConfig;
use plain_pcs::{PlainCommitment, PlainPcs, opened_claims_bind};
use stark_balance::meanings::few_lookup_pairs_are_unlucky;

/// What an accepted proof says of the messages of the tables that it commits to: what they send row by row, over the base field
/// (not in Plonky3).
///
/// For each bus and tuple the counts of all rows of all tables sum to zero in the field, or the drawn lookup pair, alpha or zeta
/// is unlucky (`balance`). A lookup pair is unlucky where some message's denominator is zero, or where the sum of net over
/// denominator is zero although some net isn't. With fewer buses than the field has elements, of n pairs of bus and tuple with
/// tuples of at most W values at most W n (n - 1) / 2 betas make two meet (`betas`), and with any other beta fewer than 2 n
/// alphas are unlucky (`alphas`). Counts are of lists without repetitions.
pub fn accepted_balances<F, D, E, C, A>(
    config: &PlainConfig<F, D, E, C>,
    airs: &[A],
    proof: &BatchProof<PlainConfig<F, D, E, C>>,
    public_values: &[Vec<F>],
    common: &CommonData<PlainConfig<F, D, E, C>>,
)
where
    F: TwoAdicField + PrimeField64,
    D: TwoAdicSubgroupDft<F>,
    E: ExtensionField<F>,
    C: Copy
        + CanObserve<E>
        + CanSample<E>
        + CanSample<F>
        + GrindingChallenger<Witness = F>
        + CanObserve<PlainCommitment<F>>,
    A: Air<F>,
    requires formed { WellFormed (map A.declaration airs.now) (read_common common.now) }
    requires accepted { let s = stated A.declaration A.trees airs.now public_values.now
        common.now in
        Accepted (⟦<PlainConfig<F, D, E, C> as Settings>⟧.setting config.now)
        (⟦<PlainConfig<F, D, E, C> as Settings>⟧.backend config.now) s proof.now }
    ensures balance { let c = ⟦<PlainConfig<F, D, E, C> as Settings>⟧.setting config.now in
        let s = stated A.declaration A.trees airs.now public_values.now common.now in
        BalanceUnlessUnlucky c config.now.pcs.log_blowup s proof.now F.eq E.inv }
    ensures betas { let c = ⟦<PlainConfig<F, D, E, C> as Settings>⟧.setting config.now in
        let s = stated A.declaration A.trees airs.now public_values.now common.now in
        HasFewerBuses c config.now.pcs.log_blowup s proof.now F.ORDER_U64
        → FewBetasMeet c config.now.pcs.log_blowup s proof.now F.eq E.inv }
    ensures alphas { let c = ⟦<PlainConfig<F, D, E, C> as Settings>⟧.setting config.now in
        let s = stated A.declaration A.trees airs.now public_values.now common.now in
        FewAlphasAreUnlucky c config.now.pcs.log_blowup s proof.now F.eq E.inv }
{
    opened_claims_bind::<F, E>();
    fields_have_laws::<F, E>();
    few_lookup_pairs_are_unlucky::<F, E>();
}
