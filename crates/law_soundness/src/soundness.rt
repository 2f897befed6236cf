//! What an accepted batch proof says of what it commits to, over the plain scheme: laws as the contracts of functions that compute
//! nothing.
ghost use Rattle.std.specs.Prelude.{ℕ, ◌<◌, List, All, map, length};
ghost use Rattle.std.specs.Prelude.{slice_index_or as get_or};
ghost use Rattle.p3_field.specs.Field.{TwoAdic, Extension};
ghost use Rattle.law_committed.specs.Committed.{Holds};
ghost use Rattle.batch_statement.specs.Statement.{WellFormed, read_common, stated};
ghost use Rattle.verifier_batch.specs.BatchChecks.{Accepted, drawn_of};
ghost use Rattle.law_soundness.specs.CommittedBatch.{committed_batch, committed_table_at};
ghost use Rattle.law_soundness.specs.Meaning.{CommittedTablesHold, HoldUnlessUnlucky};
ghost use Rattle.law_soundness.specs.OpenedBatch.{AllCommittedValues, AllHaveColumns};
ghost use Rattle.law_soundness.specs.UnluckyCounts.{HasLowDegrees};

use air_core::{Air, BaseAir};
use batch_config::Settings;
use batch_statement::{BatchProof, CommonData};
use commit_core::{CosetPcs, Pcs, PolynomialSpace, UnivariateStarkPcs};
use law_committed::fields::fields_have_laws;
use p3_challenger::{CanObserve, CanSample, CanSampleBits, GrindingChallenger};
use p3_dft::TwoAdicSubgroupDft;
use p3_field::{
    BasedVectorSpace, ExtensionField, Field, FieldCore, PrimeCharacteristicRing, PrimeCore64,
    PrimeField64, RingCore, TwoAdicCore, TwoAdicField,
};
use p3_uni_stark::{StarkConfig, StarkGenericConfig};
use plain_pcs::{PlainCommitment, PlainPcs, opened_claims_bind};

/// The configurations over the plain scheme: any two-adic field, transform, field of challenges and challenger.
pub type PlainConfig<F, D, E, C> = StarkConfig<PlainPcs<F, D>, E, C>;

/// What an accepted proof says of the tables that it commits to (not in Plonky3). They are those of `committed_batch`: read off the proof's
/// commitments and the common data's, with the public values, the drawn lookup challenges and the proof's terminals, and with the
/// constraints of the AIRs and of their lookups. Their heights are the proof's own degree bits: a caller that expects heights compares
/// `degree_bits` with them.
///
/// Each constraint of each table is zero on each of its rows, or the drawn alpha is unlucky, or the drawn zeta is (`holds`): alpha
/// where on some row of some table the constraints' values aren't all zero and their fold by alpha is, zeta where some table's identity
/// polynomial isn't zero and its value at zeta is. What the proof opens is what the committed polynomials have at zeta and at the next
/// points (`opened`). Where all tables hold, each holds with the constraints of its AIR alone (`own`). The tables have the columns that the AIRs declare
/// (`columns`), with degrees below the tables' heights (`low`).
///
/// The common data is well-formed for the AIRs, and no check of the proof fails: so a caller of `verify_batch` has it from an Ok.
/// Nothing is computed, and nothing is said of how likely an unlucky challenge is.
pub fn accepted_holds<F, D, E, C, A>(
    config: &PlainConfig<F, D, E, C>,
    airs: &[A],
    proof: &BatchProof<PlainConfig<F, D, E, C>>,
    public_values: &[Vec<F>],
    common: &CommonData<PlainConfig<F, D, E, C>>,
)
where
    F: TwoAdicField + PrimeField64,
    D: TwoAdicSubgroupDft<F>,
    E: ExtensionField<F>,
    C: Copy
        + CanObserve<E>
        + CanSample<E>
        + CanSample<F>
        + GrindingChallenger<Witness = F>
        + CanObserve<PlainCommitment<F>>,
    A: Air<F>,
    requires formed { WellFormed (map A.declaration airs.now) (read_common common.now) }
    requires accepted { let s = stated A.declaration A.trees airs.now public_values.now
        common.now in
        Accepted (⟦<PlainConfig<F, D, E, C> as Settings>⟧.setting config.now)
        (⟦<PlainConfig<F, D, E, C> as Settings>⟧.backend config.now) s proof.now }
    ensures opened { let c = ⟦<PlainConfig<F, D, E, C> as Settings>⟧.setting config.now in
        let s = stated A.declaration A.trees airs.now public_values.now common.now in
        AllCommittedValues c config.now.pcs.log_blowup s proof.now (drawn_of c s proof.now).zeta }
    ensures columns { let c = ⟦<PlainConfig<F, D, E, C> as Settings>⟧.setting config.now in
        let s = stated A.declaration A.trees airs.now public_values.now common.now in
        AllHaveColumns c config.now.pcs.log_blowup s proof.now }
    ensures low { let c = ⟦<PlainConfig<F, D, E, C> as Settings>⟧.setting config.now in
        let s = stated A.declaration A.trees airs.now public_values.now common.now in
        All (HasLowDegrees c.field) (committed_batch c config.now.pcs.log_blowup s proof.now) }
    ensures holds { let c = ⟦<PlainConfig<F, D, E, C> as Settings>⟧.setting config.now in
        let s = stated A.declaration A.trees airs.now public_values.now common.now in
        HoldUnlessUnlucky c config.now.pcs.log_blowup s proof.now }
    ensures own { let c = ⟦<PlainConfig<F, D, E, C> as Settings>⟧.setting config.now in
        let s = stated A.declaration A.trees airs.now public_values.now common.now in
        CommittedTablesHold c config.now.pcs.log_blowup s proof.now → (i : ℕ) (air : A)
        → i < length airs.now
        → Holds c.field c.extension (committed_table_at c config.now.pcs.log_blowup s proof.now i)
        (A.trees (get_or airs.now i air)) }
{
    opened_claims_bind::<F, E>();
    fields_have_laws::<F, E>();
}
