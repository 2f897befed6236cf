//! The same of a configuration as plain data.
ghost use Rattle.std.specs.Prelude.{◌≡◌, ℕ, ◌<◌, ◌≤◌, false, List, All, length, map, sum};
ghost use Rattle.p3_field.specs.Field.{TwoAdic, Extension};
ghost use Rattle.plain_pcs.specs.Scheme.{PlainCommitmentData};
ghost use Rattle.law_committed.specs.Batch.{DividedTable, IsUnluckyAlphaOfBatch, IsUnluckyZetaOfBatch};
ghost use Rattle.law_committed.specs.Identity.{chunk_count_of};
ghost use Rattle.law_committed.specs.Unlucky.{AreDistinct, IsUnluckyAlpha, IsUnluckyAlphaAt, IsUnluckyZeta};
ghost use Rattle.batch_config.specs.Setting.{Setting};
ghost use Rattle.batch_statement.specs.Proof.{ProofData};
ghost use Rattle.batch_statement.specs.Statement.{Statement, WellFormed};
ghost use Rattle.verifier_batch.specs.BatchChecks.{Accepted, drawn_of};
ghost use Rattle.law_soundness.specs.CommittedBatch.{ReadDeclared, chunk_count, committed_batch, committed_quotient};
ghost use Rattle.law_soundness.specs.PlainSetting.{IsOverFields, plain_backend};
ghost use Rattle.law_soundness.specs.Meaning.{HoldUnlessUnlucky};
ghost use Rattle.law_soundness.specs.OpenedBatch.{AllCommittedValues, AllHaveColumns};
ghost use Rattle.law_soundness.specs.UnluckyCounts.{HasLowDegrees, most_alphas, most_zetas};

use law_committed::fields::fields_have_laws;
use p3_field::{
    BasedVectorSpace, ExtensionField, Field, FieldCore, PrimeCharacteristicRing, RingCore,
    TwoAdicCore, TwoAdicField,
};
use plain_pcs::opened_claims_bind;

/// `accepted_holds` of a configuration as plain data: of each setting over these fields that doesn't mask, with the plain scheme
/// as its backend, and of each statement whose common data is well-formed and whose constraints read declared cells. So it
/// holds of configurations of other types too, where their backend is this.
pub fn accepted_batches_hold<S, F: TwoAdicField, E: ExtensionField<F>, P>()
    ensures opened { let f : TwoAdic
        F = record { ring = F.ring; inv = F.inv; root = F.root; generator = F.GENERATOR } in
        let e : Extension F E = record {
          ring = E.ring;
          embed = E.embed;
          dimension = E.DIMENSION;
          basis = E.basis;
          coefficients = E.coefficients;
          from_coefficients = E.from_coefficients;
        } in
        (c : Setting S F E (PlainCommitmentData F)) (log_blowup : ℕ)
        (s : Statement F (PlainCommitmentData F)) (p : ProofData F E (PlainCommitmentData F) P)
        → IsOverFields f e F.TWO_ADICITY c → c.zk ≡ false
        → WellFormed (map (λ t. t.declaration) s.tables) s.common
        → Accepted c (plain_backend c log_blowup) s p
        → AllCommittedValues c log_blowup s p (drawn_of c s p).zeta }
    ensures columns { let f : TwoAdic
        F = record { ring = F.ring; inv = F.inv; root = F.root; generator = F.GENERATOR } in
        let e : Extension F E = record {
          ring = E.ring;
          embed = E.embed;
          dimension = E.DIMENSION;
          basis = E.basis;
          coefficients = E.coefficients;
          from_coefficients = E.from_coefficients;
        } in
        (c : Setting S F E (PlainCommitmentData F)) (log_blowup : ℕ)
        (s : Statement F (PlainCommitmentData F)) (p : ProofData F E (PlainCommitmentData F) P)
        → IsOverFields f e F.TWO_ADICITY c → c.zk ≡ false
        → WellFormed (map (λ t. t.declaration) s.tables) s.common
        → Accepted c (plain_backend c log_blowup) s p
        → AllHaveColumns c log_blowup s p }
    ensures low { let f : TwoAdic
        F = record { ring = F.ring; inv = F.inv; root = F.root; generator = F.GENERATOR } in
        let e : Extension F E = record {
          ring = E.ring;
          embed = E.embed;
          dimension = E.DIMENSION;
          basis = E.basis;
          coefficients = E.coefficients;
          from_coefficients = E.from_coefficients;
        } in
        (c : Setting S F E (PlainCommitmentData F)) (log_blowup : ℕ)
        (s : Statement F (PlainCommitmentData F)) (p : ProofData F E (PlainCommitmentData F) P)
        → IsOverFields f e F.TWO_ADICITY c → c.zk ≡ false
        → WellFormed (map (λ t. t.declaration) s.tables) s.common
        → Accepted c (plain_backend c log_blowup) s p
        → All (HasLowDegrees c.field) (committed_batch c log_blowup s p) }
    ensures fits { let f : TwoAdic
        F = record { ring = F.ring; inv = F.inv; root = F.root; generator = F.GENERATOR } in
        let e : Extension F E = record {
          ring = E.ring;
          embed = E.embed;
          dimension = E.DIMENSION;
          basis = E.basis;
          coefficients = E.coefficients;
          from_coefficients = E.from_coefficients;
        } in
        (c : Setting S F E (PlainCommitmentData F)) (log_blowup : ℕ)
        (s : Statement F (PlainCommitmentData F)) (p : ProofData F E (PlainCommitmentData F) P)
        → IsOverFields f e F.TWO_ADICITY c → c.zk ≡ false
        → WellFormed (map (λ t. t.declaration) s.tables) s.common
        → Accepted c (plain_backend c log_blowup) s p
        → All (λ t. t.table.log_height ≤ c.two_adicity) (committed_batch c log_blowup s p) }
    ensures holds { let f : TwoAdic
        F = record { ring = F.ring; inv = F.inv; root = F.root; generator = F.GENERATOR } in
        let e : Extension F E = record {
          ring = E.ring;
          embed = E.embed;
          dimension = E.DIMENSION;
          basis = E.basis;
          coefficients = E.coefficients;
          from_coefficients = E.from_coefficients;
        } in
        (c : Setting S F E (PlainCommitmentData F)) (log_blowup : ℕ)
        (s : Statement F (PlainCommitmentData F)) (p : ProofData F E (PlainCommitmentData F) P)
        → IsOverFields f e F.TWO_ADICITY c → c.zk ≡ false
        → WellFormed (map (λ t. t.declaration) s.tables) s.common → ReadDeclared s
        → Accepted c (plain_backend c log_blowup) s p
        → HoldUnlessUnlucky c log_blowup s p }
{
    opened_claims_bind::<F, E>();
    fields_have_laws::<F, E>();
}

/// How many challenges are unlucky at most for committed tables, of any statement and any proof, accepted or not, in any setting
/// over these fields. Counts are of lists without repetitions.
///
/// At one row of a table fewer alphas are than it has constraints (`row_alphas`), and none without constraints (`none`). For one
/// table of n rows, N constraints and C chunks at most n (N - 1) alphas are (`table_alphas`), and, where the degrees of its polynomials
/// are below its height and the field has a subgroup of that size, at most the larger of the largest degree of its constraints and
/// n (C + 1) - 1 zetas, whatever alpha is (`table_zetas`). Of an accepted proof's tables both hold, by `low` and `fits` of
/// `accepted_batches_hold`. Where nothing is masked, C is the number of chunks that the verifier counts (`chunks`). For all tables of a
/// statement as a proof commits to them at most the sums of these are (`alphas`, `zetas`).
pub fn few_are_unlucky<S, F: TwoAdicField, E: ExtensionField<F>, P>()
    ensures row_alphas { let f : TwoAdic
        F = record { ring = F.ring; inv = F.inv; root = F.root; generator = F.GENERATOR } in
        let e : Extension F E = record {
          ring = E.ring;
          embed = E.embed;
          dimension = E.DIMENSION;
          basis = E.basis;
          coefficients = E.coefficients;
          from_coefficients = E.from_coefficients;
        } in
        (c : Setting S F E (PlainCommitmentData F))
        → IsOverFields f e F.TWO_ADICITY c → (t : DividedTable F E) (row : ℕ) (alphas : List E)
        → 0 < length t.trees → AreDistinct c.extension.ring.zero alphas
        → All (IsUnluckyAlphaAt c.field c.extension t.table t.trees row) alphas
        → length alphas < length t.trees }
    ensures none { (c : Setting S F E (PlainCommitmentData F)) (t : DividedTable F E) (alpha : E)
        → length t.trees ≡ 0 → IsUnluckyAlpha c.field c.extension t.table t.trees alpha → ⊥ }
    ensures table_alphas { let f : TwoAdic
        F = record { ring = F.ring; inv = F.inv; root = F.root; generator = F.GENERATOR } in
        let e : Extension F E = record {
          ring = E.ring;
          embed = E.embed;
          dimension = E.DIMENSION;
          basis = E.basis;
          coefficients = E.coefficients;
          from_coefficients = E.from_coefficients;
        } in
        (c : Setting S F E (PlainCommitmentData F))
        → IsOverFields f e F.TWO_ADICITY c → (t : DividedTable F E) (alphas : List E)
        → AreDistinct c.extension.ring.zero alphas
        → All (IsUnluckyAlpha c.field c.extension t.table t.trees) alphas
        → length alphas ≤ most_alphas t }
    ensures table_zetas { let f : TwoAdic
        F = record { ring = F.ring; inv = F.inv; root = F.root; generator = F.GENERATOR } in
        let e : Extension F E = record {
          ring = E.ring;
          embed = E.embed;
          dimension = E.DIMENSION;
          basis = E.basis;
          coefficients = E.coefficients;
          from_coefficients = E.from_coefficients;
        } in
        (c : Setting S F E (PlainCommitmentData F))
        → IsOverFields f e F.TWO_ADICITY c → (t : DividedTable F E) (alpha : E) (zetas : List E)
        → t.table.log_height ≤ c.two_adicity → HasLowDegrees c.field t
        → AreDistinct c.extension.ring.zero zetas
        → All (IsUnluckyZeta c.field c.extension t.table t.trees t.quotient alpha) zetas
        → length zetas ≤ most_zetas t }
    ensures chunks { (c : Setting S F E (PlainCommitmentData F)) (log_blowup : ℕ)
        (s : Statement F (PlainCommitmentData F)) (p : ProofData F E (PlainCommitmentData F) P)
        (i : ℕ) → c.zk ≡ false
        → chunk_count_of (committed_quotient c log_blowup s p i) ≡ chunk_count c s p i }
    ensures alphas { let f : TwoAdic
        F = record { ring = F.ring; inv = F.inv; root = F.root; generator = F.GENERATOR } in
        let e : Extension F E = record {
          ring = E.ring;
          embed = E.embed;
          dimension = E.DIMENSION;
          basis = E.basis;
          coefficients = E.coefficients;
          from_coefficients = E.from_coefficients;
        } in
        (c : Setting S F E (PlainCommitmentData F)) (log_blowup : ℕ)
        (s : Statement F (PlainCommitmentData F)) (p : ProofData F E (PlainCommitmentData F) P)
        → IsOverFields f e F.TWO_ADICITY c → (alphas : List E)
        → AreDistinct c.extension.ring.zero alphas
        → All (IsUnluckyAlphaOfBatch c.field c.extension (committed_batch c log_blowup s p)) alphas
        → length alphas ≤ sum (map most_alphas (committed_batch c log_blowup s p)) }
    ensures zetas { let f : TwoAdic
        F = record { ring = F.ring; inv = F.inv; root = F.root; generator = F.GENERATOR } in
        let e : Extension F E = record {
          ring = E.ring;
          embed = E.embed;
          dimension = E.DIMENSION;
          basis = E.basis;
          coefficients = E.coefficients;
          from_coefficients = E.from_coefficients;
        } in
        (c : Setting S F E (PlainCommitmentData F)) (log_blowup : ℕ)
        (s : Statement F (PlainCommitmentData F)) (p : ProofData F E (PlainCommitmentData F) P)
        → IsOverFields f e F.TWO_ADICITY c → (alpha : E) (zetas : List E)
        → All (λ t. t.table.log_height ≤ c.two_adicity) (committed_batch c log_blowup s p)
        → All (HasLowDegrees c.field) (committed_batch c log_blowup s p)
        → AreDistinct c.extension.ring.zero zetas
        → All (IsUnluckyZetaOfBatch c.field c.extension (committed_batch c log_blowup s p) alpha)
        zetas
        → length zetas ≤ sum (map most_zetas (committed_batch c log_blowup s p)) }
{
    fields_have_laws::<F, E>();
}
