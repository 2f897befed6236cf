//! The same of a configuration as plain data.
ghost use Rattle.std.specs.Prelude.{◌≡◌, ℕ, false, map};
ghost use Rattle.p3_field.specs.Field.{TwoAdic, Extension};
ghost use Rattle.plain_pcs.specs.Scheme.{PlainCommitmentData};
ghost use Rattle.batch_config.specs.Setting.{Setting};
ghost use Rattle.batch_statement.specs.Proof.{ProofData};
ghost use Rattle.batch_statement.specs.Statement.{Statement, WellFormed};
ghost use Rattle.verifier_batch.specs.BatchChecks.{Accepted};
ghost use Rattle.law_soundness.specs.CommittedBatch.{ReadDeclared};
ghost use Rattle.law_soundness.specs.PlainSetting.{IsOverFields, plain_backend};
ghost use Rattle.law_balance.specs.Accepted.{BalanceUnlessUnlucky, FewAlphasAreUnlucky, FewBetasMeet, HasFewerBuses};

use law_committed::fields::fields_have_laws;
use p3_field::{
    BasedVectorSpace, ExtensionField, Field, FieldCore, PrimeCharacteristicRing, PrimeCore64,
    PrimeField64, RingCore, TwoAdicCore, TwoAdicField,
};
use plain_pcs::opened_claims_bind;
use stark_balance::meanings::few_lookup_pairs_are_unlucky;

/// `accepted_balances` of a configuration as plain data: of each setting over these fields that doesn't mask, with the plain
/// scheme as its backend, and of each statement whose common data is well-formed and whose constraints read declared cells (not
/// in Plonky3).
pub fn accepted_batches_balance<S, F: TwoAdicField + PrimeField64, E: ExtensionField<F>, P>()
    ensures balance { let f : TwoAdic
        F = record { ring = F.ring; inv = F.inv; root = F.root; generator = F.GENERATOR } in
        let e : Extension F E = record {
          ring = E.ring;
          embed = E.embed;
          dimension = E.DIMENSION;
          basis = E.basis;
          coefficients = E.coefficients;
          from_coefficients = E.from_coefficients;
        } in
        (c : Setting S F E (PlainCommitmentData F)) (log_blowup : ℕ)
        (s : Statement F (PlainCommitmentData F)) (p : ProofData F E (PlainCommitmentData F) P)
        → IsOverFields f e F.TWO_ADICITY c → c.zk ≡ false
        → WellFormed (map (λ t. t.declaration) s.tables) s.common → ReadDeclared s
        → Accepted c (plain_backend c log_blowup) s p
        → BalanceUnlessUnlucky c log_blowup s p F.eq E.inv }
    ensures betas { let f : TwoAdic
        F = record { ring = F.ring; inv = F.inv; root = F.root; generator = F.GENERATOR } in
        let e : Extension F E = record {
          ring = E.ring;
          embed = E.embed;
          dimension = E.DIMENSION;
          basis = E.basis;
          coefficients = E.coefficients;
          from_coefficients = E.from_coefficients;
        } in
        (c : Setting S F E (PlainCommitmentData F)) (log_blowup : ℕ)
        (s : Statement F (PlainCommitmentData F)) (p : ProofData F E (PlainCommitmentData F) P)
        → IsOverFields f e F.TWO_ADICITY c → c.zk ≡ false
        → WellFormed (map (λ t. t.declaration) s.tables) s.common
        → Accepted c (plain_backend c log_blowup) s p → HasFewerBuses c log_blowup s p F.ORDER_U64
        → FewBetasMeet c log_blowup s p F.eq E.inv }
    ensures alphas { let f : TwoAdic
        F = record { ring = F.ring; inv = F.inv; root = F.root; generator = F.GENERATOR } in
        let e : Extension F E = record {
          ring = E.ring;
          embed = E.embed;
          dimension = E.DIMENSION;
          basis = E.basis;
          coefficients = E.coefficients;
          from_coefficients = E.from_coefficients;
        } in
        (c : Setting S F E (PlainCommitmentData F)) (log_blowup : ℕ)
        (s : Statement F (PlainCommitmentData F)) (p : ProofData F E (PlainCommitmentData F) P)
        → IsOverFields f e F.TWO_ADICITY c → FewAlphasAreUnlucky c log_blowup s p F.eq E.inv }
{
    opened_claims_bind::<F, E>();
    fields_have_laws::<F, E>();
    few_lookup_pairs_are_unlucky::<F, E>();
}
