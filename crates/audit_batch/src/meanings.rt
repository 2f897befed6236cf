//! That what is named agrees with a verifier's answer: laws as the contract of a function that computes nothing.
ghost use Rattle.std.specs.Prelude.{◌≡◌, List, [], ◌∷◌};
ghost use Rattle.batch_statement.specs.Proof.{ProofData};
ghost use Rattle.batch_statement.specs.Statement.{Statement};
ghost use Rattle.batch_statement.specs.declared.error.BatchVerificationError.{BatchVerificationError};
ghost use Rattle.verifier_batch.specs.BatchChecks.{Accepted, FirstFault};
ghost use Rattle.audit_batch.specs.Asked.{AreNamed};
ghost use Rattle.audit_batch.specs.Audit.{audit};

use batch_config::Settings;
use commit_core::{CosetPcs, Pcs, PolynomialSpace, UnivariateStarkPcs, a_verification_is_a_check};
use p3_field::{
    BasedVectorSpace, ExtensionField, Field, FieldCore, PrimeCharacteristicRing, PrimeCore64,
    PrimeField64, RingCore, TwoAdicCore, TwoAdicField,
};
use p3_uni_stark::{Challenge, Challenger, StarkGenericConfig};

/// Whatever statement and proof are, the refusals that are named agree with a verifier's answer: none is named only where the proof is
/// accepted (`accepted`), none is named where it is (`unnamed`), the first that is named is the refusal that a verifier answers (`first`), and there is
/// one list of them (`one`).
pub fn there_is_one_audit<SC: StarkGenericConfig>()
    ensures accepted { (config : SC) (s : Statement SC.Val SC.Pcs.Commitment)
        (p : ProofData SC.Val SC.Challenge SC.Pcs.Commitment SC.Pcs.Proof)
        → AreNamed (audit (⟦<SC as Settings>⟧.setting config) (⟦<SC as Settings>⟧.backend config) s
        p) []
        → Accepted (⟦<SC as Settings>⟧.setting config) (⟦<SC as Settings>⟧.backend config) s p }
    ensures unnamed { (config : SC) (s : Statement SC.Val SC.Pcs.Commitment)
        (p : ProofData SC.Val SC.Challenge SC.Pcs.Commitment SC.Pcs.Proof)
        (es : List (BatchVerificationError SC.Pcs.Error))
        → Accepted (⟦<SC as Settings>⟧.setting config) (⟦<SC as Settings>⟧.backend config) s p
        → AreNamed (audit (⟦<SC as Settings>⟧.setting config) (⟦<SC as Settings>⟧.backend config) s
        p) es → es ≡ [] }
    ensures first { (config : SC) (s : Statement SC.Val SC.Pcs.Commitment)
        (p : ProofData SC.Val SC.Challenge SC.Pcs.Commitment SC.Pcs.Proof)
        (e : BatchVerificationError SC.Pcs.Error)
        (es : List (BatchVerificationError SC.Pcs.Error))
        → AreNamed (audit (⟦<SC as Settings>⟧.setting config) (⟦<SC as Settings>⟧.backend config) s
        p) (e ∷ es)
        → FirstFault (⟦<SC as Settings>⟧.setting config) (⟦<SC as Settings>⟧.backend config) s p e }
    ensures one { (config : SC) (s : Statement SC.Val SC.Pcs.Commitment)
        (p : ProofData SC.Val SC.Challenge SC.Pcs.Commitment SC.Pcs.Proof)
        (ds es : List (BatchVerificationError SC.Pcs.Error))
        → AreNamed (audit (⟦<SC as Settings>⟧.setting config) (⟦<SC as Settings>⟧.backend config) s
        p) ds
        → AreNamed (audit (⟦<SC as Settings>⟧.setting config) (⟦<SC as Settings>⟧.backend config) s
        p) es → ds ≡ es }
{
    a_verification_is_a_check::<Challenge<SC>, Challenger<SC>, SC::Pcs>();
}
