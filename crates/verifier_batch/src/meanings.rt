//! That every proof has one answer: a law as the contract of a function that computes nothing.
ghost use Rattle.std.specs.Prelude.{◌≡◌, Option};
ghost use Rattle.p3_field.specs.Checks.{AreSingle, FirstRefusal};
ghost use Rattle.batch_statement.specs.Proof.{ProofData};
ghost use Rattle.batch_statement.specs.Statement.{Statement};
ghost use Rattle.batch_statement.specs.declared.error.BatchVerificationError.{BatchVerificationError};
ghost use Rattle.verifier_batch.specs.BatchChecks.{checks, FirstFault};

use batch_config::Settings;
use commit_core::{CosetPcs, Pcs, PolynomialSpace, UnivariateStarkPcs, a_verification_is_a_check};
use p3_field::{
    BasedVectorSpace, ExtensionField, Field, FieldCore, PrimeCharacteristicRing, PrimeCore64,
    PrimeField64, RingCore, TwoAdicCore, TwoAdicField,
};
use p3_uni_stark::{Challenge, Challenger, StarkGenericConfig};

/// Each check of a batch proof has exactly one refusal where it fails (`single`), whatever statement and proof are. So besides
/// out of memory there is one answer on every proof: two are the same (`one`), that there is none can't be (`some`), and none of
/// them is out of memory (`named`).
pub fn there_is_one_verdict<SC: StarkGenericConfig>()
    ensures single { (config : SC) (s : Statement SC.Val SC.Pcs.Commitment)
        (p : ProofData SC.Val SC.Challenge SC.Pcs.Commitment SC.Pcs.Proof)
        → AreSingle (checks (⟦<SC as Settings>⟧.setting config) (⟦<SC as Settings>⟧.backend config)
        s p) }
    ensures one { (config : SC) (s : Statement SC.Val SC.Pcs.Commitment)
        (p : ProofData SC.Val SC.Challenge SC.Pcs.Commitment SC.Pcs.Proof)
        (d e : Option (BatchVerificationError SC.Pcs.Error))
        → FirstRefusal (checks (⟦<SC as Settings>⟧.setting config)
        (⟦<SC as Settings>⟧.backend config) s p) d
        → FirstRefusal (checks (⟦<SC as Settings>⟧.setting config)
        (⟦<SC as Settings>⟧.backend config) s p) e → d ≡ e }
    ensures some { (config : SC) (s : Statement SC.Val SC.Pcs.Commitment)
        (p : ProofData SC.Val SC.Challenge SC.Pcs.Commitment SC.Pcs.Proof)
        → ((e : Option (BatchVerificationError SC.Pcs.Error))
        → FirstRefusal (checks (⟦<SC as Settings>⟧.setting config)
        (⟦<SC as Settings>⟧.backend config) s p) e → ⊥) → ⊥ }
    ensures named { (config : SC) (s : Statement SC.Val SC.Pcs.Commitment)
        (p : ProofData SC.Val SC.Challenge SC.Pcs.Commitment SC.Pcs.Proof)
        → FirstFault (⟦<SC as Settings>⟧.setting config) (⟦<SC as Settings>⟧.backend config) s p
        BatchVerificationError.OutOfMemory → ⊥ }
{
    a_verification_is_a_check::<Challenge<SC>, Challenger<SC>, SC::Pcs>();
}
