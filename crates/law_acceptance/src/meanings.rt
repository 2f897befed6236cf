//! That honest proofs are accepted: a law as the contract of a function that computes nothing.
ghost use Rattle.std.specs.Prelude.{◌≡◌, ℕ, ◌<◌, false, List, length};
ghost use Rattle.p3_field.specs.Domain.{CosetData};
ghost use Rattle.p3_matrix.specs.Matrix.{Rows};
ghost use Rattle.batch_config.specs.Setting.{Setting};
ghost use Rattle.batch_statement.specs.Proof.{ProofData};
ghost use Rattle.batch_statement.specs.Statement.{Common, Statement, tables_of};
ghost use Rattle.verifier_batch.specs.BatchChecks.{Accepted};
ghost use Rattle.law_valid.specs.Traced.{traced_at};
ghost use Rattle.law_valid.specs.Valid.{IsTracedBatch, Valid};
ghost use Rattle.law_honest.specs.HonestProof.{IsHonest, zeta};
ghost use Rattle.law_acceptance.specs.Honest.{HaveFewRows, IsOutsideRows, prover_with};

use air_core::{Air, BaseAir};
use batch_config::Settings;
use commit_core::{CosetPcs, Pcs, PolynomialSpace, UnivariateStarkPcs};
use p3_field::{
    BasedVectorSpace, ExtensionField, Field, FieldCore, PrimeCharacteristicRing, PrimeCore64,
    PrimeField64, RingCore, TwoAdicCore, TwoAdicField,
};
use p3_uni_stark::{StarkGenericConfig, Val};

/// An honest proof of a valid statement is accepted, over each configuration whose backend masks nothing and each kind of AIR: no
/// check of `verify_batch` fails, unless the point of the openings lies on the rows of a table. The backend takes the proof of
/// its openings, which is part of its being honest. Each table has fewer than 2^63 rows, so that no degree reaches the greatest
/// `usize`.
pub fn honest_proofs_are_accepted<SC: StarkGenericConfig, A: Air<Val<SC>>>()
    ensures { (config : SC) (airs : List A) (publics : List (List SC.Val))
        (common : Common SC.Val SC.Pcs.Commitment) (traces : List (Rows SC.Val))
        (degree_bits : List ℕ)
        (commitment_of : List (CosetData SC.Val × Rows SC.Val) → SC.Pcs.Commitment)
        (q : ProofData SC.Val SC.Challenge SC.Pcs.Commitment SC.Pcs.Proof)
        → let c = ⟦<SC as Settings>⟧.setting config in
        let p = prover_with SC.Challenge.inv SC.Val.canonical commitment_of in
        let s : Statement SC.Val
        SC.Pcs.Commitment = record {
          tables = tables_of A.declaration A.trees airs;
          publics = publics;
          common = common;
        } in
        SC.Pcs.ZK ≡ false → HaveFewRows c s traces degree_bits
        → Valid c SC.Val.eq commitment_of s traces degree_bits
        → IsHonest c p s traces degree_bits (⟦<SC as Settings>⟧.backend config) q
        → ((i : ℕ) → i < length airs
        → IsOutsideRows c (traced_at s traces degree_bits i)
        (zeta c p s traces degree_bits q.lookup_pow_witness q.ood_pow_witness))
        → Accepted c (⟦<SC as Settings>⟧.backend config) s q }
{}

/// In a field whose two-adicity is below 63 each table of a traced batch has fewer than 2^63 rows.
pub fn tables_have_few_rows<C, F, E, Com>()
    ensures { (c : Setting C F E Com) (commitment_of : List (CosetData F × Rows F) → Com)
        (s : Statement F Com) (traces : List (Rows F)) (degree_bits : List ℕ)
        → c.two_adicity < 63 → IsTracedBatch c commitment_of s traces degree_bits
        → HaveFewRows c s traces degree_bits }
{}
