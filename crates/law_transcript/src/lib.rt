//! What is proved of a batch's transcript: that what is drawn is fixed by what stands before it, and so is what makes it unlucky; that what is played
//! tells the parts of statement and proof; and that all is played by base elements.
//!
//! The functions compute nothing: their contracts are laws of the definitions in `specs/` (`Before`, `Streams`, `Elements`). Not in Plonky3.
#![tactic(auto)]

ghost use Rattle.std.specs.Prelude.{◌≡◌, ◌<◌, ℕ, List, All};
ghost use Rattle.p3_field.specs.Ring.{Ring};
ghost use Rattle.batch_transcript.specs.BatchScript.{BatchShapeData, Given};
ghost use Rattle.batch_transcript.specs.Fits.{FitsShape};
ghost use Rattle.plain_pcs.specs.Scheme.{PlainCommitmentData};
ghost use Rattle.batch_config.specs.Setting.{Setting};
ghost use Rattle.batch_statement.specs.Proof.{ProofData};
ghost use Rattle.batch_statement.specs.Statement.{Statement};
ghost use Rattle.verifier_batch.specs.BatchChecks.{drawn_of};
ghost use Rattle.law_soundness.specs.CommittedBatch.{committed_table_at};
ghost use Rattle.law_balance.specs.Accepted.{messages_of_proof};
ghost use Rattle.law_transcript.specs.Before.{AgreeBeforeAlpha, AgreeBeforePair, AgreeBeforeZeta, HaveOnePair};
ghost use Rattle.p3_challenger.specs.Elements.{ElementChallenger, IsOverElements};
ghost use Rattle.p3_challenger.specs.Script.{ChallengerOf};
ghost use Rattle.law_transcript.specs.Elements.{PlaysByElements};
ghost use Rattle.law_transcript.specs.Unlucky.{ShareUnluckyAlphas, ShareUnluckyZetas};
ghost use Rattle.law_transcript.specs.Streams.{ArePlayedAlike, HaveSameParts, TellElements};

/// Of two proofs of one statement, over any configuration, a draw is the same where they agree in what the script plays before it: the
/// lookups' pair (`pair`), alpha (`alpha`), and from zeta on all that is drawn and the state at the opening (`zeta`). So nothing that a
/// prover chooses after a draw has a part in it.
pub fn draws_come_from_before<S, F, E, Com, Opening>()
    ensures pair { (c : Setting S F E Com) (s : Statement F Com) (p q : ProofData F E Com Opening)
        → AgreeBeforePair p q → HaveOnePair c s p q }
    ensures alpha { (c : Setting S F E Com) (s : Statement F Com) (p q : ProofData F E Com Opening)
        → AgreeBeforeAlpha p q
        → (drawn_of c s p).alpha ≡ (drawn_of c s q).alpha }
    ensures zeta { (c : Setting S F E Com) (s : Statement F Com) (p q : ProofData F E Com Opening)
        → AgreeBeforeZeta p q
        → drawn_of c s p ≡ drawn_of c s q }
{}

/// The same of what makes a challenge unlucky, over the plain scheme: what the tables send, for which pairs are unlucky, is fixed before
/// the pair is drawn (`messages`); the committed tables are before alpha (`tables`), and with them the set of the unlucky alphas
/// (`alphas`); the quotients are before zeta, and with them that of the unlucky zetas (`zetas`).
pub fn unlucky_sets_come_from_before<S, F, E, Opening>()
    ensures messages { (c : Setting S F E (PlainCommitmentData F)) (log_blowup : ℕ)
        (s : Statement F (PlainCommitmentData F))
        (p q : ProofData F E (PlainCommitmentData F) Opening) → AgreeBeforePair p q
        → messages_of_proof c log_blowup s p ≡ messages_of_proof c log_blowup s q }
    ensures tables { (c : Setting S F E (PlainCommitmentData F)) (log_blowup : ℕ)
        (s : Statement F (PlainCommitmentData F))
        (p q : ProofData F E (PlainCommitmentData F) Opening) → AgreeBeforeAlpha p q
        → (i : ℕ) → committed_table_at c log_blowup s p i ≡ committed_table_at c log_blowup s q i }
    ensures alphas { (c : Setting S F E (PlainCommitmentData F)) (log_blowup : ℕ)
        (s : Statement F (PlainCommitmentData F))
        (p q : ProofData F E (PlainCommitmentData F) Opening) → AgreeBeforeAlpha p q
        → ShareUnluckyAlphas c log_blowup s p q }
    ensures zetas { (c : Setting S F E (PlainCommitmentData F)) (log_blowup : ℕ)
        (s : Statement F (PlainCommitmentData F))
        (p q : ProofData F E (PlainCommitmentData F) Opening) → AgreeBeforeZeta p q
        → ShareUnluckyZetas c log_blowup s p q }
{}

/// What is played tells what it stands for: where two statements with parts of proofs, of one shape, are played by the same base elements, they are the same
/// in all parts that the script plays (`told`). So any other commitment, terminal, public value, number of rows or grinding value gives another stream, from
/// which other challenges are drawn. It asks that extension elements and commitments are told by the base elements that they are observed as, and degree bits,
/// which enter as sums of ones, by these.
pub fn streams_tell_their_parts<F, E, Com>()
    ensures told { (r : Ring E) (coefficients : E → List F) (opaque : Com → List F) (most d : ℕ)
        (s : BatchShapeData) (g h : Given F E Com)
        → TellElements r coefficients opaque most → FitsShape s g → FitsShape s h
        → All (λ n. n < most) g.degree_bits → All (λ n. n < most) h.degree_bits
        → ArePlayedAlike coefficients opaque r d s g h → HaveSameParts s g h }
{}

/// The transcript of a batch, over any challenger that observes and draws base elements, is played by base elements alone: each step by those that its value is
/// observed as, and a challenge by as many draws as it has coefficients. So a verifier that has only base elements plays the same transcript. That prover and
/// verifier play this one is `transcripts_are_one_fold` of `batch_transcript`.
pub fn batches_play_by_elements<S, F, E, Com>()
    ensures { (c : ChallengerOf S F E Com) (b : ElementChallenger S F) (coefficients : E → List F)
        (opaque : Com → List F) (f : Ring F) (r : Ring E)
        (d : ℕ) (initial : S) (s : BatchShapeData) (g : Given F E Com)
        → IsOverElements c b coefficients opaque d
        → PlaysByElements c b coefficients opaque f r d initial s g }
{}
