//! Schemes that commit to multilinear polynomials.
ghost use Rattle.std.specs.Prelude.{◌≡◌, ℕ, IfOk, IsOk};
ghost use Rattle.commit_core.specs.Failure.{NoneOf, FaultUnless, RefusedBy, IfRefused, VerifiedBy};

use commit_core::PcsFailure;
use p3_field::{
    BasedVectorSpace, ExtensionField, Field, FieldCore, PrimeCharacteristicRing, RingCore,
};
use std::alloc::Global;

/// A scheme that commits to multilinear polynomials, each given by its values on all points of zeros and ones, and proves
/// what a protocol opens of them (`MultilinearPcs` of `p3-commit`).
pub trait MultilinearPcs<Challenge, Challenger>
where
    Challenge: ExtensionField<Self::Val>,
{
    /// The field of the committed values.
    type Val: FieldCore;

    /// What a verifier gets of a witness.
    type Commitment: Drop;

    /// The prover data of it.
    type ProverData: Drop;

    /// A proof of what is opened.
    type Proof: Drop;

    /// Why a proof is refused.
    type Error: Drop;

    /// Why the scheme refuses to commit or to open.
    type ProverError: Drop;

    /// What is committed to.
    type Witness: Drop;

    /// What is opened, which prover and verifier agree on before.
    type OpeningProtocol: Drop;

    // the number of variables
    ghost variables: { Self → ℕ };

    // why the scheme refuses to commit to the witness
    ghost commit_fault: { Self → Self.Witness → Self.ProverError → Type 0 };

    // the state of a challenger that has taken in the commitment
    ghost observed: { Self → Self.Commitment → Challenger → Challenger };

    // prover data belongs to the commitment, and both to the witness
    ghost holds: { Self → Self.ProverData → Self.Commitment → Self.Witness → Type 0 };

    // why the scheme refuses to open
    ghost open_fault: { Self → Self.ProverData → Self.OpeningProtocol → Self.ProverError → Type 0 };

    // the proof opens the commitment by the protocol from this challenger's state
    ghost opens: { Self → Challenger → Self.Commitment → Self.OpeningProtocol → Self.Proof
        → Type 0 };

    // the state in which an opening with this proof leaves the challenger, and a verification that accepts it
    ghost after: { Self → Challenger → Self.Commitment → Self.OpeningProtocol → Self.Proof
        → Challenger };

    // the first fault of a proof that doesn't
    ghost fault: { Self → Challenger → Self.Commitment → Self.OpeningProtocol → Self.Proof
        → Self.Error → Type 0 };

    /// The number of variables m: a polynomial has 2^m values.
    fn num_vars(&self) -> usize
        ensures { result ≡ variables self.now };

    /// Commits to a witness, and leaves the challenger as `observe_commitment` of the commitment does. `Refused` comes
    /// exactly where `commit_fault` names a cause, and leaves the challenger as it was.
    fn commit(
        &self,
        alloc: Global,
        witness: Self::Witness,
        challenger: &mut Challenger,
    ) -> Result<(Self::Commitment, Self::ProverData), PcsFailure<Self::ProverError>>
        ensures refusal { RefusedBy (commit_fault self.now witness) result }
        ensures unchanged { IfRefused result (λ _. challenger.new ≡ challenger.old) }
        ensures observed { IfOk result
            (λ w. challenger.new ≡ observed self.now w.0 challenger.old) }
        ensures held { IfOk result (λ w. holds self.now w.1 w.0 witness) };

    /// Takes a commitment into the challenger, as a verifier does where the prover committed.
    fn observe_commitment(&self, commitment: &Self::Commitment, challenger: &mut Challenger)
        ensures { challenger.new ≡ observed self.now commitment.now challenger.old };

    /// Opens by a protocol. The proof is accepted for the commitment from the same state of the challenger, and leaves both
    /// challengers in one state (`after`). `Refused` comes exactly where `open_fault` names a cause, and leaves the
    /// challenger as it was.
    fn open(
        &self,
        alloc: Global,
        prover_data: Self::ProverData,
        protocol: &Self::OpeningProtocol,
        challenger: &mut Challenger,
    ) -> Result<Self::Proof, PcsFailure<Self::ProverError>>
        ensures refusal { RefusedBy (open_fault self.now prover_data protocol.now) result }
        ensures unchanged { IfRefused result (λ _. challenger.new ≡ challenger.old) }
        ensures accepted { IfOk result
            (λ p. (c : Self.Commitment) (w : Self.Witness) → holds self.now prover_data c w
            → opens self.now challenger.old c protocol.now p) }
        ensures after { IfOk result
            (λ p. (c : Self.Commitment) (w : Self.Witness) → holds self.now prover_data c w
            → challenger.new ≡ after self.now challenger.old c protocol.now p) };

    /// Whether the proof opens the commitment by the protocol, from the challenger's state: Ok exactly where it does
    /// (`opens`), and else `Refused` of the first fault. Where it accepts, it leaves the challenger as the opening did.
    fn verify(
        &self,
        alloc: Global,
        commitment: &Self::Commitment,
        proof: &Self::Proof,
        challenger: &mut Challenger,
        protocol: &Self::OpeningProtocol,
    ) -> Result<(), PcsFailure<Self::Error>>
        ensures verdict { VerifiedBy
            (opens self.now challenger.old commitment.now protocol.now proof.now)
            (fault self.now challenger.old commitment.now protocol.now proof.now) result }
        ensures after { IsOk result → challenger.new
            ≡ after self.now challenger.old commitment.now protocol.now proof.now };

    // a proof that opens has no fault
    ghost opens_faultless: { (s : Self) (t : Challenger) (c : Self.Commitment)
        (o : Self.OpeningProtocol) (p : Self.Proof) → opens s t c o p → NoneOf (fault s t c o p) };

    // one that doesn't has a first fault
    ghost some_fault: { (s : Self) (t : Challenger) (c : Self.Commitment) (o : Self.OpeningProtocol)
        (p : Self.Proof) → FaultUnless (opens s t c o p) (fault s t c o p) };

    // the first fault is one
    ghost one_fault: { (s : Self) (t : Challenger) (c : Self.Commitment) (o : Self.OpeningProtocol)
        (p : Self.Proof) (e g : Self.Error) → fault s t c o p e → fault s t c o p g → e ≡ g };

    // and so is the cause to refuse to commit, and to open
    ghost one_commit_fault: { (s : Self) (w : Self.Witness) (e g : Self.ProverError)
        → commit_fault s w e → commit_fault s w g → e ≡ g };

    ghost one_open_fault: { (s : Self) (d : Self.ProverData) (o : Self.OpeningProtocol)
        (e g : Self.ProverError) → open_fault s d o e → open_fault s d o g → e ≡ g };
}
