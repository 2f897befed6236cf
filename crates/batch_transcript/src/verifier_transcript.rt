//! The verifier's transcript of a batch: where it tests grinding values.

ghost use Rattle.std.specs.Prelude.{◌≡◌, [], ◌∷◌, map, IfOk, IfErr, MatchResult, IsTrue, ◌↔◌, ◌<◌, ◌^◌};
ghost use Rattle.p3_lookup.specs.Written.{read_all};
ghost use Rattle.batch_transcript.specs.BatchScript.{from_lookup, from_permutation, from_ood, from_opening, pair_script, ood_script};
ghost use Rattle.batch_transcript.specs.Grinding.{IsCanonicalAt, IsTaken, IsPairTaken, OodRefusal, PairRefusal, VerifierFails, OodLeft, PairLeft};
ghost use Rattle.batch_transcript.specs.Buses.{batch_layout};
ghost use Rattle.batch_transcript.specs.Running.{Plays, lists, drawn_along};

use crate::buses::{empty_layout, layout};
use crate::challenger::BatchChallenger;
use crate::failure::{BatchTranscriptFailure, TranscriptError};
use crate::transcript::BatchTranscript;
use p3_challenger::{CanObserve, CanSample, GrindingChallenger, Verifying};
use p3_field::{ExtensionField, PrimeCore64, PrimeField64};
use p3_lookup::{LookupProtocol, Lookups};
use std::alloc::Global;

/// The verifier's transcript of a batch, as Plonky3's `batch_transcript::BatchVerifierTranscript`.
pub type BatchVerifierTranscript<C, F, EF, Com> = BatchTranscript<C, F, EF, Com, Verifying>;

/// Whether a grinding value is admitted: at zero bits zero alone is.
#[tactic(auto, using(crate::specs::Laws::Phases::next_of))]
fn is_canonical<F: PrimeField64>(bits: usize, witness: F) -> bool
    ensures { IsTrue result ↔ IsCanonicalAt F.ring bits witness }
{
    bits != 0 || witness.is_zero()
}

impl<
    F: PrimeField64,
    EF: ExtensionField<F>,
    Com,
    C: GrindingChallenger<Witness = F>
        + CanObserve<EF>
        + CanObserve<Com>
        + CanSample<F>
        + CanSample<EF>,
> BatchTranscript<C, F, EF, Com, Verifying> {
    /// Tests the grinding value, draws the lookups' pair, and lays it out for the buses of each instance's lookups, where instances
    /// have lookups. A value that fails the test leaves the challenger after that test, and any other refusal as it was.
    #[tactic(auto, unfolding(crate::specs::BatchScript::from_lookup, crate::specs::BatchScript::pair_script, p3_challenger::specs::Script::play), using(crate::specs::Laws::Phases::pair_cases))]
    pub fn lookup_phase<LG: LookupProtocol>(
        &mut self,
        alloc: Global,
        lookups: &[Lookups<F>],
        gadget: &LG,
        witness: Option<F>,
    ) -> Result<Vec<Vec<EF>>, TranscriptError>
        requires turn { self.old.remaining ≡ from_lookup EF.DIMENSION self.old.shape }
        requires few { 2 ^ self.old.shape.lookup_pow_bits < F.ORDER_U64 }
        ensures taken { IfOk result (λ _. IsPairTaken
            (⟦<C as BatchChallenger<F, EF, Com>>⟧.functions) F.ring self.old.state
            self.old.shape.num_lookup_instances self.old.shape.lookup_pow_bits witness) }
        ensures refused { IfErr result (VerifierFails
            (PairRefusal (⟦<C as BatchChallenger<F, EF, Com>>⟧.functions) F.ring self.old.state
            self.old.shape.num_lookup_instances self.old.shape.lookup_pow_bits witness)) }
        ensures left { IfErr result
            (VerifierFails (PairLeft (⟦<C as BatchChallenger<F, EF, Com>>⟧.functions) self.old.state
            self.old.shape.lookup_pow_bits witness self.new.state)) }
        ensures memory { IfErr result (λ e. e ≡ TranscriptError.OutOfMemory
            → IsPairTaken (⟦<C as BatchChallenger<F, EF, Com>>⟧.functions) F.ring self.old.state
            self.old.shape.num_lookup_instances self.old.shape.lookup_pow_bits witness) }
        ensures plays { IfOk result
            (λ v. let script = pair_script EF.DIMENSION self.old.shape.num_lookup_instances
            self.old.shape.lookup_pow_bits witness in
            let c = ⟦<C as BatchChallenger<F, EF, Com>>⟧.functions in
            Plays c script self.old self.new (drawn_along c self.old.state script)
            × (lists v.items ≡ batch_layout EF.ring (drawn_along c self.old.state script)
            (map read_all lookups.now))) }
        ensures turn { IfOk result
            (λ _. self.new.remaining ≡ from_permutation EF.DIMENSION self.new.shape) }
    {
        let bits = self.shape.lookup_pow_bits;
        if self.shape.num_lookup_instances == 0 {
            if witness.is_some() {
                let failure = BatchTranscriptFailure::UnexpectedLookupPowWitness;
                return Err(TranscriptError::Failure(failure));
            }
            return Ok(empty_layout(alloc, lookups)?);
        }
        let Some(witness) = witness else {
            let failure = BatchTranscriptFailure::MissingLookupPowWitness { bits };
            return Err(TranscriptError::Failure(failure));
        };
        if !is_canonical(bits, witness) {
            let failure = BatchTranscriptFailure::NonCanonicalLookupPowWitness;
            return Err(TranscriptError::Failure(failure));
        }
        if !self.state.pow(witness) {
            let failure = BatchTranscriptFailure::LookupPowWitness { bits };
            return Err(TranscriptError::Failure(failure));
        }
        let alpha: EF = self.state.challenge();
        let beta: EF = self.state.challenge();
        Ok(layout(alloc, lookups, gadget, alpha, beta)?)
    }

    /// Tests the grinding value, and draws zeta. A value that fails the test leaves the challenger after that test; the other refusal
    /// leaves it as it was.
    #[tactic(auto, unfolding(crate::specs::BatchScript::from_ood, crate::specs::BatchScript::ood_script, p3_challenger::specs::Script::play))]
    pub fn ood_phase(&mut self, witness: F) -> Result<EF, BatchTranscriptFailure>
        requires turn { self.old.remaining ≡ from_ood EF.DIMENSION self.old.shape }
        requires few { 2 ^ self.old.shape.ood_pow_bits < F.ORDER_U64 }
        ensures answer { MatchResult result
            (λ _. IsTaken (⟦<C as BatchChallenger<F, EF, Com>>⟧.functions) F.ring self.old.state
            self.old.shape.ood_pow_bits witness)
            (OodRefusal (⟦<C as BatchChallenger<F, EF, Com>>⟧.functions) F.ring self.old.state
            self.old.shape.ood_pow_bits witness) }
        ensures left { IfErr result
            (OodLeft (⟦<C as BatchChallenger<F, EF, Com>>⟧.functions) self.old.state
            self.old.shape.ood_pow_bits witness self.new.state) }
        ensures plays { IfOk result
            (λ zeta. Plays (⟦<C as BatchChallenger<F, EF, Com>>⟧.functions)
            (ood_script EF.DIMENSION self.old.shape.ood_pow_bits witness) self.old self.new
            (zeta ∷ [])) }
        ensures turn { IfOk result
            (λ _. self.new.remaining ≡ from_opening EF.DIMENSION self.new.shape) }
    {
        let bits = self.shape.ood_pow_bits;
        if !is_canonical(bits, witness) {
            return Err(BatchTranscriptFailure::NonCanonicalOodPowWitness);
        }
        if !self.state.pow(witness) {
            return Err(BatchTranscriptFailure::OodPowWitness { bits });
        }
        Ok(self.state.challenge())
    }
}
