//! The prover's transcript of a batch: where it grinds.

ghost use Rattle.std.specs.Prelude.{◌≡◌, [], ◌∷◌, map, IfOk, IfErr, MatchResult, ◌<◌, ◌^◌, Option};
ghost use Rattle.p3_lookup.specs.Written.{read_all};
ghost use Rattle.batch_transcript.specs.BatchScript.{from_lookup, from_permutation, from_ood, from_opening, pair_script, ood_script};
ghost use Rattle.batch_transcript.specs.Grinding.{IsGround, NonePasses, IsPairGround, LacksPairGround, ProverFails};
ghost use Rattle.batch_transcript.specs.Buses.{batch_layout};
ghost use Rattle.batch_transcript.specs.Running.{Plays, lists, drawn_along};

use crate::buses::{empty_layout, layout};
use crate::challenger::BatchChallenger;
use crate::failure::TranscriptError;
use crate::transcript::BatchTranscript;
use p3_challenger::{CanObserve, CanSample, GrindingChallenger, Proving};
use p3_field::{ExtensionField, PrimeCore64, PrimeField64};
use p3_lookup::{LookupProtocol, Lookups};
use std::alloc::Global;

/// The prover's transcript of a batch, as Plonky3's `batch_transcript::BatchProverTranscript`.
pub type BatchProverTranscript<C, F, EF, Com> = BatchTranscript<C, F, EF, Com, Proving>;

impl<
    F: PrimeField64,
    EF: ExtensionField<F>,
    Com,
    C: GrindingChallenger<Witness = F>
        + CanObserve<EF>
        + CanObserve<Com>
        + CanSample<F>
        + CanSample<EF>,
> BatchTranscript<C, F, EF, Com, Proving> {
    /// Grinds, draws the lookups' pair, and lays it out for the buses of each instance's lookups, where instances have lookups. The
    /// second part of the answer is the grinding value. `WitnessNotFound` is where no element passes, and leaves the challenger as it was.
    #[tactic(auto, unfolding(crate::specs::BatchScript::from_lookup, crate::specs::BatchScript::pair_script, p3_challenger::specs::Script::play), using(crate::specs::Laws::Phases::pair_cases))]
    pub fn lookup_phase<LG: LookupProtocol>(
        &mut self,
        alloc: Global,
        lookups: &[Lookups<F>],
        gadget: &LG,
    ) -> Result<(Vec<Vec<EF>>, Option<F>), TranscriptError>
        requires turn { self.old.remaining ≡ from_lookup EF.DIMENSION self.old.shape }
        requires few { 2 ^ self.old.shape.lookup_pow_bits < F.ORDER_U64 }
        ensures ground { IfOk result (λ p. IsPairGround
            (⟦<C as BatchChallenger<F, EF, Com>>⟧.functions) F.ring F.canonical self.old.state
            self.old.shape.num_lookup_instances self.old.shape.lookup_pow_bits p.1) }
        ensures refused { IfErr result (ProverFails
            (LacksPairGround (⟦<C as BatchChallenger<F, EF, Com>>⟧.functions) F.ring F.ORDER_U64
            self.old.state self.old.shape.num_lookup_instances self.old.shape.lookup_pow_bits)) }
        ensures left { IfErr result
            (λ e. e ≡ TranscriptError.WitnessNotFound → self.new.state ≡ self.old.state) }
        ensures memory { IfErr result (λ e. e ≡ TranscriptError.OutOfMemory → (w : Option F)
            × IsPairGround (⟦<C as BatchChallenger<F, EF, Com>>⟧.functions) F.ring F.canonical
            self.old.state self.old.shape.num_lookup_instances self.old.shape.lookup_pow_bits w) }
        ensures plays { IfOk result
            (λ p. let script = pair_script EF.DIMENSION self.old.shape.num_lookup_instances
            self.old.shape.lookup_pow_bits p.1 in
            let c = ⟦<C as BatchChallenger<F, EF, Com>>⟧.functions in
            Plays c script self.old self.new (drawn_along c self.old.state script)
            × (lists p.0.items ≡ batch_layout EF.ring (drawn_along c self.old.state script)
            (map read_all lookups.now))) }
        ensures turn { IfOk result
            (λ _. self.new.remaining ≡ from_permutation EF.DIMENSION self.new.shape) }
    {
        if self.shape.num_lookup_instances == 0 {
            return Ok((empty_layout(alloc, lookups)?, None));
        }
        match self.state.pow() {
            None => Err(TranscriptError::WitnessNotFound),
            Some(witness) => {
                let alpha: EF = self.state.challenge();
                let beta: EF = self.state.challenge();
                Ok((layout(alloc, lookups, gadget, alpha, beta)?, Some(witness)))
            }
        }
    }

    /// Grinds, and draws zeta. `WitnessNotFound` is where no element passes, and the only refusal; it leaves the challenger as it was.
    #[tactic(auto, unfolding(crate::specs::BatchScript::from_ood, crate::specs::BatchScript::ood_script, p3_challenger::specs::Script::play))]
    pub fn ood_phase(&mut self) -> Result<(EF, F), TranscriptError>
        requires turn { self.old.remaining ≡ from_ood EF.DIMENSION self.old.shape }
        requires few { 2 ^ self.old.shape.ood_pow_bits < F.ORDER_U64 }
        ensures ground { MatchResult result
            (λ p. IsGround (⟦<C as BatchChallenger<F, EF, Com>>⟧.functions) F.ring F.canonical
            self.old.state self.old.shape.ood_pow_bits p.1)
            (λ e. (e ≡ TranscriptError.WitnessNotFound)
            × NonePasses (⟦<C as BatchChallenger<F, EF, Com>>⟧.functions) F.ring F.ORDER_U64
            self.old.state self.old.shape.ood_pow_bits) }
        ensures left { IfErr result (λ _. self.new.state ≡ self.old.state) }
        ensures plays { IfOk result
            (λ p. Plays (⟦<C as BatchChallenger<F, EF, Com>>⟧.functions)
            (ood_script EF.DIMENSION self.old.shape.ood_pow_bits p.1) self.old self.new
            (p.0 ∷ [])) }
        ensures turn { IfOk result
            (λ _. self.new.remaining ≡ from_opening EF.DIMENSION self.new.shape) }
    {
        match self.state.pow() {
            None => Err(TranscriptError::WitnessNotFound),
            Some(witness) => {
                let zeta: EF = self.state.challenge();
                Ok((zeta, witness))
            }
        }
    }
}
