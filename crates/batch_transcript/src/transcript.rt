//! What the transcripts of a batch of both sides are.

ghost use Rattle.std.specs.Prelude.{◌≡◌, [], ◌∷◌, map, IfOk, IsTrue, is_some, length};
ghost use Rattle.std.specs.Fn.{FnOnceReturnsAtMut};
ghost use Rattle.std.specs.Option.{option_copied, option_map_or};
ghost use Rattle.p3_challenger.specs.States.{NextIs, IsStep, played};
ghost use Rattle.batch_transcript.specs.BatchScript.{seeded, pattern, from_main, from_preprocessed, from_lookup, from_permutation, from_quotient, from_ood, from_opening, is_positive};
ghost use Rattle.batch_transcript.specs.BatchScript.{bindings_script, main_script, preprocessed_script, permutation_script, quotient_script};
ghost use Rattle.batch_transcript.specs.Running.{Plays, lists};

use crate::challenger::BatchChallenger;
use crate::shape::BatchShape;
use p3_challenger::{CanObserve, CanSample, GrindingChallenger, InteractionKind, TypedState};
use p3_field::{ExtensionField, Mem, PrimeCore64, PrimeField64};
use std::alloc::Global;
use std::marker::{Model, PhantomData};

/// A batch's transcript, of the side `Proving` or `Verifying` of `p3_challenger`; it owns the challenger. Contracts see a `Running`, which is
/// the same for both sides. The sides differ in `lookup_phase` and `ood_phase`, where one grinds and the other tests.
pub struct BatchTranscript<C, F, EF, Com, Side> {
    pub(crate) state: TypedState<C, Side>,
    pub(crate) shape: BatchShape,
    types: PhantomData<(F, EF, Com)>,
}

/// Plays a message where there is a value.
fn message_if_present<Com, C: CanObserve<Com>, Side>(
    state: &mut TypedState<C, Side>,
    value: Option<&Com>,
)
    requires { IsTrue (is_some value)
        → NextIs (IsStep InteractionKind.Message) state.old.remaining }
    ensures { state.new ≡ option_map_or (λ m. played state.old (C.observed state.old.state m))
        (option_copied value.entry) state.old }
{
    if let Some(value) = value {
        state.message(value);
    }
}

impl<C, F, EF, Com, Side> Model for BatchTranscript<C, F, EF, Com, Side> {
    ghost use Rattle.batch_transcript.specs.Running.{Running};

    ghost Value = { Running C };

    ghost view = { λ t. record {
      state = t.state.state;
      remaining = t.state.remaining;
      shape = t.shape;
    } };
}

impl<
    F: PrimeField64,
    EF: ExtensionField<F>,
    Com,
    C: GrindingChallenger<Witness = F>
        + CanObserve<EF>
        + CanObserve<Com>
        + CanSample<F>
        + CanSample<EF>,
    Side,
> BatchTranscript<C, F, EF, Com, Side> {
    /// A transcript before its first step: the challenger observes the separator of the shape. Where memory runs out the challenger
    /// is dropped.
    #[tactic(auto, unfolding(crate::specs::BatchScript::seeded, crate::specs::BatchScript::separator))]
    pub fn new(alloc: Global, challenger: C, shape: BatchShape) -> Mem<Self>
    where
        C: Drop,
        ensures { IfOk result (λ t. t ≡ record {
          state = seeded (⟦<C as BatchChallenger<F, EF, Com>>⟧.functions) F.ring EF.DIMENSION shape
              challenger;
          remaining = pattern EF.DIMENSION shape;
          shape = shape;
        }) }
    {
        let separator = shape.domain_separator::<F, EF>(alloc)?;
        let state = TypedState::new::<F>(alloc, challenger, &separator)?;
        Ok(BatchTranscript {
            state,
            shape,
            types: PhantomData,
        })
    }

    /// Binds the logarithm of each instance's extended height.
    #[tactic(auto, unfolding(crate::specs::BatchScript::pattern, crate::specs::BatchScript::bindings_script, p3_challenger::specs::Script::play))]
    pub fn instance_bindings(&mut self, degree_bits: &[usize])
        requires turn { self.old.remaining ≡ pattern EF.DIMENSION self.old.shape }
        requires count { length degree_bits.now ≡ length self.old.shape.trace_widths }
        ensures plays { Plays (⟦<C as BatchChallenger<F, EF, Com>>⟧.functions)
            (bindings_script EF.ring EF.DIMENSION degree_bits.now) self.old self.new [] }
        ensures turn { self.new.remaining ≡ from_main EF.DIMENSION self.new.shape }
    {
        for bits in degree_bits {
            self.state.message(&EF::from_u64(*bits as u64));
        }
    }

    /// Binds the commitment to the traces, then each instance's public values.
    #[tactic(auto, unfolding(crate::specs::BatchScript::from_main, crate::specs::BatchScript::main_script, p3_challenger::specs::Script::play))]
    pub fn main_phase(&mut self, main_commitment: &Com, public_values: &[Vec<F>])
        requires turn { self.old.remaining ≡ from_main EF.DIMENSION self.old.shape }
        requires count { map length (lists public_values.now) ≡ self.old.shape.public_value_counts }
        ensures plays { Plays (⟦<C as BatchChallenger<F, EF, Com>>⟧.functions)
            (main_script main_commitment.now (lists public_values.now)) self.old self.new [] }
        ensures turn { self.new.remaining ≡ from_preprocessed EF.DIMENSION self.new.shape }
    {
        self.state.message(main_commitment);
        for values in public_values {
            self.state.public(values);
        }
    }

    /// Binds the commitment to the preprocessed columns, where there is one.
    #[tactic(auto, unfolding(crate::specs::BatchScript::from_preprocessed, crate::specs::BatchScript::preprocessed_script, p3_challenger::specs::Script::play))]
    pub fn preprocessed_phase(&mut self, commitment: Option<&Com>)
        requires turn { self.old.remaining ≡ from_preprocessed EF.DIMENSION self.old.shape }
        requires count { is_some commitment ≡ self.old.shape.has_preprocessed_commitment }
        ensures plays { Plays (⟦<C as BatchChallenger<F, EF, Com>>⟧.functions)
            (preprocessed_script (option_copied commitment.entry)) self.old self.new [] }
        ensures turn { self.new.remaining ≡ from_lookup EF.DIMENSION self.new.shape }
    {
        if let Some(commitment) = commitment {
            self.state.message(commitment);
        }
    }

    /// Binds the commitment to the permutation columns and the terminals, where instances have lookups, and draws alpha.
    #[tactic(auto, unfolding(crate::specs::BatchScript::from_permutation, p3_challenger::specs::Script::play))]
    pub fn permutation_phase(&mut self, commitment: Option<&Com>, terminals: &[EF]) -> EF
        requires turn { self.old.remaining ≡ from_permutation EF.DIMENSION self.old.shape }
        requires present { is_some commitment ≡ is_positive self.old.shape.num_lookup_instances }
        requires count { length terminals.now ≡ self.old.shape.num_lookup_instances }
        ensures plays { Plays (⟦<C as BatchChallenger<F, EF, Com>>⟧.functions)
            (permutation_script EF.DIMENSION (option_copied commitment.entry) terminals.now)
            self.old self.new (result ∷ []) }
        ensures turn { self.new.remaining ≡ from_quotient EF.DIMENSION self.new.shape }
    {
        message_if_present(&mut self.state, commitment);
        for terminal in terminals {
            self.state.message(terminal);
        }
        self.state.challenge()
    }

    /// Binds the commitment to the quotients, then the randomization's, where there is one.
    #[tactic(auto, unfolding(crate::specs::BatchScript::from_quotient, crate::specs::BatchScript::quotient_script, p3_challenger::specs::Script::play))]
    pub fn quotient_phase(&mut self, quotient: &Com, randomization: Option<&Com>)
        requires turn { self.old.remaining ≡ from_quotient EF.DIMENSION self.old.shape }
        requires count { is_some randomization ≡ self.old.shape.has_randomization_commitment }
        ensures plays { Plays (⟦<C as BatchChallenger<F, EF, Com>>⟧.functions)
            (quotient_script quotient.now (option_copied randomization.entry)) self.old self.new
            [] }
        ensures turn { self.new.remaining ≡ from_ood EF.DIMENSION self.new.shape }
    {
        self.state.message(quotient);
        if let Some(randomization) = randomization {
            self.state.message(randomization);
        }
    }

    /// Lends the challenger to the opening argument, within its bracket, which observes nothing.
    #[tactic(auto, unfolding(crate::specs::BatchScript::from_opening))]
    pub fn delegate<R, G: FnOnce(&mut C) -> R>(&mut self, run: G) -> R
        requires turn { self.old.remaining ≡ from_opening EF.DIMENSION self.old.shape }
        requires callable { G.IsAlwaysCallable run }
        ensures run { FnOnceReturnsAtMut G.FnOnce run self.old.state result self.new.state }
        ensures turn { self.new.remaining ≡ [] }
        ensures shape { self.new.shape ≡ self.old.shape }
    {
        self.state.bracket();
        let output = self.state.delegate(run);
        self.state.bracket();
        output
    }

    /// Hands the challenger back, once every step is played.
    pub fn finish(self) -> C
        requires { self.remaining ≡ [] }
        ensures { result ≡ self.state }
    {
        let BatchTranscript {
            state,
            shape: _,
            types: _,
        } = self;
        state.finalize()
    }

    /// Hands the challenger back, before the end.
    pub fn abort(self) -> C
        ensures { result ≡ self.state }
    {
        let BatchTranscript {
            state,
            shape: _,
            types: _,
        } = self;
        state.abort()
    }
}
