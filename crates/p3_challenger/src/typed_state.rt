//! What the typed states of both sides are.

ghost use Rattle.std.specs.Prelude.{◌≡◌, [], map, IfOk, length};
ghost use Rattle.std.specs.List.{fold};
ghost use Rattle.std.specs.Fn.{FnOnceReturnsAtMut};
ghost use Rattle.p3_field.specs.Ring.{of_nat};
ghost use Rattle.p3_challenger.specs.Separator.{encoding};
ghost use Rattle.p3_challenger.specs.States.{NextIs, IsStep, IsStepOf, IsBracket, played};

use crate::script::{Interaction, InteractionKind, Length};
use crate::separator::DomainSeparator;
use crate::states::copied_steps;
use crate::{CanObserve, CanSample, observe_bytes};
use p3_field::{Field, Mem};
use std::alloc::Global;
use std::collections::VecDeque;
use std::marker::{Model, PhantomData};

/// The prover's side: its state is a `ProverState`.
pub struct Proving;

/// The verifier's side: its state is a `VerifierState`.
pub struct Verifying;

/// A challenger with the steps that it has still to play, of the side `Proving` or `Verifying`. Contracts see a `Playing`, which is the same for
/// both sides. The sides differ in `pow` alone.
///
/// Each call but `delegate` plays one step: its condition is that the next step is of its kind, and after it that step is played. The kind of a
/// step's value is not tested. A state is spent by `finalize` or `abort` alone, which hand the challenger back as it stands. No call but `new`
/// takes memory.
pub struct TypedState<C, Side> {
    pub(crate) challenger: C,
    pub(crate) remaining: VecDeque<Interaction>,
    side: PhantomData<Side>,
}

impl<C, Side> Model for TypedState<C, Side> {
    ghost use Rattle.p3_challenger.specs.States.{Playing};

    ghost Value = { Playing C };

    ghost view = { λ s. record { state = s.challenger; remaining = s.remaining.items } };
}

impl<C, Side> TypedState<C, Side> {
    /// A state before the first step. The challenger observes each byte of the separator's encoding as one field element, by `from_u64`.
    /// Where memory runs out the challenger is dropped.
    pub fn new<F: Field>(alloc: Global, challenger: C, separator: &DomainSeparator) -> Mem<Self>
    where
        C: CanObserve<F> + Drop,
        ensures { IfOk result (λ s.
            s ≡ record {
              state = fold C.observed challenger
                  (map (of_nat F.ring) (encoding separator.now));
              remaining = separator.now.steps;
            }) }
    {
        let mut challenger = challenger;
        let encoding = separator.encode(alloc)?;
        let remaining = copied_steps(alloc, separator.steps())?;
        observe_bytes::<F, C>(&mut challenger, &encoding);
        Ok(TypedState {
            challenger,
            remaining,
            side: PhantomData,
        })
    }

    /// Plays a Message step: observes the value.
    pub fn message<T>(&mut self, value: &T)
    where
        C: CanObserve<T>,
        requires { NextIs (IsStep InteractionKind.Message) self.old.remaining }
        ensures { self.new ≡ played self.old (C.observed self.old.state value.now) }
    {
        self.challenger.observe(value);
        let _ = self.remaining.pop_front();
    }

    /// Plays a Public step of this many values: observes them, the first one first.
    pub fn public<T>(&mut self, values: &[T])
    where
        C: CanObserve<T>,
        requires { NextIs (IsStepOf InteractionKind.Public (Length.Fixed (length values.now)))
            self.old.remaining }
        ensures { self.new ≡ played self.old (fold C.observed self.old.state values.now) }
    {
        self.challenger.observe_slice(values);
        let _ = self.remaining.pop_front();
    }

    /// Plays a Challenge step: draws a value.
    pub fn challenge<T>(&mut self) -> T
    where
        C: CanSample<T>,
        requires { NextIs (IsStep InteractionKind.Challenge) self.old.remaining }
        ensures answer { result ≡ C.drawn self.old.state }
        ensures state { self.new ≡ played self.old (C.after_draw self.old.state) }
    {
        let _ = self.remaining.pop_front();
        self.challenger.sample()
    }

    /// Plays a Begin or an End, which observes and draws nothing.
    pub fn bracket(&mut self)
        requires { NextIs IsBracket self.old.remaining }
        ensures { self.new ≡ played self.old self.old.state }
    {
        let _ = self.remaining.pop_front();
    }

    /// Lends the challenger, and plays no step: what `run` answers, and where it leaves the challenger, is its own matter.
    pub fn delegate<R, G: FnOnce(&mut C) -> R>(&mut self, run: G) -> R
        requires { G.IsAlwaysCallable run }
        ensures steps { self.new.remaining ≡ self.old.remaining }
        ensures run { FnOnceReturnsAtMut G.FnOnce run self.old.state result self.new.state }
    {
        run(&mut self.challenger)
    }

    /// Hands the challenger back, where every step is played.
    pub fn finalize(self) -> C
        requires { self.remaining ≡ [] }
        ensures { result ≡ self.state }
    {
        let TypedState {
            challenger,
            remaining: _,
            side: _,
        } = self;
        challenger
    }

    /// Hands the challenger back, whatever steps are left.
    pub fn abort(self) -> C
        ensures { result ≡ self.state }
    {
        let TypedState {
            challenger,
            remaining: _,
            side: _,
        } = self;
        challenger
    }
}
