//! A challenger that plays a script's steps and prints each.
ghost use Rattle.std.specs.Prelude.{◌≡◌, ◌++◌, ◌<◌, ◌^◌, ◌↔◌, IsTrue, [], IfOk, OnOk, map};
ghost use Rattle.std.specs.List.{fold};
ghost use Rattle.p3_challenger.specs.Grind.{PassesGrinding, checked_state};
ghost use Rattle.audit_script.specs.Steps.{spaced_numbers, step_head, test_word, with_challenge, with_line, with_test};

use itoa::Buffer;
use p3_challenger::{CanObserve, CanSample, CanSampleBits, GrindingChallenger};
use p3_field::{BasedVectorSpace, FieldCore, Mem, PrimeCore64};
use std::alloc::{AllocError, Global};
use std::marker::Model;

/// A challenger with what it drew and tested along a script, the number of the next step, and the lines of those before it. Contracts see a
/// `Printing`.
#[derive(Drop)]
pub(crate) struct Steps<C, EF> {
    pub(crate) challenger: C,
    pub(crate) challenges: Vec<EF>,
    pub(crate) passed: Vec<bool>,
    pub(crate) index: usize,
    pub(crate) text: Vec<u8>,
}

impl<C, EF> Model for Steps<C, EF> {
    ghost use Rattle.audit_script.specs.Steps.{Printing};

    ghost Value = { Printing C EF };

    ghost view = { λ s. record {
      state = s.challenger;
      challenges = s.challenges.items;
      passed = s.passed.items;
      index = s.index;
      text = s.text.items;
    } };
}

// Appends each value's number after a space, in decimal.
fn push_values<F: PrimeCore64>(out: &mut Vec<u8>, values: &[F]) -> Mem<()>
    ensures { OnOk result (out.new.items ≡ out.old.items
        ++ spaced_numbers (map F.canonical values.now)) }
{
    for value in values {
        let mut buffer = Buffer::new();
        out.push(b' ')?;
        out.extend_from_slice(buffer.format(value.as_canonical_u64()).as_bytes())?;
    }
    Ok(())
}

// The coefficients of a value.
#[tactic(auto, using(crate::specs::Laws::Steps::flat_single))]
fn coefficients_of<F: FieldCore, E: BasedVectorSpace<F>>(alloc: Global, value: E) -> Mem<Vec<F>>
    ensures { IfOk result (λ v. v.items ≡ E.coefficients value) }
{
    let mut one = Vec::new(alloc);
    one.push(value)?;
    let flat = E::flatten_to_base(alloc, &one)?;
    Ok(flat)
}

// Appends a step's number and its label.
fn push_head(out: &mut Vec<u8>, index: usize, label: &[u8]) -> Mem<()>
    ensures { OnOk result (out.new.items ≡ out.old.items ++ step_head index label.now) }
{
    let mut buffer = Buffer::new();
    out.extend_from_slice(b"step ")?;
    out.extend_from_slice(buffer.format(index as u64).as_bytes())?;
    out.push(b' ')?;
    out.extend_from_slice(label)
}

impl<C, EF> Steps<C, EF> {
    // A line, of which this is the rest after the label. The challenger stays as it is.
    fn line(&mut self, label: &[u8], rest: &[u8]) -> Mem<()>
        ensures { OnOk result (self.new ≡ with_line self.old label.now rest.now self.old.state) }
    {
        let Some(next) = self.index.checked_add(1) else {
            return Err(AllocError);
        };
        push_head(&mut self.text, self.index, label)?;
        self.text.extend_from_slice(rest)?;
        self.text.push(b'\n')?;
        self.index = next;
        Ok(())
    }

    /// Plays a message: observes the value.
    pub(crate) fn message<T>(&mut self, label: &[u8], value: &T) -> Mem<()>
    where
        C: CanObserve<T>,
        ensures { OnOk result (self.new
            ≡ with_line self.old label.now [] (C.observed self.old.state value.now)) }
    {
        self.challenger.observe(value);
        self.line(label, &[])
    }

    /// Plays a public step: observes the values, the first one first.
    pub(crate) fn public<T>(&mut self, label: &[u8], values: &[T]) -> Mem<()>
    where
        C: CanObserve<T>,
        ensures { OnOk result (self.new
            ≡ with_line self.old label.now [] (fold C.observed self.old.state values.now)) }
    {
        self.challenger.observe_slice(values);
        self.line(label, &[])
    }

    /// Plays a challenge: draws a value, and prints its coefficients.
    pub(crate) fn challenge<F: FieldCore + PrimeCore64>(
        &mut self,
        alloc: Global,
        label: &[u8],
    ) -> Mem<()>
    where
        EF: BasedVectorSpace<F>,
        C: CanSample<EF>,
        ensures { OnOk result (self.new
            ≡ with_challenge (λ x. map F.canonical (EF.coefficients x)) self.old label.now
            (C.drawn self.old.state) (C.after_draw self.old.state)) }
    {
        let value: EF = self.challenger.sample();
        let coefficients = coefficients_of::<F, EF>(alloc, value)?;
        let mut rest = Vec::new(alloc);
        push_values(&mut rest, &coefficients)?;
        self.line(label, &rest)?;
        self.challenges.push(value)?;
        Ok(())
    }

    /// Plays a grinding step of so many bits: tests the value, and prints whether it passes, which is the answer.
    pub(crate) fn pow(&mut self, label: &[u8], bits: usize, value: C::Witness) -> Mem<bool>
    where
        C: GrindingChallenger,
        requires { 2 ^ bits < C.Witness.ORDER_U64 }
        ensures state { IfOk result
            (λ b. self.new ≡ with_test self.old label.now b
            (checked_state C.observed C.after_bits self.old.state bits value)) }
        ensures answer { IfOk result
            (λ b. IsTrue b ↔ PassesGrinding C.observed C.bits_drawn self.old.state bits value) }
    {
        let passes = self.challenger.check_witness(bits, value);
        let rest: &[u8] = if passes { b" passes" } else { b" fails" };
        self.line(label, rest)?;
        self.passed.push(passes)?;
        Ok(passes)
    }

    /// Plays a bracket, which observes and draws nothing.
    pub(crate) fn bracket(&mut self, label: &[u8]) -> Mem<()>
        ensures { OnOk result (self.new ≡ with_line self.old label.now [] self.old.state) }
    {
        self.line(label, &[])
    }
}
