//! The separator: the bytes that fix a transcript's protocol, pattern and instance before anything else is observed.

ghost use Rattle.std.specs.Prelude.{◌≡◌, ◌++◌, ◌∷◌, [], List, ℕ, OnErr, OnOk, IfOk, length, flat_map};
ghost use Rattle.p3_challenger.specs.Separator.{eight_bytes, length_prefixed, step_bytes, encoding};

use crate::script::{Interaction, InteractionPattern};
use p3_field::Mem;
use std::alloc::Global;
use std::marker::Model;

/// A version, a name, a pattern and an instance label, as Plonky3's `p3_challenger::fs::DomainSeparator`. Contracts see the record `Separator`.
/// The encoding is this project's own.
#[derive(Drop)]
pub struct DomainSeparator {
    version: u8,
    name: Vec<u8>,
    pattern: InteractionPattern,
    instance: Vec<u8>,
}

impl Model for DomainSeparator {
    ghost use Rattle.p3_challenger.specs.Separator.{Separator};

    ghost Value = { Separator };

    ghost view = { λ s. record {
      version = s.version;
      name = s.name.items;
      steps = s.pattern;
      instance = s.instance.items;
    } };
}

impl DomainSeparator {
    /// A separator of this version byte, name and pattern. Its instance label is empty.
    pub fn new(alloc: Global, version: u8, name: &[u8], pattern: InteractionPattern) -> Mem<Self>
        ensures { IfOk result (λ s.
            s ≡ record { version = version; name = name.now; steps = pattern; instance = [] }) }
    {
        Ok(DomainSeparator {
            version,
            name: name.to_vec(alloc)?,
            pattern,
            instance: Vec::new(alloc),
        })
    }

    /// Appends bytes to the instance label. Out of memory leaves the separator as it was.
    pub fn instance(&mut self, label: &[u8]) -> Mem<()>
        ensures appended { OnOk result
            (self.new ≡ record self.old { instance = self.old.instance ++ label.now }) }
        ensures unchanged { OnErr result (self.new ≡ self.old) }
    {
        self.instance.extend_from_slice(label)?;
        Ok(())
    }

    /// The steps of the pattern.
    pub fn steps(&self) -> &[Interaction]
        ensures { result.now ≡ self.now.steps }
    {
        self.pattern.steps()
    }

    /// The encoding: the version byte, the name after its length, the number of steps, each step, and the instance label after its length. A
    /// step is a byte each for its hierarchy, its kind and its value's kind, the value's dimension, the label after its length, a byte for
    /// the kind of its length, and the number of that length. Lengths, dimensions and numbers are 8 big-endian bytes.
    #[tactic(auto, unfolding(crate::specs::Separator::encoding))]
    pub fn encode(&self, alloc: Global) -> Mem<Vec<u8>>
        ensures { IfOk result (λ v. v.items ≡ encoding self.now) }
    {
        let mut out = Vec::new(alloc);
        out.push(self.version)?;
        push_counted(&mut out, &self.name)?;
        let steps = self.pattern.steps();
        push_eight_bytes(&mut out, steps.len())?;
        push_steps(&mut out, steps)?;
        push_counted(&mut out, &self.instance)?;
        Ok(out)
    }
}

/// Appends a number as 8 big-endian bytes (not in Plonky3): the form of each number in an encoding and in an
/// instance label. Out of memory leaves `out` as it was.
#[tactic(auto, unfolding(crate::specs::Separator::eight_bytes))]
pub fn push_eight_bytes(out: &mut Vec<u8>, number: usize) -> Mem<()>
    ensures appended { OnOk result (out.new.items ≡ out.old.items ++ eight_bytes number) }
    ensures unchanged { OnErr result (out.new.items ≡ out.old.items) }
{
    out.extend_from_slice(&number.to_be_bytes())
}

/// Appends a text after its length.
#[tactic(auto, unfolding(crate::specs::Separator::length_prefixed))]
fn push_counted(out: &mut Vec<u8>, bytes: &[u8]) -> Mem<()>
    ensures { OnOk result (out.new.items ≡ out.old.items ++ length_prefixed bytes.now) }
{
    push_eight_bytes(out, bytes.len())?;
    out.extend_from_slice(bytes)?;
    Ok(())
}

/// Appends a step's encoding.
#[tactic(auto, unfolding(crate::specs::Separator::step_bytes))]
fn push_step(out: &mut Vec<u8>, step: &Interaction) -> Mem<()>
    ensures { OnOk result (out.new.items ≡ out.old.items ++ step_bytes step.now) }
{
    let head = [step.hierarchy.byte(), step.kind.byte(), step.value.byte()];
    out.extend_from_slice(&head)?;
    push_eight_bytes(out, step.value.dimension())?;
    push_counted(out, step.label.as_bytes())?;
    out.push(step.length.byte())?;
    push_eight_bytes(out, step.length.amount())?;
    Ok(())
}

/// Appends the encodings of steps, in order.
fn push_steps(out: &mut Vec<u8>, steps: &[Interaction]) -> Mem<()>
    ensures { OnOk result (out.new.items ≡ out.old.items ++ flat_map step_bytes steps.now) }
{
    for step in steps {
        push_step(out, step)?;
    }
    Ok(())
}
