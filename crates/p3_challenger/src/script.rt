//! Typed steps of a transcript, and the patterns that they make. The kinds are those of Plonky3's `p3_challenger::fs`. Their bytes are this
//! project's own; `specs/Separator.antt` has them.

ghost use Rattle.std.specs.Prelude.{◌≡◌, List, ℕ, [], IfOk, MatchResult};
ghost use Rattle.p3_challenger.specs.Separator.{hierarchy_byte, kind_byte, value_byte, length_byte};
ghost use Rattle.p3_challenger.specs.Script.{elements, amount, AreMatched};

use p3_field::Mem;
use std::alloc::Global;
use std::marker::Model;

/// Where a step stands: by itself, or at an end of a bracket, as Plonky3's `p3_challenger::fs::Hierarchy`.
#[derive(Clone, Copy, Debug, PartialEq, Eq)]
pub enum Hierarchy {
    /// A step by itself.
    Atomic,
    /// The step that opens a bracket.
    Begin,
    /// The step that closes a bracket.
    End,
}

/// What a step does, as Plonky3's `p3_challenger::fs::Kind`.
#[derive(Clone, Copy, Debug, PartialEq, Eq)]
pub enum InteractionKind {
    /// The prover sends a value, which is observed.
    Message,
    /// A public value is observed.
    Public,
    /// A value is drawn.
    Challenge,
    /// A grinding value is observed and tested.
    Pow,
    /// The bracket of an inner protocol.
    Protocol,
}

/// What a step's value is. In Plonky3's `p3_challenger::fs` the constructors `marker`, `opaque` and `algebra` of `Interaction` tell it by a type
/// parameter. No call tests it.
#[derive(Clone, Copy, Debug, PartialEq, Eq)]
pub enum StepValue {
    /// No value.
    Marker,
    /// A value whose elements another rule tells, as a commitment's.
    Opaque,
    /// Elements of a field of this dimension over the base field.
    Algebra(usize),
}

/// How many values a step has, as Plonky3's `p3_challenger::fs::Length`.
#[derive(Clone, Copy, Debug, PartialEq, Eq)]
pub enum Length {
    /// None.
    None,
    /// One.
    Scalar,
    /// This many values, or for a grinding this many bits.
    Fixed(usize),
}

/// The name of a step, as an owned text. Contracts see its bytes.
#[derive(Drop)]
pub struct Label {
    text: String,
}

impl Model for Label {
    ghost use Rattle.std.specs.Prelude.{List, ℕ, string_bytes};

    ghost Value = { List ℕ };

    ghost view = { λ l. string_bytes l.text };
}

impl Label {
    /// A label of this text.
    pub fn new(alloc: Global, text: &str) -> Mem<Self>
        ensures { IfOk result (λ l. l ≡ text.now) }
    {
        Ok(Label {
            text: text.to_string(alloc)?,
        })
    }

    /// An equal label.
    pub fn try_clone(&self, alloc: Global) -> Mem<Self>
        ensures { IfOk result (λ l. l ≡ self.now) }
    {
        Label::new(alloc, &self.text)
    }

    /// The text's bytes.
    pub fn as_bytes(&self) -> &[u8]
        ensures { result.now ≡ self.now }
    {
        self.text.as_bytes()
    }
}

/// One typed step of a transcript, as Plonky3's `p3_challenger::fs::Interaction`. Contracts see the same fields, with the label as its bytes.
#[derive(Drop)]
pub struct Interaction {
    /// Where the step stands.
    pub hierarchy: Hierarchy,
    /// What it does.
    pub kind: InteractionKind,
    /// What its value is.
    pub value: StepValue,
    /// Its name.
    pub label: Label,
    /// How many values it has.
    pub length: Length,
}

impl StepValue {
    /// The byte of the kind of value.
    pub(crate) fn byte(self) -> u8
        ensures { result ≡ value_byte self }
    {
        match self {
            StepValue::Marker => 0,
            StepValue::Opaque => 1,
            StepValue::Algebra(_) => 2,
        }
    }

    /// The dimension over the base field, zero where there is none.
    pub(crate) fn dimension(self) -> usize
        ensures { result ≡ elements self }
    {
        match self {
            StepValue::Marker | StepValue::Opaque => 0,
            StepValue::Algebra(dimension) => dimension,
        }
    }
}

impl Length {
    /// The byte of the kind of length.
    pub(crate) fn byte(self) -> u8
        ensures { result ≡ length_byte self }
    {
        match self {
            Length::None => 0,
            Length::Scalar => 1,
            Length::Fixed(_) => 2,
        }
    }

    /// The number of values.
    pub(crate) fn amount(self) -> usize
        ensures { result ≡ amount self }
    {
        match self {
            Length::None => 0,
            Length::Scalar => 1,
            Length::Fixed(count) => count,
        }
    }
}

impl Hierarchy {
    /// The byte of the place.
    pub(crate) fn byte(self) -> u8
        ensures { result ≡ hierarchy_byte self }
    {
        self as u8
    }
}

impl InteractionKind {
    /// The byte of the kind.
    pub(crate) fn byte(self) -> u8
        ensures { result ≡ kind_byte self }
    {
        self as u8
    }
}

impl Interaction {
    /// An equal step.
    pub fn try_clone(&self, alloc: Global) -> Mem<Self>
        ensures { IfOk result (λ s. s ≡ self.now) }
    {
        Ok(Interaction {
            hierarchy: self.hierarchy,
            kind: self.kind,
            value: self.value,
            label: self.label.try_clone(alloc)?,
            length: self.length,
        })
    }
}

/// The steps of a protocol in order, as Plonky3's `p3_challenger::fs::InteractionPattern`. Contracts see the list of steps.
///
/// Brackets match: each End closes the bracket that was opened last, under its label, and none stays open (`AreMatched`).
#[derive(Drop)]
pub struct InteractionPattern {
    steps: Vec<Interaction>,
}

impl Model for InteractionPattern {
    ghost use Rattle.std.specs.Prelude.{List};
    ghost use Rattle.p3_challenger.specs.declared.script.Interaction.{Interaction};

    ghost Value = { List Interaction };

    ghost view = { λ p. p.steps.items };
}

impl InteractionPattern {
    /// A pattern of these steps, whose brackets match. Nothing is allocated, and the answer is always Ok.
    pub fn new(alloc: Global, steps: Vec<Interaction>) -> Mem<Self>
        requires { AreMatched [] steps.items }
        ensures { MatchResult result (λ p. p ≡ steps.items) (λ _. ⊥) }
    {
        let _ = alloc;
        Ok(InteractionPattern { steps })
    }

    /// The steps.
    pub fn steps(&self) -> &[Interaction]
        ensures { result.now ≡ self.now }
    {
        &self.steps
    }
}
