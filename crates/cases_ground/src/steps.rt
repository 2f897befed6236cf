//! A worked pattern.

ghost use Rattle.std.specs.Prelude.{◌≡◌, IfOk, OnOk, ◌++◌, ◌∷◌, []};
ghost use Rattle.cases_ground.specs.Worked.{worked_step, worked_steps};

use p3_challenger::{
    Hierarchy, Interaction, InteractionKind, InteractionPattern, Label, Length, StepValue,
};
use p3_field::Mem;
use std::alloc::Global;

/// Appends one step.
fn push_step(
    steps: &mut Vec<Interaction>,
    alloc: Global,
    hierarchy: Hierarchy,
    kind: InteractionKind,
    value: StepValue,
    label: &str,
    length: Length,
) -> Mem<()>
    ensures { OnOk result (steps.new.items ≡ steps.old.items
        ++ worked_step hierarchy kind value label.now length ∷ []) }
{
    steps.push(Interaction {
        hierarchy,
        kind,
        value,
        label: Label::new(alloc, label)?,
        length,
    })?;
    Ok(())
}

/// The pattern in which a value is sent, so many are public, a value is ground to so many bits, one is drawn, and a bracket opens and closes.
#[tactic(auto, unfolding(crate::specs::Worked::worked_steps))]
pub fn worked_pattern(alloc: Global, publics: usize, bits: usize) -> Mem<InteractionPattern>
    ensures { IfOk result (λ p. p ≡ worked_steps publics bits) }
{
    let atomic = Hierarchy::Atomic;
    let element = StepValue::Algebra(1);
    let known = Length::Fixed(publics);
    let work = Length::Fixed(bits);
    let mut steps = Vec::new(alloc);
    push_step(
        &mut steps,
        alloc,
        atomic,
        InteractionKind::Message,
        StepValue::Opaque,
        "sent",
        Length::Scalar,
    )?;
    push_step(
        &mut steps,
        alloc,
        atomic,
        InteractionKind::Public,
        element,
        "known",
        known,
    )?;
    push_step(
        &mut steps,
        alloc,
        atomic,
        InteractionKind::Pow,
        element,
        "work",
        work,
    )?;
    push_step(
        &mut steps,
        alloc,
        atomic,
        InteractionKind::Challenge,
        element,
        "drawn",
        Length::Scalar,
    )?;
    push_step(
        &mut steps,
        alloc,
        Hierarchy::Begin,
        InteractionKind::Protocol,
        StepValue::Marker,
        "inner",
        Length::None,
    )?;
    push_step(
        &mut steps,
        alloc,
        Hierarchy::End,
        InteractionKind::Protocol,
        StepValue::Marker,
        "inner",
        Length::None,
    )?;
    InteractionPattern::new(alloc, steps)
}
