//! What both typed states share: the steps that are still to be played.

ghost use Rattle.std.specs.Prelude.{◌≡◌, IfOk};
ghost use Rattle.p3_challenger.specs.States.{next_bits};

use crate::script::Interaction;
use p3_field::Mem;
use std::alloc::Global;
use std::collections::VecDeque;

/// The number of the next step's length, for a grinding its bits; 0 where no step is left.
pub(crate) fn next_number(remaining: &VecDeque<Interaction>) -> usize
    ensures { result ≡ next_bits remaining.now.items }
{
    match remaining.front() {
        Some(step) => step.length.amount(),
        None => 0,
    }
}

/// Equal steps, in order.
pub(crate) fn copied_steps(alloc: Global, steps: &[Interaction]) -> Mem<VecDeque<Interaction>>
    ensures { IfOk result (λ q. q.items ≡ steps.now) }
{
    let mut copies = VecDeque::new(alloc);
    for step in steps {
        copies.push_back(step.try_clone(alloc)?)?;
    }
    Ok(copies)
}
