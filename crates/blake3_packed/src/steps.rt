//! The steps of G in 64 lanes, and their cells.
ghost use Rattle.std.specs.Prelude.{◌≡◌, ℕ, ◌+◌, ◌*◌, ◌%◌, ◌<◌, IfOk};
ghost use Rattle.air_core.specs.Joined.{joined};
ghost use Rattle.blake3_compress.specs.Compress.{Input, State, Quarter, half_quarter_round, words_taken};
ghost use Rattle.blake3_compress.specs.TraceRow.{half_round};
ghost use Rattle.blake3_binary.specs.Row.{quarter_cells};
ghost use Rattle.blake3_binary.specs.Trees.{laid};
ghost use Rattle.blake3_packed.specs.Lanes.{PushedLanes, ArePlanes, AreWordPlanes};
ghost use Rattle.blake3_packed.specs.States.{AreQuarter, HasStates, made_twice, step_cells, lane_first, lane_half};

use crate::planes::{add_planes, add_two_planes, turned_planes};
use crate::pushing::{push_carries, push_planes};
use crate::state::{StatePlanes, StepPlanes};
use blake3_compress::scheduled_word;
use p3_field::Mem;

// Pushes the cells of half a step, which turns d by s and b by t, and leaves the words after it.
#[inline(always)]
fn push_half(
    values: &mut Vec<u64>,
    s: usize,
    t: usize,
    taken: &mut StepPlanes,
    message: &[u64; 32],
) -> Mem<()>
    requires d_turns { s < 32 }
    requires b_turns { t < 32 }
    ensures { (q : ℕ → Quarter) (m : ℕ → ℕ) → AreQuarter taken.old q → ArePlanes message.now m
        → IfOk result (λ _. PushedLanes values.old.items values.new.items 95
        (λ j. quarter_cells (q j) (half_quarter_round s t (q j) (m j)))
        × AreQuarter taken.new (λ j. half_quarter_round s t (q j) (m j))) }
{
    let carries = add_two_planes(&mut taken.a, &taken.b, message);
    push_carries(values, &carries)?;
    taken.d = turned_planes(&taken.d, &taken.a, s);
    push_planes(values, &taken.d)?;
    add_planes(&mut taken.c, &taken.d);
    taken.b = turned_planes(&taken.b, &taken.c, t);
    push_planes(values, &taken.b)?;
    Ok(())
}

// Pushes the cells of step g of the p-th four steps, and leaves the words after it.
fn push_step(
    values: &mut Vec<u64>,
    p: usize,
    g: usize,
    words: &[[u64; 32]; 28],
    taken: &mut StepPlanes,
) -> Mem<()>
    requires turns { p < 14 }
    requires steps { g < 4 }
    ensures { (x : ℕ → Input) (q : ℕ → Quarter) → AreWordPlanes 28 words.now x
        → AreQuarter taken.old q
        → IfOk result (λ _. PushedLanes values.old.items values.new.items 190
        (λ j. step_cells (x j) p g (q j))
        × AreQuarter taken.new (λ j. made_twice (x j) p g (q j))) }
{
    let place = 8 * (p % 2) + 2 * g;
    let first = scheduled_word(p / 2, place);
    let second = scheduled_word(p / 2, place + 1);
    push_half(values, 16, 12, taken, &words[first])?;
    push_half(values, 8, 7, taken, &words[second])?;
    Ok(())
}

// Pushes the cells of the p-th four steps, and leaves the states after them.
fn push_four(
    values: &mut Vec<u64>,
    p: usize,
    words: &[[u64; 32]; 28],
    state: &mut StatePlanes,
) -> Mem<()>
    requires turns { p < 14 }
    ensures { (x : ℕ → Input) (v : ℕ → State) → AreWordPlanes 28 words.now x → HasStates state.old v
        → IfOk result (λ _. PushedLanes values.old.items values.new.items 760
        (λ j. joined 4 (λ g. step_cells (x j) p g (words_taken (p % 2) (v j) g)))
        × HasStates state.new
        (λ j. half_round (x j) (2 * p + 1) (half_round (x j) (2 * p) (v j)))) }
{
    let turn = p % 2;
    for g in 0..4 {
        let mut taken = StepPlanes {
            a: state.row0[g % 4],
            b: state.row1[(g + turn) % 4],
            c: state.row2[(g + turn * 2) % 4],
            d: state.row3[(g + turn * 3) % 4],
        };
        push_step(values, p, g, words, &mut taken)?;
        state.row0[g % 4] = taken.a;
        state.row1[(g + turn) % 4] = taken.b;
        state.row2[(g + turn * 2) % 4] = taken.c;
        state.row3[(g + turn * 3) % 4] = taken.d;
    }
    Ok(())
}

/// Pushes the cells of the 56 steps from the first states on.
pub fn push_steps(values: &mut Vec<u64>, words: &[[u64; 32]; 28], first: StatePlanes) -> Mem<()>
    ensures { (x : ℕ → Input) (present : ℕ → ℕ) → AreWordPlanes 28 words.now x
        → HasStates first (λ j. lane_first (x j) (present j))
        → IfOk result (λ _. PushedLanes values.old.items values.new.items 10640
        (λ j. laid (lane_half (x j) (present j)))) }
{
    let mut state = first;
    for p in 0..14 {
        push_four(values, p, words, &mut state)?;
    }
    Ok(())
}
