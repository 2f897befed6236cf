//! A row of the AIR over prime fields: its cells, its output, and the check of it with a cell changed.
ghost use Rattle.std.specs.Prelude.{◌≡◌, length};

use crate::prime::checked;
use crate::reading::{number, parts, push_shorts, push_word};
use air_check::CheckFailure;
use blake3_prime::{Blake3Cols, Blake3State, FullRound, NUM_BLAKE3_COLS};
use p3_field::{BabyBear, FieldCore, Mem, PrimeCore64, RingCore};
use p3_matrix::RowMajorMatrix;
use std::alloc::Global;

/// The answer to a call on a row.
pub fn row_answer(alloc: Global, row: &[BabyBear], call: &[&str]) -> Mem<String>
    requires { length row.now ≡ 9168 }
{
    match *call {
        ["whole"] => {
            let all = fingerprint(row).as_canonical_u64();
            format!(in alloc; "{} {all}", row.len())
        }
        ["output", count] => output_shown(alloc, row, number(count)),
        ["cells", ref names @ ..] => cells_shown(alloc, row, names),
        ["round", round, state, line, word, place] => {
            let at = [number(word), number(place)];
            let cell = round_cell(row, number(round), [state, line], at);
            format!(in alloc; "{cell:?}")
        }
        ["changed", ref places @ ..] => refused_places(alloc, row, places),
        _ => String::from_str(alloc, "bad case"),
    }
}

/// A number in base 31 with one digit more.
fn with_digit(sum: BabyBear, digit: BabyBear) -> BabyBear {
    let shifted = sum * BabyBear::from_u64(31);
    shifted + digit
}

/// All cells in one number, as the digits of a number in base 31.
pub fn fingerprint(row: &[BabyBear]) -> BabyBear {
    let mut sum = BabyBear::ZERO;
    for cell in row {
        sum = with_digit(sum, *cell);
    }
    sum
}

/// The first words of the output, as many as `count`.
pub fn output_shown(alloc: Global, row: &[BabyBear], count: usize) -> Mem<String>
    requires { length row.now ≡ 9168 }
{
    let words = Blake3Cols::new(row).output_words();
    let mut out = String::new(alloc);
    push_shorts(&mut out, &words[..count.min(16)])?;
    Ok(out)
}

/// A cell's number by its column's name and its place there.
fn cell(cells: &Blake3Cols<BabyBear>, name: &str, at: [usize; 3]) -> Option<u64> {
    let [i, j, k] = at;
    let cell = match name {
        "inputs" if i < 16 && j < 32 => cells.inputs(i, j),
        "chaining_values" if i < 2 && j < 4 && k < 32 => cells.chaining_values(i, j, k),
        "counter_low" if i < 32 => cells.counter_low(i),
        "counter_hi" if i < 32 => cells.counter_hi(i),
        "block_len" if i < 32 => cells.block_len(i),
        "flags" if i < 32 => cells.flags(i),
        "initial_row0" if i < 4 && j < 2 => cells.initial_row0(i, j),
        "initial_row2" if i < 4 && j < 2 => cells.initial_row2(i, j),
        "final_round_helpers" if i < 4 && j < 32 => cells.final_round_helpers(i, j),
        "outputs" if i < 4 && j < 4 && k < 32 => cells.outputs(i, j, k),
        _ => return None,
    };
    Some(cell.as_canonical_u64())
}

/// The cells of these names.
fn cells_shown(alloc: Global, row: &[BabyBear], names: &[&str]) -> Mem<String>
    requires { length row.now ≡ 9168 }
{
    let cells = Blake3Cols::new(row);
    let mut out = String::new(alloc);
    for name in names {
        let (name, at) = parts(name);
        push_word(&mut out, format_args!("{:?}", cell(&cells, name, at)))?;
    }
    Ok(out)
}

/// A round's state by its name: that after the diagonal steps for all other names.
fn state_of<'a>(round: &FullRound<'a, BabyBear>, name: &str) -> Blake3State<'a, BabyBear> {
    match name {
        "state_prime" => round.state_prime(),
        "state_middle" => round.state_middle(),
        "state_middle_prime" => round.state_middle_prime(),
        _ => round.state_output(),
    }
}

/// A state's cell by its row's name, the word and its limb or bit.
fn state_cell(state: &Blake3State<BabyBear>, line: &str, at: [usize; 2]) -> Option<u64> {
    let [word, place] = at;
    if word >= 4 {
        return None;
    }
    let cell = match line {
        "row0" if place < 2 => state.row0(word, place),
        "row1" if place < 32 => state.row1(word, place),
        "row2" if place < 2 => state.row2(word, place),
        "row3" if place < 32 => state.row3(word, place),
        _ => return None,
    };
    Some(cell.as_canonical_u64())
}

/// A round's cell by the names of the state and of its row, the word and its limb or bit.
fn round_cell(row: &[BabyBear], round: usize, names: [&str; 2], at: [usize; 2]) -> Option<u64>
    requires { length row.now ≡ 9168 }
{
    if round >= 7 {
        return None;
    }
    let [name, line] = names;
    let round = Blake3Cols::new(row).full_rounds(round);
    state_cell(&state_of(&round, name), line, at)
}

/// Whether the row is refused once the cell at this place is one more.
fn is_refused_at(alloc: Global, row: &[BabyBear], place: usize) -> Mem<bool>
    requires { length row.now ≡ 9168 }
{
    let mut cells = Vec::from_slice(alloc, row)?;
    if place >= NUM_BLAKE3_COLS {
        return Ok(false);
    }
    cells[place] = cells[place] + BabyBear::ONE;
    let changed = RowMajorMatrix::new(cells, NUM_BLAKE3_COLS);
    Ok(matches!(checked(alloc, &changed), Err(CheckFailure::Failing { .. })))
}

/// The places of these at which the row is refused, once the cell there is one more.
fn refused_places(alloc: Global, row: &[BabyBear], places: &[&str]) -> Mem<String>
    requires { length row.now ≡ 9168 }
{
    let mut out = String::new(alloc);
    for place in places {
        if is_refused_at(alloc, row, number(place))? {
            push_word(&mut out, *place)?;
        }
    }
    Ok(out)
}
