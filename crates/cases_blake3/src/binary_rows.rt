//! A row of the AIR over fields of characteristic two: its cells, its output, and the check of it with a cell changed.
ghost use Rattle.std.specs.Prelude.{◌≡◌, length};

use crate::binary::{air_of, checked};
use crate::reading::{number, parts, push_shorts, push_word};
use air_check::CheckFailure;
use blake3_binary::{Blake3BinaryAir, Blake3BinaryCols, Blake3BinaryGCols, NUM_BLAKE3_BINARY_COLS};
use p3_field::{FieldCore, Gf256, Mem, RingCore};
use p3_matrix::RowMajorMatrix;
use std::alloc::Global;

/// The answer to a call on a row.
pub fn row_answer(alloc: Global, row: &[Gf256], call: &[&str]) -> Mem<String>
    requires { length row.now ≡ 11536 }
{
    match *call {
        ["whole"] => format!(in alloc; "{} {}", row.len(), fingerprint(row)),
        ["output", count] => output_shown(alloc, row, number(count)),
        ["cells", ref names @ ..] => cells_shown(alloc, row, names),
        ["step", round, step, ref names @ ..] => {
            step_shown(alloc, row, [number(round), number(step)], names)
        }
        ["changed", form, ref places @ ..] => refused_places(alloc, &air_of(form), row, places),
        _ => String::from_str(alloc, "bad case"),
    }
}

/// All cells in one number below 65521, as the digits of a number in base 31.
pub fn fingerprint(row: &[Gf256]) -> u32 {
    let mut sum = 0u32;
    for cell in row {
        sum = (sum * 31 + cell.value as u32) % 65521;
    }
    sum
}

/// The first words of the output, as many as `count`.
pub fn output_shown(alloc: Global, row: &[Gf256], count: usize) -> Mem<String>
    requires { length row.now ≡ 11536 }
{
    let words = Blake3BinaryCols::new(row).compression_output();
    let mut out = String::new(alloc);
    push_shorts(&mut out, &words[..count.min(16)])?;
    Ok(out)
}

/// A cell's value by its column's name and its place there.
fn cell(cells: &Blake3BinaryCols<Gf256>, name: &str, at: [usize; 3]) -> Option<u8> {
    let [i, j, _] = at;
    let cell = match name {
        "chaining_value" if i < 8 && j < 32 => cells.chaining_value(i, j),
        "block" if i < 16 && j < 32 => cells.block(i, j),
        "counter_low" if i < 32 => cells.counter_low(i),
        "counter_high" if i < 32 => cells.counter_high(i),
        "block_len" if i < 32 => cells.block_len(i),
        "flags" if i < 32 => cells.flags(i),
        _ => return None,
    };
    Some(cell.value)
}

/// The cells of these names.
fn cells_shown(alloc: Global, row: &[Gf256], names: &[&str]) -> Mem<String>
    requires { length row.now ≡ 11536 }
{
    let cells = Blake3BinaryCols::new(row);
    let mut out = String::new(alloc);
    for name in names {
        let (name, at) = parts(name);
        push_word(&mut out, format_args!("{:?}", cell(&cells, name, at)))?;
    }
    Ok(out)
}

/// A step's cell by its column's name and its place there.
fn step_cell(cells: &Blake3BinaryGCols<Gf256>, name: &str, bit: usize) -> Option<u8> {
    let cell = match name {
        "add1_carries" if bit < 31 => cells.add1_carries(bit),
        "d1" if bit < 32 => cells.d1(bit),
        "b1" if bit < 32 => cells.b1(bit),
        "add2_carries" if bit < 31 => cells.add2_carries(bit),
        "d2" if bit < 32 => cells.d2(bit),
        "b2" if bit < 32 => cells.b2(bit),
        _ => return None,
    };
    Some(cell.value)
}

/// The cells of these names of a step of a round.
fn step_shown(alloc: Global, row: &[Gf256], place: [usize; 2], names: &[&str]) -> Mem<String>
    requires { length row.now ≡ 11536 }
{
    let [round, step] = place;
    if round >= 7 || step >= 8 {
        return String::from_str(alloc, "not called");
    }
    let cells = Blake3BinaryCols::new(row).rounds(round, step);
    let mut out = String::new(alloc);
    for name in names {
        let (name, [bit, _, _]) = parts(name);
        push_word(&mut out, format_args!("{:?}", step_cell(&cells, name, bit)))?;
    }
    Ok(out)
}

/// Whether a form refuses the row once the cell at this place is one more.
fn is_refused_at(alloc: Global, air: &Blake3BinaryAir, row: &[Gf256], place: usize) -> Mem<bool>
    requires { length row.now ≡ 11536 }
{
    let mut cells = Vec::from_slice(alloc, row)?;
    if place >= NUM_BLAKE3_BINARY_COLS {
        return Ok(false);
    }
    cells[place] = cells[place] + Gf256::ONE;
    let changed = RowMajorMatrix::new(cells, NUM_BLAKE3_BINARY_COLS);
    Ok(matches!(
        checked(alloc, air, &changed),
        Err(CheckFailure::Failing { .. })
    ))
}

/// The places of these at which a form refuses the row, once the cell there is one more.
fn refused_places(
    alloc: Global,
    air: &Blake3BinaryAir,
    row: &[Gf256],
    places: &[&str],
) -> Mem<String>
    requires { length row.now ≡ 11536 }
{
    let mut out = String::new(alloc);
    for place in places {
        if is_refused_at(alloc, air, row, number(place))? {
            push_word(&mut out, *place)?;
        }
    }
    Ok(out)
}
