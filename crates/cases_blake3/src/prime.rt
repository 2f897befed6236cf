//! The AIR over prime fields: what it declares and records, and what its generators answer.
ghost use Rattle.std.specs.Prelude.{◌≡◌, ◌<◌, IfOk, length};
ghost use Rattle.p3_matrix.specs.Matrix.{height};

use crate::airs::{declared, largest_degree};
use crate::prime_rows::{fingerprint, output_shown, row_answer};
use crate::reading::{error_shown, number, push_word, short};
use air_check::{CheckFailure, check_constraints};
use air_core::{Air, AirLayout, InteractionSymbolicBuilder};
use blake3_prime::{Blake3Air, TraceError, generate_trace_rows, write_limbs, write_word};
use p3_field::{BabyBear, Mem, PrimeCore64, RingCore};
use p3_matrix::RowMajorMatrix;
use std::alloc::Global;

/// The answer to a case of the AIR over prime fields.
pub fn answer(alloc: Global, words: &[&str]) -> Mem<String> {
    match *words {
        ["recorded"] => recorded(alloc),
        ["declared"] => declared::<BabyBear, Blake3Air>(alloc, &Blake3Air {}),
        ["check", ref rows @ ..] => checked_rows(alloc, &inputs_of(alloc, rows)?),
        ["row", row, ref call @ ..] => row_answered(alloc, input_of(row), call),
        ["generate", extra, ref rows @ ..] => {
            let inputs = inputs_of(alloc, rows)?;
            rows_shown(alloc, generate_trace_rows(alloc, &inputs, number(extra)))
        }
        ["random", count, extra] => {
            let (count, extra) = (number(count), number(extra));
            rows_shown(
                alloc,
                Blake3Air {}.generate_random_trace_rows(alloc, count, extra),
            )
        }
        ["written", at, word, limbs_at, limbs] => {
            written(
                alloc,
                number(at),
                short(word),
                number(limbs_at),
                short(limbs),
            )
        }
        _ => String::from_str(alloc, "bad case"),
    }
}

/// The 24 words that a case's word lists, in base 16 and with commas between: a block and a chaining value.
fn input_of(word: &str) -> [u32; 24] {
    let mut input = [0u32; 24];
    for (i, piece) in word.split(',').enumerate() {
        if i < 24 {
            input[i] = short(piece);
        }
    }
    input
}

/// The inputs of words.
fn inputs_of(alloc: Global, words: &[&str]) -> Mem<Vec<[u32; 24]>> {
    let mut inputs = Vec::new(alloc);
    for word in words {
        inputs.push(input_of(word))?;
    }
    Ok(inputs)
}

/// How many constraints and interactions the AIR records, and the largest degree.
fn recorded(alloc: Global) -> Mem<String> {
    let layout = AirLayout::from_air::<BabyBear, Blake3Air>(&Blake3Air {});
    let mut builder = InteractionSymbolicBuilder::<BabyBear>::new(alloc, layout)?;
    Blake3Air {}.eval(&mut builder)?;
    let constraints = builder.base_constraints(alloc)?;
    let (count, interactions) = (constraints.len(), builder.num_interactions());
    format!(in alloc; "{count} {interactions} {}", largest_degree(&constraints))
}

/// The rows of these inputs, with no room for more.
fn rows_of(alloc: Global, inputs: &[[u32; 24]]) -> Result<RowMajorMatrix<BabyBear>, TraceError>
    ensures height { IfOk result (λ m. height m ≡ length inputs.now) }
    ensures width { IfOk result (λ m. m.width ≡ 9168) }
{
    generate_trace_rows(alloc, inputs, 0)
}

/// What the check says of the rows.
pub fn checked(alloc: Global, rows: &RowMajorMatrix<BabyBear>) -> Result<(), CheckFailure>
    requires height { 0 < height rows.now }
    requires width { rows.now.width ≡ 9168 }
{
    check_constraints(alloc, &Blake3Air {}, rows, None, &[])
}

/// What the check says of the rows of these inputs.
fn checked_rows(alloc: Global, inputs: &[[u32; 24]]) -> Mem<String> {
    if inputs.is_empty() {
        return String::from_str(alloc, "not called");
    }
    match rows_of(alloc, inputs) {
        Ok(rows) => match checked(alloc, &rows) {
            Ok(()) => String::from_str(alloc, "met"),
            Err(error) => format!(in alloc; "{error}"),
        },
        Err(error) => error_shown(alloc, error),
    }
}

/// The answer to a call on the row of this input.
fn row_answered(alloc: Global, input: [u32; 24], call: &[&str]) -> Mem<String> {
    match rows_of(alloc, &[input]) {
        Ok(rows) => row_answer(alloc, rows.row(0), call),
        Err(error) => error_shown(alloc, error),
    }
}

/// How many rows there are, and the words of the output of each.
fn outputs_shown(alloc: Global, rows: &RowMajorMatrix<BabyBear>) -> Mem<String>
    requires { rows.now.width ≡ 9168 }
{
    let mut out = String::new(alloc);
    push_word(&mut out, rows.height())?;
    for i in 0..rows.height() {
        push_word(&mut out, output_shown(alloc, rows.row(i), 16)?)?;
    }
    Ok(out)
}

/// The same of what a generator answers, or the error's text.
fn rows_shown(alloc: Global, answer: Result<RowMajorMatrix<BabyBear>, TraceError>) -> Mem<String>
    requires { IfOk answer (λ m. m.width ≡ 9168) }
{
    match answer {
        Ok(rows) => outputs_shown(alloc, &rows),
        Err(error) => error_shown(alloc, error),
    }
}

/// A row of 40 cells 2 with a word's bits and another's limbs written at two places, as one number.
fn written(alloc: Global, at: usize, word: u32, limbs_at: usize, limbs: u32) -> Mem<String> {
    if at > 8 || limbs_at > 38 {
        return String::from_str(alloc, "not called");
    }
    let mut row = [BabyBear::TWO; 40];
    write_word(&mut row, at, word);
    write_limbs(&mut row, limbs_at, limbs);
    format!(in alloc; "{}", fingerprint(&row).as_canonical_u64())
}
