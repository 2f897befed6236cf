//! The AIR over fields of characteristic two: what it declares and records, and what its generators answer.
ghost use Rattle.std.specs.Prelude.{◌≡◌, ◌<◌, IfOk, length};
ghost use Rattle.p3_matrix.specs.Matrix.{height};

use crate::airs::{declared, largest_degree};
use crate::binary_rows::{output_shown, row_answer};
use crate::reading::{error_shown, long, number, push_word, short};
use air_check::{CheckFailure, check_constraints};
use air_core::{Air, AirLayout, InteractionSymbolicBuilder};
use blake3_binary::{
    Blake3BinaryAir, Blake3CompressionInput, TraceError, generate_binary_trace_rows,
};
use p3_field::{BabyBear, Gf256, Mem};
use p3_matrix::RowMajorMatrix;
use std::alloc::Global;

/// The answer to a case of the AIR over fields of characteristic two.
pub fn answer(alloc: Global, words: &[&str]) -> Mem<String> {
    match *words {
        ["recorded", form] => recorded(alloc, &air_of(form)),
        ["declared", form] => declared::<Gf256, Blake3BinaryAir>(alloc, &air_of(form)),
        ["check", form, ref rows @ ..] => {
            checked_rows(alloc, &air_of(form), &inputs_of(alloc, rows)?)
        }
        ["row", row, ref call @ ..] => row_answered(alloc, input_of(row), call),
        ["values", first, second] => values(alloc, input_of(first), input_of(second)),
        _ => answer_of_generator(alloc, words),
    }
}

/// The answer to a case of a generator.
fn answer_of_generator(alloc: Global, words: &[&str]) -> Mem<String> {
    match *words {
        ["generate", extra, ref rows @ ..] => {
            let inputs = inputs_of(alloc, rows)?;
            rows_shown(
                alloc,
                generate_binary_trace_rows(alloc, &inputs, number(extra)),
            )
        }
        ["generate_prime", extra, ref rows @ ..] => {
            let inputs = inputs_of(alloc, rows)?;
            refusal(
                alloc,
                generate_binary_trace_rows(alloc, &inputs, number(extra)),
            )
        }
        ["random", form, count, extra] => {
            let (air, count, extra) = (air_of(form), number(count), number(extra));
            rows_shown(alloc, air.generate_random_trace_rows(alloc, count, extra))
        }
        ["random_prime", form, count, extra] => {
            let (air, count, extra) = (air_of(form), number(count), number(extra));
            refusal(alloc, air.generate_random_trace_rows(alloc, count, extra))
        }
        _ => String::from_str(alloc, "bad case"),
    }
}

/// The form of this name: the one that takes the trace for bits for `assuming`.
pub fn air_of(form: &str) -> Blake3BinaryAir {
    match form {
        "assuming" => Blake3BinaryAir::assuming_boolean_trace(),
        _ => Blake3BinaryAir::default(),
    }
}

/// The input that a case's word lists, in base 16 and with commas between: the chaining value's 8 words, the block's 16, the counter, the block's
/// length and the flags. What is missing is zero.
fn input_of(word: &str) -> Blake3CompressionInput {
    let mut input = Blake3CompressionInput::default();
    for (i, piece) in word.split(',').enumerate() {
        if i < 8 {
            input.chaining_value[i] = short(piece);
        } else if i < 24 {
            input.block[i - 8] = short(piece);
        } else if i == 24 {
            input.counter = long(piece);
        } else if i == 25 {
            input.block_len = short(piece);
        } else if i == 26 {
            input.flags = short(piece);
        }
    }
    input
}

/// The inputs of words.
fn inputs_of(alloc: Global, words: &[&str]) -> Mem<Vec<Blake3CompressionInput>> {
    let mut inputs = Vec::new(alloc);
    for word in words {
        inputs.push(input_of(word))?;
    }
    Ok(inputs)
}

/// How many constraints and interactions a form records, and the largest degree.
fn recorded(alloc: Global, air: &Blake3BinaryAir) -> Mem<String> {
    let layout = AirLayout::from_air::<Gf256, Blake3BinaryAir>(air);
    let mut builder = InteractionSymbolicBuilder::<Gf256>::new(alloc, layout)?;
    air.eval(&mut builder)?;
    let constraints = builder.base_constraints(alloc)?;
    let (count, interactions) = (constraints.len(), builder.num_interactions());
    format!(in alloc; "{count} {interactions} {}", largest_degree(&constraints))
}

/// The rows of these inputs over the field of 256 elements, with no room for more.
fn rows_of(
    alloc: Global,
    inputs: &[Blake3CompressionInput],
) -> Result<RowMajorMatrix<Gf256>, TraceError>
    ensures height { IfOk result (λ m. height m ≡ length inputs.now) }
    ensures width { IfOk result (λ m. m.width ≡ 11536) }
{
    generate_binary_trace_rows(alloc, inputs, 0)
}

/// What the check of a form says of the rows.
pub fn checked(
    alloc: Global,
    air: &Blake3BinaryAir,
    rows: &RowMajorMatrix<Gf256>,
) -> Result<(), CheckFailure>
    requires height { 0 < height rows.now }
    requires width { rows.now.width ≡ 11536 }
{
    check_constraints(alloc, air, rows, None, &[])
}

/// What the check of a form says of the rows of these inputs.
fn checked_rows(
    alloc: Global,
    air: &Blake3BinaryAir,
    inputs: &[Blake3CompressionInput],
) -> Mem<String> {
    if inputs.is_empty() {
        return String::from_str(alloc, "not called");
    }
    match rows_of(alloc, inputs) {
        Ok(rows) => match checked(alloc, air, &rows) {
            Ok(()) => String::from_str(alloc, "met"),
            Err(error) => format!(in alloc; "{error}"),
        },
        Err(error) => error_shown(alloc, error),
    }
}

/// The answer to a call on the row of this input.
fn row_answered(alloc: Global, input: Blake3CompressionInput, call: &[&str]) -> Mem<String> {
    match rows_of(alloc, &[input]) {
        Ok(rows) => row_answer(alloc, rows.row(0), call),
        Err(error) => error_shown(alloc, error),
    }
}

/// How many rows there are, and the words of the output of each.
fn outputs_shown(alloc: Global, rows: &RowMajorMatrix<Gf256>) -> Mem<String>
    requires { rows.now.width ≡ 11536 }
{
    let mut out = String::new(alloc);
    push_word(&mut out, rows.height())?;
    for i in 0..rows.height() {
        push_word(&mut out, output_shown(alloc, rows.row(i), 16)?)?;
    }
    Ok(out)
}

/// The same of what a generator answers, or the error's text.
fn rows_shown(alloc: Global, answer: Result<RowMajorMatrix<Gf256>, TraceError>) -> Mem<String>
    requires { IfOk answer (λ m. m.width ≡ 11536) }
{
    match answer {
        Ok(rows) => outputs_shown(alloc, &rows),
        Err(error) => error_shown(alloc, error),
    }
}

/// Why there are no rows over a prime field.
fn refusal(alloc: Global, answer: Result<RowMajorMatrix<BabyBear>, TraceError>) -> Mem<String> {
    match answer {
        Ok(_) => String::from_str(alloc, "rows"),
        Err(error) => error_shown(alloc, error),
    }
}

/// Whether an input is the default one, whether another differs from it, and whether a copy is equal to it.
fn values(
    alloc: Global,
    first: Blake3CompressionInput,
    second: Blake3CompressionInput,
) -> Mem<String> {
    let copied = first;
    let is_default = first == Blake3CompressionInput::default();
    let differs = first != second;
    let is_copied = copied == first;
    format!(in alloc; "{is_default} {differs} {is_copied}")
}
