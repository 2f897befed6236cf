//! The packed rows of the AIR over fields of characteristic two: as numbers, by their words, beside the dense rows, and what the calls refuse.
ghost use Rattle.std.specs.Prelude.{◌<◌};

use crate::binary_rows::fingerprint;
use crate::reading::{error_shown, number, parts, push_word};
use blake3_binary::{
    Blake3BinaryAir, Blake3CompressionInput, TraceError, generate_binary_trace_rows, random_inputs,
};
use blake3_packed::{PackedTraces, generate_binary_trace_packed};
use p3_field::{BabyBear, Gf256, Mem};
use p3_matrix::RowMajorMatrix;
use std::alloc::Global;

/// The answer to a case of the packed rows.
pub fn answer(alloc: Global, words: &[&str]) -> Mem<String> {
    match *words {
        ["random", count] => {
            let air = Blake3BinaryAir::default();
            shown(
                alloc,
                air.generate_random_trace_packed::<Gf256>(alloc, number(count)),
            )
        }
        ["random_prime", count] => {
            let air = Blake3BinaryAir::default();
            shown(
                alloc,
                air.generate_random_trace_packed::<BabyBear>(alloc, number(count)),
            )
        }
        [call, kind, count, ref places @ ..] => {
            answer_of_inputs(alloc, call, &inputs_of(alloc, kind, number(count))?, places)
        }
        _ => String::from_str(alloc, "bad case"),
    }
}

/// The answer to a call on these inputs.
fn answer_of_inputs(
    alloc: Global,
    call: &str,
    inputs: &[Blake3CompressionInput],
    places: &[&str],
) -> Mem<String> {
    match call {
        "generate" => shown(alloc, generate_binary_trace_packed::<Gf256>(alloc, inputs)),
        "generate_prime" => shown(
            alloc,
            generate_binary_trace_packed::<BabyBear>(alloc, inputs),
        ),
        "dense" => dense_shown(alloc, generate_binary_trace_rows::<Gf256>(alloc, inputs, 0)),
        "equal" => equal_shown(alloc, inputs),
        "words" => words_shown(
            alloc,
            generate_binary_trace_packed::<Gf256>(alloc, inputs),
            places,
        ),
        _ => String::from_str(alloc, "bad case"),
    }
}

/// As many inputs of this kind: random ones, or else those of which each number is the greatest.
fn inputs_of(alloc: Global, kind: &str, count: usize) -> Mem<Vec<Blake3CompressionInput>> {
    if kind == "random" {
        return random_inputs(alloc, count);
    }
    let mut inputs = Vec::new(alloc);
    for _ in 0..count {
        inputs.push(Blake3CompressionInput {
            chaining_value: [u32::MAX; 8],
            block: [u32::MAX; 16],
            counter: u64::MAX,
            block_len: u32::MAX,
            flags: u32::MAX,
        })?;
    }
    Ok(inputs)
}

/// All words in one number below 65521, as the digits of a number in base 31.
fn words_fingerprint(words: &[u64]) -> u64 {
    let mut sum = 0u64;
    for word in words {
        sum = (sum * 31 + word % 65521) % 65521;
    }
    sum
}

/// How many rows of words there are, and all words as one number; or the error's text.
fn shown(alloc: Global, answer: Result<RowMajorMatrix<u64>, TraceError>) -> Mem<String> {
    match answer {
        Ok(rows) => {
            format!(in alloc; "{} {}", rows.height(), words_fingerprint(rows.as_slice()))
        }
        Err(error) => error_shown(alloc, error),
    }
}

/// The same of dense rows.
fn dense_shown(alloc: Global, answer: Result<RowMajorMatrix<Gf256>, TraceError>) -> Mem<String> {
    match answer {
        Ok(rows) => format!(in alloc; "{} {}", rows.height(), fingerprint(rows.as_slice())),
        Err(error) => error_shown(alloc, error),
    }
}

/// The words of these places, each a row and a column, in base 16.
fn words_shown(
    alloc: Global,
    answer: Result<RowMajorMatrix<u64>, TraceError>,
    places: &[&str],
) -> Mem<String> {
    match answer {
        Ok(rows) => {
            let mut out = String::new(alloc);
            for place in places {
                let (row, [column, _, _]) = parts(place);
                let word = rows.get(number(row), column).unwrap_or(0);
                push_word(&mut out, format_args!("{word:x}"))?;
            }
            Ok(out)
        }
        Err(error) => error_shown(alloc, error),
    }
}

/// How many bits of lane j are the cells of a dense row.
fn equal_in_row(words: &[u64], j: u32, cells: &[Gf256]) -> usize
    requires { j < 64 }
{
    let mut equal = 0usize;
    for (word, cell) in words.iter().zip(cells) {
        if word >> j & 1 == cell.value as u64 {
            equal = equal.saturating_add(1);
        }
    }
    equal
}

/// How many bits of packed rows are the cells of dense rows.
fn equal_bits(packed: &RowMajorMatrix<u64>, dense: &RowMajorMatrix<Gf256>) -> usize {
    let mut equal = 0usize;
    for i in 0..dense.height() {
        if i / 64 < packed.height() {
            let found = equal_in_row(packed.row(i / 64), (i % 64) as u32, dense.row(i));
            equal = equal.saturating_add(found);
        }
    }
    equal
}

/// How many bits of the packed rows of these inputs are the cells of their dense rows.
fn equal_shown(alloc: Global, inputs: &[Blake3CompressionInput]) -> Mem<String> {
    let packed = generate_binary_trace_packed::<Gf256>(alloc, inputs);
    let dense = generate_binary_trace_rows::<Gf256>(alloc, inputs, 0);
    match (packed, dense) {
        (Ok(packed), Ok(dense)) => format!(in alloc; "{}", equal_bits(&packed, &dense)),
        _ => String::from_str(alloc, "no rows"),
    }
}
