//! Proves that a number is one of the Fibonacci sequence, and verifies the proof: `example_fib START NUMBER LOG_ROWS`.
#![tactic(auto)]

mod prove;
mod verify;

ghost use Rattle.std.specs.Prelude.{◌≡◌, ◌≤◌, codes};
ghost use Rattle.example_fib.specs.Statement.{IsAccepted};

use crate::prove::prove_fib;
use crate::verify::verify_fib;
use p3_field::{BabyBear, RingCore};
use std::alloc::Global;
use std::{env, io};

/// Proves that `number` is number 2^`log_rows` of the sequence that starts with `start` and `start`, and verifies the proof. `accepted` says that the
/// honest proof of the table passes every check of the verifier, and that `number` is that number unless a drawn challenge is unlucky.
fn prove_and_verify(
    alloc: Global,
    start: BabyBear,
    number: BabyBear,
    log_rows: usize,
) -> &'static str
    requires { log_rows ≤ 10 }
    ensures { result.now ≡ codes "accepted" → IsAccepted start number log_rows }
{
    let proof = match prove_fib(alloc, start, number, log_rows) {
        Ok(proof) => proof,
        Err(_) => return "no proof",
    };
    match verify_fib(alloc, start, number, log_rows, &proof) {
        Ok(()) => "accepted",
        Err(_) => "not accepted",
    }
}

// What is said of these words: a start, a number, and the logarithm of a number of rows.
fn answer(alloc: Global, words: &[String]) -> &'static str {
    let usage = "usage: example_fib START NUMBER LOG_ROWS, with LOG_ROWS up to 10";
    if words.len() != 3 {
        return usage;
    }
    match (
        words[0].parse::<u64>(),
        words[1].parse::<u64>(),
        words[2].parse::<usize>(),
    ) {
        (Ok(start), Ok(number), Ok(log_rows)) if log_rows <= 10 => {
            let start = BabyBear::from_u64(start);
            let number = BabyBear::from_u64(number);
            prove_and_verify(alloc, start, number, log_rows)
        }
        _ => usage,
    }
}

fn main(rt: HostRuntime) -> io::Result<()> {
    let alloc = rt.alloc();
    let words: Vec<String> = env::args(&rt)?.skip(1).collect(alloc)?;
    println!(rt; "{}", answer(alloc, &words))
}
