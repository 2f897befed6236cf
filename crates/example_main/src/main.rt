//! Proves that the bytes of its word are bytes, by the tables of `example_air`, verifies the proof, and writes a line that says what came of it.
#![tactic(auto)]

ghost use Rattle.std.specs.Prelude.{◌≡◌};
ghost use Rattle.example_main.specs.Findings.{IsFinding, line_of};

use batch_statement::BatchVerificationError;
use example_air::{prove_bytes, verify_bytes};
use p3_matrix::{is_power_of_two, log2_strict_usize};
use prover_answer::ProvingError;
use std::alloc::Global;
use std::{env, io};

/// What was found of a list of bytes.
#[derive(Drop)]
pub enum Finding {
    /// They have a proof, which is accepted.
    Accepted,
    /// They have a proof, which is refused.
    Refused,
    /// They have no proof, for one of the reasons of `prove_bytes` other than that memory ran out.
    Unproved,
    /// They aren't as many as a power of two up to 1024.
    Usage,
    /// Out of memory. It may come in place of any other answer but `Usage`.
    OutOfMemory,
}

impl Finding {
    /// The line that says it.
    fn line(self) -> &'static str
        ensures { result.now ≡ line_of self }
    {
        match self {
            Finding::Accepted => "accepted",
            Finding::Refused => "refused",
            Finding::Unproved => "no proof",
            Finding::Usage => "usage: example_main TEXT, a power of two of bytes, up to 1024",
            Finding::OutOfMemory => "out of memory",
        }
    }
}

/// Proves the bytes and verifies the proof. `Accepted` says that the honest proof of these bytes passes every check of the verifier, and that each
/// row of the committed table of bits is the row of a byte, unless a drawn challenge is unlucky.
fn prove_and_verify(alloc: Global, bytes: &[u8]) -> Finding
    ensures { IsFinding bytes.now result }
{
    if bytes.len() > 1024 || !is_power_of_two(bytes.len()) {
        return Finding::Usage;
    }
    let proof = match prove_bytes(alloc, bytes) {
        Ok(proof) => proof,
        Err(ProvingError::OutOfMemory) => return Finding::OutOfMemory,
        Err(ProvingError::Pcs { .. }) => return Finding::Unproved,
        Err(ProvingError::MultiplicityBound { .. }) => return Finding::Unproved,
        Err(ProvingError::LookupDenominatorZero { .. }) => return Finding::Unproved,
        Err(ProvingError::WitnessNotFound { .. }) => return Finding::Unproved,
    };
    match verify_bytes(alloc, log2_strict_usize(bytes.len()), &proof) {
        Ok(()) => Finding::Accepted,
        Err(BatchVerificationError::OutOfMemory) => Finding::OutOfMemory,
        Err(BatchVerificationError::Verification(_)) => Finding::Refused,
        Err(BatchVerificationError::Lookup(_)) => Finding::Refused,
        Err(BatchVerificationError::Transcript(_)) => Finding::Refused,
    }
}

fn main(rt: HostRuntime) -> io::Result<()> {
    let alloc = rt.alloc();
    let words: Vec<String> = env::args(&rt)?.skip(1).collect(alloc)?;
    let finding = match words.first() {
        Some(word) => prove_and_verify(alloc, word.as_bytes()),
        None => Finding::Usage,
    };
    println!(rt; "{}", finding.line())
}
