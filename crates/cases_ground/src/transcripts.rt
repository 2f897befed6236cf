//! Calls of separators and of both sides of a typed transcript.
ghost use Rattle.std.specs.Prelude.{◌≡◌, ◌<◌, ◌^◌, IfOk};
ghost use Rattle.cases_ground.specs.Worked.{worked_steps};

use crate::challengers::{few_bits, print_state};
use crate::printing::print_numbers;
use crate::reading::values_of;
use crate::sides::{Side, prover_side, verifier_side};
use crate::steps::worked_pattern;
use p3_challenger::{
    CanSample, DomainSeparator, ProverState, Sha256Challenger, VerifierState, push_eight_bytes,
};
use p3_field::{BabyBear, Mem, PrimeCore64, RingCore};
use std::alloc::Global;
use std::io;

// The separator of so many public values and bits, with two labels.
fn separator_of(alloc: Global, publics: usize, bits: usize) -> Mem<DomainSeparator>
    ensures { IfOk result (λ s. s.steps ≡ worked_steps publics bits) }
{
    let pattern = worked_pattern(alloc, publics, bits)?;
    let mut separator = DomainSeparator::new(alloc, 1, b"worked", pattern)?;
    separator.instance(b"ab")?;
    let mut label = Vec::new(alloc);
    push_eight_bytes(&mut label, 3)?;
    separator.instance(&label)?;
    Ok(separator)
}

/// Calls of the transcript: of its separator, of the challenger that comes back, and of each side.
pub fn transcript<R: Print + AllocGlobal>(rt: &R, call: &str, numbers: &[u64]) -> io::Result<()> {
    match (call, numbers) {
        ("encoding", [publics, bits]) => {
            let separator = separator_of(rt.alloc(), *publics as usize, *bits as usize)?;
            print_bytes(rt, &separator.encode(rt.alloc())?)
        }
        ("lent", [publics, bits]) => {
            lent(
                rt,
                &separator_of(rt.alloc(), *publics as usize, *bits as usize)?,
            )
        }
        (call, [bits, numbers @ ..]) => match few_bits(*bits) {
            Some(bits) => side(rt, call, bits, numbers),
            None => rt.println("bad case"),
        },
        _ => rt.println("bad case"),
    }
}

// Plays one side with so many bits.
fn side<R: Print + AllocGlobal>(rt: &R, call: &str, bits: usize, numbers: &[u64]) -> io::Result<()>
    requires { 2 ^ bits < 2013265921 }
{
    match (call, numbers) {
        ("prover", [sent, known @ ..]) => prover(rt, bits, BabyBear::from_u64(*sent), known),
        ("verifier", [witness, sent, known @ ..]) => {
            let witness = BabyBear::from_u64(*witness);
            verifier(rt, bits, witness, BabyBear::from_u64(*sent), known)
        }
        _ => rt.println("bad case"),
    }
}

// Prints bytes in hexadecimal.
fn print_bytes(rt: &impl Print, bytes: &[u8]) -> io::Result<()> {
    for byte in bytes {
        print!(rt; "{byte:02x}")?;
    }
    rt.println("")
}

// Prints what one side has at the end: the grinding value, whether it passes, what is drawn, and the challenger.
fn print_side<R: Print + AllocGlobal>(
    rt: &R,
    side: &Side<BabyBear, Sha256Challenger>,
) -> io::Result<()> {
    let (witness, drawn) = (
        side.witness.as_canonical_u64(),
        side.drawn.as_canonical_u64(),
    );
    let passes = side.passes;
    print!(rt; "{witness} {passes} {drawn} ")?;
    print_state(rt, &side.challenger)
}

// The prover's side.
fn prover<R: Print + AllocGlobal>(
    rt: &R,
    bits: usize,
    sent: BabyBear,
    known: &[u64],
) -> io::Result<()>
    requires { 2 ^ bits < 2013265921 }
{
    let known = values_of::<BabyBear, BabyBear>(rt.alloc(), known)?;
    let separator = separator_of(rt.alloc(), known.len(), bits)?;
    let start = Sha256Challenger::new();
    match prover_side::<BabyBear, Sha256Challenger>(
        rt.alloc(),
        start,
        &separator,
        bits,
        sent,
        &known,
    )? {
        Some(side) => print_side(rt, &side),
        None => rt.println("none"),
    }
}

// The verifier's side.
fn verifier<R: Print + AllocGlobal>(
    rt: &R,
    bits: usize,
    witness: BabyBear,
    sent: BabyBear,
    known: &[u64],
) -> io::Result<()>
    requires { 2 ^ bits < 2013265921 }
{
    let known = values_of::<BabyBear, BabyBear>(rt.alloc(), known)?;
    let separator = separator_of(rt.alloc(), known.len(), bits)?;
    let start = Sha256Challenger::new();
    let side = verifier_side::<BabyBear, Sha256Challenger>(
        rt.alloc(),
        start,
        &separator,
        bits,
        sent,
        &known,
        witness,
    )?;
    print_side(rt, &side)
}

// What is drawn from the verifier's challenger where it is lent, and from the prover's where it is handed back, and whether both are one then.
fn lent(rt: &(impl Print + AllocGlobal), separator: &DomainSeparator) -> io::Result<()> {
    let start = Sha256Challenger::new();
    let prover = ProverState::new::<BabyBear>(rt.alloc(), start, separator)?;
    let mut seeded = prover.abort();
    let mut verifier = VerifierState::new::<BabyBear>(rt.alloc(), start, separator)?;
    let drawn: BabyBear = verifier.delegate(|lent: &mut Sha256Challenger| lent.sample());
    let own: BabyBear = seeded.sample();
    let is_same = verifier.abort() == seeded;
    print_numbers(
        rt,
        &[
            drawn.as_canonical_u64(),
            own.as_canonical_u64(),
            is_same as u64,
        ],
    )
}
