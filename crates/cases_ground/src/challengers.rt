//! Calls of the challenger over SHA-256, which goes on from one case to the next.
ghost use Rattle.std.specs.Prelude.{◌≡◌, ◌<◌, ◌^◌, IfSome, IsTrue};

use crate::printing::{print_bears, print_numbers, print_values};
use crate::reading::{Case, values_of};
use p3_challenger::{
    CanObserve, CanSample, CanSampleBits, GrindingChallenger, Sha256Challenger, observe_bytes,
};
use p3_field::{BabyBear, PrimeCore64, PrimeField64, QuarticExtension, RingCore};
use std::io;

/// Calls of a challenger.
pub fn challenger<R: Print + AllocGlobal>(
    rt: &R,
    challenger: &mut Sha256Challenger,
    case: &Case,
) -> io::Result<()> {
    match (case.call, case.numbers.as_slice()) {
        ("new", []) => *challenger = Sha256Challenger::new(),
        ("observe", numbers) => {
            challenger.observe_slice(&values_of::<BabyBear, BabyBear>(rt.alloc(), numbers)?);
        }
        ("observe_quartic", [c0, c1, c2, c3]) => challenger.observe(&QuarticExtension {
            c0: BabyBear::from_u64(*c0),
            c1: BabyBear::from_u64(*c1),
            c2: BabyBear::from_u64(*c2),
            c3: BabyBear::from_u64(*c3),
        }),
        ("observe_bytes", [b0, b1, b2, b3]) => {
            let bytes = [
                (*b0 % 256) as u8,
                (*b1 % 256) as u8,
                (*b2 % 256) as u8,
                (*b3 % 256) as u8,
            ];
            observe_bytes::<BabyBear, Sha256Challenger>(challenger, &bytes);
        }
        (call, numbers) => return draw(rt, challenger, call, numbers),
    }
    print_numbers(rt, &[challenger.left as u64])
}

// Calls that draw from a challenger.
fn draw<R: Print + AllocGlobal>(
    rt: &R,
    challenger: &mut Sha256Challenger,
    call: &str,
    numbers: &[u64],
) -> io::Result<()> {
    match (call, numbers) {
        ("state", []) => print_state(rt, challenger),
        ("draw", []) => {
            let drawn: BabyBear = challenger.sample();
            print_bears(rt, &[drawn])
        }
        ("draw_quartic", []) => {
            let drawn: QuarticExtension = challenger.sample();
            print_values::<BabyBear, QuarticExtension, R>(rt, &[drawn])
        }
        (call, [bits, rest @ ..]) => match few_bits(*bits) {
            Some(bits) => draw_bits(rt, challenger, call, bits, rest),
            None => rt.println("bad case"),
        },
        _ => rt.println("bad case"),
    }
}

/// As many bits as are drawn at once, at most 30: they are fewer values than the base field has.
pub fn few_bits(number: u64) -> Option<usize>
    ensures { IfSome result (λ bits. 2 ^ bits < 2013265921) }
{
    if number <= 30 {
        Some(number as usize)
    } else {
        None
    }
}

// Calls that draw or grind so many bits.
fn draw_bits<R: Print + AllocGlobal>(
    rt: &R,
    challenger: &mut Sha256Challenger,
    call: &str,
    bits: usize,
    numbers: &[u64],
) -> io::Result<()>
    requires { 2 ^ bits < 2013265921 }
{
    match (call, numbers) {
        ("sample_bits", []) => print_numbers(rt, &[challenger.sample_bits(bits) as u64]),
        ("check_witness", [witness]) => {
            let witness = BabyBear::from_u64(*witness);
            print_numbers(rt, &[challenger.check_witness(bits, witness) as u64])
        }
        ("grind", []) => match ground_and_checked::<BabyBear, Sha256Challenger>(challenger, bits) {
            Some(found) => print_numbers(
                rt,
                &[
                    found.witness.as_canonical_u64(),
                    found.passes as u64,
                    (found.verifier == *challenger) as u64,
                ],
            ),
            None => rt.println("none"),
        },
        _ => rt.println("bad case"),
    }
}

/// Prints a challenger: its chain, and how many draws are left.
pub fn print_state(rt: &impl Print, challenger: &Sha256Challenger) -> io::Result<()> {
    for byte in &challenger.chain {
        print!(rt; "{byte} ")?;
    }
    let left = challenger.left;
    println!(rt; "{left}")
}

/// What grinding gives: the witness, whether the verifier's check passes, and the verifier's challenger after it.
#[derive(Drop)]
struct Grinding<F, C> {
    witness: F,
    passes: bool,
    verifier: C,
}

// Grinds by the bound alone: the verifier's check passes, and leaves the prover's state.
fn ground_and_checked<F: PrimeField64, C: GrindingChallenger<Witness = F> + Copy>(
    prover: &mut C,
    bits: usize,
) -> Option<Grinding<F, C>>
    requires { 2 ^ bits < F.ORDER_U64 }
    ensures passes { IfSome result (λ r. IsTrue r.passes) }
    ensures same_state { IfSome result (λ r. prover.new ≡ r.verifier) }
{
    let mut verifier = *prover;
    let witness = prover.grind(bits)?;
    let passes = verifier.check_witness(bits, witness);
    Some(Grinding {
        witness,
        passes,
        verifier,
    })
}
