//! Both sides of a batch's transcript over SHA-256, where a commitment is one element.
ghost use Rattle.std.specs.Prelude.{◌≡◌, ◌<◌, ◌^◌, IfOk, IsTrue, is_some, length, map};
ghost use Rattle.batch_transcript.specs.BatchScript.{is_positive};
ghost use Rattle.batch_transcript.specs.Running.{lists};

use crate::expressions::lookups;
use crate::reading::{bad_case, coefficients, number, push_word};
use crate::shapes::shape_of;
use batch_transcript::{
    BatchProverTranscript, BatchShape, BatchVerifierTranscript, TranscriptError,
};
use p3_challenger::{CanSample, Sha256Challenger};
use p3_field::{BabyBear, FieldCore, Mem, PrimeCore64, QuarticExtension, RingCore};
use p3_lookup::{LogUpGadget, Lookups};
use std::alloc::Global;
use std::fmt::Display;

type Prover = BatchProverTranscript<Sha256Challenger, BabyBear, QuarticExtension, BabyBear>;

type Verifier = BatchVerifierTranscript<Sha256Challenger, BabyBear, QuarticExtension, BabyBear>;

// Whether so many bits make fewer values than the base field has.
fn are_few(bits: usize) -> bool
    ensures { IsTrue result → 2 ^ bits < 2013265921 }
{
    if bits > 30 {
        return false;
    }
    true
}

// The commitment of this number, where there is one.
fn commitment(is_there: bool, number: u64) -> Option<BabyBear>
    ensures { is_some result ≡ is_there }
{
    if is_there {
        Some(BabyBear::from_u64(number))
    } else {
        None
    }
}

/// So many public values of each table, all of which are this one.
pub fn publics(alloc: Global, counts: &[usize], value: BabyBear) -> Mem<Vec<Vec<BabyBear>>>
    ensures { IfOk result (λ v. map length (lists v.items) ≡ counts.now) }
{
    let mut publics = Vec::new(alloc);
    for count in counts {
        publics.push(vec![in alloc; value; *count]?)?;
    }
    Ok(publics)
}

// The challenges of each instance's lookups, and what else is drawn.
fn shown(
    alloc: Global,
    layout: &[Vec<QuarticExtension>],
    drawn: &[QuarticExtension],
) -> Mem<String> {
    let mut out = String::new(alloc);
    for challenges in layout {
        push_word(&mut out, coefficients(alloc, challenges)?)?;
    }
    for value in drawn {
        push_word(&mut out, coefficients(alloc, &[*value])?)?;
    }
    Ok(out)
}

// A text, and what a challenger draws next.
fn ended<T: Display + Drop>(alloc: Global, text: T, challenger: Sha256Challenger) -> Mem<String> {
    let mut challenger = challenger;
    let next: BabyBear = challenger.sample();
    format!(in alloc; "{text} {}", next.as_canonical_u64())
}

// The prover's side: both grinding values, and what is drawn.
fn prover(
    alloc: Global,
    shape: BatchShape,
    publics: &[Vec<BabyBear>],
    lookups: &[Lookups<BabyBear>],
    terminals: &[QuarticExtension],
) -> Mem<String>
    requires instances { length shape.trace_widths ≡ 2 }
    requires publics { map length (lists publics.now) ≡ shape.public_value_counts }
    requires terminals { length terminals.now ≡ shape.num_lookup_instances }
    requires lookup_bits { 2 ^ shape.lookup_pow_bits < 2013265921 }
    requires ood_bits { 2 ^ shape.ood_pow_bits < 2013265921 }
{
    let preprocessed = commitment(shape.has_preprocessed_commitment, 9);
    let permutation = commitment(shape.has_lookups(), 7);
    let randomization = commitment(shape.has_randomization_commitment, 10);
    let mut side = Prover::new(alloc, Sha256Challenger::new(), shape)?;
    side.instance_bindings(&[3, 4]);
    side.main_phase(&BabyBear::from_u64(5), publics);
    side.preprocessed_phase(preprocessed.as_ref());
    let (layout, lookup_witness) = match side.lookup_phase(alloc, lookups, &LogUpGadget::new()) {
        Ok(drawn) => drawn,
        Err(error) => return ended(alloc, error, side.abort()),
    };
    let alpha = side.permutation_phase(permutation.as_ref(), terminals);
    side.quotient_phase(&BabyBear::from_u64(8), randomization.as_ref());
    let (zeta, ood_witness) = match side.ood_phase() {
        Ok(drawn) => drawn,
        Err(error) => return ended(alloc, error, side.abort()),
    };
    let lookup_witness = lookup_witness.unwrap_or(BabyBear::ZERO).as_canonical_u64();
    let ood_witness = ood_witness.as_canonical_u64();
    let challenger = side.abort();
    let drawn = shown(alloc, &layout, &[alpha, zeta])?;
    let text = format_args!("{lookup_witness} {ood_witness} {drawn}");
    ended(alloc, text, challenger)
}

// The verifier's side with these grinding values: what is drawn, or the challenges of the lookups alone.
fn verifier(
    alloc: Global,
    shape: BatchShape,
    publics: &[Vec<BabyBear>],
    lookups: &[Lookups<BabyBear>],
    terminals: &[QuarticExtension],
    lookup_witness: Option<BabyBear>,
    ood_witness: BabyBear,
    is_whole: bool,
) -> Mem<String>
    requires instances { length shape.trace_widths ≡ 2 }
    requires publics { map length (lists publics.now) ≡ shape.public_value_counts }
    requires terminals { length terminals.now ≡ shape.num_lookup_instances }
    requires lookup_bits { 2 ^ shape.lookup_pow_bits < 2013265921 }
    requires ood_bits { 2 ^ shape.ood_pow_bits < 2013265921 }
{
    let preprocessed = commitment(shape.has_preprocessed_commitment, 9);
    let permutation = commitment(shape.has_lookups(), 7);
    let randomization = commitment(shape.has_randomization_commitment, 10);
    let mut side = Verifier::new(alloc, Sha256Challenger::new(), shape)?;
    side.instance_bindings(&[3, 4]);
    side.main_phase(&BabyBear::from_u64(5), publics);
    side.preprocessed_phase(preprocessed.as_ref());
    let gadget = LogUpGadget::new();
    let layout = match side.lookup_phase(alloc, lookups, &gadget, lookup_witness) {
        Ok(layout) => layout,
        Err(error) => return ended(alloc, error, side.abort()),
    };
    let alpha = side.permutation_phase(permutation.as_ref(), terminals);
    side.quotient_phase(&BabyBear::from_u64(8), randomization.as_ref());
    let zeta = match side.ood_phase(ood_witness) {
        Ok(zeta) => zeta,
        Err(failure) => return ended(alloc, TranscriptError::Failure(failure), side.abort()),
    };
    let challenger = side.abort();
    if is_whole {
        ended(alloc, shown(alloc, &layout, &[alpha, zeta])?, challenger)
    } else {
        shown(alloc, &layout, &[])
    }
}

/// A side of the transcript of two instances: the words are the shape, both grinding values, which the prover doesn't take, and the lookups of each
/// instance. The public values are 6, and a terminal has the coefficients 1, 2, 3 and 4.
pub fn played(alloc: Global, side: &str, words: &[&str]) -> Mem<String> {
    let [shape, lookup_witness, ood_witness, ref tables @ ..] = *words else {
        return bad_case(alloc);
    };
    let shape = shape_of(alloc, shape)?;
    let instances = shape.num_lookup_instances;
    if shape.trace_widths.len() != 2
        || instances > 2
        || !are_few(shape.lookup_pow_bits)
        || !are_few(shape.ood_pow_bits)
    {
        return bad_case(alloc);
    }
    let publics = publics(alloc, &shape.public_value_counts, BabyBear::from_u64(6))?;
    let terminal = QuarticExtension {
        c0: BabyBear::from_u64(1),
        c1: BabyBear::from_u64(2),
        c2: BabyBear::from_u64(3),
        c3: BabyBear::from_u64(4),
    };
    let terminals: Vec<QuarticExtension> = vec![in alloc; terminal; instances]?;
    let lookups = lookups(alloc, tables)?;
    if side == "prover" {
        return prover(alloc, shape, &publics, &lookups, &terminals);
    }
    let ood_witness = BabyBear::from_u64(number(ood_witness) as u64);
    let lookup_witness = match lookup_witness.parse::<u64>() {
        Ok(witness) => Some(BabyBear::from_u64(witness)),
        Err(_) => None,
    };
    verifier(
        alloc,
        shape,
        &publics,
        &lookups,
        &terminals,
        lookup_witness,
        ood_witness,
        side == "verifier",
    )
}
