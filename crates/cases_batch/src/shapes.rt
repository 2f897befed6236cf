//! What separators tell of a batch's shape, and how they are written.

use crate::reading::{bad_case, hex, number, numbers, push_word};
use batch_transcript::BatchShape;
use p3_challenger::{
    CanSample, DomainSeparator, InteractionPattern, Label, ProverState, Sha256Challenger,
    VerifierState,
};
use p3_field::{BabyBear, BasedVectorSpace, Mem, PrimeCore64, QuarticExtension};
use p3_uni_stark::TranscriptVersion;
use std::alloc::Global;

/// The shape of a word with `/` between its lists: the widths of the traces; the numbers of public values; the preprocessed widths; and
/// whether there are commitments to preprocessed columns and of a randomization, how many instances have lookups, and the bits of both grindings.
/// A further list has the numbers of lookups of a shape of version 2.
pub fn shape_of(alloc: Global, word: &str) -> Mem<BatchShape> {
    let mut lists = word.split('/');
    let trace_widths = numbers(alloc, lists.next().unwrap_or(""))?;
    let public_value_counts = numbers(alloc, lists.next().unwrap_or(""))?;
    let preprocessed_widths = numbers(alloc, lists.next().unwrap_or(""))?;
    let [
        preprocessed,
        randomization,
        instances,
        lookup_bits,
        ood_bits,
    ] = match *numbers(alloc, lists.next().unwrap_or(""))?.as_slice() {
        [a, b, c, d, e] => [a, b, c, d, e],
        _ => [0; 5],
    };
    let (version, lookup_counts) = match lists.next() {
        Some(counts) => (TranscriptVersion::V2, numbers(alloc, counts)?),
        None => (TranscriptVersion::V1, Vec::new(alloc)),
    };
    Ok(BatchShape {
        trace_widths,
        public_value_counts,
        preprocessed_widths,
        has_preprocessed_commitment: preprocessed == 1,
        num_lookup_instances: instances,
        lookup_pow_bits: lookup_bits,
        has_randomization_commitment: randomization == 1,
        ood_pow_bits: ood_bits,
        version,
        lookup_counts,
    })
}

/// Whether a copy of a shape is equal to it, its number of instances, whether it has lookups, and its number of steps; and of its separator's encoding the
/// length, and so many of the first and of the last bytes as the words say.
pub fn encoding(alloc: Global, words: &[&str]) -> Mem<String> {
    let [shape, first, last] = *words else {
        return bad_case(alloc);
    };
    let shape = shape_of(alloc, shape)?;
    let is_same = shape.try_clone(alloc)? == shape;
    let steps = shape
        .pattern::<BabyBear, QuarticExtension>(alloc)?
        .steps()
        .len();
    let mut out = String::new(alloc);
    push_word(&mut out, is_same)?;
    push_word(&mut out, shape.num_instances())?;
    push_word(&mut out, shape.has_lookups())?;
    push_word(&mut out, steps)?;
    let bytes = shape
        .domain_separator::<BabyBear, QuarticExtension>(alloc)?
        .encode(alloc)?;
    let start = number(first).min(bytes.len());
    let rest = bytes.len() - number(last).min(bytes.len());
    push_word(&mut out, bytes.len())?;
    push_word(&mut out, hex(alloc, &bytes[..start])?)?;
    push_word(&mut out, hex(alloc, &bytes[rest..])?)?;
    Ok(out)
}

/// For each shape the place of the first one that has the same encoding.
pub fn encodings(alloc: Global, words: &[&str]) -> Mem<String> {
    let mut encodings = Vec::new(alloc);
    let mut out = String::new(alloc);
    for word in words {
        let encoding = shape_of(alloc, word)?
            .domain_separator::<BabyBear, QuarticExtension>(alloc)?
            .encode(alloc)?;
        let mut place = encodings.len();
        for other in 0..encodings.len() {
            if encodings[other] == encoding {
                place = place.min(other);
            }
        }
        push_word(&mut out, place)?;
        encodings.push(encoding)?;
    }
    Ok(out)
}

/// The encoding of a separator without steps, with a protocol's name and the label of an instance as a byte; what is drawn first by the prover's
/// challenger that is seeded with it, and whether the verifier's is the same; and the bytes of another label.
pub fn separator(alloc: Global, words: &[&str]) -> Mem<String> {
    let [name, instance, label] = *words else {
        return bad_case(alloc);
    };
    let pattern = InteractionPattern::new(alloc, Vec::new(alloc))?;
    let mut separator = DomainSeparator::new(alloc, 1, name.as_bytes(), pattern)?;
    separator.instance(&[(number(instance) % 256) as u8])?;
    let encoding = hex(alloc, &separator.encode(alloc)?)?;
    let start = Sha256Challenger::new();
    let mut prover = ProverState::new::<BabyBear>(alloc, start, &separator)?.abort();
    let verifier = VerifierState::new::<BabyBear>(alloc, start, &separator)?.abort();
    let is_same = prover == verifier;
    let drawn: BabyBear = prover.sample();
    let label = Label::new(alloc, label)?;
    let label = hex(alloc, label.as_bytes())?;
    format!(in alloc; "{encoding} {} {is_same} {label}", drawn.as_canonical_u64())
}
