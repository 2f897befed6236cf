//! Degree bits, counts of openings, quotients put together, and a configuration.
ghost use Rattle.std.specs.Prelude.{◌≡◌, length};

use crate::reading::{coset_of, number};
use crate::writing::listed;
use commit_core::UnivariateStarkPcs;
use p3_challenger::Sha256Challenger;
use p3_dft::NaiveDft;
use p3_field::{BabyBear, Mem, QuarticExtension, RingCore};
use p3_uni_stark::{
    OpeningShape, StarkConfig, StarkGenericConfig, StarkOpeningLayout, are_all_disjoint,
    num_batched_openings, recompose_quotient_from_chunks, recomposed_quotient,
    validate_degree_bits,
};
use plain_pcs::PlainPcs;
use std::alloc::Global;

// The plain scheme whose extensions are twice as large.
type Scheme = PlainPcs<BabyBear, NaiveDft>;

// The configuration with this scheme and the challenger over SHA-256.
type Config = StarkConfig<Scheme, QuarticExtension, Sha256Challenger>;

/// The log height and the size for a table's degree bits, whether a backend masks, and the least and the greatest log height; or
/// the bound that is passed. The first list has the table's number, or nothing.
pub fn degree_bits(alloc: Global, lists: &[Vec<usize>]) -> Mem<String> {
    let [air, numbers] = lists else {
        return String::from_str(alloc, "bad case");
    };
    let [bits, is_zk, least, most] = *numbers.as_slice() else {
        return String::from_str(alloc, "bad case");
    };
    if most >= 64 || least > most || is_zk > most - least {
        return String::from_str(alloc, "bad case");
    }
    match validate_degree_bits(air.first().copied(), bits, is_zk, least, most) {
        Ok((log_height, size)) => format!(in alloc; "{log_height} {size}"),
        Err(error) => format!(in alloc; "{error}"),
    }
}

/// How many powers a backend takes for a main row and the next, a preprocessed row and so many chunks, and one over the circle;
/// and the places of the rounds for a backend that masks, and for one that doesn't.
pub fn openings(alloc: Global, lists: &[Vec<usize>]) -> Mem<String> {
    let [numbers] = lists else {
        return String::from_str(alloc, "bad case");
    };
    let (main, preprocessed) = (number(numbers, 0) % 65536, number(numbers, 1) % 65536);
    let chunks = number(numbers, 2) % 65536;
    let line = OpeningShape::new();
    let univariate = num_batched_openings(main, true, preprocessed, false, chunks, 4, line);
    let circle = OpeningShape::Circle;
    let circle = num_batched_openings(main, true, preprocessed, false, chunks, 4, circle);
    let (masked, plain) = (
        StarkOpeningLayout::new(true),
        StarkOpeningLayout::new(false),
    );
    let masked = [masked.trace, masked.quotient, masked.preprocessed];
    let plain = [plain.trace, plain.quotient, plain.preprocessed];
    format!(in alloc; "{univariate} {circle} {masked:?} {plain:?}")
}

/// The value at the first number of the quotient whose chunks are the later lists, over the fields and over a configuration. A chunk
/// has a shift, the logarithm of a size, and the value of its first coefficient column; the other three are zero.
pub fn quotient(alloc: Global, lists: &[Vec<usize>]) -> Mem<String> {
    let [numbers, parts @ ..] = lists else {
        return String::from_str(alloc, "bad case");
    };
    let mut domains = Vec::new(alloc);
    let mut chunks = Vec::new(alloc);
    for part in parts {
        if let Some(domain) = coset_of(part) {
            let first = QuarticExtension::from_u64(number(part, 2) as u64);
            let zero = QuarticExtension::ZERO;
            domains.push(domain)?;
            chunks.push(Vec::from_array(alloc, [first, zero, zero, zero])?)?;
        }
    }
    let (domains, chunks) = (domains.as_slice(), chunks.as_slice());
    if chunks.len() != domains.len() || !are_all_disjoint(domains) {
        return String::from_str(alloc, "bad case");
    }
    let point = QuarticExtension::from_u64(number(numbers, 0) as u64);
    listed(
        alloc,
        &[
            recomposed_quotient(domains, chunks, point),
            recompose_quotient_from_chunks::<Config>(domains, chunks, point),
        ],
    )
}

/// A configuration of 4 and 5 bits: these bits, whether it masks, whether its challenger begins as a new one, and the greatest log
/// height.
pub fn configuration(alloc: Global) -> Mem<String> {
    let start = Sha256Challenger::new();
    let Some(scheme) = Scheme::new(NaiveDft, 1) else {
        return String::from_str(alloc, "none");
    };
    let config = Config::new(scheme, start, 4, 5);
    let lookup = config.lookup_proof_of_work_bits();
    let ood = config.ood_proof_of_work_bits();
    let (masks, begins) = (config.is_zk(), config.initialise_challenger() == start);
    let most = <Scheme as UnivariateStarkPcs<
        QuarticExtension,
        Sha256Challenger,
    >>::log_max_trace_height(config.pcs());
    format!(in alloc; "{lookup} {ood} {masks} {begins} {most}")
}
