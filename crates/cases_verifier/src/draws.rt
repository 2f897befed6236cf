//! The checks of a proof's shape, and what is drawn along a proof. Commitments are elements here, which the challenger observes as such.
ghost use Rattle.std.specs.Prelude.{◌≡◌, ◌≤◌, ◌<◌, ◌^◌, map};
ghost use Rattle.batch_statement.specs.Statement.{WellFormed, read_common};

use crate::plain::Plain;
use crate::proofs::{ProofOf, proof_of};
use crate::reading::elements;
use crate::settings::few_bits;
use crate::statement::Stated;
use crate::writing::{bad_case, push_values, push_word};
use air_core::{Air, BaseAir, Count, Node, SymbolicExpression};
use batch_statement::{BatchVerificationError, PreprocessedTraces, SharedData};
use p3_challenger::{CanSample, Sha256Challenger};
use p3_field::{BabyBear, FieldCore, Mem, PrimeCore64, QuarticExtension, RingCore};
use p3_lookup::{Kind, Lookup, Lookups};
use p3_uni_stark::TranscriptVersion;
use plain_pcs::PlainError;
use std::alloc::Global;
use verifier_draws::{Drawn, check_draws};
use verifier_shape::{ShapeBounds, check_shape};

// What a batch shares, where a commitment is an element.
type Shared = SharedData<BabyBear, BabyBear>;

// A proof whose commitments are elements.
type SmallProof = ProofOf<BabyBear, QuarticExtension>;

// What is drawn, or a refusal.
type Answer = Result<Drawn<QuarticExtension, Sha256Challenger>, BatchVerificationError<PlainError>>;

// The bounds of a backend that masks or doesn't, with traces of up to 2^26 rows.
fn bounds_of(masked: bool) -> ShapeBounds
    ensures fits { result.most < 64 }
    ensures masked { result.masks ≤ result.least }
    ensures masks { result.masks ≤ 1 }
{
    let masks = masked as usize;
    ShapeBounds {
        zk: masked,
        masks,
        least: masks,
        most: 26,
        dimension: 4,
    }
}

/// The logarithms of the tables' numbers of chunks, where no check of the proof's shape fails, else the refusal's text.
pub fn shape(alloc: Global, stated: &Stated, name: &str, numbers: &[u64]) -> Mem<String> {
    let Some(proof) = proof_of::<BabyBear, QuarticExtension>(alloc, numbers)? else {
        return bad_case(alloc);
    };
    let common = Shared::empty(alloc, stated.airs.len())?;
    if !common.fits(alloc, &stated.airs)? {
        return bad_case(alloc);
    }
    let bounds = bounds_of(name == "masked");
    let checked: Result<Vec<usize>, BatchVerificationError<PlainError>> = check_shape(
        alloc,
        &stated.airs,
        &stated.publics,
        &common,
        &proof,
        bounds,
    );
    match checked {
        Ok(chunks) => format!(in alloc; "{chunks:?}"),
        Err(error) => format!(in alloc; "{error}"),
    }
}

// The expression that is this constant.
fn constant(alloc: Global, element: BabyBear) -> Mem<SymbolicExpression<BabyBear>> {
    let mut nodes = Vec::new(alloc);
    nodes.push(Node::Constant(element))?;
    Ok(SymbolicExpression::new(nodes))
}

// A lookup that sends one tuple of ones of this width once, on the bus of this name, or within the table where it has none.
fn lookup(alloc: Global, bus: &str, width: usize) -> Mem<Lookup<BabyBear>> {
    let mut tuple = Vec::new(alloc);
    for _column in 0..width {
        tuple.push(constant(alloc, BabyBear::ONE)?)?;
    }
    let count = Count {
        value: constant(alloc, BabyBear::ONE)?,
        bound: 1,
    };
    let kind = if bus.is_empty() {
        Kind::Local
    } else {
        Kind::Global(String::from_str(alloc, bus)?)
    };
    Ok(Lookup::new(kind, vec![in alloc; tuple]?, vec![in alloc; count]?))
}

// What the worked batch shares: the first table has a lookup on a bus, one within it, and one on that bus again, the second none, and a commitment to
// no preprocessed trace is 9. Or there is none of these.
fn worked_common(alloc: Global, whole: bool) -> Mem<Shared> {
    if !whole {
        return Shared::empty(alloc, 2);
    }
    let mut first = Vec::new(alloc);
    for (bus, width) in [("fruit", 2), ("", 1), ("fruit", 2)] {
        first.push(lookup(alloc, bus, width)?)?;
    }
    let second = Lookups::new(Vec::new(alloc));
    let traces = PreprocessedTraces {
        commitment: BabyBear::from_u64(9),
        instances: vec![in alloc; None, None]?,
        matrix_to_instance: Vec::new(alloc),
    };
    let lookups = vec![in alloc; Lookups::new(first), second]?;
    Ok(Shared::new(Some(traces), lookups))
}

// What is drawn in a version along a proof of these tables with so many bits to grind, after the checks of its shape.
fn drawn(
    alloc: Global,
    airs: &[Plain],
    publics: &[Vec<BabyBear>],
    common: &Shared,
    proof: &SmallProof,
    bounds: ShapeBounds,
    version: TranscriptVersion,
    lookup_bits: usize,
    ood_bits: usize,
) -> Answer
    requires fits { bounds.most < 64 }
    requires masked { bounds.masks ≤ bounds.least }
    requires masks { bounds.masks ≤ 1 }
    requires formed { WellFormed (map ⟦<Plain as BaseAir<BabyBear>>⟧.declaration airs.now)
        (read_common common.now) }
    requires lookup { 2 ^ lookup_bits < 2013265921 }
    requires ood { 2 ^ ood_bits < 2013265921 }
{
    match check_shape(alloc, airs, publics, common, proof, bounds) {
        Ok(_chunks) => check_draws(
            alloc,
            airs,
            publics,
            common,
            proof,
            bounds,
            Sha256Challenger::new(),
            version,
            lookup_bits,
            ood_bits,
        ),
        Err(error) => Err(error),
    }
}

// The coefficients of each table's challenges, of alpha and of zeta, and the element that is drawn next.
fn drawn_text(alloc: Global, drawn: Drawn<QuarticExtension, Sha256Challenger>) -> Mem<String> {
    let mut out = String::new(alloc);
    for challenges in &drawn.challenges {
        push_values(alloc, &mut out, challenges)?;
        push_word(&mut out, "/")?;
    }
    push_values(alloc, &mut out, &[drawn.alpha, drawn.zeta])?;
    let mut challenger = drawn.challenger;
    let next: BabyBear = challenger.sample();
    push_word(&mut out, next.as_canonical_u64())?;
    Ok(out)
}

/// What is drawn along a proof of the worked batch, two tables without constraints, with so many bits to grind, in version 2 where a third number
/// stands behind these, or the refusal's text.
pub fn draws(alloc: Global, name: &str, head: &[u64], numbers: &[u64]) -> Mem<String> {
    let [lookup_bits, ood_bits, version @ ..] = head else {
        return bad_case(alloc);
    };
    let version = if version.is_empty() {
        TranscriptVersion::V1
    } else {
        TranscriptVersion::V2
    };
    let (Some(lookup_bits), Some(ood_bits)) = (few_bits(*lookup_bits), few_bits(*ood_bits)) else {
        return bad_case(alloc);
    };
    let Some(proof) = proof_of::<BabyBear, QuarticExtension>(alloc, numbers)? else {
        return bad_case(alloc);
    };
    let airs = [
        Plain {
            columns: 2,
            public_values: 0,
            hint: None,
            periodic: Vec::new(alloc),
        },
        Plain {
            columns: 3,
            public_values: 1,
            hint: None,
            periodic: Vec::new(alloc),
        },
    ];
    let publics = [Vec::new(alloc), elements(alloc, &[6])?];
    let whole = name == "whole";
    let common = worked_common(alloc, whole)?;
    if !common.fits(alloc, &airs)? {
        return bad_case(alloc);
    }
    let bounds = bounds_of(whole);
    match drawn(
        alloc,
        &airs,
        &publics,
        &common,
        &proof,
        bounds,
        version,
        lookup_bits,
        ood_bits,
    ) {
        Ok(drawn) => drawn_text(alloc, drawn),
        Err(error) => format!(in alloc; "{error}"),
    }
}
