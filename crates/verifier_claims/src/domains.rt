//! The sizes of the quotients of a batch's tables, and the domains of their chunks.
ghost use Rattle.std.specs.Prelude.{◌≡◌, ℕ, ◌+◌, ◌^◌, ◌<◌, ◌≤◌, Some, IfOk, length, map};
ghost use Rattle.std.specs.Prelude.{slice_index_or as get_or};
ghost use Rattle.std.specs.Int.{IsPowerOfTwo};
ghost use Rattle.p3_field.specs.Checks.{in_turn};
ghost use Rattle.p3_field.specs.Domain.{subgroup};
ghost use Rattle.p3_field.specs.Poly.{tabulate};
ghost use Rattle.p3_uni_stark.specs.declared.error.InvalidProofShapeError.TheVariants.{QuotientDomainTooLarge};
ghost use Rattle.p3_uni_stark.specs.declared.error.VerificationError.TheVariants.{InvalidProofShape};
ghost use Rattle.verifier_claims.specs.ClaimChecks.{domain_by, sizes_fit};
ghost use Rattle.verifier_claims.specs.Claims.{chunk_domains_at};
ghost use Rattle.batch_statement.specs.Words.{bits_at};
ghost use Rattle.batch_config.specs.Domains.{chunks_over};
ghost use Rattle.batch_statement.specs.Verdict.{IsDecided};
ghost use Rattle.batch_statement.specs.declared.error.BatchVerificationError.TheVariants.{Verification};

use batch_statement::BatchVerificationError;
use commit_core::PolynomialSpace;
use p3_field::{
    FieldCore, Mem, PrimeCharacteristicRing, RingCore, TwoAdicCore, TwoAdicField,
    TwoAdicMultiplicativeCoset,
};
use p3_uni_stark::InvalidProofShapeError;
use std::alloc::Global;

// 2^`log`.
fn shifted(log: usize) -> usize
    requires { log < 64 }
    ensures { result ≡ 2 ^ log }
{
    1 << log
}

// The same, as a power of two.
pub(crate) fn power_of_two(log: usize) -> usize
    requires { log < 64 }
    ensures size { result ≡ 2 ^ log }
    ensures power { IsPowerOfTwo result }
{
    shifted(log)
}

// The subgroup of size 2^`log`, as a domain.
pub(crate) fn extended_domain<F: TwoAdicField>(log: usize) -> TwoAdicMultiplicativeCoset<F>
    requires { log ≤ F.TWO_ADICITY }
    ensures { result ≡ subgroup F.ring log }
{
    match TwoAdicMultiplicativeCoset::new(F::ONE, log) {
        Some(domain) => domain,
        None => unreachable!(),
    }
}

// Why there is no domain for a table's quotient.
fn too_large<R>(index: usize, maximum: usize, got: usize) -> BatchVerificationError<R>
    ensures { result ≡ Verification
        (InvalidProofShape (QuotientDomainTooLarge (Some index) maximum got)) }
{
    InvalidProofShapeError::QuotientDomainTooLarge {
        air: Some(index),
        maximum,
        got,
    }
    .into()
}

/// The check that there is a domain for the quotient of a table with these degree bits, whose number of chunks has this logarithm:
/// `QuotientDomainTooLarge` with the table's number exactly where their sum is 64 or more, and then with 63 as the maximum, or where it is above
/// the field's two-adicity, and then with `most`. Both fields stop at the greatest `usize`.
#[tactic(auto, unfolding(p3_field::specs::Checks::NoneFails, p3_field::specs::Checks::FirstFails))]
pub fn domain_fits<F: TwoAdicField, R>(
    index: usize,
    bits: usize,
    chunks: usize,
    most: usize,
) -> Result<(), BatchVerificationError<R>>
    ensures { IsDecided (domain_by index bits chunks most F.TWO_ADICITY) result }
{
    let got = bits.saturating_add(chunks);
    if got >= 64 {
        return Err(too_large(index, 63, got));
    }
    if got > F::TWO_ADICITY {
        return Err(too_large(index, most, got));
    }
    Ok(())
}

// The checks of one table's number of chunks and of its quotient's domain.
#[tactic(auto, unfolding(p3_field::specs::Checks::NoneFails, p3_field::specs::Checks::FirstFails))]
fn size_at_index<F: TwoAdicField, R>(
    index: usize,
    degree_bits: &[usize],
    log_chunks: &[usize],
    masks: usize,
    most: usize,
) -> Result<(), BatchVerificationError<R>>
    requires bits { index < length degree_bits.now }
    requires chunks { index < length log_chunks.now }
    ensures { IsDecided (sizes_fit masks most F.TWO_ADICITY degree_bits.now log_chunks.now index)
        result }
{
    let chunks = log_chunks[index];
    let got = chunks.saturating_add(masks);
    if got >= 64 {
        return Err(too_large(index, 63, got));
    }
    domain_fits::<F, R>(index, degree_bits[index], chunks, most)
}

// The checks of the tables' numbers of chunks and of their quotients' domains.
pub(crate) fn all_sizes<F: TwoAdicField, R>(
    degree_bits: &[usize],
    log_chunks: &[usize],
    masks: usize,
    most: usize,
) -> Result<(), BatchVerificationError<R>>
    requires { length log_chunks.now ≡ length degree_bits.now }
    ensures { IsDecided (in_turn (length degree_bits.now)
        (sizes_fit masks most F.TWO_ADICITY degree_bits.now log_chunks.now)) result }
{
    for index in 0..degree_bits.len() {
        size_at_index::<F, R>(index, degree_bits, log_chunks, masks, most)?;
    }
    Ok(())
}

// The domains of the 2^(`chunks` + `masks`) chunks of the quotient of a table with these degree bits.
fn domains_of_chunks<F: TwoAdicField>(
    alloc: Global,
    bits: usize,
    chunks: usize,
    masks: usize,
) -> Mem<Vec<TwoAdicMultiplicativeCoset<F>>>
    requires masked { masks ≤ bits }
    requires fits { bits + chunks ≤ F.TWO_ADICITY }
    requires short { bits + chunks < 64 }
    ensures { IfOk result (λ v. v.items ≡ chunks_over F.ring F.root F.GENERATOR masks bits chunks) }
{
    let extended = extended_domain(bits);
    let domain = extended.create_disjoint_domain(power_of_two(bits + chunks));
    let parts = domain.split_domains(alloc, power_of_two(chunks + masks))?;
    Ok(parts)
}

// The domains of all chunks of tables that passed the checks of their sizes.
pub(crate) fn all_domains<F: TwoAdicField>(
    alloc: Global,
    degree_bits: &[usize],
    log_chunks: &[usize],
    masks: usize,
) -> Mem<Vec<Vec<TwoAdicMultiplicativeCoset<F>>>>
    requires chunks { length log_chunks.now ≡ length degree_bits.now }
    requires masked { (i : ℕ) → i < length degree_bits.now → masks ≤ bits_at degree_bits.now i }
    requires fits { (i : ℕ) → i < length degree_bits.now
        → bits_at degree_bits.now i + get_or log_chunks.now i 0 ≤ F.TWO_ADICITY }
    requires short { (i : ℕ) → i < length degree_bits.now
        → bits_at degree_bits.now i + get_or log_chunks.now i 0 < 64 }
    ensures { IfOk result (λ v.
        map (λ d. d.items) v.items
        ≡ tabulate (length degree_bits.now)
        (chunk_domains_at F.ring F.root F.GENERATOR masks degree_bits.now log_chunks.now)) }
{
    let mut domains = Vec::new(alloc);
    for index in 0..degree_bits.len() {
        let parts = domains_of_chunks(alloc, degree_bits[index], log_chunks[index], masks)?;
        domains.push(parts)?;
    }
    Ok(domains)
}
