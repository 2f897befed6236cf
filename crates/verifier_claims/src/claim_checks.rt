//! The checks of the call that makes a batch's claims.
ghost use Rattle.std.specs.Prelude.{◌≡◌, ℕ, ◌+◌, ◌<◌, ◌↔◌, IsTrue, All, Some, None, true, length, map};
ghost use Rattle.std.specs.Prelude.{slice_index_or as get_or};
ghost use Rattle.p3_field.specs.Checks.{in_turn};
ghost use Rattle.verifier_claims.specs.ClaimChecks.{HaveClaimLengths, listed_check, bits_between, random_check, next_opened_check, chunks_counted, columns_fit, entries_in, matrix_fits, rows_paired};
ghost use Rattle.verifier_claims.specs.Claims.{matrix_tables};
ghost use Rattle.verifier_shape.specs.ShapeChecks.{HasEntries};
ghost use Rattle.batch_statement.specs.Words.{is_there};
ghost use Rattle.batch_statement.specs.Verdict.{IsDecided};

use crate::domains::power_of_two;
use crate::opened_rows::{
    are_paired, chunk_count, has_next, has_preprocessed, has_preprocessed_next, has_random,
};
use crate::preprocessed::{
    declares_next, declares_preprocessed_next, entries, has_bits, has_entries, matrices,
};
use air_core::BaseAir;
use batch_statement::{
    BatchVerificationError, OpenedValuesWithLookups, PreprocessedInstanceMeta, PreprocessedTraces,
};
use p3_field::FieldCore;
use p3_lookup::LookupError;
use p3_uni_stark::{InvalidProofShapeError, VerificationError};

// Whether the lists of a batch have these lengths, each an item for each of so many tables.
fn are_listed<Com>(
    tables: usize,
    preprocessed: &Option<PreprocessedTraces<Com>>,
    instances: usize,
    degree_bits: usize,
    widths: usize,
    chunks: usize,
) -> bool
    ensures { IsTrue result ↔ HaveClaimLengths tables preprocessed.now instances degree_bits widths
        chunks }
{
    instances == tables
        && degree_bits == tables
        && widths == tables
        && chunks == tables
        && has_entries(preprocessed, tables)
}

// The check of the lists' lengths.
#[tactic(auto, unfolding(p3_field::specs::Checks::NoneFails, p3_field::specs::Checks::FirstFails))]
pub(crate) fn listed<Com, R>(
    tables: usize,
    preprocessed: &Option<PreprocessedTraces<Com>>,
    instances: usize,
    degree_bits: usize,
    widths: usize,
    chunks: usize,
) -> Result<(), BatchVerificationError<R>>
    ensures { IsDecided (listed_check tables preprocessed.now instances degree_bits widths chunks)
        result }
{
    if !are_listed(tables, preprocessed, instances, degree_bits, widths, chunks) {
        return Err(InvalidProofShapeError::InstanceCountMismatch.into());
    }
    Ok(())
}

// The checks of one table's degree bits.
#[tactic(auto, unfolding(p3_field::specs::Checks::NoneFails, p3_field::specs::Checks::FirstFails))]
fn bits_at_index<R>(
    index: usize,
    degree_bits: &[usize],
    least: usize,
    most: usize,
) -> Result<(), BatchVerificationError<R>>
    requires { index < length degree_bits.now }
    ensures { IsDecided (bits_between least most degree_bits.now index) result }
{
    let bits = degree_bits[index];
    if bits < least {
        return Err(InvalidProofShapeError::DegreeBitsTooSmall {
            air: Some(index),
            minimum: least,
            got: bits,
        }
        .into());
    }
    if bits > most {
        return Err(InvalidProofShapeError::DegreeBitsTooLarge {
            air: Some(index),
            maximum: most,
            got: bits,
        }
        .into());
    }
    Ok(())
}

// The checks of the tables' degree bits.
pub(crate) fn all_bits<R>(
    degree_bits: &[usize],
    least: usize,
    most: usize,
) -> Result<(), BatchVerificationError<R>>
    ensures { IsDecided (in_turn (length degree_bits.now) (bits_between least most degree_bits.now))
        result }
{
    for index in 0..degree_bits.len() {
        bits_at_index(index, degree_bits, least, most)?;
    }
    Ok(())
}

// Whether something random is opened of each table.
fn all_have_random<E>(instances: &[OpenedValuesWithLookups<E>]) -> bool
    ensures { IsTrue result ↔ All (λ o. is_there o.base.random ≡ true) instances.now }
{
    for opened in instances {
        if !has_random(opened) {
            return false;
        }
    }
    true
}

// The check that something random is opened of each table, where that is committed to.
#[tactic(auto, unfolding(p3_field::specs::Checks::NoneFails, p3_field::specs::Checks::FirstFails))]
fn all_random<E, R>(
    committed: bool,
    instances: &[OpenedValuesWithLookups<E>],
) -> Result<(), BatchVerificationError<R>>
    ensures { IsDecided (random_check committed instances.now) result }
{
    if committed && !all_have_random(instances) {
        return Err(BatchVerificationError::Verification(VerificationError::RandomizationError));
    }
    Ok(())
}

// The check that one table's declared next row is there.
#[tactic(auto, unfolding(p3_field::specs::Checks::NoneFails, p3_field::specs::Checks::FirstFails))]
fn next_at_index<F: FieldCore, A: BaseAir<F>, E, R>(
    index: usize,
    airs: &[A],
    instances: &[OpenedValuesWithLookups<E>],
) -> Result<(), BatchVerificationError<R>>
    requires airs { index < length airs.now }
    requires instances { index < length instances.now }
    ensures { IsDecided (next_opened_check (map A.declaration airs.now) instances.now index)
        result }
{
    if declares_next(&airs[index]) && !has_next(&instances[index]) {
        return Err(InvalidProofShapeError::TraceNextMismatch { air: Some(index) }.into());
    }
    Ok(())
}

// The checks that the tables' declared next rows are there.
pub(crate) fn all_next<F: FieldCore, A: BaseAir<F>, E, R>(
    airs: &[A],
    instances: &[OpenedValuesWithLookups<E>],
) -> Result<(), BatchVerificationError<R>>
    requires instances { length instances.now ≡ length airs.now }
    ensures { IsDecided (in_turn (length airs.now)
        (next_opened_check (map A.declaration airs.now) instances.now)) result }
{
    for index in 0..airs.len() {
        next_at_index(index, airs, instances)?;
    }
    Ok(())
}

// The check of the number of one table's chunks.
#[tactic(auto, unfolding(p3_field::specs::Checks::NoneFails, p3_field::specs::Checks::FirstFails))]
fn count_at_index<E, R>(
    index: usize,
    log_chunks: &[usize],
    masks: usize,
    instances: &[OpenedValuesWithLookups<E>],
) -> Result<(), BatchVerificationError<R>>
    requires chunks { index < length log_chunks.now }
    requires instances { index < length instances.now }
    requires fits { get_or log_chunks.now index 0 + masks < 64 }
    ensures { IsDecided (chunks_counted masks log_chunks.now instances.now index) result }
{
    if chunk_count(&instances[index]) != power_of_two(log_chunks[index] + masks) {
        return Err(InvalidProofShapeError::QuotientDomainsCountMismatch { air: index }.into());
    }
    Ok(())
}

// The checks of the numbers of the tables' chunks.
pub(crate) fn all_counts<E, R>(
    log_chunks: &[usize],
    masks: usize,
    instances: &[OpenedValuesWithLookups<E>],
) -> Result<(), BatchVerificationError<R>>
    requires instances { length instances.now ≡ length log_chunks.now }
    requires fits { (i : ℕ) → i < length log_chunks.now → get_or log_chunks.now i 0 + masks < 64 }
    ensures { IsDecided (in_turn (length log_chunks.now)
        (chunks_counted masks log_chunks.now instances.now)) result }
{
    for index in 0..log_chunks.len() {
        count_at_index(index, log_chunks, masks, instances)?;
    }
    Ok(())
}

// The checks of one table's preprocessed columns.
#[tactic(auto, unfolding(p3_field::specs::Checks::NoneFails, p3_field::specs::Checks::FirstFails))]
fn columns_at_index<F: FieldCore, A: BaseAir<F>, E, R>(
    index: usize,
    airs: &[A],
    entries: &[Option<PreprocessedInstanceMeta>],
    degree_bits: &[usize],
    widths: &[usize],
    instances: &[OpenedValuesWithLookups<E>],
) -> Result<(), BatchVerificationError<R>>
    requires airs { index < length airs.now }
    requires entries { index < length entries.now }
    requires bits { index < length degree_bits.now }
    requires widths { index < length widths.now }
    requires instances { index < length instances.now }
    ensures { IsDecided (columns_fit (map A.declaration airs.now) (get_or entries.now index None)
        degree_bits.now widths.now instances.now index) result }
{
    if widths[index] == 0 {
        return Err(InvalidProofShapeError::PreprocessedMetadataMismatch { air: index }.into());
    }
    if !has_preprocessed(&instances[index]) {
        return Err(InvalidProofShapeError::MissingPreprocessedValues { air: index }.into());
    }
    if !has_bits(&entries[index], degree_bits[index]) {
        return Err(InvalidProofShapeError::PreprocessedMetadataMismatch { air: index }.into());
    }
    if declares_preprocessed_next(&airs[index]) && !has_preprocessed_next(&instances[index]) {
        return Err(InvalidProofShapeError::MissingPreprocessedValues { air: index }.into());
    }
    Ok(())
}

// The same of the table of one committed matrix.
fn matrix_at_index<F: FieldCore, A: BaseAir<F>, E, R>(
    matrix: usize,
    airs: &[A],
    matrices: &[usize],
    entries: &[Option<PreprocessedInstanceMeta>],
    degree_bits: &[usize],
    widths: &[usize],
    instances: &[OpenedValuesWithLookups<E>],
) -> Result<(), BatchVerificationError<R>>
    requires matrix { matrix < length matrices.now }
    requires listed { All (λ i. i < length airs.now) matrices.now }
    requires entries { length entries.now ≡ length airs.now }
    requires bits { length degree_bits.now ≡ length airs.now }
    requires widths { length widths.now ≡ length airs.now }
    requires instances { length instances.now ≡ length airs.now }
    ensures { IsDecided (matrix_fits (map A.declaration airs.now) matrices.now entries.now
        degree_bits.now widths.now instances.now matrix) result }
{
    let index = matrices[matrix];
    columns_at_index(index, airs, entries, degree_bits, widths, instances)
}

// The checks of the tables of all committed matrices.
fn matrices_of<F: FieldCore, A: BaseAir<F>, E, R>(
    airs: &[A],
    matrices: &[usize],
    entries: &[Option<PreprocessedInstanceMeta>],
    degree_bits: &[usize],
    widths: &[usize],
    instances: &[OpenedValuesWithLookups<E>],
) -> Result<(), BatchVerificationError<R>>
    requires listed { All (λ i. i < length airs.now) matrices.now }
    requires entries { length entries.now ≡ length airs.now }
    requires bits { length degree_bits.now ≡ length airs.now }
    requires widths { length widths.now ≡ length airs.now }
    requires instances { length instances.now ≡ length airs.now }
    ensures { IsDecided (in_turn (length matrices.now)
        (matrix_fits (map A.declaration airs.now) matrices.now entries.now degree_bits.now
        widths.now instances.now)) result }
{
    for matrix in 0..matrices.len() {
        matrix_at_index(
            matrix,
            airs,
            matrices,
            entries,
            degree_bits,
            widths,
            instances,
        )?;
    }
    Ok(())
}

// The checks of the tables of all committed matrices, where there are such.
#[tactic(auto, unfolding(p3_field::specs::Checks::NoneFails, p3_field::specs::Checks::in_turn))]
pub(crate) fn all_matrices<F: FieldCore, A: BaseAir<F>, E, Com, R>(
    airs: &[A],
    preprocessed: &Option<PreprocessedTraces<Com>>,
    degree_bits: &[usize],
    widths: &[usize],
    instances: &[OpenedValuesWithLookups<E>],
) -> Result<(), BatchVerificationError<R>>
    requires listed { All (λ i. i < length airs.now) (matrix_tables preprocessed.now) }
    requires entries { HasEntries (length airs.now) preprocessed.now }
    requires bits { length degree_bits.now ≡ length airs.now }
    requires widths { length widths.now ≡ length airs.now }
    requires instances { length instances.now ≡ length airs.now }
    ensures { IsDecided (in_turn (length (matrix_tables preprocessed.now))
        (matrix_fits (map A.declaration airs.now) (matrix_tables preprocessed.now)
        (entries_in preprocessed.now) degree_bits.now widths.now instances.now)) result }
{
    match preprocessed {
        None => Ok(()),
        Some(traces) => matrices_of(
            airs,
            matrices(traces),
            entries(traces),
            degree_bits,
            widths,
            instances,
        ),
    }
}

// The check that one table's permutation rows have one length, where they are committed to.
#[tactic(auto, unfolding(p3_field::specs::Checks::NoneFails, p3_field::specs::Checks::FirstFails))]
fn rows_at_index<E, R>(
    index: usize,
    committed: bool,
    instances: &[OpenedValuesWithLookups<E>],
) -> Result<(), BatchVerificationError<R>>
    requires { index < length instances.now }
    ensures { IsDecided (rows_paired committed instances.now index) result }
{
    if committed && !are_paired(&instances[index]) {
        return Err(BatchVerificationError::Lookup(LookupError::PermutationLengthMismatch {
            air: index,
        }));
    }
    Ok(())
}

// The checks that the tables' permutation rows have one length.
fn all_rows<E, R>(
    committed: bool,
    instances: &[OpenedValuesWithLookups<E>],
) -> Result<(), BatchVerificationError<R>>
    ensures { IsDecided (in_turn (length instances.now) (rows_paired committed instances.now))
        result }
{
    for index in 0..instances.len() {
        rows_at_index(index, committed, instances)?;
    }
    Ok(())
}

// Whether there is a commitment.
fn is_committed<Com>(commitment: &Option<Com>) -> bool
    ensures { result ≡ is_there commitment.now }
{
    commitment.is_some()
}

// `all_random` by the random commitment.
pub(crate) fn random_where<E, Com, R>(
    commitment: &Option<Com>,
    instances: &[OpenedValuesWithLookups<E>],
) -> Result<(), BatchVerificationError<R>>
    ensures { IsDecided (random_check (is_there commitment.now) instances.now) result }
{
    all_random(is_committed(commitment), instances)
}

// `all_rows` by the permutation commitment.
pub(crate) fn rows_where<E, Com, R>(
    commitment: &Option<Com>,
    instances: &[OpenedValuesWithLookups<E>],
) -> Result<(), BatchVerificationError<R>>
    ensures { IsDecided (in_turn (length instances.now)
        (rows_paired (is_there commitment.now) instances.now)) result }
{
    all_rows(is_committed(commitment), instances)
}
