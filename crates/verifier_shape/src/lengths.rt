//! The checks of what is opened of a table, one by one: each decides alone, so that a reader of all that fails can ask each.
ghost use Rattle.std.specs.Prelude.{◌≡◌, ◌↔◌, ◌^◌, ◌≤◌, [], ◌∷◌, IsTrue, MatchOption, All, length, map, option_map};
ghost use Rattle.verifier_shape.specs.ShapeChecks.{IsOpenedPreprocessed, chunk_count_check, chunk_length_check, local_check, next_check, permutation_width, permutation_width_check, preprocessed_next_check, preprocessed_next_of, preprocessed_width_check, public_values_check, random_check, terminal_presence_check, unpreprocessed_check};
ghost use Rattle.batch_statement.specs.Words.{is_there};
ghost use Rattle.batch_statement.specs.Verdict.{IsDecided};
ghost use Rattle.batch_statement.specs.declared.error.BatchVerificationError.TheVariants.{Lookup, Verification};
ghost use Rattle.p3_uni_stark.specs.declared.error.VerificationError.TheVariants.{InvalidProofShape};

use air_core::BaseAir;
use batch_statement::{BatchVerificationError, OpenedValuesWithLookups};
use p3_field::{Field, FieldCore, RingCore};
use p3_lookup::LookupError;
use p3_uni_stark::{InvalidProofShapeError, PreprocessedOpenedValues, VerificationError};

// A refusal of the proof's shape.
fn of_shape<R>(error: InvalidProofShapeError) -> BatchVerificationError<R>
    ensures { result ≡ Verification (InvalidProofShape error) }
{
    BatchVerificationError::Verification(VerificationError::InvalidProofShape(error))
}

// A refusal of the lookups' parts.
fn of_lookups<R>(error: LookupError) -> BatchVerificationError<R>
    ensures { result ≡ Lookup error }
{
    BatchVerificationError::Lookup(error)
}

/// The check of a table's public values: `PublicValuesLengthMismatch` exactly where there are not as many as its AIR declares.
/// The constraints read them by place, so one that is lacking would be read as some other value.
#[tactic(auto, unfolding(p3_field::specs::Checks::NoneFails, p3_field::specs::Checks::FirstFails))]
pub fn check_public_values<F: Field, A: BaseAir<F>, R>(
    air: &A,
    publics: &[F],
) -> Result<(), BatchVerificationError<R>>
    ensures { IsDecided (public_values_check (A.declaration air.now).public_values
        (length publics.now) ∷ []) result }
{
    let expected = air.num_public_values();
    let got = publics.len();
    if got != expected {
        return Err(of_shape(InvalidProofShapeError::PublicValuesLengthMismatch { expected, got }));
    }
    Ok(())
}

/// The check of a table's main row: `TraceLocalWidthMismatch` with the table's number exactly where it has not as many values
/// as the AIR has columns.
#[tactic(auto, unfolding(p3_field::specs::Checks::NoneFails, p3_field::specs::Checks::FirstFails))]
pub fn check_trace_local<E, R>(
    index: usize,
    width: usize,
    row: &[E],
) -> Result<(), BatchVerificationError<R>>
    ensures { IsDecided (local_check index width row.now ∷ []) result }
{
    let got = row.len();
    if got != width {
        return Err(of_shape(InvalidProofShapeError::TraceLocalWidthMismatch {
            air: index,
            expected: width,
            got,
        }));
    }
    Ok(())
}

/// The check of a table's next row: where its AIR declares no next column, `UnexpectedTraceNext` exactly where a next row is there;
/// else `TraceNextMismatch` exactly where none of the table's width is.
#[tactic(auto, unfolding(p3_field::specs::Checks::NoneFails, p3_field::specs::Checks::FirstFails))]
pub fn check_trace_next<E, R>(
    index: usize,
    width: usize,
    declared: &[usize],
    next: &Option<Vec<E>>,
) -> Result<(), BatchVerificationError<R>>
    ensures { IsDecided (next_check index width declared.now (option_map (λ v. v.items) next.now)
        ∷ []) result }
{
    if declared.is_empty() {
        if next.is_some() {
            return Err(of_shape(InvalidProofShapeError::UnexpectedTraceNext { air: Some(index) }));
        }
        return Ok(());
    }
    if let Some(row) = next {
        if row.len() == width {
            return Ok(());
        }
    }
    Err(of_shape(InvalidProofShapeError::TraceNextMismatch { air: Some(index) }))
}

// Whether each list has so many values.
fn all_have<E>(lists: &[Vec<E>], values: usize) -> bool
    ensures { IsTrue result ↔ All (λ c. length c ≡ values) (map (λ v. v.items) lists.now) }
{
    for list in lists {
        if list.len() != values {
            return false;
        }
    }
    true
}

/// The check of the number of a quotient's chunks: `QuotientChunksCountMismatch` with the table's number exactly where there are
/// not so many. The quotient is put together of all of them.
#[tactic(auto, unfolding(p3_field::specs::Checks::NoneFails, p3_field::specs::Checks::FirstFails))]
pub fn check_chunk_count<E, R>(
    index: usize,
    expected: usize,
    chunks: &[Vec<E>],
) -> Result<(), BatchVerificationError<R>>
    ensures { IsDecided (chunk_count_check index expected (map (λ v. v.items) chunks.now) ∷ [])
        result }
{
    let got = chunks.len();
    if got != expected {
        return Err(of_shape(InvalidProofShapeError::QuotientChunksCountMismatch {
            air: index,
            expected,
            got,
        }));
    }
    Ok(())
}

/// The check of what is opened of each chunk: `QuotientChunkDimensionMismatch` with the table's number exactly where some chunk has
/// not a value for each basis element of the challenges' field.
#[tactic(auto, unfolding(p3_field::specs::Checks::NoneFails, p3_field::specs::Checks::FirstFails))]
pub fn check_chunk_lengths<E, R>(
    index: usize,
    dimension: usize,
    chunks: &[Vec<E>],
) -> Result<(), BatchVerificationError<R>>
    ensures { IsDecided (chunk_length_check index dimension (map (λ v. v.items) chunks.now) ∷ [])
        result }
{
    if !all_have(chunks, dimension) {
        return Err(of_shape(InvalidProofShapeError::QuotientChunkDimensionMismatch { air: index }));
    }
    Ok(())
}

/// The check of what is random: `RandomizationError` exactly where it is there without a value for each basis element of the
/// challenges' field.
#[tactic(auto, unfolding(p3_field::specs::Checks::NoneFails, p3_field::specs::Checks::FirstFails))]
pub fn check_random<E, R>(
    dimension: usize,
    random: &Option<Vec<E>>,
) -> Result<(), BatchVerificationError<R>>
    ensures { IsDecided (random_check dimension (option_map (λ v. v.items) random.now) ∷ [])
        result }
{
    if let Some(random) = random {
        if random.len() != dimension {
            return Err(BatchVerificationError::Verification(VerificationError::RandomizationError));
        }
    }
    Ok(())
}

/// The check of a table without preprocessed columns: `UnexpectedPreprocessedValues` exactly where preprocessed rows are opened.
#[tactic(auto, unfolding(p3_field::specs::Checks::NoneFails, p3_field::specs::Checks::FirstFails))]
pub fn check_unpreprocessed<E, R>(
    index: usize,
    opened: &Option<PreprocessedOpenedValues<E>>,
) -> Result<(), BatchVerificationError<R>>
    ensures { IsDecided (unpreprocessed_check index opened.now ∷ []) result }
{
    if opened.is_some() {
        return Err(of_shape(InvalidProofShapeError::UnexpectedPreprocessedValues {
            air: Some(index),
        }));
    }
    Ok(())
}

// Whether preprocessed rows of this width are opened as declared.
fn is_opened<E>(
    width: usize,
    declared: &[usize],
    opened: &Option<PreprocessedOpenedValues<E>>,
) -> bool
    ensures { IsTrue result ↔ IsOpenedPreprocessed width declared.now opened.now }
{
    match opened {
        None => false,
        Some(rows) => {
            let next = match &rows.next {
                None => 0,
                Some(next) => next.len(),
            };
            let expected = if declared.is_empty() { 0 } else { width };
            rows.local.len() == width && next == expected
        }
    }
}

/// The check of the width of a table's preprocessed rows: `PreprocessedWidthMismatch` with the table's number exactly where a row of
/// this width isn't opened, or a next row of this width where next columns are declared, or a next row with values where none are.
#[tactic(auto, unfolding(p3_field::specs::Checks::NoneFails, p3_field::specs::Checks::FirstFails))]
pub fn check_preprocessed_width<E, R>(
    index: usize,
    width: usize,
    declared: &[usize],
    opened: &Option<PreprocessedOpenedValues<E>>,
) -> Result<(), BatchVerificationError<R>>
    ensures { IsDecided (preprocessed_width_check index width declared.now opened.now ∷ []) result }
{
    if !is_opened(width, declared, opened) {
        return Err(of_shape(InvalidProofShapeError::PreprocessedWidthMismatch { air: index }));
    }
    Ok(())
}

// Whether a next preprocessed row is opened.
fn has_next<E>(opened: &Option<PreprocessedOpenedValues<E>>) -> bool
    ensures { result ≡ is_there (preprocessed_next_of opened.now) }
{
    match opened {
        None => false,
        Some(rows) => rows.next.is_some(),
    }
}

/// The check that no next preprocessed row is there where no next columns are declared: else `UnexpectedPreprocessedNext`, also of
/// an empty one, so that one statement has no two proofs that differ in it.
#[tactic(auto, unfolding(p3_field::specs::Checks::NoneFails, p3_field::specs::Checks::FirstFails))]
pub fn check_preprocessed_next<E, R>(
    index: usize,
    declared: &[usize],
    opened: &Option<PreprocessedOpenedValues<E>>,
) -> Result<(), BatchVerificationError<R>>
    ensures { IsDecided (preprocessed_next_check index declared.now opened.now ∷ []) result }
{
    if declared.is_empty() && has_next(opened) {
        return Err(of_shape(InvalidProofShapeError::UnexpectedPreprocessedNext {
            air: Some(index),
        }));
    }
    Ok(())
}

// How many values a permutation row has, where so many can be.
fn width_of_permutation(lookups: usize, dimension: usize) -> Option<usize>
    ensures { MatchOption result (2 ^ 64 ≤ permutation_width lookups dimension)
        (λ n. n ≡ permutation_width lookups dimension) }
{
    if lookups == 0 {
        return Some(0);
    }
    match lookups.checked_add(1) {
        Some(columns) => columns.checked_mul(dimension),
        None if dimension == 0 => Some(0),
        None => None,
    }
}

/// The check of a table's permutation rows: `PermutationWidthMismatch` with the table's number exactly where one of the two has not
/// a value for each coefficient of the running sum and of each lookup's column, or has some where there is no lookup.
#[tactic(auto, unfolding(p3_field::specs::Checks::NoneFails, p3_field::specs::Checks::FirstFails))]
pub fn check_permutation_width<E, R>(
    index: usize,
    lookups: usize,
    dimension: usize,
    opened: &OpenedValuesWithLookups<E>,
) -> Result<(), BatchVerificationError<R>>
    ensures { IsDecided (permutation_width_check index lookups dimension opened.now ∷ []) result }
{
    let local = opened.permutation_local.len();
    let next = opened.permutation_next.len();
    match width_of_permutation(lookups, dimension) {
        Some(width) => {
            if local != width || next != width {
                return Err(of_lookups(LookupError::PermutationWidthMismatch {
                    air: index,
                    expected: width,
                }));
            }
        }
        None => {
            return Err(of_lookups(LookupError::PermutationWidthMismatch {
                air: index,
                expected: usize::MAX,
            }));
        }
    }
    Ok(())
}

/// The check of a table's terminal: `TerminalPresenceMismatch` with the table's number exactly where it is there without lookups, or
/// isn't there though the table has lookups.
#[tactic(auto, unfolding(p3_field::specs::Checks::NoneFails, p3_field::specs::Checks::FirstFails))]
pub fn check_terminal_presence<R>(
    index: usize,
    lookups: usize,
    terminal: bool,
) -> Result<(), BatchVerificationError<R>>
    ensures { IsDecided (terminal_presence_check index lookups terminal ∷ []) result }
{
    let expected = lookups != 0;
    if terminal != expected {
        return Err(of_lookups(LookupError::TerminalPresenceMismatch {
            air: index,
            expected_present: expected,
            got_present: terminal,
        }));
    }
    Ok(())
}
