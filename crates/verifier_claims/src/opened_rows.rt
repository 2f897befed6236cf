//! The rows that are opened of one table, each by itself.
ghost use Rattle.std.specs.Prelude.{◌≡◌, ◌↔◌, IsTrue, length, map, option_map};
ghost use Rattle.verifier_shape.specs.ShapeChecks.{preprocessed_next_of};
ghost use Rattle.batch_statement.specs.Words.{is_there};

use batch_statement::OpenedValuesWithLookups;

// What is random.
pub(crate) fn random_of<E>(opened: &OpenedValuesWithLookups<E>) -> &Option<Vec<E>>
    ensures { option_map (λ v. v.items) result.now ≡ opened.now.base.random }
{
    let base = &opened.base_opened_values;
    &base.random
}

// Whether something random is opened.
pub(crate) fn has_random<E>(opened: &OpenedValuesWithLookups<E>) -> bool
    ensures { result ≡ is_there opened.now.base.random }
{
    let base = &opened.base_opened_values;
    base.random.is_some()
}

// Whether a next main row is opened.
pub(crate) fn has_next<E>(opened: &OpenedValuesWithLookups<E>) -> bool
    ensures { result ≡ is_there opened.now.base.trace_next }
{
    let base = &opened.base_opened_values;
    base.trace_next.is_some()
}

// The quotient's chunks.
pub(crate) fn chunks_of<E>(opened: &OpenedValuesWithLookups<E>) -> &[Vec<E>]
    ensures { map (λ v. v.items) result.now ≡ opened.now.base.quotient_chunks }
{
    let base = &opened.base_opened_values;
    &base.quotient_chunks
}

// How many of them are opened.
pub(crate) fn chunk_count<E>(opened: &OpenedValuesWithLookups<E>) -> usize
    ensures { result ≡ length opened.now.base.quotient_chunks }
{
    let base = &opened.base_opened_values;
    base.quotient_chunks.len()
}

// Whether preprocessed rows are opened.
pub(crate) fn has_preprocessed<E>(opened: &OpenedValuesWithLookups<E>) -> bool
    ensures { result ≡ is_there opened.now.base.preprocessed }
{
    let base = &opened.base_opened_values;
    base.preprocessed.is_some()
}

// Whether a preprocessed next row is opened.
pub(crate) fn has_preprocessed_next<E>(opened: &OpenedValuesWithLookups<E>) -> bool
    ensures { result ≡ is_there (preprocessed_next_of opened.now.base.preprocessed) }
{
    let base = &opened.base_opened_values;
    match &base.preprocessed {
        None => false,
        Some(rows) => rows.next.is_some(),
    }
}

// The current permutation row.
pub(crate) fn local_row_of<E>(opened: &OpenedValuesWithLookups<E>) -> &[E]
    ensures { result.now ≡ opened.now.permutation_local }
{
    &opened.permutation_local
}

// The next one.
pub(crate) fn next_row_of<E>(opened: &OpenedValuesWithLookups<E>) -> &[E]
    ensures { result.now ≡ opened.now.permutation_next }
{
    &opened.permutation_next
}

// Whether both have one length.
pub(crate) fn are_paired<E>(opened: &OpenedValuesWithLookups<E>) -> bool
    ensures { IsTrue result ↔ (length opened.now.permutation_local
        ≡ length opened.now.permutation_next) }
{
    opened.permutation_local.len() == opened.permutation_next.len()
}
