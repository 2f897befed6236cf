//! The checks of what is opened of a table.
ghost use Rattle.std.specs.Prelude.{◌≡◌, length};
ghost use Rattle.air_core.specs.Shape.{width_of};
ghost use Rattle.verifier_shape.specs.ShapeChecks.{chunk_checks, lookup_checks, main_checks, preprocessed_checks, table_checks};
ghost use Rattle.batch_statement.specs.Verdict.{IsDecided};

use crate::lengths::{
    check_chunk_count, check_chunk_lengths, check_permutation_width, check_preprocessed_next,
    check_preprocessed_width, check_public_values, check_random, check_terminal_presence,
    check_trace_local, check_trace_next, check_unpreprocessed,
};
use air_core::BaseAir;
use batch_statement::{BatchVerificationError, OpenedValuesWithLookups};
use p3_field::{Field, FieldCore, RingCore};

// The checks of a table's public values and of its main rows.
fn check_main<F: Field, A: BaseAir<F>, E, R>(
    index: usize,
    air: &A,
    publics: &[F],
    opened: &OpenedValuesWithLookups<E>,
) -> Result<(), BatchVerificationError<R>>
    ensures { IsDecided (main_checks index (A.declaration air.now) (length publics.now)
        opened.now.base) result }
{
    check_public_values(air, publics)?;
    let opened = &opened.base_opened_values;
    let width = air.width();
    check_trace_local(index, width, &opened.trace_local)?;
    check_trace_next(
        index,
        width,
        air.main_next_row_columns(),
        &opened.trace_next,
    )
}

// The checks of a table's quotient chunks and of what is random.
fn check_chunks<E, R>(
    index: usize,
    chunks: usize,
    dimension: usize,
    opened: &OpenedValuesWithLookups<E>,
) -> Result<(), BatchVerificationError<R>>
    ensures { IsDecided (chunk_checks index chunks dimension opened.now.base) result }
{
    let opened = &opened.base_opened_values;
    check_chunk_count(index, chunks, &opened.quotient_chunks)?;
    check_chunk_lengths(index, dimension, &opened.quotient_chunks)?;
    check_random(dimension, &opened.random)
}

// The checks of a table's preprocessed rows, by what it declares.
fn check_preprocessed<F: Field, A: BaseAir<F>, E, R>(
    index: usize,
    air: &A,
    opened: &OpenedValuesWithLookups<E>,
) -> Result<(), BatchVerificationError<R>>
    ensures { IsDecided (preprocessed_checks index (width_of (A.declaration air.now).preprocessed)
        (A.declaration air.now).preprocessed_next opened.now.base.preprocessed) result }
{
    let base = &opened.base_opened_values;
    let width = air.preprocessed_width();
    if width == 0 {
        return check_unpreprocessed(index, &base.preprocessed);
    }
    let declared = air.preprocessed_next_row_columns();
    check_preprocessed_width(index, width, declared, &base.preprocessed)?;
    check_preprocessed_next(index, declared, &base.preprocessed)
}

// The checks of a table's permutation rows and of its terminal.
fn check_lookup_rows<E, R>(
    index: usize,
    lookups: usize,
    dimension: usize,
    opened: &OpenedValuesWithLookups<E>,
    terminal: bool,
) -> Result<(), BatchVerificationError<R>>
    ensures { IsDecided (lookup_checks index lookups dimension opened.now terminal) result }
{
    check_permutation_width(index, lookups, dimension, opened)?;
    check_terminal_presence(index, lookups, terminal)
}

/// The checks of what is opened of one table.
pub fn check_opened<F: Field, A: BaseAir<F>, E, R>(
    index: usize,
    air: &A,
    publics: &[F],
    chunks: usize,
    dimension: usize,
    lookups: usize,
    opened: &OpenedValuesWithLookups<E>,
    terminal: bool,
) -> Result<(), BatchVerificationError<R>>
    ensures { IsDecided (table_checks index (A.declaration air.now) (length publics.now) chunks
        dimension lookups opened.now terminal) result }
{
    check_main(index, air, publics, opened)?;
    check_chunks(index, chunks, dimension, opened)?;
    check_preprocessed(index, air, opened)?;
    check_lookup_rows(index, lookups, dimension, opened, terminal)
}
