//! The checks of what is opened of a table, of which all that fail are named.
ghost use Rattle.std.specs.Prelude.{◌≡◌, ◌↔◌, ◌++◌, ◌∷◌, [], IsTrue, OnOk, length};
ghost use Rattle.air_core.specs.Shape.{width_of};
ghost use Rattle.verifier_shape.specs.ShapeChecks.{chunk_checks, main_checks};
ghost use Rattle.audit_batch.specs.Asked.{always};
ghost use Rattle.audit_batch.specs.Named.{AreNamedAfter};
ghost use Rattle.audit_batch.specs.Shape.{HasNoUndeclaredNext, preprocessed_asked, table_asked};

use crate::naming::name_answer;
use air_core::BaseAir;
use batch_statement::{BatchVerificationError, OpenedValuesWithLookups};
use p3_field::{Field, FieldCore, Mem, RingCore};
use p3_uni_stark::PreprocessedOpenedValues;
use verifier_shape::{
    check_chunk_count, check_chunk_lengths, check_permutation_width, check_preprocessed_next,
    check_preprocessed_width, check_public_values, check_random, check_terminal_presence,
    check_trace_local, check_trace_next, check_unpreprocessed,
};

// The checks of a table's public values and of its main rows.
fn name_main<F: Field, A: BaseAir<F>, E, R: Drop>(
    faults: &mut Vec<BatchVerificationError<R>>,
    index: usize,
    air: &A,
    publics: &[F],
    opened: &OpenedValuesWithLookups<E>,
) -> Mem<()>
    ensures { OnOk result (AreNamedAfter faults.old.items
        (always (main_checks index (A.declaration air.now) (length publics.now) opened.now.base))
        faults.new.items) }
{
    let base = &opened.base_opened_values;
    let width = air.width();
    let columns = air.main_next_row_columns();
    name_answer(faults, check_public_values(air, publics))?;
    name_answer(faults, check_trace_local(index, width, &base.trace_local))?;
    name_answer(
        faults,
        check_trace_next(index, width, columns, &base.trace_next),
    )?;
    Ok(())
}

// The checks of a table's quotient chunks and of what is random.
fn name_chunks<E, R: Drop>(
    faults: &mut Vec<BatchVerificationError<R>>,
    index: usize,
    chunks: usize,
    dimension: usize,
    opened: &OpenedValuesWithLookups<E>,
) -> Mem<()>
    ensures { OnOk result (AreNamedAfter faults.old.items
        (always (chunk_checks index chunks dimension opened.now.base)) faults.new.items) }
{
    let base = &opened.base_opened_values;
    name_answer(
        faults,
        check_chunk_count(index, chunks, &base.quotient_chunks),
    )?;
    name_answer(
        faults,
        check_chunk_lengths(index, dimension, &base.quotient_chunks),
    )?;
    name_answer(faults, check_random(dimension, &base.random))?;
    Ok(())
}

// Whether no next preprocessed row has values where none is declared.
fn has_no_undeclared_next<E>(
    declared: &[usize],
    opened: &Option<PreprocessedOpenedValues<E>>,
) -> bool
    ensures { IsTrue result ↔ HasNoUndeclaredNext declared.now opened.now }
{
    match opened {
        Some(rows) => match &rows.next {
            Some(next) => !declared.is_empty() || next.is_empty(),
            None => true,
        },
        None => true,
    }
}

// The checks of a table's preprocessed rows, by what it declares.
fn name_preprocessed<F: Field, A: BaseAir<F>, E, R: Drop>(
    faults: &mut Vec<BatchVerificationError<R>>,
    index: usize,
    air: &A,
    opened: &Option<PreprocessedOpenedValues<E>>,
) -> Mem<()>
    ensures { OnOk result (AreNamedAfter faults.old.items
        (preprocessed_asked index (width_of (A.declaration air.now).preprocessed)
        (A.declaration air.now).preprocessed_next opened.now) faults.new.items) }
{
    let width = air.preprocessed_width();
    if width == 0 {
        name_answer(faults, check_unpreprocessed(index, opened))?;
        return Ok(());
    }
    let declared = air.preprocessed_next_row_columns();
    name_answer(
        faults,
        check_preprocessed_width(index, width, declared, opened),
    )?;
    if !has_no_undeclared_next(declared, opened) {
        return Ok(());
    }
    name_answer(faults, check_preprocessed_next(index, declared, opened))?;
    Ok(())
}

/// Names the checks of what is opened of one table, each by its own condition.
pub(crate) fn name_opened<F: Field, A: BaseAir<F>, E, R: Drop>(
    faults: &mut Vec<BatchVerificationError<R>>,
    index: usize,
    air: &A,
    publics: &[F],
    chunks: usize,
    dimension: usize,
    lookups: usize,
    opened: &OpenedValuesWithLookups<E>,
    terminal: bool,
) -> Mem<()>
    ensures { OnOk result (AreNamedAfter faults.old.items
        (table_asked index (A.declaration air.now) (length publics.now) chunks dimension lookups
        opened.now terminal) faults.new.items) }
{
    let base = &opened.base_opened_values;
    name_main(faults, index, air, publics, opened)?;
    name_chunks(faults, index, chunks, dimension, opened)?;
    name_preprocessed(faults, index, air, &base.preprocessed)?;
    name_answer(
        faults,
        check_permutation_width(index, lookups, dimension, opened),
    )?;
    name_answer(faults, check_terminal_presence(index, lookups, terminal))?;
    Ok(())
}
