//! What is committed of a batch's preprocessed columns, and what AIRs declare of next rows.
ghost use Rattle.std.specs.Prelude.{◌≡◌, ◌↔◌, IsTrue};
ghost use Rattle.verifier_claims.specs.ClaimChecks.{HasDegreeBits};
ghost use Rattle.verifier_claims.specs.Claims.{matrix_tables};
ghost use Rattle.verifier_shape.specs.ShapeChecks.{HasEntries};
ghost use Rattle.batch_statement.specs.Words.{has_some};

use air_core::BaseAir;
use batch_statement::{PreprocessedInstanceMeta, PreprocessedTraces};
use p3_field::FieldCore;

// For each committed matrix its table.
pub(crate) fn matrices<Com>(traces: &PreprocessedTraces<Com>) -> &[usize]
    ensures { result.now ≡ traces.now.matrix_to_instance }
{
    &traces.matrix_to_instance
}

// For each table its entry.
pub(crate) fn entries<Com>(traces: &PreprocessedTraces<Com>) -> &[Option<PreprocessedInstanceMeta>]
    ensures { result.now ≡ traces.now.instances }
{
    &traces.instances
}

// For each committed matrix its table, where there are such.
pub(crate) fn matrices_in<Com>(preprocessed: &Option<PreprocessedTraces<Com>>) -> &[usize]
    ensures { result.now ≡ matrix_tables preprocessed.now }
{
    match preprocessed {
        None => &[],
        Some(traces) => matrices(traces),
    }
}

// Whether there is an entry for each table, where there are preprocessed columns.
pub(crate) fn has_entries<Com>(
    preprocessed: &Option<PreprocessedTraces<Com>>,
    tables: usize,
) -> bool
    ensures { IsTrue result ↔ HasEntries tables preprocessed.now }
{
    match preprocessed {
        None => true,
        Some(traces) => traces.instances.len() == tables,
    }
}

/// Whether what was committed of a table was made for these degree bits; of a table without preprocessed columns nothing was.
pub fn has_bits(entry: &Option<PreprocessedInstanceMeta>, bits: usize) -> bool
    ensures { IsTrue result ↔ HasDegreeBits bits entry.now }
{
    match entry {
        None => true,
        Some(meta) => meta.degree_bits == bits,
    }
}

// Whether an AIR declares next columns.
pub(crate) fn declares_next<F: FieldCore, A: BaseAir<F>>(air: &A) -> bool
    ensures { result ≡ has_some (A.declaration air.now).main_next }
{
    !air.main_next_row_columns().is_empty()
}

// Whether it declares preprocessed next columns.
pub(crate) fn declares_preprocessed_next<F: FieldCore, A: BaseAir<F>>(air: &A) -> bool
    ensures { result ≡ has_some (A.declaration air.now).preprocessed_next }
{
    !air.preprocessed_next_row_columns().is_empty()
}
