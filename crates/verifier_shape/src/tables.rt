//! The checks of what is opened of the tables of a batch, one table after the other.
ghost use Rattle.std.specs.Prelude.{◌≡◌, ℕ, ◌+◌, ◌^◌, ◌<◌, length, map, option_map};
ghost use Rattle.std.specs.Prelude.{slice_index_or as get_or};
ghost use Rattle.p3_field.specs.Checks.{in_turn};
ghost use Rattle.p3_lookup.specs.Written.{read_all};
ghost use Rattle.batch_statement.specs.Statement.{AirTable, tables_of};
ghost use Rattle.verifier_shape.specs.ShapeChecks.{opened_checks_at, opened_by};
ghost use Rattle.batch_statement.specs.Verdict.{IsDecided};

use crate::opened::check_opened;
use crate::powers::power_of_two;
use air_core::{Air, BaseAir};
use batch_statement::{BatchVerificationError, OpenedValuesWithLookups};
use p3_field::{Field, FieldCore, RingCore};
use p3_lookup::{LookupTerminal, Lookups};

// The checks of what is opened of one table of a batch.
fn check_table<F: Field, A: Air<F>, E, R>(
    index: usize,
    airs: &[A],
    public_values: &[Vec<F>],
    lookups: &[Lookups<F>],
    instances: &[OpenedValuesWithLookups<E>],
    terminals: &[Option<LookupTerminal<E>>],
    log_chunks: usize,
    dimension: usize,
) -> Result<(), BatchVerificationError<R>>
    requires fits { log_chunks < 64 }
    requires airs { index < length airs.now }
    requires publics { index < length public_values.now }
    requires lookups { index < length lookups.now }
    requires instances { index < length instances.now }
    requires terminals { index < length terminals.now }
    ensures { IsDecided (opened_checks_at (tables_of A.declaration A.trees airs.now)
        (map (λ v. v.items) public_values.now) (map read_all lookups.now) instances.now
        (map (option_map (λ t. t.0)) terminals.now) (2 ^ log_chunks) dimension index) result }
{
    let table = &lookups[index];
    check_opened(
        index,
        &airs[index],
        &public_values[index],
        power_of_two(log_chunks),
        dimension,
        table.as_slice().len(),
        &instances[index],
        terminals[index].is_some(),
    )
}

// The checks of what is opened of the tables, one table after the other: the quotient of table i has
// 2^(`chunks[i]` + `masks`) chunks.
pub(crate) fn check_tables<F: Field, A: Air<F>, E, R>(
    airs: &[A],
    public_values: &[Vec<F>],
    lookups: &[Lookups<F>],
    instances: &[OpenedValuesWithLookups<E>],
    terminals: &[Option<LookupTerminal<E>>],
    chunks: &[usize],
    masks: usize,
    dimension: usize,
) -> Result<(), BatchVerificationError<R>>
    requires publics { length public_values.now ≡ length airs.now }
    requires lookups { length lookups.now ≡ length airs.now }
    requires instances { length instances.now ≡ length airs.now }
    requires terminals { length terminals.now ≡ length airs.now }
    requires chunks { length chunks.now ≡ length airs.now }
    requires fits { (i : ℕ) → i < length airs.now → get_or chunks.now i 0 + masks < 64 }
    ensures { IsDecided (in_turn (length airs.now)
        (opened_by (tables_of A.declaration A.trees airs.now) (map (λ v. v.items) public_values.now)
        (map read_all lookups.now) instances.now
        (map (option_map (λ t. t.0)) terminals.now) chunks.now masks dimension)) result }
{
    for index in 0..airs.len() {
        let log_chunks = chunks[index] + masks;
        check_table(
            index,
            airs,
            public_values,
            lookups,
            instances,
            terminals,
            log_chunks,
            dimension,
        )?;
    }
    Ok(())
}
