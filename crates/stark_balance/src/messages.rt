//! The messages of a table, row by row.
ghost use Rattle.std.specs.Prelude.{◌≡◌, ℕ, ◌<◌, ◌++◌, List, length, map, All, IfOk, OnOk, IfSome};
ghost use Rattle.std.specs.Prelude.{slice_index_or as get_or};
ghost use Rattle.std.specs.Option.{option_map};
ghost use Rattle.p3_matrix.specs.Matrix.{height};
ghost use Rattle.air_core.specs.Shape.{ReadsSendable};
ghost use Rattle.air_core.specs.Symbolic.{tree_of};
ghost use Rattle.air_core.specs.RowCheck.{row_shape};
ghost use Rattle.p3_lookup.specs.Generated.{ReadTraces};
ghost use Rattle.p3_lookup.specs.Lookup.{IsLookup, sent};
ghost use Rattle.p3_lookup.specs.Messages.{message, messages_from, table_messages};
ghost use Rattle.p3_lookup.specs.Written.{read, read_all};
ghost use Rattle.stark_balance.specs.Sender.{sender_over, sent_in_row};

use crate::message::Message;
use air_core::{RowValues, SymbolicExpression, preprocessed_at};
use p3_field::{
    Field, FieldCore, Mem, PrimeCharacteristicRing, PrimeCore64, PrimeField64, RingCore,
};
use p3_lookup::{Lookup, sent_value};
use p3_matrix::RowMajorMatrix;
use std::alloc::Global;

// The values of a tuple at a row.
fn values_of<'a, F: Field>(
    alloc: Global,
    tuple: &[SymbolicExpression<F>],
    row: &RowValues<'a, F, F>,
) -> Mem<Vec<F>>
    requires reads { All (ReadsSendable (row_shape row.now)) (map tree_of tuple.now) }
    ensures { IfOk result (λ v.
        v.items ≡ map (sent_in_row F.ring row.now) (map tree_of tuple.now)) }
{
    let mut values = Vec::with_capacity(alloc, tuple.len())?;
    for i in 0..tuple.len() {
        values.push(sent_value(&tuple[i], row))?;
    }
    Ok(values)
}

// Appends what a lookup sends in a row.
fn push_lookup<'a, F: Field>(
    alloc: Global,
    messages: &mut Vec<Message<F>>,
    lookup: &Lookup<F>,
    row: &RowValues<'a, F, F>,
    bus: usize,
) -> Mem<()>
    requires lookup { IsLookup (row_shape row.now) (read lookup.now) }
    ensures { OnOk result (messages.new.items
        ≡ messages.old.items ++ map (message (sent_in_row F.ring row.now) bus)
        (sent (read lookup.now))) }
{
    for i in 0..lookup.elements.len() {
        let tuple = values_of(alloc, &lookup.elements[i], row)?;
        let count = sent_value(&lookup.multiplicities[i].value, row);
        messages.push(Message { bus, tuple, count })?;
    }
    Ok(())
}

// Appends what all lookups send in a row, each on its bus.
fn push_lookups<'a, F: Field>(
    alloc: Global,
    messages: &mut Vec<Message<F>>,
    lookups: &[Lookup<F>],
    row: &RowValues<'a, F, F>,
    buses: &[usize],
) -> Mem<()>
    requires buses { length buses.now ≡ length lookups.now }
    requires lookups { All (IsLookup (row_shape row.now)) (read_all lookups.now) }
    ensures { OnOk result (messages.new.items ≡ messages.old.items
        ++ messages_from (sent_in_row F.ring row.now) (λ n. get_or buses.now n 0) 0
        (read_all lookups.now)) }
{
    for i in 0..lookups.len() {
        push_lookup(alloc, messages, &lookups[i], row, buses[i])?;
    }
    Ok(())
}

// Appends what a table sends in a row.
fn push_row<F: Field>(
    alloc: Global,
    messages: &mut Vec<Message<F>>,
    main: &RowMajorMatrix<F>,
    preprocessed: Option<&RowMajorMatrix<F>>,
    public_values: &[F],
    lookups: &[Lookup<F>],
    buses: &[usize],
    row: usize,
) -> Mem<()>
    requires row { row < height main.now }
    requires preprocessed { IfSome preprocessed (λ m. height m.now ≡ height main.now) }
    requires buses { length buses.now ≡ length lookups.now }
    requires lookups { ReadTraces main.now (option_map (λ m. m.now) preprocessed) public_values.now
        (read_all lookups.now) }
    ensures { let s = sender_over F.ring main.now (option_map (λ m. m.now) preprocessed.entry)
        public_values.now (read_all lookups.now) buses.now in
        OnOk result (messages.new.items ≡ messages.old.items
        ++ messages_from (s.value row) s.bus 0 s.lookups) }
{
    let height = main.height();
    let next = (row + 1) % height;
    let cells = RowValues {
        main_local: main.row(row),
        main_next: main.row(next),
        preprocessed_local: preprocessed_at(preprocessed, row),
        preprocessed_next: preprocessed_at(preprocessed, next),
        periodic: &[],
        public_values,
        is_first_row: row == 0,
        is_last_row: row + 1 == height,
        permutation_local: &[],
        permutation_next: &[],
        challenges: &[],
        terminals: &[],
    };
    push_lookups(alloc, messages, lookups, &cells, buses)
}

/// The messages of one table with these traces and public values, row by row: one for each row and tuple of a lookup, lookup
/// after lookup, each with its lookup's bus (not in Plonky3). The row after the last is the first.
///
/// There is one bus for each lookup, the preprocessed trace is as high as the main one, and each lookup has as many
/// multiplicities as tuples and reads constants, public values, main and preprocessed cells alone. Only out of memory is free.
pub fn table_messages<F: PrimeField64>(
    alloc: Global,
    main: &RowMajorMatrix<F>,
    preprocessed: Option<&RowMajorMatrix<F>>,
    public_values: &[F],
    lookups: &[Lookup<F>],
    buses: &[usize],
) -> Mem<Vec<Message<F>>>
    requires preprocessed { IfSome preprocessed (λ m. height m.now ≡ height main.now) }
    requires buses { length buses.now ≡ length lookups.now }
    requires lookups { ReadTraces main.now (option_map (λ m. m.now) preprocessed) public_values.now
        (read_all lookups.now) }
    ensures { let s = sender_over F.ring main.now (option_map (λ m. m.now) preprocessed.entry)
        public_values.now (read_all lookups.now) buses.now in
        IfOk result (λ v. v.items ≡ table_messages s) }
{
    let mut messages = Vec::new(alloc);
    for row in 0..main.height() {
        push_row(
            alloc,
            &mut messages,
            main,
            preprocessed,
            public_values,
            lookups,
            buses,
            row,
        )?;
    }
    Ok(messages)
}
