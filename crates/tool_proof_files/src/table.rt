//! The text of a table's statement.
ghost use Rattle.std.specs.Prelude.{◌≡◌, ◌≤◌, length};
ghost use Rattle.tool_proof_files.specs.Files.{least_log_rows, most_log_rows, public_count, table_statement};

use p3_field::{BabyBear, Mem};
use std::alloc::Global;
use tool_lines::{Form, ItemError, Reader, push_number, read_items};
use tool_statement::TableStatement;

/// The first line of a swap table's text.
const SWAP: u32 = 1;

/// The first line of a wheel's text.
const WHEEL: u32 = 2;

/// The first line of the text of a table that takes words.
const TAKE: u32 = 3;

/// The first line of the text of a table that gives words.
const GIVE: u32 = 4;

/// The first line of the text of a table of compressions.
const HASH: u32 = 5;

/// The most that the base-2 logarithm of a table's rows may be, but for tables of compressions.
const MOST_LOG_ROWS: u32 = 10;

/// The most that the base-2 logarithm of the rows of a table of compressions may be.
const MOST_LOG_HASHES: u32 = 3;

// The least logarithm of the rows of a table of this kind.
fn least_rows(kind: u32) -> u32
    ensures { result ≡ least_log_rows kind }
{
    if kind == WHEEL { 1 } else { 0 }
}

// The greatest logarithm of the rows of a table of this kind.
fn most_rows(kind: u32) -> u32
    ensures { result ≡ most_log_rows kind }
{
    if kind == HASH {
        MOST_LOG_HASHES
    } else {
        MOST_LOG_ROWS
    }
}

// How many public values a table of this kind has.
fn public_values(kind: u32) -> usize
    ensures { result ≡ public_count kind }
{
    if kind == SWAP { 3 } else { 0 }
}

// The table of this kind.
fn table_of(kind: u32, k: u8, values: &[BabyBear]) -> TableStatement
    requires { length values.now ≡ public_count kind }
    ensures { result ≡ table_statement kind k values.now }
{
    if kind == SWAP {
        TableStatement::Swap {
            k,
            a: values[0],
            b: values[1],
            x: values[2],
        }
    } else if kind == WHEEL {
        TableStatement::Wheel { k }
    } else if kind == TAKE {
        TableStatement::Take { k }
    } else if kind == GIVE {
        TableStatement::Give { k }
    } else {
        TableStatement::Hash { k }
    }
}

/// The form of a table's statement: its kind, 1 for a swap table, 2 for a wheel, 3 for one that takes words, 4 for one that gives words, 5
/// for one of compressions of BLAKE3; the base-2 logarithm of its rows; and a, b and x of a swap table.
pub struct StatedTable;

impl Form for StatedTable {
    type Value = TableStatement;

    ghost use Rattle.tool_statement.specs.declared.table.TableStatement.{TableStatement as Stated};
    ghost use Rattle.tool_statement.specs.StatedTables.{TableWithin};
    ghost use Rattle.tool_proof_files.specs.Files.{statement_numbers};
    ghost use Rattle.tool_proof_files.specs.Laws.Tables.{table-grammar};

    ghost Data = { Stated };

    ghost data_of = { λ t. t };

    ghost within = { TableWithin };

    ghost numbers = { statement_numbers };

    ghost grammar = { table-grammar };

    fn read(alloc: Global, reader: &mut Reader) -> Result<TableStatement, ItemError> {
        let kind = reader.number(SWAP, HASH)?;
        let k = reader.number(least_rows(kind), most_rows(kind))?;
        let values = read_items::<BabyBear>(alloc, reader, public_values(kind))?;
        Ok(table_of(kind, k as u8, &values))
    }

    fn print(value: &TableStatement, out: &mut Vec<u8>) -> Mem<()> {
        match value {
            TableStatement::Swap { k, a, b, x } => {
                push_number(out, 1)?;
                push_number(out, *k as u64)?;
                BabyBear::print(a, out)?;
                BabyBear::print(b, out)?;
                BabyBear::print(x, out)
            }
            TableStatement::Wheel { k } => {
                push_number(out, 2)?;
                push_number(out, *k as u64)
            }
            TableStatement::Take { k } => {
                push_number(out, 3)?;
                push_number(out, *k as u64)
            }
            TableStatement::Give { k } => {
                push_number(out, 4)?;
                push_number(out, *k as u64)
            }
            TableStatement::Hash { k } => {
                push_number(out, 5)?;
                push_number(out, *k as u64)
            }
        }
    }
}
