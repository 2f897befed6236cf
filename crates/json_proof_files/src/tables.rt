//! The trees of stated tables.

ghost use Rattle.std.specs.Prelude.{◌≡◌, ◌≤◌, codes, IfErr, IfOk, None, Some, Err};
ghost use Rattle.json_forms.specs.declared.trees.TreeError.TheVariants.{NoTree, OutOfMemory};
ghost use Rattle.serde_json.specs.View.{view};
ghost use Rattle.json_proof_files.specs.TableTrees.{plain_table_reading, plain_table_tree, swap_reading, kind_reading};

use json_forms::{JsonForm, ObjectReader, ObjectWriter, TreeError};
use p3_field::{BabyBear, Mem};
use serde_json::Value;
use std::alloc::Global;
use tool_statement::TableStatement;

/// The most that the base-2 logarithm of a table's rows may be, but for tables of compressions.
const MOST_LOG_ROWS: u64 = 10;

/// The most that the base-2 logarithm of the rows of a table of compressions may be.
const MOST_LOG_HASHES: u64 = 3;

// Reads the logarithm of the rows of a table of this kind, which has no public values.
fn read_plain(json: &Value, kind: &str, least: u64, most: u64) -> Result<u8, TreeError>
    requires { most ≤ 255 }
    ensures ok { IfOk result
        (λ k. plain_table_reading kind.now least most (view json.now) ≡ Some k) }
    ensures err { result ≡ Err NoTree
        → plain_table_reading kind.now least most (view json.now) ≡ None }
    ensures no_memory { IfErr result (λ e. e ≡ NoTree) }
{
    let mut members = ObjectReader::new(json)?;
    let k = members.read_number("k", least, most)?;
    members.read_word("kind", kind)?;
    members.end()?;
    Ok(k as u8)
}

// Reads a swap table.
fn read_swap(alloc: Global, json: &Value) -> Result<TableStatement, TreeError>
    ensures ok { IfOk result (λ t. swap_reading (view json.now) ≡ Some t) }
    ensures err { result ≡ Err NoTree → swap_reading (view json.now) ≡ None }
    ensures no_memory { result ≡ Err OutOfMemory → ⊥ }
{
    let mut members = ObjectReader::new(json)?;
    let a = members.read::<BabyBear>(alloc, "a")?;
    let b = members.read::<BabyBear>(alloc, "b")?;
    let k = members.read_number("k", 0, MOST_LOG_ROWS)?;
    members.read_word("kind", "swap")?;
    let x = members.read::<BabyBear>(alloc, "x")?;
    members.end()?;
    Ok(TableStatement::Swap {
        k: k as u8,
        a,
        b,
        x,
    })
}

// Reads a table of this kind.
fn read_kind(alloc: Global, json: &Value, kind: &str) -> Result<TableStatement, TreeError>
    ensures ok { IfOk result (λ t. kind_reading kind.now (view json.now) ≡ Some t) }
    ensures err { result ≡ Err NoTree → kind_reading kind.now (view json.now) ≡ None }
    ensures no_memory { result ≡ Err OutOfMemory → ⊥ }
{
    if kind == "swap" {
        read_swap(alloc, json)
    } else if kind == "wheel" {
        let k = read_plain(json, "wheel", 1, MOST_LOG_ROWS)?;
        Ok(TableStatement::Wheel { k })
    } else if kind == "take" {
        let k = read_plain(json, "take", 0, MOST_LOG_ROWS)?;
        Ok(TableStatement::Take { k })
    } else if kind == "give" {
        let k = read_plain(json, "give", 0, MOST_LOG_ROWS)?;
        Ok(TableStatement::Give { k })
    } else if kind == "hash" {
        let k = read_plain(json, "hash", 0, MOST_LOG_HASHES)?;
        Ok(TableStatement::Hash { k })
    } else {
        Err(TreeError::NoTree)
    }
}

// The tree of a table of this kind, which has no public values.
fn write_plain(alloc: Global, kind: &str, k: u8) -> Mem<Value>
    ensures { IfOk result (λ t. view t ≡ plain_table_tree kind.now k) }
{
    let mut members = ObjectWriter::new(alloc);
    members.write_number(alloc, "k", k as u64)?;
    members.write_word(alloc, "kind", kind)?;
    Ok(members.end())
}

/// The form of a table's statement: an object of its kind, the base-2 logarithm `k` of its rows, and the public values a, b and x of a swap
/// table.
pub struct TableForm;

impl JsonForm for TableForm {
    type Value = TableStatement;

    ghost use Rattle.tool_statement.specs.declared.table.TableStatement.{TableStatement as Stated};
    ghost use Rattle.tool_statement.specs.StatedTables.{TableWithin};
    ghost use Rattle.json_proof_files.specs.TableTrees.{table_reading, table_tree};
    ghost use Rattle.json_proof_files.specs.Laws.TableForms.{table-form};

    ghost Data = { Stated };

    ghost data_of = { λ t. t };

    ghost within = { TableWithin };

    ghost tree = { table_tree };

    ghost reading = { table_reading };

    ghost allocates = { ⊥ };

    ghost form = { table-form };

    fn read(alloc: Global, json: &Value) -> Result<TableStatement, TreeError> {
        match json.get("kind").and_then(Value::as_str) {
            Some(kind) => read_kind(alloc, json, kind),
            None => Err(TreeError::NoTree),
        }
    }

    fn write(alloc: Global, value: &TableStatement) -> Mem<Value> {
        match value {
            TableStatement::Swap { k, a, b, x } => {
                let mut members = ObjectWriter::new(alloc);
                members.write::<BabyBear>(alloc, "a", a)?;
                members.write::<BabyBear>(alloc, "b", b)?;
                members.write_number(alloc, "k", *k as u64)?;
                members.write_word(alloc, "kind", "swap")?;
                members.write::<BabyBear>(alloc, "x", x)?;
                Ok(members.end())
            }
            TableStatement::Wheel { k } => write_plain(alloc, "wheel", *k),
            TableStatement::Take { k } => write_plain(alloc, "take", *k),
            TableStatement::Give { k } => write_plain(alloc, "give", *k),
            TableStatement::Hash { k } => write_plain(alloc, "hash", *k),
        }
    }
}
