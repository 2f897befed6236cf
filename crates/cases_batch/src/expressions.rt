//! Expressions that are one cell or one constant: their degrees, and lookups of them.
ghost use Rattle.std.specs.Prelude.{◌≡◌, [], ◌∷◌, ◌<◌, IfOk, length};
ghost use Rattle.air_core.specs.Symbolic.{OperandsBelow};
ghost use Rattle.cases_batch.specs.Leaves.{IsLeaf};

use crate::reading::{bad_case, number, push_word};
use air_core::{Cell, Count, ExtCell, Node, SymbolicExpression};
use p3_field::{BabyBear, FieldCore, Mem, RingCore};
use p3_lookup::{Kind, Lookup, Lookups};
use std::alloc::Global;

// The node of this name, where there is a periodic column; the constant one for any other name.
fn node(name: &str, periods: &[usize]) -> Node<BabyBear>
    requires { 0 < length periods.now }
    ensures leaf { IsLeaf periods.now result }
    ensures first { OperandsBelow 0 result }
{
    let next = name.ends_with("next");
    match name {
        "main" | "main_next" => Node::Base(Cell::Main { next, column: 0 }),
        "other" => Node::Base(Cell::Main { next, column: 1 }),
        "preprocessed" | "preprocessed_next" => {
            Node::Base(Cell::Preprocessed { next, column: 0 })
        }
        "periodic" => Node::Base(Cell::Periodic(0)),
        "public" => Node::Base(Cell::Public(0)),
        "first" => Node::Base(Cell::FirstRow),
        "last" => Node::Base(Cell::LastRow),
        "transition" => Node::Base(Cell::Transition),
        "permutation" | "permutation_next" => {
            Node::Extension(ExtCell::Permutation { next, column: 0 })
        }
        "challenge" => Node::Extension(ExtCell::Challenge(0)),
        "terminal" => Node::Extension(ExtCell::Terminal),
        _ => Node::Constant(BabyBear::ONE),
    }
}

// The expression that is this node alone.
fn leaf(alloc: Global, node: Node<BabyBear>) -> Mem<SymbolicExpression<BabyBear>>
    requires { OperandsBelow 0 node }
    ensures { IfOk result (λ e. e ≡ node ∷ []) }
{
    let mut nodes = Vec::new(alloc);
    nodes.push(node)?;
    Ok(SymbolicExpression::new(nodes))
}

/// The degrees over eight rows of the nodes of these names, after the period of the periodic column.
pub fn degrees(alloc: Global, words: &[&str]) -> Mem<String> {
    let [period, ref names @ ..] = *words else {
        return bad_case(alloc);
    };
    let periods = [number(period)];
    let mut out = String::new(alloc);
    for name in names {
        let expression = leaf(alloc, node(name, &periods))?;
        push_word(&mut out, expression.poly_degree(8, &periods))?;
    }
    Ok(out)
}

// So many expressions that are the node of this name.
fn copies(alloc: Global, name: &str, count: usize) -> Mem<Vec<SymbolicExpression<BabyBear>>> {
    let mut copies = Vec::new(alloc);
    for _i in 0..count {
        copies.push(leaf(alloc, node(name, &[1]))?)?;
    }
    Ok(copies)
}

// The lookup of a word like `words.main.2.1`: the bus, or `-` within the table; and one tuple of the node of this name, so often, with so many
// multiplicities.
fn lookup(alloc: Global, word: &str) -> Mem<Lookup<BabyBear>> {
    let mut pieces = word.split('.');
    let bus = pieces.next().unwrap_or("-");
    let name = pieces.next().unwrap_or("");
    let width = number(pieces.next().unwrap_or(""));
    let count = number(pieces.next().unwrap_or(""));
    let tuple = copies(alloc, name, width)?;
    let mut multiplicities = Vec::new(alloc);
    for value in copies(alloc, "public", count)? {
        multiplicities.push(Count { value, bound: 1 })?;
    }
    let kind = if bus == "-" {
        Kind::Local
    } else {
        Kind::Global(String::from_str(alloc, bus)?)
    };
    Ok(Lookup::new(kind, Vec::from_array(alloc, [tuple])?, multiplicities))
}

/// The lookups of tables, a word each, in which `+` stands between two, and which is `none` for a table without any.
pub fn lookups(alloc: Global, words: &[&str]) -> Mem<Vec<Lookups<BabyBear>>> {
    let mut tables = Vec::new(alloc);
    for word in words {
        let mut table = Vec::new(alloc);
        for piece in word.split('+') {
            if piece != "none" {
                table.push(lookup(alloc, piece)?)?;
            }
        }
        tables.push(Lookups::new(table))?;
    }
    Ok(tables)
}
