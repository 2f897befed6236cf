//! Lookups of a table's first column, by their words.
ghost use Rattle.std.specs.Prelude.{◌≡◌, All, IfOk, [], ◌∷◌, length, map};
ghost use Rattle.air_core.specs.Symbolic.{OperandsBelow};
ghost use Rattle.cases_air.specs.Taken.{IsSendableByColumn, IsTakenLookup};

use crate::printing::push_word;
use crate::reading::{Case, parts};
use crate::sending::sending_air;
use air_core::{Cell, Count, Node, SymbolicExpression};
use p3_field::{BabyBear, FieldCore, Mem, RingCore};
use p3_lookup::{Kind, LogUpGadget, Lookup, LookupProtocol, Lookups};
use std::alloc::Global;

// The expression that is this node alone.
fn leaf(alloc: Global, node: Node<BabyBear>) -> Mem<SymbolicExpression<BabyBear>>
    requires { OperandsBelow 0 node }
    ensures { IfOk result (λ e. e ≡ node ∷ []) }
{
    let mut nodes = Vec::new(alloc);
    nodes.push(node)?;
    Ok(SymbolicExpression::new(nodes))
}

// The tuple of these letters: an `n` is the first column's cell in the next row, and any other its cell in this row.
fn tuple_of(alloc: Global, letters: &str) -> Mem<Vec<SymbolicExpression<BabyBear>>>
    ensures { IfOk result (λ v. All IsSendableByColumn v.items) }
{
    let mut fields = Vec::new(alloc);
    for letter in letters.as_bytes() {
        let next = *letter == b'n';
        fields.push(leaf(alloc, Node::Base(Cell::Main { next, column: 0 }))?)?;
    }
    Ok(fields)
}

// So many times, with this bound.
fn count_of(alloc: Global, times: usize, bound: usize) -> Mem<Count<SymbolicExpression<BabyBear>>>
    ensures { IfOk result (λ c. IsSendableByColumn c.value) }
{
    let value = leaf(alloc, Node::Constant(BabyBear::from_u64(times as u64)))?;
    Ok(Count {
        value,
        bound: (bound % 4_294_967_296) as u32,
    })
}

// The kind of the bus of this name, or of a lookup within the table where the name is empty.
fn kind_of(alloc: Global, name: &str) -> Mem<Kind> {
    if name.is_empty() {
        Ok(Kind::Local)
    } else {
        Ok(Kind::Global(String::from_str(alloc, name)?))
    }
}

/// The lookup of a word like `values.2.1.m.mn`: the bus's name, how often each tuple is sent, the bound of that, and the
/// letters of each tuple.
pub fn lookup_of(alloc: Global, word: &str) -> Mem<Lookup<BabyBear>>
    ensures { IfOk result IsTakenLookup }
{
    let (name, [times, bound, _]) = parts(word);
    let kind = kind_of(alloc, name)?;
    let pieces: Vec<&str> = word.split('.').collect(alloc)?;
    let mut elements = Vec::new(alloc);
    let mut multiplicities = Vec::new(alloc);
    for i in 3..pieces.len() {
        elements.push(tuple_of(alloc, pieces[i])?)?;
        multiplicities.push(count_of(alloc, times, bound)?)?;
    }
    Ok(Lookup::new(kind, elements, multiplicities))
}

/// The lookups of these words.
pub fn lookups_of(alloc: Global, words: &[&str]) -> Mem<Vec<Lookup<BabyBear>>>
    ensures { IfOk result (λ v. All IsTakenLookup v.items) }
{
    let mut lookups = Vec::new(alloc);
    for word in words {
        lookups.push(lookup_of(alloc, word)?)?;
    }
    Ok(lookups)
}

// Appends a lookup: its bus, and of each tuple the fields' nodes; then of each count its nodes and its bound.
fn push_lookup(out: &mut String, lookup: &Lookup<BabyBear>) -> Mem<()> {
    match &lookup.kind {
        Kind::Local => push_word(out, "local")?,
        Kind::Global(name) => push_word(out, name.as_str())?,
    }
    for tuple in &lookup.elements {
        push_tuple(out, tuple)?;
    }
    for count in &lookup.multiplicities {
        let nodes = count.value.nodes();
        push_word(out, format_args!("times {nodes:?} up to {}", count.bound))?;
    }
    Ok(())
}

// Appends the nodes of a tuple's fields.
fn push_tuple(out: &mut String, tuple: &[SymbolicExpression<BabyBear>]) -> Mem<()> {
    push_word(out, "sends")?;
    for field in tuple {
        let nodes = field.nodes();
        push_word(out, format_args!("{nodes:?}"))?;
    }
    Ok(())
}

// Appends copies of copies of lookups.
fn push_copies(alloc: Global, out: &mut String, lookups: &Lookups<BabyBear>) -> Mem<()> {
    for lookup in lookups.try_clone(alloc)?.as_slice() {
        push_lookup(out, &lookup.try_clone(alloc)?)?;
    }
    Ok(())
}

// Appends how many tuples each lookup has after packing, within a degree and for a degree of the transition selector.
fn push_packed(alloc: Global, out: &mut String, case: &Case) -> Mem<()> {
    let lookups = Lookups::new(lookups_of(alloc, &case.second)?);
    let gadget = LogUpGadget::new();
    let packed = lookups.pack_same_bus_with_degree(alloc, case.at[0], &gadget, case.at[1])?;
    for lookup in packed.as_slice() {
        push_word(out, lookup.elements.len())?;
    }
    Ok(())
}

// Appends the degree of each lookup's constraints, for a degree of the transition selector.
fn push_degrees(alloc: Global, out: &mut String, case: &Case) -> Mem<()> {
    for word in &case.second {
        let lookup = lookup_of(alloc, word)?;
        let degree = LogUpGadget::new().constraint_degree_with_transition(&lookup, case.at[0]);
        push_word(out, degree)?;
    }
    Ok(())
}

/// Calls of lookups.
pub fn lookups(alloc: Global, out: &mut String, case: &Case) -> Mem<()> {
    match case.call {
        "try_clone" => {
            let lookups = Lookups::new(lookups_of(alloc, &case.second)?);
            push_copies(alloc, out, &lookups)
        }
        "from_air" => {
            let lookups = Lookups::from_air(alloc, &sending_air(alloc)?)?;
            push_copies(alloc, out, &lookups)
        }
        "pack_same_bus_with_degree" => push_packed(alloc, out, case),
        "constraint_degree_with_transition" => push_degrees(alloc, out, case),
        _ => push_word(out, "bad case"),
    }
}
