//! Programs for builders: words that each name a call, with the places of the expressions that it takes.
ghost use Rattle.std.specs.Prelude.{◌≡◌};
ghost use Rattle.cases_air.specs.Cells.{eight_of_each};

use crate::cells::{cell_of, eight_of_each, ext_cell_of, row_of};
use crate::printing::{push_values, push_word};
use crate::reading::{Case, bears, parts};
use crate::recorded::push_recorded;
use air_check::DebugConstraintBuilder;
use air_core::{
    AirBuilder, Count, ExtensionBuilder, InteractionBuilder, InteractionSymbolicBuilder,
    PermutationAirBuilder,
};
use p3_field::{BabyBear, ExtensionField, FieldCore, Mem, RingCore};
use std::alloc::Global;

// What an operation of this name gives over the base field, if there is one.
fn computed<AB: AirBuilder<F = BabyBear>>(
    builder: &mut AB,
    base: &[AB::Expr],
    name: &str,
    at: [usize; 3],
) -> Option<Mem<AB::Expr>>
    ensures { AB.shape builder.new ≡ AB.shape builder.old }
{
    if name == "number" {
        return Some(builder.constant(BabyBear::from_u64(at[0] as u64)));
    }
    let (x, y) = (*base.get(at[0])?, *base.get(at[1])?);
    match name {
        "add" => Some(builder.add(x, y)),
        "sub" => Some(builder.sub(x, y)),
        "mul" => Some(builder.mul(x, y)),
        _ => None,
    }
}

// What an operation of this name gives over the extension, if there is one.
fn computed_ext<AB: ExtensionBuilder<F = BabyBear>>(
    builder: &mut AB,
    base: &[AB::Expr],
    extension: &[AB::ExprEF],
    name: &str,
    at: [usize; 3],
) -> Option<Mem<AB::ExprEF>>
    ensures { AB.shape builder.new ≡ AB.shape builder.old }
{
    if name == "lift" {
        return Some(builder.lift(*base.get(at[0])?));
    }
    let (x, y) = (*extension.get(at[0])?, *extension.get(at[1])?);
    match name {
        "add_ext" => Some(builder.add_ext(x, y)),
        "sub_ext" => Some(builder.sub_ext(x, y)),
        "mul_ext" => Some(builder.mul_ext(x, y)),
        _ => None,
    }
}

// Asserts or sends what a call of this name says, if there is one.
fn asserted<AB: InteractionBuilder<F = BabyBear>>(
    builder: &mut AB,
    base: &[AB::Expr],
    extension: &[AB::ExprEF],
    name: &str,
    at: [usize; 3],
) -> Option<Mem<()>>
    ensures { AB.shape builder.new ≡ AB.shape builder.old }
{
    if name == "assert_zero_ext" {
        return Some(builder.assert_zero_ext(*extension.get(at[0])?));
    }
    let (x, y) = (*base.get(at[0])?, *base.get(at[1])?);
    let count = Count { value: y, bound: 1 };
    match name {
        "assert_zero" => Some(builder.assert_zero(x)),
        "assert_eq" => Some(builder.assert_eq(x, y)),
        "assert_bool" => Some(builder.assert_bool(x)),
        "assert_bools" => Some(builder.assert_bools(&[x])),
        "assert_zeros" => Some(builder.assert_zeros(&[x, y])),
        "push_interaction" => Some(builder.push_interaction("cells", &[x], count)),
        "push_local_interaction" => Some(builder.push_local_interaction(&[x], &[count])),
        _ => None,
    }
}

// Hands a program to a builder, which declares eight cells of each kind. A word names a cell, a number or a call, and the
// places, among those of its field so far, of the expressions that it takes. The answer is false where a word has no meaning.
fn is_run<AB: InteractionBuilder<F = BabyBear>>(
    alloc: Global,
    builder: &mut AB,
    words: &[&str],
) -> Mem<bool>
    requires { AB.shape builder.old ≡ eight_of_each }
{
    let mut base = Vec::new(alloc);
    let mut extension = Vec::new(alloc);
    for word in words {
        let (name, at) = parts(word);
        if let Some(cell) = cell_of(name, at[0]) {
            base.push(builder.cell(cell)?)?;
        } else if let Some(cell) = ext_cell_of(name, at[0]) {
            extension.push(builder.ext_cell(cell)?)?;
        } else if let Some(x) = computed(builder, &base, name, at) {
            base.push(x?)?;
        } else if let Some(x) = computed_ext(builder, &base, &extension, name, at) {
            extension.push(x?)?;
        } else if let Some(answer) = asserted(builder, &base, &extension, name, at) {
            answer?;
        } else {
            return Ok(false);
        }
    }
    Ok(true)
}

/// The values of what a program asserts, at a row whose cells of the base field are the first number, and those of the
/// extension the second, and in the next row the third.
pub fn values<EF: ExtensionField<BabyBear>>(
    alloc: Global,
    out: &mut String,
    case: &Case,
) -> Mem<()> {
    let numbers = bears(alloc, &case.first)?;
    let [cell, own, next] = *numbers.as_slice() else {
        return push_word(out, "bad case");
    };
    let cells = [cell; 8];
    let here = [EF::from_base(own); 8];
    let after = [EF::from_base(next); 8];
    let end = [EF::from_base(own)];
    let row = row_of(&cells, &here, &after, &end);
    let mut builder = DebugConstraintBuilder::<BabyBear, EF>::new(alloc, row);
    if !is_run(alloc, &mut builder, &case.second)? {
        return push_word(out, "bad case");
    }
    push_values(alloc, out, builder.values())
}

/// The answer to a call of a recording builder after a program.
pub fn recorded(alloc: Global, out: &mut String, case: &Case) -> Mem<()> {
    let mut builder = InteractionSymbolicBuilder::<BabyBear>::new(alloc, eight_of_each())?;
    if !is_run(alloc, &mut builder, &case.second)? {
        return push_word(out, "bad case");
    }
    push_recorded(alloc, out, &builder, case)
}
