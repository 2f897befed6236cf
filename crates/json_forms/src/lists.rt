//! Lists of values, and values that may be absent.

ghost use Rattle.std.specs.Prelude.{◌≡◌, Some, None, Err, IfOk, map, ⊤};
ghost use Rattle.json_forms.specs.Readings.{items_reading, list_reading};
ghost use Rattle.json_forms.specs.Trees.{items_tree, list_tree};
ghost use Rattle.json_forms.specs.declared.trees.TreeError.TheVariants.{NoTree};
ghost use Rattle.serde_json.specs.View.{view, items_view};

use crate::forms::JsonForm;
use crate::trees::TreeError;
use p3_field::{BabyBear, Mem, QuarticExtension};
use serde_json::Value;
use std::alloc::Global;
use std::marker::PhantomData;

/// Reads the values that trees are, one after the other.
#[tactic(auto, using(crate::proofs::Items::reading_begins, crate::proofs::Items::reading_stops))]
fn read_items<T: JsonForm>(alloc: Global, trees: &[Value]) -> Result<Vec<T::Value>, TreeError>
    ensures ok { IfOk result
        (λ v. items_reading T.reading (items_view trees.now) ≡ Some (map T.data_of v.items)) }
    ensures err { result ≡ Err NoTree → items_reading T.reading (items_view trees.now) ≡ None }
{
    let mut items = Vec::with_capacity(alloc, trees.len())?;
    for json in trees {
        items.push(T::read(alloc, json)?)?;
    }
    Ok(items)
}

/// Reads a list of `least` to `most` values.
pub(crate) fn read_list<T: JsonForm>(
    alloc: Global,
    json: &Value,
    least: usize,
    most: usize,
) -> Result<Vec<T::Value>, TreeError>
    ensures ok { IfOk result
        (λ v. list_reading least most T.reading (view json.now) ≡ Some (map T.data_of v.items)) }
    ensures err { result ≡ Err NoTree → list_reading least most T.reading (view json.now) ≡ None }
{
    match json.as_array() {
        Some(trees) => if least <= trees.len() && trees.len() <= most {
            read_items::<T>(alloc, trees)
        } else {
            Err(TreeError::NoTree)
        },
        None => Err(TreeError::NoTree),
    }
}

/// The tree of a list.
#[tactic(auto, using(crate::proofs::Items::items_of_mapped))]
fn write_list<T: JsonForm>(alloc: Global, values: &[T::Value]) -> Mem<Value>
    ensures { IfOk result (λ t. view t ≡ list_tree T.tree (map T.data_of values.now)) }
{
    let mut items = Vec::with_capacity(alloc, values.len())?;
    for value in values {
        items.push(T::write(alloc, value)?)?;
    }
    Ok(Value::from(items))
}

/// The form of a list of `LEAST` to `MOST` values: the array of their trees.
pub struct ListOf<T, const LEAST: usize, const MOST: usize> {
    of: PhantomData<T>,
}

impl<T: JsonForm, const LEAST: usize, const MOST: usize> JsonForm for ListOf<T, LEAST, MOST> {
    type Value = Vec<T::Value>;

    ghost use Rattle.std.specs.Prelude.{List};
    ghost use Rattle.tool_lines.specs.Texts.{ListWithin};
    ghost use Rattle.json_forms.specs.Laws.Forms.{list-form};

    ghost Data = { List T.Data };

    ghost data_of = { λ v. map T.data_of v.items };

    ghost within = { ListWithin LEAST MOST T.within };

    ghost tree = { list_tree T.tree };

    ghost reading = { list_reading LEAST MOST T.reading };

    ghost allocates = { ⊤ };

    ghost form = { list-form LEAST MOST T.form };

    fn read(alloc: Global, json: &Value) -> Result<Vec<T::Value>, TreeError> {
        read_list::<T>(alloc, json, LEAST, MOST)
    }

    fn write(alloc: Global, value: &Vec<T::Value>) -> Mem<Value> {
        write_list::<T>(alloc, value)
    }
}

/// A form in which null is no value's tree.
pub trait Present: JsonForm {
    ghost use Rattle.serde_json.specs.Data.{null};

    ghost solid: { Self.reading null ≡ None };
}

impl Present for BabyBear {
    ghost use Rattle.std.specs.Prelude.{refl};

    ghost solid = { refl };
}

impl Present for QuarticExtension {
    ghost use Rattle.std.specs.Prelude.{refl};

    ghost solid = { refl };
}

impl<T: JsonForm, const LEAST: usize, const MOST: usize> Present for ListOf<T, LEAST, MOST> {
    ghost use Rattle.std.specs.Prelude.{refl};

    ghost solid = { refl };
}

/// A value that may be absent: null, or the value's tree.
impl<T: Present> JsonForm for Option<T> {
    type Value = Option<T::Value>;

    ghost use Rattle.std.specs.Prelude.{Option, option_map};
    ghost use Rattle.tool_lines.specs.Texts.{OptionWithin};
    ghost use Rattle.json_forms.specs.Trees.{option_tree};
    ghost use Rattle.json_forms.specs.Readings.{option_reading};
    ghost use Rattle.json_forms.specs.Laws.Forms.{option-form};

    ghost Data = { Option T.Data };

    ghost data_of = { option_map T.data_of };

    ghost within = { OptionWithin T.within };

    ghost tree = { option_tree T.tree };

    ghost reading = { option_reading T.reading };

    ghost allocates = { T.allocates };

    ghost form = { option-form T.solid T.form };

    fn read(alloc: Global, json: &Value) -> Result<Option<T::Value>, TreeError> {
        if json.is_null() {
            Ok(None)
        } else {
            Ok(Some(T::read(alloc, json)?))
        }
    }

    fn write(alloc: Global, value: &Option<T::Value>) -> Mem<Value> {
        match value {
            None => Ok(Value::from(())),
            Some(item) => T::write(alloc, item),
        }
    }
}
