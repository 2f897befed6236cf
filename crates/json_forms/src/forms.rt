//! What trees are made of: forms of values with one tree each.

ghost use Rattle.std.specs.Prelude.{◌≡◌, length, IfOk, Option, Some, None, Err, ⊤};
ghost use Rattle.json_forms.specs.Readings.{TreeForm, element_reading, extension_of};
ghost use Rattle.json_forms.specs.declared.trees.TreeError.TheVariants.{NoTree, OutOfMemory};
ghost use Rattle.serde_json.specs.Data.{Data as Tree};
ghost use Rattle.serde_json.specs.View.{view};

use crate::lists::read_list;
use crate::trees::{TreeError, number};
use p3_field::{BabyBear, Mem, PrimeCore64, QuarticExtension, RingCore};
use serde_json::Value;
use std::alloc::Global;

/// The greatest canonical number of a [`BabyBear`].
const LAST_ELEMENT: u64 = 2_013_265_920;

/// A form of trees: what the values of a type are as JSON, each as one tree (not in Plonky3).
///
/// The type that has the form may be the values' own, or a name alone, of which there are no values.
pub trait JsonForm {
    /// The values.
    type Value: Drop;

    /// What a value is as plain data.
    ghost Data: { Type 0 };

    ghost data_of: { Self.Value → Self.Data };

    /// The data within the limits.
    ghost within: { Self.Data → Type 0 };

    /// The tree of a value.
    ghost tree: { Self.Data → Tree };

    /// The value that a tree is, where it is one's.
    ghost reading: { Tree → Option Self.Data };

    /// Whether reading takes memory. Where it doesn't, it is never out of memory.
    ghost allocates: { Type 0 };

    /// Reads the value that a tree is. It is `NoTree` exactly where the tree is no value's.
    fn read(alloc: Global, json: &Value) -> Result<Self::Value, TreeError>
        ensures ok { IfOk result (λ v. reading (view json.now) ≡ Some (data_of v)) }
        ensures err { result ≡ Err NoTree → reading (view json.now) ≡ None }
        ensures memory { result ≡ Err OutOfMemory → allocates };

    /// The tree of a value.
    fn write(alloc: Global, value: &Self::Value) -> Mem<Value>
        ensures { IfOk result (λ t. view t ≡ tree (data_of value.now)) };

    /// Each value within the limits is read off its tree, and what is read off a tree has that tree.
    ghost form: { TreeForm within tree reading };
}

/// A number, the canonical one.
impl JsonForm for BabyBear {
    type Value = BabyBear;

    ghost use Rattle.tool_lines.specs.Texts.{Unlimited};
    ghost use Rattle.p3_field.specs.declared.baby_bear.BabyBear.{BabyBear as Element};
    ghost use Rattle.json_forms.specs.Trees.{element_tree};
    ghost use Rattle.json_forms.specs.Laws.Forms.{element-form};

    ghost Data = { Element };

    ghost data_of = { λ x. x };

    ghost within = { Unlimited };

    ghost tree = { element_tree };

    ghost reading = { element_reading };

    ghost allocates = { ⊥ };

    ghost form = { element-form };

    fn read(_alloc: Global, json: &Value) -> Result<BabyBear, TreeError>
        ensures ok { IfOk result (λ v. element_reading (view json.now) ≡ Some v) }
        ensures err { result ≡ Err NoTree → element_reading (view json.now) ≡ None }
        ensures no_memory { result ≡ Err OutOfMemory → ⊥ }
    {
        match number(json, 0, LAST_ELEMENT) {
            Some(n) => Ok(BabyBear::from_u64(n)),
            None => Err(TreeError::NoTree),
        }
    }

    fn write(_alloc: Global, value: &BabyBear) -> Mem<Value> {
        Ok(Value::from(value.as_canonical_u64()))
    }
}

// The element with these four coefficients.
fn of_four(parts: &[BabyBear]) -> QuarticExtension
    requires { length parts.now ≡ 4 }
    ensures { result ≡ extension_of parts.now }
{
    QuarticExtension {
        c0: parts[0],
        c1: parts[1],
        c2: parts[2],
        c3: parts[3],
    }
}

/// An array, the coefficients of 1, x, x^2 and x^3.
impl JsonForm for QuarticExtension {
    type Value = QuarticExtension;

    ghost use Rattle.tool_lines.specs.Texts.{Unlimited};
    ghost use Rattle.p3_field.specs.declared.quartic.QuarticExtension.{QuarticExtension as Extension};
    ghost use Rattle.json_forms.specs.Trees.{extension_tree};
    ghost use Rattle.json_forms.specs.Readings.{extension_reading};
    ghost use Rattle.json_forms.specs.Laws.More.{extension-form};

    ghost Data = { Extension };

    ghost data_of = { λ x. x };

    ghost within = { Unlimited };

    ghost tree = { extension_tree };

    ghost reading = { extension_reading };

    ghost allocates = { ⊤ };

    ghost form = { extension-form };

    fn read(alloc: Global, json: &Value) -> Result<QuarticExtension, TreeError> {
        let parts = read_list::<BabyBear>(alloc, json, 4, 4)?;
        Ok(of_four(&parts))
    }

    fn write(alloc: Global, value: &QuarticExtension) -> Mem<Value> {
        let mut parts = Vec::with_capacity(alloc, 4)?;
        parts.push(BabyBear::write(alloc, &value.c0)?)?;
        parts.push(BabyBear::write(alloc, &value.c1)?)?;
        parts.push(BabyBear::write(alloc, &value.c2)?)?;
        parts.push(BabyBear::write(alloc, &value.c3)?)?;
        Ok(Value::from(parts))
    }
}

/// The form of a number from `LEAST` to `MOST`.
pub struct NumberIn<const LEAST: usize, const MOST: usize>;

impl<const LEAST: usize, const MOST: usize> JsonForm for NumberIn<LEAST, MOST> {
    type Value = usize;

    ghost use Rattle.std.specs.Prelude.{ℕ};
    ghost use Rattle.tool_lines.specs.Texts.{Between};
    ghost use Rattle.json_forms.specs.Trees.{number_tree};
    ghost use Rattle.json_forms.specs.Readings.{number_reading};
    ghost use Rattle.json_forms.specs.Laws.Forms.{number-form};

    ghost Data = { ℕ };

    ghost data_of = { λ n. n };

    ghost within = { Between LEAST MOST };

    ghost tree = { number_tree };

    ghost reading = { number_reading LEAST MOST };

    ghost allocates = { ⊥ };

    ghost form = { number-form LEAST MOST };

    fn read(_alloc: Global, json: &Value) -> Result<usize, TreeError>
        ensures ok { IfOk result (λ v. number_reading LEAST MOST (view json.now) ≡ Some v) }
        ensures err { result ≡ Err NoTree → number_reading LEAST MOST (view json.now) ≡ None }
        ensures no_memory { result ≡ Err OutOfMemory → ⊥ }
    {
        match number(json, LEAST as u64, MOST as u64) {
            Some(n) => Ok(n as usize),
            None => Err(TreeError::NoTree),
        }
    }

    fn write(_alloc: Global, value: &usize) -> Mem<Value> {
        Ok(Value::from(*value))
    }
}
