//! The members of objects, in the order of their keys' bytes.

ghost use Rattle.std.specs.Prelude.{◌≡◌, ◌≢◌, ◌≤◌, Some, None, Err, IfErr, IfOk, OnOk};
ghost use Rattle.json_forms.specs.Readings.{member_reading, number_reading, word_reading};
ghost use Rattle.json_forms.specs.declared.trees.TreeError.TheVariants.{NoTree, OutOfMemory};
ghost use Rattle.json_forms.specs.Trees.{number_tree};
ghost use Rattle.serde_json.specs.Data.{object, no_members, put, string};
ghost use Rattle.serde_json.specs.Find.{as_object};
ghost use Rattle.serde_json.specs.View.{view};
ghost use Rattle.json_forms.specs.Objects.{members_left, members_made};

use crate::forms::JsonForm;
use crate::trees::{TreeError, number};
use p3_field::Mem;
use serde_json::{Map, Value};
use std::alloc::Global;
use std::collections::btree_map::Iter;

// That a tree is this word.
fn word_of(tree: &Value, word: &str) -> Result<(), TreeError>
    ensures ok { IfOk result (λ u. word_reading word.now (view tree.now) ≡ Some u) }
    ensures err { result ≡ Err NoTree → word_reading word.now (view tree.now) ≡ None }
    ensures no_memory { IfErr result (λ e. e ≡ NoTree) }
{
    match tree.as_str() {
        Some(text) => if text == word {
            Ok(())
        } else {
            Err(TreeError::NoTree)
        },
        None => Err(TreeError::NoTree),
    }
}

/// What is left of an object's members. Contracts see the members.
#[derive(Drop)]
pub struct ObjectReader<'v> {
    rest: Iter<'v, String, Value>,
}

impl<'v> ObjectReader<'v> {
    /// A reader of all members of the object that a tree is. It is `NoTree` exactly where the tree is no object, and there is no other
    /// error.
    pub fn new(tree: &'v Value) -> Result<Self, TreeError>
        ensures ok { IfOk result (λ r. as_object (view tree.now) ≡ Some (members_left r)) }
        ensures err { result ≡ Err NoTree → as_object (view tree.now) ≡ None }
        ensures no_memory { IfErr result (λ e. e ≡ NoTree) }
    {
        match tree.as_object() {
            Some(map) => Ok(ObjectReader { rest: map.iter() }),
            None => Err(TreeError::NoTree),
        }
    }

    /// Reads the next member, which has to have this key. It is `NoTree` exactly where there is none, or it has another key or no value of
    /// the form; then a member may be gone.
    pub fn read<T: JsonForm>(&mut self, alloc: Global, key: &str) -> Result<T::Value, TreeError>
        ensures ok { IfOk result
            (λ v. member_reading key.now T.reading (members_left self.old)
            ≡ Some (T.data_of v, members_left self.new)) }
        ensures err { result ≡ Err NoTree
            → member_reading key.now T.reading (members_left self.old) ≡ None }
        ensures memory { result ≡ Err OutOfMemory → T.allocates }
    {
        match self.rest.next() {
            Some((name, tree)) => if name.as_str() == key {
                T::read(alloc, tree)
            } else {
                Err(TreeError::NoTree)
            },
            None => Err(TreeError::NoTree),
        }
    }

    /// Reads the next member, which has to have this key and to be this word. It is `NoTree` exactly where it isn't, and there is no other
    /// error; then a member may be gone.
    pub fn read_word(&mut self, key: &str, word: &str) -> Result<(), TreeError>
        ensures ok { IfOk result
            (λ u. member_reading key.now (word_reading word.now) (members_left self.old)
            ≡ Some (u, members_left self.new)) }
        ensures err { result ≡ Err NoTree
            → member_reading key.now (word_reading word.now) (members_left self.old) ≡ None }
        ensures no_memory { IfErr result (λ e. e ≡ NoTree) }
    {
        match self.rest.next() {
            Some((name, tree)) => if name.as_str() == key {
                word_of(tree, word)
            } else {
                Err(TreeError::NoTree)
            },
            None => Err(TreeError::NoTree),
        }
    }

    /// Reads the next member, which has to have this key and to be a number from `least` to `most`. It is `NoTree` exactly where it isn't, and
    /// there is no other error; then a member may be gone.
    pub fn read_number(&mut self, key: &str, least: u64, most: u64) -> Result<u64, TreeError>
        ensures ok { IfOk result
            (λ n. member_reading key.now (number_reading least most) (members_left self.old)
            ≡ Some (n, members_left self.new)) }
        ensures within { IfOk result (λ n. (least ≤ n) × (n ≤ most)) }
        ensures err { result ≡ Err NoTree
            → member_reading key.now (number_reading least most) (members_left self.old) ≡ None }
        ensures no_memory { IfErr result (λ e. e ≡ NoTree) }
    {
        match self.rest.next() {
            Some((name, tree)) => if name.as_str() == key {
                number(tree, least, most).ok_or(TreeError::NoTree)
            } else {
                Err(TreeError::NoTree)
            },
            None => Err(TreeError::NoTree),
        }
    }

    /// That no member is left. It is `NoTree` exactly where one is, and there is no other error.
    pub fn end(self) -> Result<(), TreeError>
        ensures ok { IfOk result (λ _. members_left self.entry ≡ no_members) }
        ensures err { result ≡ Err NoTree → members_left self.entry ≢ no_members }
        ensures no_memory { IfErr result (λ e. e ≡ NoTree) }
    {
        let mut rest = self.rest;
        match rest.next() {
            Some(_) => Err(TreeError::NoTree),
            None => Ok(()),
        }
    }
}

/// An object that is made a member at a time. Contracts see the members.
#[derive(Drop)]
pub struct ObjectWriter {
    members: Map<String, Value>,
}

impl ObjectWriter {
    /// No members.
    pub fn new(alloc: Global) -> Self
        ensures { members_made result ≡ no_members }
    {
        ObjectWriter {
            members: Map::new(alloc),
        }
    }

    /// Gives the object the member with this key. The only error is running out of memory, and then the members are as they were or gone.
    pub fn write<T: JsonForm>(&mut self, alloc: Global, key: &str, value: &T::Value) -> Mem<()>
        ensures { OnOk result (members_made self.new
            ≡ put key.now (T.tree (T.data_of value.now)) (members_made self.old)) }
    {
        let tree = T::write(alloc, value)?;
        serde_json::put(&mut self.members, alloc, key, tree)?;
        Ok(())
    }

    /// Gives the object the member with this key, which is a number. The only error is running out of memory.
    pub fn write_number(&mut self, alloc: Global, key: &str, number: u64) -> Mem<()>
        ensures { OnOk result (members_made self.new
            ≡ put key.now (number_tree number) (members_made self.old)) }
    {
        serde_json::put(&mut self.members, alloc, key, Value::from(number))?;
        Ok(())
    }

    /// Gives the object the member with this key, which is a word. The only error is running out of memory.
    pub fn write_word(&mut self, alloc: Global, key: &str, word: &str) -> Mem<()>
        ensures { OnOk result (members_made self.new
            ≡ put key.now (string word.now) (members_made self.old)) }
    {
        let tree = Value::from(String::from_str(alloc, word)?);
        serde_json::put(&mut self.members, alloc, key, tree)?;
        Ok(())
    }

    /// The object.
    pub fn end(self) -> Value
        ensures { view result ≡ object (members_made self) }
    {
        Value::from(self.members)
    }
}
