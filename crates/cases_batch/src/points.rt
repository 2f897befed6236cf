//! What constraints read at a point.
ghost use Rattle.std.specs.Prelude.{◌≤◌, length};

use crate::reading::values;
use p3_field::{BabyBear, FieldCore, Mem, QuarticExtension, RingCore};
use std::alloc::Global;

/// What the constraints of a table with lookups read. The next preprocessed row is that of this row.
#[derive(Drop)]
pub struct Point<V> {
    /// The main row.
    pub local: Vec<V>,
    /// The next main row.
    pub next: Vec<V>,
    /// The preprocessed row.
    pub preprocessed: Vec<V>,
    /// The periodic columns.
    pub periodic: Vec<V>,
    /// The public values.
    pub publics: Vec<BabyBear>,
    /// The permutation columns in this row.
    pub columns: Vec<QuarticExtension>,
    /// The permutation columns in the next row.
    pub next_columns: Vec<QuarticExtension>,
    /// The challenges.
    pub challenges: Vec<QuarticExtension>,
    /// The terminals.
    pub terminals: Vec<QuarticExtension>,
}

/// What the first nine words say of these, one each in order.
pub fn point_of<V: RingCore>(alloc: Global, words: &[&str]) -> Mem<Point<V>>
    requires { 9 ≤ length words.now }
{
    Ok(Point {
        local: values(alloc, words[0])?,
        next: values(alloc, words[1])?,
        preprocessed: values(alloc, words[2])?,
        periodic: values(alloc, words[3])?,
        publics: values(alloc, words[4])?,
        columns: values(alloc, words[5])?,
        next_columns: values(alloc, words[6])?,
        challenges: values(alloc, words[7])?,
        terminals: values(alloc, words[8])?,
    })
}
