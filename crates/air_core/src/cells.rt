//! The names of cells, and counts of interactions.

/// A cell of the base field that a constraint may read, by its name. Columns, public values and periodic columns
/// are numbered from 0. After the entries of `p3_air`'s symbolic variables.
#[derive(Clone, Copy, PartialEq, Eq, Debug)]
pub enum Cell {
    /// A column of the main trace, in the current row or in the next.
    Main {
        /// Whether the next row is read.
        next: bool,
        /// The column.
        column: usize,
    },
    /// A column of the preprocessed trace, in the current row or in the next.
    Preprocessed {
        /// Whether the next row is read.
        next: bool,
        /// The column.
        column: usize,
    },
    /// A periodic column, at the current row.
    Periodic(usize),
    /// A public value.
    Public(usize),
    /// The selector of the first row: not zero there, zero in the others.
    FirstRow,
    /// The selector of the last row: not zero there, zero in the others.
    LastRow,
    /// The selector of the rows but the last: zero in the last row, not zero in the others.
    Transition,
}

/// A cell of the extension field that the constraint of a lookup may read, by its name.
#[derive(Clone, Copy, PartialEq, Eq, Debug)]
pub enum ExtCell {
    /// A column of the permutation trace, in the current row or in the next.
    Permutation {
        /// Whether the next row is read.
        next: bool,
        /// The column.
        column: usize,
    },
    /// A challenge of the lookups.
    Challenge(usize),
    /// The value that the lookups' running sum ends with.
    Terminal,
}

/// How often a row sends a tuple: an expression, and a bound that its value, as a number, is trusted to keep. No constraint
/// keeps it: it is a promise of whoever writes the AIR.
#[derive(Clone, Copy)]
pub struct Count<E> {
    /// The count.
    pub value: E,
    /// The greatest number that the count represents.
    pub bound: u32,
}
