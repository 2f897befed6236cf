//! The tables of a statement.
ghost use Rattle.std.specs.Prelude.{◌≡◌, ℕ, [], IfOk, IsOk};
ghost use Rattle.p3_field.specs.BabyBear.{baby_bear_ring};
ghost use Rattle.batch_setup.specs.Packed.{source_of};
ghost use Rattle.tool_tables.specs.Tool.{tool_declaration, tool_interactions, tool_trees};
ghost use Rattle.tool_statement.specs.StatedTables.{TableWithin, log_height_of, publics_of, source_of_table};

use air_tables::{SwapAir, WheelAir};
use blake3_prime::Blake3Air;
use p3_field::{BabyBear, Mem};
use std::alloc::Global;
use tool_tables::{ToolAir, WordsAir};

/// What a proof file states of a table (not in Plonky3): its kind, the base-2 logarithm `k` of its number of rows, and its public values.
/// `k` is 0 to 10, of a wheel 1 to 10, of a table of compressions 0 to 3.
#[derive(Clone, Copy, Debug, PartialEq, Eq)]
pub enum TableStatement {
    /// A swap table.
    Swap {
        /// The base-2 logarithm of the number of rows.
        k: u8,
        /// The left cell of the first row.
        a: BabyBear,
        /// The right cell of the first row.
        b: BabyBear,
        /// The right cell of the last row.
        x: BabyBear,
    },
    /// A wheel.
    Wheel {
        /// The base-2 logarithm of the number of rows.
        k: u8,
    },
    /// A table that takes words.
    Take {
        /// The base-2 logarithm of the number of rows.
        k: u8,
    },
    /// A table that gives words.
    Give {
        /// The base-2 logarithm of the number of rows.
        k: u8,
    },
    /// A table of compressions of BLAKE3.
    Hash {
        /// The base-2 logarithm of the number of rows.
        k: u8,
    },
}

impl TableStatement {
    /// The base-2 logarithm of the number of rows.
    pub fn log_height(&self) -> usize
        ensures { result ≡ log_height_of self.now }
    {
        match self {
            TableStatement::Swap { k, .. } => *k as usize,
            TableStatement::Wheel { k } => *k as usize,
            TableStatement::Take { k } => *k as usize,
            TableStatement::Give { k } => *k as usize,
            TableStatement::Hash { k } => *k as usize,
        }
    }

    /// The table's AIR. The only error is running out of memory, which only a wheel's may (`sure`).
    pub fn air(&self, alloc: Global) -> Mem<ToolAir<BabyBear>>
        requires { TableWithin self.now }
        ensures source { IfOk result
            (λ a. source_of (tool_declaration baby_bear_ring) (tool_trees baby_bear_ring)
            (tool_interactions baby_bear_ring) a ≡ source_of_table self.now) }
        ensures sure { ((k : ℕ) → self.now ≡ TableStatement.Wheel k → ⊥) → IsOk result }
    {
        match self {
            TableStatement::Swap { .. } => Ok(ToolAir::Swap(SwapAir)),
            TableStatement::Wheel { k } => Ok(ToolAir::Wheel(WheelAir::new(alloc, *k as usize)?)),
            TableStatement::Take { .. } => Ok(ToolAir::Words(WordsAir::Take)),
            TableStatement::Give { .. } => Ok(ToolAir::Words(WordsAir::Give)),
            TableStatement::Hash { .. } => Ok(ToolAir::Hash(Blake3Air {})),
        }
    }

    /// The table's public values: a, b and x of a swap table, else none. The only error is running out of memory, and none where there are
    /// no values (`sure`).
    pub fn public_values(&self, alloc: Global) -> Mem<Vec<BabyBear>>
        ensures values { IfOk result (λ v. v.items ≡ publics_of self.now) }
        ensures sure { publics_of self.now ≡ [] → IsOk result }
    {
        match self {
            TableStatement::Swap { a, b, x, .. } => Ok(Vec::from_array(alloc, [*a, *b, *x])?),
            TableStatement::Wheel { .. } => Ok(Vec::new(alloc)),
            TableStatement::Take { .. } => Ok(Vec::new(alloc)),
            TableStatement::Give { .. } => Ok(Vec::new(alloc)),
            TableStatement::Hash { .. } => Ok(Vec::new(alloc)),
        }
    }
}
