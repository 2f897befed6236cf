//! One of the program's tables.
ghost use Rattle.std.proofs.Common.{rules};
ghost use Rattle.tool_tables.specs.Tool.{tool_declaration, tool_interactions, tool_trees};
ghost use Rattle.tool_tables.specs.Laws.Tool.{tool-counts, tool-has_columns, tool-interactions_read, tool-next, tool-preprocessed_next, tool-read, tool-whole};

use crate::words::WordsAir;
use air_core::{Air, BaseAir, InteractionBuilder};
use air_tables::{SwapAir, WheelAir};
use blake3_prime::Blake3Air;
use p3_field::{Field, FieldCore, Mem, RingCore};
use p3_matrix::RowMajorMatrix;
use std::alloc::Global;

/// One of the program's tables (not in Plonky3), so that a batch of several kinds is a list of one
/// type.
#[derive(Drop)]
pub enum ToolAir<F> {
    /// A swap table.
    Swap(SwapAir),
    /// A wheel.
    Wheel(WheelAir<F>),
    /// A table that takes or gives words.
    Words(WordsAir),
    /// A table of compressions.
    Hash(Blake3Air),
}

impl<F: Field> BaseAir<F> for ToolAir<F> {
    ghost declaration = { tool_declaration F.ring };

    fn width(&self) -> usize {
        match self {
            ToolAir::Swap(air) => BaseAir::<F>::width(air),
            ToolAir::Wheel(air) => BaseAir::<F>::width(air),
            ToolAir::Words(air) => BaseAir::<F>::width(air),
            ToolAir::Hash(air) => BaseAir::<F>::width(air),
        }
    }

    fn preprocessed_trace(&self, alloc: Global) -> Mem<Option<RowMajorMatrix<F>>> {
        match self {
            ToolAir::Swap(air) => air.preprocessed_trace(alloc),
            ToolAir::Wheel(air) => air.preprocessed_trace(alloc),
            ToolAir::Words(air) => air.preprocessed_trace(alloc),
            ToolAir::Hash(air) => air.preprocessed_trace(alloc),
        }
    }

    fn preprocessed_width(&self) -> usize {
        match self {
            ToolAir::Swap(air) => BaseAir::<F>::preprocessed_width(air),
            ToolAir::Wheel(air) => BaseAir::<F>::preprocessed_width(air),
            ToolAir::Words(air) => BaseAir::<F>::preprocessed_width(air),
            ToolAir::Hash(air) => BaseAir::<F>::preprocessed_width(air),
        }
    }

    fn main_next_row_columns(&self) -> &[usize] {
        match self {
            ToolAir::Swap(air) => BaseAir::<F>::main_next_row_columns(air),
            ToolAir::Wheel(air) => BaseAir::<F>::main_next_row_columns(air),
            ToolAir::Words(air) => BaseAir::<F>::main_next_row_columns(air),
            ToolAir::Hash(air) => BaseAir::<F>::main_next_row_columns(air),
        }
    }

    fn preprocessed_next_row_columns(&self) -> &[usize] {
        match self {
            ToolAir::Swap(air) => BaseAir::<F>::preprocessed_next_row_columns(air),
            ToolAir::Wheel(air) => BaseAir::<F>::preprocessed_next_row_columns(air),
            ToolAir::Words(air) => BaseAir::<F>::preprocessed_next_row_columns(air),
            ToolAir::Hash(air) => BaseAir::<F>::preprocessed_next_row_columns(air),
        }
    }

    fn num_public_values(&self) -> usize {
        match self {
            ToolAir::Swap(air) => BaseAir::<F>::num_public_values(air),
            ToolAir::Wheel(air) => BaseAir::<F>::num_public_values(air),
            ToolAir::Words(air) => BaseAir::<F>::num_public_values(air),
            ToolAir::Hash(air) => BaseAir::<F>::num_public_values(air),
        }
    }

    fn periodic_columns(&self) -> &[Vec<F>] {
        match self {
            ToolAir::Swap(air) => air.periodic_columns(),
            ToolAir::Wheel(air) => air.periodic_columns(),
            ToolAir::Words(air) => air.periodic_columns(),
            ToolAir::Hash(air) => air.periodic_columns(),
        }
    }

    fn num_constraints(&self) -> Option<usize> {
        match self {
            ToolAir::Swap(air) => BaseAir::<F>::num_constraints(air),
            ToolAir::Wheel(air) => BaseAir::<F>::num_constraints(air),
            ToolAir::Words(air) => BaseAir::<F>::num_constraints(air),
            ToolAir::Hash(air) => BaseAir::<F>::num_constraints(air),
        }
    }

    fn max_constraint_degree(&self) -> Option<usize> {
        match self {
            ToolAir::Swap(air) => BaseAir::<F>::max_constraint_degree(air),
            ToolAir::Wheel(air) => BaseAir::<F>::max_constraint_degree(air),
            ToolAir::Words(air) => BaseAir::<F>::max_constraint_degree(air),
            ToolAir::Hash(air) => BaseAir::<F>::max_constraint_degree(air),
        }
    }

    fn assumes_boolean_trace(&self) -> bool {
        match self {
            ToolAir::Swap(air) => BaseAir::<F>::assumes_boolean_trace(air),
            ToolAir::Wheel(air) => BaseAir::<F>::assumes_boolean_trace(air),
            ToolAir::Words(air) => BaseAir::<F>::assumes_boolean_trace(air),
            ToolAir::Hash(air) => BaseAir::<F>::assumes_boolean_trace(air),
        }
    }

    ghost has_columns = { tool-has_columns F.ring };

    ghost whole_rows = { tool-whole F.ring };

    ghost next_below = { tool-next F.ring };

    ghost preprocessed_next_below = { tool-preprocessed_next F.ring };
}

impl<F: Field> Air<F> for ToolAir<F> {
    ghost trees = { tool_trees F.ring };

    ghost interactions = { tool_interactions F.ring };

    fn eval<AB: InteractionBuilder<F = F>>(&self, builder: &mut AB) -> Mem<()> {
        match self {
            ToolAir::Swap(air) => air.eval(builder),
            ToolAir::Wheel(air) => air.eval(builder),
            ToolAir::Words(air) => air.eval(builder),
            ToolAir::Hash(air) => air.eval(builder),
        }
    }

    ghost counts = { tool-counts F.ring };

    ghost trees_read = { tool-read F.ring };

    ghost interactions_read = { tool-interactions_read F.ring };
}
