//! The tables that take and give words.
ghost use Rattle.std.proofs.Common.{rules};
ghost use Rattle.std.specs.Prelude.{[], ◌∷◌};
ghost use Rattle.air_core.specs.Laws.Declared.{counts-none};
ghost use Rattle.tool_tables.specs.Words.{words_declaration, words_interactions, words_width};
ghost use Rattle.tool_tables.specs.Laws.Words.{words-interactions_read};

use air_core::{Air, AirBuilder, BaseAir, Cell, Count, InteractionBuilder};
use p3_field::{Field, FieldCore, Mem, RingCore};
use p3_matrix::RowMajorMatrix;
use std::alloc::Global;

/// A table of words without constraints, which go over the bus `words` (not in Plonky3).
#[derive(Drop)]
pub enum WordsAir {
    /// One column of words. Each row takes its word once.
    Take,
    /// Two columns: words, and how often each is given, which each row sends as a negative number. It is trusted to be at most 1024, and
    /// no constraint keeps it.
    Give,
}

impl<F: Field> BaseAir<F> for WordsAir {
    ghost declaration = { λ a. words_declaration (words_width a) };

    fn width(&self) -> usize {
        match self {
            WordsAir::Take => 1,
            WordsAir::Give => 2,
        }
    }

    fn preprocessed_trace(&self, _alloc: Global) -> Mem<Option<RowMajorMatrix<F>>> {
        Ok(None)
    }

    fn preprocessed_width(&self) -> usize {
        0
    }

    fn main_next_row_columns(&self) -> &[usize] {
        &[]
    }

    fn preprocessed_next_row_columns(&self) -> &[usize] {
        &[]
    }

    fn num_public_values(&self) -> usize {
        0
    }

    fn periodic_columns(&self) -> &[Vec<F>] {
        &[]
    }

    fn num_constraints(&self) -> Option<usize> {
        None
    }

    fn max_constraint_degree(&self) -> Option<usize> {
        None
    }

    fn assumes_boolean_trace(&self) -> bool {
        false
    }

    ghost has_columns = { λ _. Prim.search rules };

    ghost whole_rows = { λ _. Prim.search rules };

    ghost next_below = { λ _. Prim.search rules };

    ghost preprocessed_next_below = { λ _. Prim.search rules };
}

impl<F: Field> Air<F> for WordsAir {
    ghost trees = { λ _. [] };

    ghost interactions = { words_interactions F.ring };

    fn eval<AB: InteractionBuilder<F = F>>(&self, builder: &mut AB) -> Mem<()> {
        let word = builder.cell(Cell::Main {
            next: false,
            column: 0,
        })?;
        match self {
            WordsAir::Take => {
                let value = builder.constant(F::ONE)?;
                builder.push_interaction("words", &[word], Count { value, bound: 1 })
            }
            WordsAir::Give => {
                let times = builder.cell(Cell::Main {
                    next: false,
                    column: 1,
                })?;
                let nothing = builder.constant(F::ZERO)?;
                let value = builder.sub(nothing, times)?;
                builder.push_interaction("words", &[word], Count { value, bound: 1024 })
            }
        }
    }

    ghost counts = { λ _ n e. counts-none n 0 e };

    ghost trees_read = { λ _. Prim.search rules };

    ghost interactions_read = { words-interactions_read F.ring };
}
