//! A table of one column of words, each of which is taken twice.
ghost use Rattle.std.proofs.Common.{rules};
ghost use Rattle.std.specs.Prelude.{[]};
ghost use Rattle.air_core.specs.Laws.Declared.{counts-none};
ghost use Rattle.cases_batch.specs.Twice.{twice_declaration, twice_interactions};

use air_core::{Air, BaseAir, InteractionBuilder};
use p3_field::{Field, FieldCore, Mem, RingCore};
use p3_matrix::RowMajorMatrix;
use std::alloc::Global;
use tool_tables::WordsAir;

/// One column of words without constraints, of which each row sends its word on the bus `words` twice, once each. It hints at degree 1.
#[derive(Drop)]
pub struct TwiceAir;

impl<F: Field> BaseAir<F> for TwiceAir {
    ghost declaration = { λ _. twice_declaration };

    fn width(&self) -> usize {
        1
    }

    fn preprocessed_trace(&self, _alloc: Global) -> Mem<Option<RowMajorMatrix<F>>> {
        Ok(None)
    }

    fn preprocessed_width(&self) -> usize {
        0
    }

    fn main_next_row_columns(&self) -> &[usize] {
        &[]
    }

    fn preprocessed_next_row_columns(&self) -> &[usize] {
        &[]
    }

    fn num_public_values(&self) -> usize {
        0
    }

    fn periodic_columns(&self) -> &[Vec<F>] {
        &[]
    }

    fn num_constraints(&self) -> Option<usize> {
        None
    }

    fn max_constraint_degree(&self) -> Option<usize> {
        Some(1)
    }

    fn assumes_boolean_trace(&self) -> bool {
        false
    }

    ghost has_columns = { λ _. Prim.search rules };

    ghost whole_rows = { λ _. Prim.search rules };

    ghost next_below = { λ _. Prim.search rules };

    ghost preprocessed_next_below = { λ _. Prim.search rules };
}

impl<F: Field> Air<F> for TwiceAir {
    ghost trees = { λ _. [] };

    ghost interactions = { λ _. twice_interactions F.ring };

    fn eval<AB: InteractionBuilder<F = F>>(&self, builder: &mut AB) -> Mem<()> {
        let once = WordsAir::Take;
        once.eval(builder)?;
        once.eval(builder)
    }

    ghost counts = { λ _ n e. counts-none n 0 e };

    ghost trees_read = { λ _. Prim.search rules };

    ghost interactions_read = { λ _. Prim.search rules };
}
