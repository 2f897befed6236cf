//! A table without constraints.
ghost use Rattle.std.proofs.Common.{rules};
ghost use Rattle.std.specs.Prelude.{◌≡◌, [], map};
ghost use Rattle.air_core.specs.Laws.Declared.{counts-none};
ghost use Rattle.cases_verifier.specs.Plain.{plain_declaration};

use air_core::{Air, BaseAir, InteractionBuilder};
use p3_field::{BabyBear, FieldCore, Mem};
use p3_matrix::RowMajorMatrix;
use std::alloc::Global;

/// Columns, public values and periodic columns, and neither constraints nor interactions.
#[derive(Drop)]
pub struct Plain {
    /// How many columns there are.
    pub columns: usize,
    /// How many public values there are.
    pub public_values: usize,
    /// The degree that is hinted at, if any.
    pub hint: Option<usize>,
    /// The periodic columns.
    pub periodic: Vec<Vec<BabyBear>>,
}

impl BaseAir<BabyBear> for Plain {
    ghost declaration = { λ a.
        plain_declaration a.columns a.public_values (map (λ c. c.items) a.periodic.items) a.hint };

    fn width(&self) -> usize {
        self.columns
    }

    fn preprocessed_trace(&self, _alloc: Global) -> Mem<Option<RowMajorMatrix<BabyBear>>> {
        Ok(None)
    }

    fn preprocessed_width(&self) -> usize {
        0
    }

    fn main_next_row_columns(&self) -> &[usize] {
        &[]
    }

    fn preprocessed_next_row_columns(&self) -> &[usize] {
        &[]
    }

    fn num_public_values(&self) -> usize {
        self.public_values
    }

    fn periodic_columns(&self) -> &[Vec<BabyBear>] {
        &self.periodic
    }

    fn num_constraints(&self) -> Option<usize> {
        None
    }

    fn max_constraint_degree(&self) -> Option<usize> {
        self.hint
    }

    fn assumes_boolean_trace(&self) -> bool {
        false
    }

    ghost has_columns = { Prim.search rules };

    ghost whole_rows = { λ _. Prim.search rules };

    ghost next_below = { λ _. Prim.search rules };

    ghost preprocessed_next_below = { λ _. Prim.search rules };
}

impl Air<BabyBear> for Plain {
    ghost trees = { λ _. [] };

    ghost interactions = { λ _. [] };

    fn eval<AB: InteractionBuilder<F = BabyBear>>(&self, _builder: &mut AB) -> Mem<()> {
        Ok(())
    }

    ghost counts = { λ _ n e. counts-none n 0 e };

    ghost trees_read = { λ _. Prim.search rules };

    ghost interactions_read = { λ _. Prim.search rules };
}
