//! The AIR.
ghost use Rattle.std.proofs.Common.{rules};
ghost use Rattle.std.specs.Prelude.{◌≡◌, ℕ, ◌≤◌, List, [], ◌∷◌, IfOk, OnErr, IsOk, IsTrue, None};
ghost use Rattle.air_core.specs.Laws.Declared.{counts-none};
ghost use Rattle.air_core.specs.Appended.{Appended, AppendedSome, OnFailure};
ghost use Rattle.blake3_prime.specs.Trees.{blake3_trees, blake3_declaration};
ghost use Rattle.blake3_prime.specs.Laws.Reads.{blake3_read};

use crate::edges::{assert_first, assert_last};
use crate::rounds::assert_rounds;
use air_core::{Air, AirBuilder, BaseAir, InteractionBuilder};
use p3_field::{Field, Mem};
use p3_matrix::RowMajorMatrix;
use std::alloc::Global;

/// The columns of the AIR.
pub const NUM_BLAKE3_COLS: usize = 9168;

/// The compression of BLAKE3 as a table: one compression a row (`p3_blake3_air::Blake3Air`).
#[derive(Drop)]
pub struct Blake3Air {}

// Appends the constraints.
fn assert_row<AB: AirBuilder>(builder: &mut AB) -> Mem<()>
    requires wide { 9168 ≤ (AB.shape builder.old).main }
    ensures later { AB.later builder.old builder.new }
    ensures keeps_shape { AB.shape builder.new ≡ AB.shape builder.old }
    ensures answers { IsTrue AB.never_fails → IsOk result }
    ensures appends { IfOk result
        (λ _. Appended AB.appends builder.old builder.new (blake3_trees AB.F.ring)) }
    ensures on_error { OnFailure result
        (AppendedSome AB.appends builder.old builder.new (blake3_trees AB.F.ring)) }
{
    assert_first(builder)?;
    assert_rounds(builder)?;
    assert_last(builder)?;
    Ok(())
}

impl<F: Field> BaseAir<F> for Blake3Air {
    ghost declaration = { λ _. blake3_declaration };

    fn width(&self) -> usize {
        NUM_BLAKE3_COLS
    }

    fn preprocessed_trace(&self, _alloc: Global) -> Mem<Option<RowMajorMatrix<F>>> {
        Ok(None)
    }

    fn preprocessed_width(&self) -> usize {
        0
    }

    fn main_next_row_columns(&self) -> &[usize] {
        &[]
    }

    fn preprocessed_next_row_columns(&self) -> &[usize] {
        &[]
    }

    fn num_public_values(&self) -> usize {
        0
    }

    fn periodic_columns(&self) -> &[Vec<F>] {
        &[]
    }

    fn num_constraints(&self) -> Option<usize> {
        None
    }

    fn max_constraint_degree(&self) -> Option<usize> {
        Some(3)
    }

    fn assumes_boolean_trace(&self) -> bool {
        false
    }

    ghost has_columns = { λ _. tt };

    ghost whole_rows = { λ _. tt };

    ghost next_below = { λ _. Prim.search rules };

    ghost preprocessed_next_below = { λ _. Prim.search rules };
}

impl<F: Field> Air<F> for Blake3Air {
    ghost trees = { λ _. blake3_trees F.ring };

    ghost interactions = { λ _. [] };

    fn eval<AB: InteractionBuilder<F = F>>(&self, builder: &mut AB) -> Mem<()> {
        assert_row(builder)?;
        Ok(())
    }

    ghost counts = { λ _ n e. counts-none n _ e };

    ghost trees_read = { λ _. blake3_read F.ring };

    ghost interactions_read = { λ _. Prim.search rules };
}
