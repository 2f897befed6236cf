//! The AIR.
ghost use Rattle.std.proofs.Common.{rules};
ghost use Rattle.std.specs.Prelude.{[]};
ghost use Rattle.air_core.specs.Laws.Declared.{counts-none};
ghost use Rattle.example_fib_air.specs.Fib.{fib_declaration, fib_trees};

use air_core::{Air, AirBuilder, BaseAir, Cell, InteractionBuilder};
use air_equations::{assert_cells_eq_when, assert_sum_when};
use p3_field::{Field, FieldCore, Mem};
use p3_matrix::RowMajorMatrix;
use std::alloc::Global;

const START: Cell = Cell::Public(0);

const LAST: Cell = Cell::Public(1);

// The columns whose next row is read: both.
static NEXT_COLUMNS: [usize; 2] = [0, 1];

const L: Cell = Cell::Main {
    next: false,
    column: 0,
};

const R: Cell = Cell::Main {
    next: false,
    column: 1,
};

const NEXT_L: Cell = Cell::Main {
    next: true,
    column: 0,
};

const NEXT_R: Cell = Cell::Main {
    next: true,
    column: 1,
};

/// Two columns l and r of 2^k rows: the first row is (a, a), and after the row (l, r) comes (r, l + r). The public values are a and the last
/// right cell (not in Plonky3).
#[derive(Clone, Copy)]
pub struct FibAir;

impl<F: Field> BaseAir<F> for FibAir {
    ghost declaration = { λ _. fib_declaration };

    fn width(&self) -> usize {
        2
    }

    fn preprocessed_trace(&self, _alloc: Global) -> Mem<Option<RowMajorMatrix<F>>> {
        Ok(None)
    }

    fn preprocessed_width(&self) -> usize {
        0
    }

    fn main_next_row_columns(&self) -> &[usize] {
        &NEXT_COLUMNS
    }

    fn preprocessed_next_row_columns(&self) -> &[usize] {
        &[]
    }

    fn num_public_values(&self) -> usize {
        2
    }

    fn periodic_columns(&self) -> &[Vec<F>] {
        &[]
    }

    fn num_constraints(&self) -> Option<usize> {
        None
    }

    fn max_constraint_degree(&self) -> Option<usize> {
        None
    }

    fn assumes_boolean_trace(&self) -> bool {
        false
    }

    ghost has_columns = { λ _. tt };

    ghost whole_rows = { λ _. tt };

    ghost next_below = { λ _. Prim.search rules };

    ghost preprocessed_next_below = { λ _. Prim.search rules };
}

impl<F: Field> Air<F> for FibAir {
    ghost trees = { λ _. fib_trees };

    ghost interactions = { λ _. [] };

    fn eval<AB: InteractionBuilder<F = F>>(&self, builder: &mut AB) -> Mem<()> {
        assert_cells_eq_when(builder, Cell::FirstRow, L, START)?;
        assert_cells_eq_when(builder, Cell::FirstRow, R, START)?;
        assert_cells_eq_when(builder, Cell::Transition, NEXT_L, R)?;
        assert_sum_when(builder, Cell::Transition, NEXT_R, L, R)?;
        assert_cells_eq_when(builder, Cell::LastRow, R, LAST)
    }

    ghost counts = { λ _ n e. counts-none n 5 e };

    ghost trees_read = { λ _. Prim.search rules };

    ghost interactions_read = { λ _. Prim.search rules };
}
