//! The swap table.
ghost use Rattle.std.proofs.Common.{rules};
ghost use Rattle.std.specs.Prelude.{◌≡◌, ℕ, List, [], ◌∷◌, IfOk, OnErr, IsOk, IsTrue, None};
ghost use Rattle.air_core.specs.Shape.{Declares};
ghost use Rattle.air_core.specs.Tree.{cell as cell_tree, difference, over_base};
ghost use Rattle.air_core.specs.Laws.Declared.{counts-none};
ghost use Rattle.air_tables.specs.Swap.{equal_when, swap_trees, swap_declaration};

use air_core::{Air, AirBuilder, BaseAir, Cell, InteractionBuilder};
use p3_field::{Field, FieldCore, Mem};
use p3_matrix::RowMajorMatrix;
use std::alloc::Global;

// The columns whose next row is read: both.
static NEXT_COLUMNS: [usize; 2] = [0, 1];

// The difference of two cells.
fn difference_of_cells<AB: AirBuilder>(builder: &mut AB, x: Cell, y: Cell) -> Mem<AB::Expr>
    requires left { Declares (AB.shape builder.old) x }
    requires right { Declares (AB.shape builder.old) y }
    ensures later { AB.later builder.old builder.new }
    ensures keeps_shape { AB.shape builder.new ≡ AB.shape builder.old }
    ensures answers { IsTrue AB.never_fails → IsOk result }
    ensures appends { AB.appends builder.old builder.new [] [] }
    ensures represents { IfOk result
        (λ e. AB.represents builder.new e (difference (cell_tree x) (cell_tree y))) }
{
    let a = builder.cell(x)?;
    let b = builder.cell(y)?;
    builder.sub(a, b)
}

// Asserts that two cells agree where the selector isn't zero.
fn assert_equal_when<AB: AirBuilder>(builder: &mut AB, selector: Cell, x: Cell, y: Cell) -> Mem<()>
    requires selector { Declares (AB.shape builder.old) selector }
    requires left { Declares (AB.shape builder.old) x }
    requires right { Declares (AB.shape builder.old) y }
    ensures later { AB.later builder.old builder.new }
    ensures keeps_shape { AB.shape builder.new ≡ AB.shape builder.old }
    ensures answers { IsTrue AB.never_fails → IsOk result }
    ensures appends { IfOk result
        (λ _. AB.appends builder.old builder.new (over_base (equal_when selector x y) ∷ []) []) }
    ensures on_error { OnErr result (AB.appends builder.old builder.new [] []) }
{
    let s = builder.cell(selector)?;
    let d = difference_of_cells(builder, x, y)?;
    let p = builder.mul(s, d)?;
    builder.assert_zero(p)
}

/// Two columns l and r of 2^k rows, (a, b) and (b, a) in turn. The public values are a, b and the last right cell
/// (not in Plonky3).
#[derive(Drop)]
pub struct SwapAir;

impl<F: Field> BaseAir<F> for SwapAir {
    ghost declaration = { λ _. swap_declaration };

    fn width(&self) -> usize {
        2
    }

    fn preprocessed_trace(&self, _alloc: Global) -> Mem<Option<RowMajorMatrix<F>>> {
        Ok(None)
    }

    fn preprocessed_width(&self) -> usize {
        0
    }

    fn main_next_row_columns(&self) -> &[usize] {
        &NEXT_COLUMNS
    }

    fn preprocessed_next_row_columns(&self) -> &[usize] {
        &[]
    }

    fn num_public_values(&self) -> usize {
        3
    }

    fn periodic_columns(&self) -> &[Vec<F>] {
        &[]
    }

    fn num_constraints(&self) -> Option<usize> {
        None
    }

    fn max_constraint_degree(&self) -> Option<usize> {
        None
    }

    fn assumes_boolean_trace(&self) -> bool {
        false
    }

    ghost has_columns = { λ _. tt };

    ghost whole_rows = { λ _. tt };

    ghost next_below = { λ _. Prim.search rules };

    ghost preprocessed_next_below = { λ _. Prim.search rules };
}

impl<F: Field> Air<F> for SwapAir {
    ghost trees = { λ _. swap_trees };

    ghost interactions = { λ _. [] };

    fn eval<AB: InteractionBuilder<F = F>>(&self, builder: &mut AB) -> Mem<()> {
        let first = Cell::FirstRow;
        let step = Cell::Transition;
        let l = Cell::Main {
            next: false,
            column: 0,
        };
        let r = Cell::Main {
            next: false,
            column: 1,
        };
        assert_equal_when(builder, first, l, Cell::Public(0))?;
        assert_equal_when(builder, first, r, Cell::Public(1))?;
        assert_equal_when(
            builder,
            step,
            Cell::Main {
                next: true,
                column: 0,
            },
            r,
        )?;
        assert_equal_when(
            builder,
            step,
            Cell::Main {
                next: true,
                column: 1,
            },
            l,
        )?;
        assert_equal_when(builder, Cell::LastRow, r, Cell::Public(2))
    }

    ghost counts = { λ _ n e. counts-none n 5 e };

    ghost trees_read = { λ _. Prim.search rules };

    ghost interactions_read = { λ _. Prim.search rules };
}
