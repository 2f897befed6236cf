//! The sending table, for tests: it has what the swap table lacks. It reads a preprocessed and a periodic
//! cell and sends interactions, on a bus and within the table, so that builders and tests meet an AIR with all of these.
ghost use Rattle.std.proofs.Common.{rules, ◌∙◌};
ghost use Rattle.std.proofs.lemmas.List.{length-map};
ghost use Rattle.air_core.specs.Laws.Declared.{counts-some};
ghost use Rattle.air_tables.specs.Laws.Sending.{sending-read};
ghost use Rattle.std.specs.Prelude.{◌≡◌, ℕ, ◌<◌, List, [], ◌∷◌, IfOk, OnErr, IsOk, IsTrue, length, map};
ghost use Rattle.air_core.specs.Shape.{Declares};
ghost use Rattle.air_core.specs.Tree.{cell as cell_tree, difference, product, over_base};
ghost use Rattle.air_tables.specs.Sending.{words_sent, cells_sent, sending_trees, sending_interactions, sending_declaration};

use air_core::{Air, AirBuilder, BaseAir, Cell, Count, InteractionBuilder};
use p3_field::{Field, FieldCore, Mem, RingCore};
use p3_matrix::RowMajorMatrix;
use std::alloc::Global;

/// One column, which is the product of a preprocessed and a periodic column. Each row sends the pair of
/// its cell and the public value on the bus `words`, once; and within the table its cell, as often as the public
/// value says, and the public value, once (not in Plonky3).
#[derive(Drop)]
pub struct SendingAir<F> {
    /// The preprocessed column.
    pub steps: Vec<F>,
    /// The periodic column, as the only one of its list.
    pub periodic: Vec<Vec<F>>,
    pub ghost one_periodic: { length periodic.items ≡ 1 },
}

impl<F: Field> BaseAir<F> for SendingAir<F> {
    ghost declaration = { λ a.
        sending_declaration a.steps.items (map (λ v. v.items) a.periodic.items) };

    fn width(&self) -> usize {
        1
    }

    fn preprocessed_trace(&self, alloc: Global) -> Mem<Option<RowMajorMatrix<F>>> {
        let values = Vec::from_slice(alloc, &self.steps)?;
        Ok(Some(RowMajorMatrix::new_col(values)))
    }

    fn preprocessed_width(&self) -> usize {
        1
    }

    fn main_next_row_columns(&self) -> &[usize] {
        &[]
    }

    fn preprocessed_next_row_columns(&self) -> &[usize] {
        &[]
    }

    fn num_public_values(&self) -> usize {
        1
    }

    fn periodic_columns(&self) -> &[Vec<F>] {
        &self.periodic
    }

    fn num_constraints(&self) -> Option<usize> {
        Some(1)
    }

    fn max_constraint_degree(&self) -> Option<usize> {
        None
    }

    fn assumes_boolean_trace(&self) -> bool {
        false
    }

    ghost has_columns = { λ _. Prim.search rules };

    ghost whole_rows = { λ _. Prim.search rules };

    ghost next_below = { λ _. Prim.search rules };

    ghost preprocessed_next_below = { λ _. Prim.search rules };
}

// The product of two cells.
fn product_of_cells<AB: AirBuilder>(builder: &mut AB, x: Cell, y: Cell) -> Mem<AB::Expr>
    requires left { Declares (AB.shape builder.old) x }
    requires right { Declares (AB.shape builder.old) y }
    ensures later { AB.later builder.old builder.new }
    ensures keeps_shape { AB.shape builder.new ≡ AB.shape builder.old }
    ensures answers { IsTrue AB.never_fails → IsOk result }
    ensures appends { AB.appends builder.old builder.new [] [] }
    ensures represents { IfOk result
        (λ e. AB.represents builder.new e (product (cell_tree x) (cell_tree y))) }
{
    let a = builder.cell(x)?;
    let b = builder.cell(y)?;
    builder.mul(a, b)
}

// The constraint: the cell is the product of the preprocessed and the periodic cell.
fn assert_product<AB: AirBuilder>(builder: &mut AB, cell: Cell, x: Cell, y: Cell) -> Mem<()>
    requires cell { Declares (AB.shape builder.old) cell }
    requires left { Declares (AB.shape builder.old) x }
    requires right { Declares (AB.shape builder.old) y }
    ensures later { AB.later builder.old builder.new }
    ensures keeps_shape { AB.shape builder.new ≡ AB.shape builder.old }
    ensures answers { IsTrue AB.never_fails → IsOk result }
    ensures appends { IfOk result
        (λ _. AB.appends builder.old builder.new
        (over_base (difference (cell_tree cell) (product (cell_tree x) (cell_tree y))) ∷ []) []) }
    ensures on_error { OnErr result (AB.appends builder.old builder.new [] []) }
{
    let a = builder.cell(cell)?;
    let p = product_of_cells(builder, x, y)?;
    builder.assert_eq(a, p)
}

// Sends the pair (x, y) on the bus, once.
fn send_words<AB: InteractionBuilder>(builder: &mut AB, one: AB::F, x: Cell, y: Cell) -> Mem<()>
    requires left { Declares (AB.shape builder.old) x }
    requires right { Declares (AB.shape builder.old) y }
    ensures later { AB.later builder.old builder.new }
    ensures keeps_shape { AB.shape builder.new ≡ AB.shape builder.old }
    ensures answers { IsTrue AB.never_fails → IsOk result }
    ensures appends { IfOk result
        (λ _. AB.appends builder.old builder.new [] (words_sent one x y ∷ [])) }
    ensures on_error { OnErr result (AB.appends builder.old builder.new [] []) }
{
    let a = builder.cell(x)?;
    let b = builder.cell(y)?;
    let value = builder.constant(one)?;
    let once = Count { value, bound: 1 };
    builder.push_interaction("words", &[a, b], once)
}

// Sends within the table x, as often as y says, and y, once.
fn send_cells<AB: InteractionBuilder>(builder: &mut AB, one: AB::F, x: Cell, y: Cell) -> Mem<()>
    requires left { Declares (AB.shape builder.old) x }
    requires right { Declares (AB.shape builder.old) y }
    ensures later { AB.later builder.old builder.new }
    ensures keeps_shape { AB.shape builder.new ≡ AB.shape builder.old }
    ensures answers { IsTrue AB.never_fails → IsOk result }
    ensures appends { IfOk result
        (λ _. AB.appends builder.old builder.new [] (cells_sent one x y ∷ [])) }
    ensures on_error { OnErr result (AB.appends builder.old builder.new [] []) }
{
    let a = builder.cell(x)?;
    let b = builder.cell(y)?;
    let value = builder.constant(one)?;
    let times = Count { value: b, bound: 7 };
    let once = Count { value, bound: 1 };
    builder.push_local_interaction(&[a, b], &[times, once])
}

impl<F: Field> Air<F> for SendingAir<F> {
    ghost trees = { λ _. sending_trees };

    ghost interactions = { λ _. sending_interactions F.ring.one };

    fn eval<AB: InteractionBuilder<F = F>>(&self, builder: &mut AB) -> Mem<()> {
        let m = Cell::Main {
            next: false,
            column: 0,
        };
        let step = Cell::Preprocessed {
            next: false,
            column: 0,
        };
        assert_product(builder, m, step, Cell::Periodic(0))?;
        let public = Cell::Public(0);
        send_words(builder, F::ONE, m, public)?;
        send_cells(builder, F::ONE, m, public)
    }

    ghost counts = { λ _ n e. counts-some n 1 e };

    ghost trees_read = { λ a.
        sending-read a.steps.items (map (λ v. v.items) a.periodic.items)
        (length-map a.periodic.items (λ v. v.items) ∙ a.one_periodic) };

    ghost interactions_read = { λ _. Prim.search rules };
}
