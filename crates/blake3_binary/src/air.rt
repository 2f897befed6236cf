//! The AIR.
ghost use Rattle.std.proofs.Common.{rules};
ghost use Rattle.std.specs.Prelude.{◌≡◌, ◌+◌, ◌≤◌, ◌<◌, [], ◌∷◌, IfOk, IsOk, IsTrue, None, true, false};
ghost use Rattle.air_core.specs.declared.cells.Cell.TheVariants.{Main as MainCell};
ghost use Rattle.air_core.specs.Tree.{bool_tree, cell as cell_tree};
ghost use Rattle.air_core.specs.Appended.{Appended, AppendedSome, OnFailure};
ghost use Rattle.blake3_binary.specs.Trees.{bits_trees, binary_trees, air_trees, binary_declaration};
ghost use Rattle.blake3_binary.specs.Laws.Reads.{binary_read, counts-binary};

use crate::rounds::assert_steps;
use air_core::{Air, AirBuilder, BaseAir, InteractionBuilder};
use blake3_compress::cell_at;
use p3_field::{Field, Mem};
use p3_matrix::RowMajorMatrix;
use std::alloc::Global;

/// The columns of the AIR.
pub const NUM_BLAKE3_BINARY_COLS: usize = 11536;

/// The compression of BLAKE3 as a table over a field of characteristic two: one compression a row
/// (`p3_blake3_air::Blake3BinaryAir`). Its two forms are made by `default` and `assuming_boolean_trace`.
#[derive(Drop)]
pub struct Blake3BinaryAir {
    boolean_trace: bool,
}

impl Blake3BinaryAir {
    /// The AIR that asserts that the cells of the input are bits: 11536 constraints.
    pub fn default() -> Blake3BinaryAir
        ensures { result.boolean_trace ≡ false }
    {
        Blake3BinaryAir {
            boolean_trace: false,
        }
    }

    /// The AIR that takes the cells of the input for bits: 10640 constraints. Whoever uses it has to know from elsewhere that
    /// these cells are bits, as where the trace is committed bit by bit.
    pub fn assuming_boolean_trace() -> Blake3BinaryAir
        ensures { result.boolean_trace ≡ true }
    {
        Blake3BinaryAir {
            boolean_trace: true,
        }
    }
}

// Asserts that the cell is a bit.
fn assert_bit<AB: AirBuilder>(builder: &mut AB, column: usize) -> Mem<()>
    requires wide { 11536 ≤ (AB.shape builder.old).main }
    requires within_column { column < 11536 }
    ensures later { AB.later builder.old builder.new }
    ensures keeps_shape { AB.shape builder.new ≡ AB.shape builder.old }
    ensures answers { IsTrue AB.never_fails → IsOk result }
    ensures appends { IfOk result
        (λ _. Appended AB.appends builder.old builder.new
        (bool_tree AB.F.ring.one (cell_tree (MainCell false column)) ∷ [])) }
    ensures on_error { OnFailure result
        (AppendedSome AB.appends builder.old builder.new
        (bool_tree AB.F.ring.one (cell_tree (MainCell false column)) ∷ [])) }
{
    let cell = cell_at(builder, column)?;
    builder.assert_bool(cell)?;
    Ok(())
}

// Asserts that the n cells from a column on are bits.
fn assert_bits<AB: AirBuilder>(builder: &mut AB, column: usize, n: usize) -> Mem<()>
    requires wide { 11536 ≤ (AB.shape builder.old).main }
    requires within_column { column + n ≤ 11536 }
    ensures later { AB.later builder.old builder.new }
    ensures keeps_shape { AB.shape builder.new ≡ AB.shape builder.old }
    ensures answers { IsTrue AB.never_fails → IsOk result }
    ensures appends { IfOk result
        (λ _. Appended AB.appends builder.old builder.new (bits_trees AB.F.ring column n)) }
    ensures on_error { OnFailure result
        (AppendedSome AB.appends builder.old builder.new (bits_trees AB.F.ring column n)) }
{
    for i in 0..n {
        assert_bit(builder, column + i)?;
    }
    Ok(())
}

// Appends all constraints.
fn assert_all<AB: AirBuilder>(builder: &mut AB) -> Mem<()>
    requires wide { 11536 ≤ (AB.shape builder.old).main }
    ensures later { AB.later builder.old builder.new }
    ensures keeps_shape { AB.shape builder.new ≡ AB.shape builder.old }
    ensures answers { IsTrue AB.never_fails → IsOk result }
    ensures appends { IfOk result
        (λ _. Appended AB.appends builder.old builder.new (binary_trees AB.F.ring)) }
    ensures on_error { OnFailure result
        (AppendedSome AB.appends builder.old builder.new (binary_trees AB.F.ring)) }
{
    assert_bits(builder, 0, 896)?;
    assert_steps(builder)?;
    Ok(())
}

// Appends the constraints of either form.
fn assert_chosen<AB: AirBuilder>(builder: &mut AB, boolean_trace: bool) -> Mem<()>
    requires wide { 11536 ≤ (AB.shape builder.old).main }
    ensures later { AB.later builder.old builder.new }
    ensures keeps_shape { AB.shape builder.new ≡ AB.shape builder.old }
    ensures answers { IsTrue AB.never_fails → IsOk result }
    ensures appends { IfOk result
        (λ _. Appended AB.appends builder.old builder.new (air_trees AB.F.ring boolean_trace)) }
    ensures on_error { OnFailure result
        (AppendedSome AB.appends builder.old builder.new (air_trees AB.F.ring boolean_trace)) }
{
    if boolean_trace {
        assert_steps(builder)
    } else {
        assert_all(builder)
    }
}

impl<F: Field> BaseAir<F> for Blake3BinaryAir {
    ghost declaration = { λ a. binary_declaration a.boolean_trace };

    fn width(&self) -> usize {
        NUM_BLAKE3_BINARY_COLS
    }

    fn preprocessed_trace(&self, _alloc: Global) -> Mem<Option<RowMajorMatrix<F>>> {
        Ok(None)
    }

    fn preprocessed_width(&self) -> usize {
        0
    }

    fn main_next_row_columns(&self) -> &[usize] {
        &[]
    }

    fn preprocessed_next_row_columns(&self) -> &[usize] {
        &[]
    }

    fn num_public_values(&self) -> usize {
        0
    }

    fn periodic_columns(&self) -> &[Vec<F>] {
        &[]
    }

    fn num_constraints(&self) -> Option<usize> {
        if self.boolean_trace {
            Some(10640)
        } else {
            Some(11536)
        }
    }

    fn max_constraint_degree(&self) -> Option<usize> {
        Some(2)
    }

    fn assumes_boolean_trace(&self) -> bool {
        self.boolean_trace
    }

    ghost has_columns = { λ _. tt };

    ghost whole_rows = { λ _. tt };

    ghost next_below = { λ _. Prim.search rules };

    ghost preprocessed_next_below = { λ _. Prim.search rules };
}

impl<F: Field> Air<F> for Blake3BinaryAir {
    ghost trees = { λ a. air_trees F.ring a.boolean_trace };

    ghost interactions = { λ _. [] };

    fn eval<AB: InteractionBuilder<F = F>>(&self, builder: &mut AB) -> Mem<()> {
        assert_chosen(builder, self.boolean_trace)?;
        Ok(())
    }

    ghost counts = { λ a n e. counts-binary F.ring a.boolean_trace n e };

    ghost trees_read = { λ a. binary_read F.ring a.boolean_trace };

    ghost interactions_read = { λ _. Prim.search rules };
}
