//! The two tables as AIRs.
ghost use Rattle.std.specs.Prelude.{◌≡◌, ◌<◌, ◌≤◌, false, [], ◌∷◌, IfOk, IsOk, IsTrue, OnErr, map};
ghost use Rattle.p3_field.specs.Poly.{tabulate};
ghost use Rattle.air_core.specs.declared.cells.Cell.TheVariants.{Preprocessed};
ghost use Rattle.air_gadgets.specs.Gadgets.{RepresentAt};
ghost use Rattle.air_core.specs.Tree.{SomeFirst, cell as cell_tree, constant, difference, over_base};
ghost use Rattle.example_air.specs.Bytes.{all_bytes, byte_row_trees, byte_sent, main_column as column_tree, example_declaration, example_interactions, example_trees};
ghost use Rattle.example_air.specs.Laws.Reads.{example-counts, example-has_columns, example-interactions_read, example-next, example-preprocessed_next, example-read, example-whole};

use air_core::{Air, AirBuilder, BaseAir, Cell, Count, InteractionBuilder};
use air_gadgets::pack_bits_le;
use p3_field::{Field, FieldCore, Mem, RingCore};
use p3_matrix::RowMajorMatrix;
use std::alloc::Global;

/// One of the two tables (not in Plonky3), so that both are of one type and can stand in one batch.
#[derive(Drop)]
pub enum ExampleAir {
    /// A row is a byte: eight columns with its bits, the lowest first, and a ninth with their number, which is sent on the bus `bytes`
    /// once.
    Bits,
    /// A row for each byte, 0 to 255, in a preprocessed column, and one column of counts. The byte is sent on the bus `bytes` as often as
    /// minus its count, which is trusted to be at most 1024: no constraint keeps it.
    Bytes,
}

// 0 to 255.
fn all_bytes<F: Field>(alloc: Global) -> Mem<Vec<F>>
    ensures { IfOk result (λ v. v.items ≡ all_bytes F.ring) }
{
    let mut values = Vec::with_capacity(alloc, 256)?;
    for byte in 0..256 {
        values.push(F::from_u64(byte))?;
    }
    Ok(values)
}

impl<F: Field> BaseAir<F> for ExampleAir {
    ghost declaration = { example_declaration F.ring };

    fn width(&self) -> usize {
        match self {
            ExampleAir::Bits => 9,
            ExampleAir::Bytes => 1,
        }
    }

    fn preprocessed_trace(&self, alloc: Global) -> Mem<Option<RowMajorMatrix<F>>> {
        match self {
            ExampleAir::Bits => Ok(None),
            ExampleAir::Bytes => Ok(Some(RowMajorMatrix::new_col(all_bytes(alloc)?))),
        }
    }

    fn preprocessed_width(&self) -> usize {
        match self {
            ExampleAir::Bits => 0,
            ExampleAir::Bytes => 1,
        }
    }

    fn main_next_row_columns(&self) -> &[usize] {
        &[]
    }

    fn preprocessed_next_row_columns(&self) -> &[usize] {
        &[]
    }

    fn num_public_values(&self) -> usize {
        0
    }

    fn periodic_columns(&self) -> &[Vec<F>] {
        &[]
    }

    fn num_constraints(&self) -> Option<usize> {
        None
    }

    fn max_constraint_degree(&self) -> Option<usize> {
        None
    }

    fn assumes_boolean_trace(&self) -> bool {
        false
    }

    ghost has_columns = { example-has_columns F.ring };

    ghost whole_rows = { example-whole F.ring };

    ghost next_below = { example-next F.ring };

    ghost preprocessed_next_below = { example-preprocessed_next F.ring };
}

// The cell of this row in a main column.
fn column<AB: AirBuilder>(builder: &mut AB, column: usize) -> Mem<AB::Expr>
    requires { column < (AB.shape builder.old).main }
    ensures keeps_shape { AB.shape builder.new ≡ AB.shape builder.old }
    ensures appends { AB.appends builder.old builder.new [] [] }
    ensures answers { IsTrue AB.never_fails → IsOk result }
    ensures represents { IfOk result (λ e. AB.represents builder.new e (column_tree column)) }
{
    builder.cell(Cell::Main {
        next: false,
        column,
    })
}

// The cells of the first eight columns.
fn bits<AB: AirBuilder>(builder: &mut AB) -> Mem<[AB::Expr; 8]>
    requires { 9 ≤ (AB.shape builder.old).main }
    ensures keeps_shape { AB.shape builder.new ≡ AB.shape builder.old }
    ensures appends { AB.appends builder.old builder.new [] [] }
    ensures answers { IsTrue AB.never_fails → IsOk result }
    ensures represents { IfOk result
        (λ es. RepresentAt (AB.represents builder.new) es column_tree) }
{
    let first = column(builder, 0)?;
    let mut cells = [first; 8];
    for i in 1..8 {
        cells[i] = column(builder, i)?;
    }
    Ok(cells)
}

// Asserts that the first eight cells are bits, and that the ninth is their number.
fn assert_bits<AB: AirBuilder>(builder: &mut AB) -> Mem<()>
    requires { 9 ≤ (AB.shape builder.old).main }
    ensures later { AB.later builder.old builder.new }
    ensures keeps_shape { AB.shape builder.new ≡ AB.shape builder.old }
    ensures answers { IsTrue AB.never_fails → IsOk result }
    ensures appends { IfOk result
        (λ _. AB.appends builder.old builder.new (map over_base (byte_row_trees AB.F.ring)) []) }
    ensures on_error { OnErr result
        (SomeFirst (AB.appends builder.old builder.new) (map over_base (byte_row_trees AB.F.ring))
        []) }
{
    let bits = bits(builder)?;
    builder.assert_bools(&bits)?;
    let number = column(builder, 8)?;
    let packed = pack_bits_le(builder, &bits)?;
    builder.assert_eq(number, packed)?;
    Ok(())
}

// Sends the ninth cell, once.
fn send_number<AB: InteractionBuilder>(builder: &mut AB, one: AB::F) -> Mem<()>
    requires { 9 ≤ (AB.shape builder.old).main }
    ensures later { AB.later builder.old builder.new }
    ensures keeps_shape { AB.shape builder.new ≡ AB.shape builder.old }
    ensures answers { IsTrue AB.never_fails → IsOk result }
    ensures appends { IfOk result
        (λ _. AB.appends builder.old builder.new []
        (byte_sent (column_tree 8) (constant one) 1 ∷ [])) }
    ensures on_error { OnErr result (AB.appends builder.old builder.new [] []) }
{
    let number = column(builder, 8)?;
    let value = builder.constant(one)?;
    builder.push_interaction("bytes", &[number], Count { value, bound: 1 })
}

// Sends the preprocessed byte, as often as minus the first cell, which is taken from `nothing`.
fn send_byte<AB: InteractionBuilder>(builder: &mut AB, nothing: AB::F) -> Mem<()>
    requires main { 1 ≤ (AB.shape builder.old).main }
    requires preprocessed { 1 ≤ (AB.shape builder.old).preprocessed }
    ensures later { AB.later builder.old builder.new }
    ensures keeps_shape { AB.shape builder.new ≡ AB.shape builder.old }
    ensures answers { IsTrue AB.never_fails → IsOk result }
    ensures appends { IfOk result
        (λ _. AB.appends builder.old builder.new []
        (byte_sent (cell_tree (Preprocessed false 0))
        (difference (constant nothing) (column_tree 0)) 1024 ∷ [])) }
    ensures on_error { OnErr result (AB.appends builder.old builder.new [] []) }
{
    let byte = builder.cell(Cell::Preprocessed {
        next: false,
        column: 0,
    })?;
    let times = column(builder, 0)?;
    let nothing = builder.constant(nothing)?;
    let value = builder.sub(nothing, times)?;
    builder.push_interaction("bytes", &[byte], Count { value, bound: 1024 })
}

impl<F: Field> Air<F> for ExampleAir {
    ghost trees = { example_trees F.ring };

    ghost interactions = { example_interactions F.ring };

    fn eval<AB: InteractionBuilder<F = F>>(&self, builder: &mut AB) -> Mem<()> {
        match self {
            ExampleAir::Bits => {
                assert_bits(builder)?;
                send_number(builder, F::ONE)
            }
            ExampleAir::Bytes => send_byte(builder, F::ZERO),
        }
    }

    ghost counts = { example-counts F.ring };

    ghost trees_read = { example-read F.ring };

    ghost interactions_read = { example-interactions_read F.ring };
}
