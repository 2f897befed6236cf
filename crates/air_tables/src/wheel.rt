//! The wheel table.
ghost use Rattle.std.proofs.Common.{rules, ◌∙◌};
ghost use Rattle.std.proofs.lemmas.List.{length-map};
ghost use Rattle.std.specs.Prelude.{◌≡◌, ◌+◌, ◌^◌, ◌<◌, [], ◌∷◌, IfOk, length, map};
ghost use Rattle.p3_field.specs.Ring.{of_nat};
ghost use Rattle.air_core.specs.Laws.Declared.{counts-none};
ghost use Rattle.air_tables.specs.Wheel.{numbers_to, turns, wheel_over, wheel_trees};
ghost use Rattle.air_tables.specs.Laws.Wheel.{wheel-read};

use air_core::{Air, AirBuilder, BaseAir, Cell, InteractionBuilder};
use p3_field::{Field, FieldCore, Mem, RingCore};
use p3_matrix::RowMajorMatrix;
use std::alloc::Global;

/// One column, which is the product of a preprocessed column, i + 1 in row i, and of a periodic one, 3 and 5 in turn (not
/// in Plonky3).
#[derive(Drop)]
pub struct WheelAir<F> {
    /// The periodic column, as the only one of its list.
    pub periodic: Vec<Vec<F>>,
    /// The logarithm of the number of rows.
    pub log_height: usize,
    pub ghost one_periodic: { length periodic.items ≡ 1 },
    pub ghost fits: { log_height < 64 },
}

// 1, 2, .., n.
fn numbers<F: Field>(alloc: Global, n: usize) -> Mem<Vec<F>>
    ensures { IfOk result (λ v. v.items ≡ numbers_to F.ring n) }
{
    let mut values = Vec::with_capacity(alloc, n)?;
    for i in 0..n {
        values.push(F::from_u64(i as u64 + 1))?;
    }
    Ok(values)
}

// 3 and 5.
fn periods<F: Field>(alloc: Global) -> Mem<Vec<Vec<F>>>
    ensures { IfOk result (λ v. map (λ c. c.items) v.items ≡ turns F.ring ∷ []) }
{
    let column = Vec::from_array(alloc, [F::from_u64(3), F::from_u64(5)])?;
    let mut columns = Vec::new(alloc);
    columns.push(column)?;
    Ok(columns)
}

impl<F: Field> WheelAir<F> {
    /// The wheel of 2^`log_height` rows. The only error is running out of memory.
    pub fn new(alloc: Global, log_height: usize) -> Mem<Self>
        requires { log_height < 64 }
        ensures height { IfOk result (λ a. a.log_height ≡ log_height) }
        ensures turns { IfOk result (λ a. map (λ c. c.items) a.periodic.items ≡ turns F.ring ∷ []) }
    {
        let periodic = periods(alloc)?;
        Ok(WheelAir {
            periodic,
            log_height,
        })
    }
}

impl<F: Field> BaseAir<F> for WheelAir<F> {
    ghost declaration = { λ a.
        wheel_over F.ring a.log_height (map (λ v. v.items) a.periodic.items) };

    fn width(&self) -> usize {
        1
    }

    fn preprocessed_trace(&self, alloc: Global) -> Mem<Option<RowMajorMatrix<F>>> {
        let values = numbers(alloc, 1 << self.log_height)?;
        Ok(Some(RowMajorMatrix::new_col(values)))
    }

    fn preprocessed_width(&self) -> usize {
        1
    }

    fn main_next_row_columns(&self) -> &[usize] {
        &[]
    }

    fn preprocessed_next_row_columns(&self) -> &[usize] {
        &[]
    }

    fn num_public_values(&self) -> usize {
        0
    }

    fn periodic_columns(&self) -> &[Vec<F>] {
        &self.periodic
    }

    fn num_constraints(&self) -> Option<usize> {
        None
    }

    fn max_constraint_degree(&self) -> Option<usize> {
        None
    }

    fn assumes_boolean_trace(&self) -> bool {
        false
    }

    ghost has_columns = { λ _. Prim.search rules };

    ghost whole_rows = { λ _. Prim.search rules };

    ghost next_below = { λ _. Prim.search rules };

    ghost preprocessed_next_below = { λ _. Prim.search rules };
}

impl<F: Field> Air<F> for WheelAir<F> {
    ghost trees = { λ _. wheel_trees };

    ghost interactions = { λ _. [] };

    fn eval<AB: InteractionBuilder<F = F>>(&self, builder: &mut AB) -> Mem<()> {
        let m = builder.cell(Cell::Main {
            next: false,
            column: 0,
        })?;
        let number = builder.cell(Cell::Preprocessed {
            next: false,
            column: 0,
        })?;
        let turn = builder.cell(Cell::Periodic(0))?;
        let product = builder.mul(number, turn)?;
        builder.assert_eq(m, product)?;
        Ok(())
    }

    ghost counts = { λ _ n e. counts-none n 1 e };

    ghost trees_read = { λ a.
        wheel-read F.ring a.log_height (map (λ v. v.items) a.periodic.items)
        (length-map a.periodic.items (λ v. v.items) ∙ a.one_periodic) };

    ghost interactions_read = { λ _. Prim.search rules };
}
