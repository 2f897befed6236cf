//! An AIR that is lent, as an AIR.
ghost use Rattle.std.specs.Prelude.{◌≡◌};

use air_core::{Air, BaseAir, InteractionBuilder};
use p3_field::{FieldCore, Mem, RingCore};
use p3_matrix::RowMajorMatrix;
use std::alloc::Global;
use std::marker::Model;

/// An AIR behind a reference (not in Plonky3). It answers as that AIR does, and a contract sees it as
/// that AIR.
#[derive(Drop)]
pub struct LentAir<'a, A> {
    air: &'a A,
}

impl<'a, A> Model for LentAir<'a, A> {
    ghost Value = { A };

    ghost view = { λ l. l.air.now };
}

impl<'a, A> LentAir<'a, A> {
    /// This AIR, lent.
    pub fn new(air: &'a A) -> Self
        ensures { result ≡ air.now }
    {
        LentAir { air }
    }
}

impl<'a, F: FieldCore, A: BaseAir<F>> BaseAir<F> for LentAir<'a, A> {
    ghost declaration = { λ a. A.declaration a };

    fn width(&self) -> usize {
        self.air.width()
    }

    fn preprocessed_trace(&self, alloc: Global) -> Mem<Option<RowMajorMatrix<F>>> {
        self.air.preprocessed_trace(alloc)
    }

    fn preprocessed_width(&self) -> usize {
        self.air.preprocessed_width()
    }

    fn main_next_row_columns(&self) -> &[usize] {
        self.air.main_next_row_columns()
    }

    fn preprocessed_next_row_columns(&self) -> &[usize] {
        self.air.preprocessed_next_row_columns()
    }

    fn num_public_values(&self) -> usize {
        self.air.num_public_values()
    }

    fn periodic_columns(&self) -> &[Vec<F>] {
        self.air.periodic_columns()
    }

    fn num_constraints(&self) -> Option<usize> {
        self.air.num_constraints()
    }

    fn max_constraint_degree(&self) -> Option<usize> {
        self.air.max_constraint_degree()
    }

    fn assumes_boolean_trace(&self) -> bool {
        self.air.assumes_boolean_trace()
    }

    ghost has_columns = { A.has_columns };

    ghost whole_rows = { A.whole_rows };

    ghost next_below = { A.next_below };

    ghost preprocessed_next_below = { A.preprocessed_next_below };
}

impl<'a, F: FieldCore, A: Air<F>> Air<F> for LentAir<'a, A> {
    ghost trees = { λ a. A.trees a };

    ghost interactions = { λ a. A.interactions a };

    fn eval<AB: InteractionBuilder<F = F>>(&self, builder: &mut AB) -> Mem<()> {
        self.air.eval(builder)
    }

    ghost counts = { A.counts };

    ghost trees_read = { A.trees_read };

    ghost interactions_read = { A.interactions_read };
}
