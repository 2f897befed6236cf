//! The builder that evaluates constraints at a row.
ghost use Rattle.std.specs.Prelude.{◌≡◌, ◌<◌, ◌%◌, ◌++◌, List, [], ◌∷◌, length, IfOk, OnErr, IsTrue, IsOk, false, true, refl};
ghost use Rattle.air_core.specs.Tree.{Tree, Represent, RepresentsCount, over_base, over_extension};
ghost use Rattle.air_core.specs.RowCheck.{CheckedRow, Adds, tree_value_at_row, row_shape};
ghost use Rattle.air_core.specs.declared.cells.Count.{Count as CountOf};
ghost use Rattle.std.proofs.Common.{◌∙◌};
ghost use Rattle.air_core.specs.Operation.{value_by};
ghost use Rattle.air_check.specs.Laws.RowCheck.{row-along, row_shape-row, value_at-row, adds-same, adds-along, keeping-adds};
ghost use Rattle.air_check.specs.Values.{IsBaseValue};

use air_core::{
    AirBuilder, Cell, Count, ExtCell, ExtensionBuilder, InteractionBuilder, PermutationAirBuilder,
    RowValues,
};
use p3_field::{ExtensionField, Field, FieldCore, Mem, PrimeCharacteristicRing, RingCore};
use std::alloc::Global;
use std::marker::Model;

/// Evaluates the constraints that it is handed at one row (`crate::DebugConstraintBuilder`), and keeps the values of
/// the asserted ones, in order: those over the base field as values of the extension. It ignores interactions. A
/// contract sees it as the record `CheckedRow`.
#[derive(Drop)]
pub struct DebugConstraintBuilder<'a, F, EF> {
    row: RowValues<'a, F, EF>,
    values: Vec<EF>,
}

impl<'a, F, EF> Model for DebugConstraintBuilder<'a, F, EF> {
    ghost use Rattle.air_core.specs.RowCheck.{CheckedRow};

    ghost Value = { CheckedRow F EF };

    ghost view = { λ b. record { row = b.row; values = b.values.items } };
}

impl<'a, F: Field, EF: ExtensionField<F>> DebugConstraintBuilder<'a, F, EF> {
    /// A builder at this row, with nothing asserted.
    pub fn new(alloc: Global, row: RowValues<'a, F, EF>) -> Self
        ensures row { result.row ≡ row.entry }
        ensures values { result.values ≡ [] }
    {
        DebugConstraintBuilder {
            row,
            values: Vec::new(alloc),
        }
    }

    /// The values of the asserted constraints, in order.
    pub fn values(&self) -> &[EF]
        ensures { result.now ≡ self.now.values }
    {
        &self.values
    }

    // Keeps a value.
    fn keep(&mut self, x: EF) -> Mem<()>
        ensures appended { IfOk result
            (λ _. self.new ≡ record self.old { values = self.old.values ++ x ∷ [] }) }
        ensures unchanged { OnErr result (self.new ≡ self.old) }
        ensures on_error { OnErr result (Adds F.ring EF.ring EF.embed self.old self.new []) }
    {
        self.values.push(x)?;
        Ok(())
    }
}

impl<'a, F: Field, EF: ExtensionField<F>> AirBuilder for DebugConstraintBuilder<'a, F, EF> {
    ghost use Rattle.air_check.specs.Laws.RowCheck.{row-along, row_shape-row, value_at-row, embedded-value_at, adds-same, adds-along, keeping-adds};

    type F = F;

    type Expr = F;

    ghost represents = { λ b x t. IsBaseValue F.ring EF.ring EF.embed b.row x t };

    ghost later = { λ a b. b.row ≡ a.row };

    ghost appends = { λ a b ts is. Adds F.ring EF.ring EF.embed a b ts };

    ghost asserts = { λ a x b. b ≡ record a { values = a.values ++ EF.embed x ∷ [] } };

    ghost computes = { λ a op x y b e. e ≡ value_by F.ring op x y };

    ghost shape = { λ b. row_shape b.row };

    ghost never_fails = { false };

    ghost only_asserting_fails = { true };

    fn cell(&mut self, c: Cell) -> Mem<F> {
        Ok(self.row.cell(c))
    }

    fn constant(&mut self, x: F) -> Mem<F> {
        Ok(x)
    }

    fn add(&mut self, x: F, y: F) -> Mem<F> {
        Ok(x + y)
    }

    fn sub(&mut self, x: F, y: F) -> Mem<F> {
        Ok(x - y)
    }

    fn mul(&mut self, x: F, y: F) -> Mem<F> {
        Ok(x * y)
    }

    fn assert_zero(&mut self, x: F) -> Mem<()> {
        self.keep(EF::from_base(x))
    }

    ghost arrays_fit = { F.arrays_fit };

    ghost later_same = { λ a. refl };

    ghost later_along = { row-along };

    ghost later_shape = { row_shape-row };

    ghost persists = { λ a b h x t k. value_at-row F.ring EF.ring EF.embed a b h (EF.embed x) t k };

    ghost appends_none = { adds-same F.ring EF.ring EF.embed };

    ghost appends_later = { λ a b t i h. h.row };

    ghost appends_along = { λ a b c s t i j h k. adds-along F.ring EF.ring EF.embed a b c s t h k };

    ghost never_fails_sure = { λ _. refl };

    ghost computes_represents = { λ a b h op x y e s t k l q.
        embedded-value_at F.ring F.ring_laws EF.ring EF.ring_laws EF.embed EF.embed_laws a b h op x
        y e s t k l q };

    ghost asserts_appends = { λ a b x t h e.
        keeping-adds F.ring EF.ring EF.embed a b (EF.embed x) (over_base t) h e };
}

impl<'a, F: Field, EF: ExtensionField<F>> ExtensionBuilder for DebugConstraintBuilder<'a, F, EF> {
    ghost use Rattle.air_check.specs.Laws.RowCheck.{value_at-row, value_by-at, keeping-adds};

    type ExprEF = EF;

    ghost represents_ext = { λ b x t. x ≡ tree_value_at_row F.ring EF.ring EF.embed b.row t };

    ghost asserts_ext = { λ a x b. b ≡ record a { values = a.values ++ x ∷ [] } };

    ghost computes_ext = { λ a op x y b e. e ≡ value_by EF.ring op x y };

    ghost lifts = { λ a x b e. e ≡ EF.embed x };

    fn lift(&mut self, x: F) -> Mem<EF> {
        Ok(EF::from_base(x))
    }

    fn add_ext(&mut self, x: EF, y: EF) -> Mem<EF> {
        Ok(x + y)
    }

    fn sub_ext(&mut self, x: EF, y: EF) -> Mem<EF> {
        Ok(x - y)
    }

    fn mul_ext(&mut self, x: EF, y: EF) -> Mem<EF> {
        Ok(x * y)
    }

    fn assert_zero_ext(&mut self, x: EF) -> Mem<()> {
        self.keep(x)
    }

    ghost arrays_fit_ext = { EF.arrays_fit };

    ghost persists_ext = { λ a b h x t k. value_at-row F.ring EF.ring EF.embed a b h x t k };

    ghost computes_ext_represents = { λ a b h op x y e s t k l q.
        value_by-at F.ring EF.ring EF.embed a b h op x y e s t k l q };

    ghost lifts_represents = { λ a b h x e t k q.
        value_at-row F.ring EF.ring EF.embed a b h e t (q ∙ k) };

    ghost asserts_ext_appends = { λ a b x t h e.
        keeping-adds F.ring EF.ring EF.embed a b x (over_extension t) h e };
}

impl<'a, F: Field, EF: ExtensionField<F>> PermutationAirBuilder
    for DebugConstraintBuilder<'a, F, EF> {
    fn ext_cell(&mut self, c: ExtCell) -> Mem<EF> {
        Ok(self.row.ext_cell(c))
    }
}

impl<'a, F: Field, EF: ExtensionField<F>> InteractionBuilder for DebugConstraintBuilder<'a, F, EF> {
    ghost use Rattle.air_check.specs.Laws.RowCheck.{unchanged-adds};

    ghost sends = { λ a bus xs cs b. b ≡ a };

    fn push_interaction(&mut self, _bus_name: &str, fields: &[F], count: Count<F>) -> Mem<()>
        ensures later { self.new.row ≡ self.old.row }
        ensures keeps_shape { row_shape self.new.row ≡ row_shape self.old.row }
        ensures answers { IsTrue false → IsOk result }
        ensures appends { (fs : List (Tree F)) (v : Tree F)
            → Represent (IsBaseValue F.ring EF.ring EF.embed self.old.row) fields.now fs
            → IsBaseValue F.ring EF.ring EF.embed self.old.row count.value v
            → IfOk result (λ _. Adds F.ring EF.ring EF.embed self.old self.new []) }
        ensures sure { IsTrue true → IsOk result }
        ensures sends { IfOk result (λ _. self.new ≡ self.old) }
        ensures on_error { OnErr result (Adds F.ring EF.ring EF.embed self.old self.new []) }
    {
        Ok(())
    }

    fn push_local_interaction(&mut self, fields: &[F], counts: &[Count<F>]) -> Mem<()>
        requires counted { 0 < length counts.now }
        requires whole { length fields.now % length counts.now ≡ 0 }
        ensures later { self.new.row ≡ self.old.row }
        ensures keeps_shape { row_shape self.new.row ≡ row_shape self.old.row }
        ensures answers { IsTrue false → IsOk result }
        ensures appends { (fs : List (Tree F)) (vs : List (CountOf (Tree F)))
            → Represent (IsBaseValue F.ring EF.ring EF.embed self.old.row) fields.now fs
            → Represent (RepresentsCount (IsBaseValue F.ring EF.ring EF.embed self.old.row))
            counts.now vs → IfOk result (λ _. Adds F.ring EF.ring EF.embed self.old self.new []) }
        ensures sure { IsTrue true → IsOk result }
        ensures sends { IfOk result (λ _. self.new ≡ self.old) }
        ensures on_error { OnErr result (Adds F.ring EF.ring EF.embed self.old self.new []) }
    {
        Ok(())
    }

    ghost sends_appends = { λ a b bus xs cs fs vs h k e.
        unchanged-adds F.ring EF.ring EF.embed a b e };
}
