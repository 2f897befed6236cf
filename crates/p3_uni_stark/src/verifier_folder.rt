//! The verifier's constraint folder.
ghost use Rattle.std.specs.Prelude.{◌≡◌, List, [], ◌∷◌, IfOk, OnErr, IsOk, IsTrue, true, refl};
ghost use Rattle.std.proofs.Common.{◌∙◌, ap};
ghost use Rattle.air_core.specs.Tree.{Tree, Represent};
ghost use Rattle.p3_uni_stark.specs.Point.{point_reading, point_shape};
ghost use Rattle.p3_uni_stark.specs.Laws.Folders.{shape_along, value_persists, value_by_persists, folded_along};
ghost use Rattle.air_core.specs.Operation.{value_by};

use air_core::{
    AirBuilder, BaseCells, Cell, Count, ExtCell, ExtensionBuilder, InteractionBuilder,
    PermutationAirBuilder,
};
use p3_field::{ExtensionField, Field, FieldCore, Mem, PrimeCharacteristicRing, RingCore};

/// Folds constraints at one point by a challenge, over the opened values there (`VerifierConstraintFolder` of
/// `p3-uni-stark`). It never fails. From a zero accumulator the sum after n constraints is that of
/// alpha^(n-1-i) times constraint i's value. Interactions add nothing.
#[derive(Drop)]
pub struct VerifierFolder<'a, F, E> {
    /// The main columns' values at the point, one for each column.
    pub main_local: &'a [E],
    /// The main columns' values at the next point.
    pub main_next: &'a [E],
    /// The preprocessed columns' values at the point.
    pub preprocessed_local: &'a [E],
    /// The preprocessed columns' values at the next point.
    pub preprocessed_next: &'a [E],
    /// The periodic columns' values at the point.
    pub periodic_values: &'a [E],
    /// The public values.
    pub public_values: &'a [F],
    /// The value of the selector of the first row.
    pub is_first_row: E,
    /// The value of the selector of the last row.
    pub is_last_row: E,
    /// The value of the selector of all rows but the last.
    pub is_transition: E,
    /// The challenge.
    pub alpha: E,
    /// The sum so far.
    pub accumulator: E,
}

impl<'a, F: Field, E: ExtensionField<F>> VerifierFolder<'a, F, E> {
    ghost use Rattle.p3_uni_stark.specs.VerifierState.{folder_opened_of};

    // The values that it reads.
    fn cells(&self) -> BaseCells<'a, F, E>
        ensures { result ≡ (folder_opened_of self.now).values }
    {
        BaseCells {
            main_local: self.main_local,
            main_next: self.main_next,
            preprocessed_local: self.preprocessed_local,
            preprocessed_next: self.preprocessed_next,
            periodic: self.periodic_values,
            public_values: self.public_values,
            first_row: self.is_first_row,
            last_row: self.is_last_row,
            transition: self.is_transition,
        }
    }

    /// Folds one more value in, be it a constraint's value or not: the sum times the challenge, plus the
    /// value (not in Plonky3). A folder that wraps this one takes its constraints in by this call.
    pub fn fold_in(&mut self, x: E)
        ensures unchanged { folder_opened_of self.new ≡ folder_opened_of self.old }
        ensures sum { self.new.accumulator
            ≡ E.ring.add (E.ring.mul self.old.accumulator self.old.alpha) x }
    {
        self.accumulator = self.accumulator * self.alpha + x;
    }
}

impl<'a, F: Field, E: ExtensionField<F>> AirBuilder for VerifierFolder<'a, F, E> {
    ghost use Rattle.p3_uni_stark.specs.VerifierState.{folder_opened_of, IsOpenedValue, HasFolded, HasFoldedTrees};

    type F = F;

    type Expr = E;

    ghost represents = { λ b e t. IsOpenedValue E.ring E.embed (folder_opened_of b) e t };

    ghost later = { λ a b. folder_opened_of b ≡ folder_opened_of a };

    ghost appends = { λ a b ts is. HasFoldedTrees E.ring E.embed a b ts };

    ghost asserts = { λ a x b. HasFolded E.ring a b (x ∷ []) };

    ghost computes = { λ a op x y b e. e ≡ value_by E.ring op x y };

    ghost shape = { λ b. point_shape (folder_opened_of b).values };

    ghost never_fails = { true };

    ghost only_asserting_fails = { true };

    fn cell(&mut self, c: Cell) -> Mem<E> {
        Ok(self.cells().cell(c))
    }

    fn constant(&mut self, x: F) -> Mem<E> {
        Ok(E::from_base(x))
    }

    fn add(&mut self, x: E, y: E) -> Mem<E> {
        Ok(x + y)
    }

    fn sub(&mut self, x: E, y: E) -> Mem<E> {
        Ok(x - y)
    }

    fn mul(&mut self, x: E, y: E) -> Mem<E> {
        Ok(x * y)
    }

    fn assert_zero(&mut self, x: E) -> Mem<()> {
        self.fold_in(x);
        Ok(())
    }

    ghost arrays_fit = { E.arrays_fit };

    ghost later_same = { λ a. refl };

    ghost later_along = { λ a b c p q. q ∙ p };

    ghost later_shape = { λ a b p.
        shape_along (λ o. o.values) (folder_opened_of a) (folder_opened_of b) p };

    ghost persists = { λ a b h e t k.
        value_persists (λ o. point_reading E.ring E.embed o.values) (folder_opened_of a)
        (folder_opened_of b) e t h k };

    ghost appends_none = { λ a. (refl, refl) };

    ghost appends_later = { λ a b t i h. h.0 };

    ghost appends_along = { λ a b c s t i j p q. (
      q.0 ∙ p.0,
      folded_along E.ring (λ o. point_reading E.ring E.embed o.values) (λ o. o.alpha)
          (folder_opened_of a)
          (folder_opened_of b) a.accumulator b.accumulator c.accumulator s t p.0 p.1 q.1,
    ) };

    ghost never_fails_sure = { λ h. h };

    ghost computes_represents = { λ a b h op x y e s t k l q.
        value_by_persists E.ring E.embed (λ o. o.values) (folder_opened_of a) (folder_opened_of b)
        op x y e s t h k l q };

    ghost asserts_appends = { λ a b x t h k.
        (k.0, k.1 ∙ ap (E.ring.add (E.ring.mul a.accumulator a.alpha)) h) };
}

impl<'a, F: Field, E: ExtensionField<F>> ExtensionBuilder for VerifierFolder<'a, F, E> {
    ghost use Rattle.p3_uni_stark.specs.VerifierState.{folder_opened_of, IsOpenedValue, HasFolded};

    type ExprEF = E;

    ghost represents_ext = { λ b e t. IsOpenedValue E.ring E.embed (folder_opened_of b) e t };

    ghost asserts_ext = { λ a x b. HasFolded E.ring a b (x ∷ []) };

    ghost computes_ext = { λ a op x y b e. e ≡ value_by E.ring op x y };

    ghost lifts = { λ a x b e. e ≡ x };

    fn lift(&mut self, x: E) -> Mem<E> {
        Ok(x)
    }

    fn add_ext(&mut self, x: E, y: E) -> Mem<E> {
        Ok(x + y)
    }

    fn sub_ext(&mut self, x: E, y: E) -> Mem<E> {
        Ok(x - y)
    }

    fn mul_ext(&mut self, x: E, y: E) -> Mem<E> {
        Ok(x * y)
    }

    fn assert_zero_ext(&mut self, x: E) -> Mem<()> {
        self.fold_in(x);
        Ok(())
    }

    ghost arrays_fit_ext = { E.arrays_fit };

    ghost persists_ext = { λ a b h e t k.
        value_persists (λ o. point_reading E.ring E.embed o.values) (folder_opened_of a)
        (folder_opened_of b) e t h k };

    ghost computes_ext_represents = { λ a b h op x y e s t k l q.
        value_by_persists E.ring E.embed (λ o. o.values) (folder_opened_of a) (folder_opened_of b)
        op x y e s t h k l q };

    ghost lifts_represents = { λ a b h x e t k q.
        value_persists (λ o. point_reading E.ring E.embed o.values) (folder_opened_of a)
        (folder_opened_of b) e t h (q ∙ k) };

    ghost asserts_ext_appends = { λ a b x t h k.
        (k.0, k.1 ∙ ap (E.ring.add (E.ring.mul a.accumulator a.alpha)) h) };
}

impl<'a, F: Field, E: ExtensionField<F>> PermutationAirBuilder for VerifierFolder<'a, F, E> {
    fn ext_cell(&mut self, _c: ExtCell) -> Mem<E> {
        Ok(E::ZERO)
    }
}

impl<'a, F: Field, E: ExtensionField<F>> InteractionBuilder for VerifierFolder<'a, F, E> {
    ghost use Rattle.p3_uni_stark.specs.VerifierState.{folder_opened_of, IsOpenedValue, HasFolded};

    ghost sends = { λ a bus xs cs b. HasFolded E.ring a b [] };

    fn push_interaction(&mut self, _bus_name: &str, fields: &[E], count: Count<E>) -> Mem<()>
        ensures later { folder_opened_of self.new ≡ folder_opened_of self.old }
        ensures keeps_shape { point_shape (folder_opened_of self.new).values
            ≡ point_shape (folder_opened_of self.old).values }
        ensures answers { IsTrue true → IsOk result }
        ensures appends { (fs : List (Tree F)) (v : Tree F)
            → Represent (IsOpenedValue E.ring E.embed (folder_opened_of self.old)) fields.now fs
            → IsOpenedValue E.ring E.embed (folder_opened_of self.old) count.value v
            → IfOk result (λ _. HasFolded E.ring self.old self.new []) }
        ensures sure { IsTrue true → IsOk result }
        ensures sends { IfOk result (λ _. HasFolded E.ring self.old self.new []) }
        ensures on_error { OnErr result (HasFolded E.ring self.old self.new []) }
    {
        Ok(())
    }

    fn push_local_interaction(&mut self, _fields: &[E], _counts: &[Count<E>]) -> Mem<()> {
        Ok(())
    }

    ghost sends_appends = { λ a b bus xs cs fs vs h k e. e };
}
