//! The prover's constraint folder.
ghost use Rattle.std.specs.Prelude.{◌≡◌, List, [], ◌∷◌, IfOk, OnErr, IsOk, IsTrue, true, refl};
ghost use Rattle.std.proofs.Common.{◌∙◌, ap};
ghost use Rattle.air_core.specs.Tree.{Tree, Represent};
ghost use Rattle.p3_uni_stark.specs.Fold.{added_to};
ghost use Rattle.p3_uni_stark.specs.Point.{point_reading, embedded, point_shape};
ghost use Rattle.p3_uni_stark.specs.Laws.Folders.{shape_along, value_persists, value_by_persists, base_value_by_persists, weighed_along};
ghost use Rattle.air_core.specs.Operation.{value_by};

use air_core::{
    AirBuilder, BaseCells, Cell, Count, ExtCell, ExtensionBuilder, InteractionBuilder,
    PermutationAirBuilder,
};
use p3_field::{ExtensionField, Field, FieldCore, Mem, PrimeCharacteristicRing, RingCore};

/// Folds constraints at one point of the quotient domain, over values of the base field, by the listed powers of the
/// challenge (`ProverConstraintFolder` of `p3-uni-stark`). It never fails. From a zero accumulator and the first power
/// the sum is that of each constraint's value times the power of its number; where the powers are alpha^(n-1), ..,
/// alpha, 1 this is the verifier's fold of n constraints. A constraint past the last power adds nothing, and
/// interactions add nothing.
#[derive(Drop)]
pub struct ProverFolder<'a, F, E> {
    /// The main columns' values at the point, one for each column.
    pub main_local: &'a [F],
    /// The main columns' values at the next point.
    pub main_next: &'a [F],
    /// The preprocessed columns' values at the point.
    pub preprocessed_local: &'a [F],
    /// The preprocessed columns' values at the next point.
    pub preprocessed_next: &'a [F],
    /// The periodic columns' values at the point.
    pub periodic_values: &'a [F],
    /// The public values.
    pub public_values: &'a [F],
    /// The value of the selector of the first row.
    pub is_first_row: F,
    /// The value of the selector of the last row.
    pub is_last_row: F,
    /// The value of the selector of all rows but the last.
    pub is_transition: F,
    /// The power of the challenge for each constraint, in order.
    pub alpha_powers: &'a [E],
    /// How many constraints have taken their powers: from 0 the lesser of the numbers of constraints and of powers.
    pub constraint_index: usize,
    /// The sum so far.
    pub accumulator: E,
}

impl<'a, F: Field, E: ExtensionField<F>> ProverFolder<'a, F, E> {
    ghost use Rattle.p3_uni_stark.specs.ProverState.{folder_values_of, folder_inputs_of, folder_sum_of, power_count};

    // The values that it reads.
    fn cells(&self) -> BaseCells<'a, F, F>
        ensures { result ≡ folder_values_of self.now }
    {
        BaseCells {
            main_local: self.main_local,
            main_next: self.main_next,
            preprocessed_local: self.preprocessed_local,
            preprocessed_next: self.preprocessed_next,
            periodic: self.periodic_values,
            public_values: self.public_values,
            first_row: self.is_first_row,
            last_row: self.is_last_row,
            transition: self.is_transition,
        }
    }

    /// Folds one more value in, be it a constraint's value or not: it is added times the next power, which
    /// is then taken. Past the last power it adds nothing (not in Plonky3). A folder that wraps this one takes its
    /// constraints in by this call.
    pub fn fold_in(&mut self, x: E)
        ensures unchanged { folder_inputs_of self.new ≡ folder_inputs_of self.old }
        ensures sum { folder_sum_of self.new
            ≡ added_to E.ring (folder_sum_of self.old).left self.old.accumulator x }
        ensures index { power_count self.new ≡ power_count self.old }
    {
        if self.constraint_index < self.alpha_powers.len() {
            let power = self.alpha_powers[self.constraint_index];
            self.accumulator = self.accumulator + power * x;
            self.constraint_index += 1;
        }
    }
}

impl<'a, F: Field, E: ExtensionField<F>> AirBuilder for ProverFolder<'a, F, E> {
    ghost use Rattle.p3_uni_stark.specs.ProverState.{folder_values_of, folder_inputs_of, folder_sum_of, IsFolderValue, HasWeighed, HasWeighedTrees};

    type F = F;

    type Expr = F;

    ghost represents = { λ b e t. IsFolderValue E.ring E.embed b (E.embed e) t };

    ghost later = { λ a b. folder_inputs_of b ≡ folder_inputs_of a };

    ghost appends = { λ a b ts is. HasWeighedTrees E.ring E.embed a b ts };

    ghost asserts = { λ a x b. HasWeighed E.ring a b (E.embed x ∷ []) };

    ghost computes = { λ a op x y b e. e ≡ value_by F.ring op x y };

    ghost shape = { λ b. point_shape (folder_values_of b) };

    ghost never_fails = { true };

    ghost only_asserting_fails = { true };

    fn cell(&mut self, c: Cell) -> Mem<F> {
        Ok(self.cells().cell(c))
    }

    fn constant(&mut self, x: F) -> Mem<F> {
        Ok(x)
    }

    fn add(&mut self, x: F, y: F) -> Mem<F> {
        Ok(x + y)
    }

    fn sub(&mut self, x: F, y: F) -> Mem<F> {
        Ok(x - y)
    }

    fn mul(&mut self, x: F, y: F) -> Mem<F> {
        Ok(x * y)
    }

    fn assert_zero(&mut self, x: F) -> Mem<()> {
        self.fold_in(E::from_base(x));
        Ok(())
    }

    ghost arrays_fit = { F.arrays_fit };

    ghost later_same = { λ a. refl };

    ghost later_along = { λ a b c p q. q ∙ p };

    ghost later_shape = { λ a b p.
        shape_along (λ o. o.values) (folder_inputs_of a) (folder_inputs_of b) p };

    ghost persists = { λ a b h e t k.
        value_persists (λ o. point_reading E.ring E.embed (embedded E.embed o.values))
        (folder_inputs_of a) (folder_inputs_of b) (E.embed e) t h k };

    ghost appends_none = { λ a. (refl, refl, refl) };

    ghost appends_later = { λ a b t i h. h.0 };

    ghost appends_along = { λ a b c s t i j p q. (
      q.0 ∙ p.0,
      weighed_along E.ring (λ o. point_reading E.ring E.embed (embedded E.embed o.values))
          (folder_inputs_of a)
          (folder_inputs_of b) (folder_sum_of a) (folder_sum_of b) (folder_sum_of c) s t p.0 p.1
          q.1,
      q.2 ∙ p.2,
    ) };

    ghost never_fails_sure = { λ h. h };

    ghost computes_represents = { λ a b h op x y e s t k l q.
        base_value_by_persists F.ring F.ring_laws E.ring E.ring_laws E.embed E.embed_laws
        (λ o. embedded E.embed o.values) (folder_inputs_of a) (folder_inputs_of b) op x y e s t h k
        l q };

    ghost asserts_appends = { λ a b x t h k.
        (k.0, k.1 ∙ ap (added_to E.ring (folder_sum_of a).left a.accumulator) h, k.2) };
}

impl<'a, F: Field, E: ExtensionField<F>> ExtensionBuilder for ProverFolder<'a, F, E> {
    ghost use Rattle.p3_uni_stark.specs.ProverState.{folder_inputs_of, folder_sum_of, IsFolderValue, HasWeighed};

    type ExprEF = E;

    ghost represents_ext = { λ b e t. IsFolderValue E.ring E.embed b e t };

    ghost asserts_ext = { λ a x b. HasWeighed E.ring a b (x ∷ []) };

    ghost computes_ext = { λ a op x y b e. e ≡ value_by E.ring op x y };

    ghost lifts = { λ a x b e. e ≡ E.embed x };

    fn lift(&mut self, x: F) -> Mem<E> {
        Ok(E::from_base(x))
    }

    fn add_ext(&mut self, x: E, y: E) -> Mem<E> {
        Ok(x + y)
    }

    fn sub_ext(&mut self, x: E, y: E) -> Mem<E> {
        Ok(x - y)
    }

    fn mul_ext(&mut self, x: E, y: E) -> Mem<E> {
        Ok(x * y)
    }

    fn assert_zero_ext(&mut self, x: E) -> Mem<()> {
        self.fold_in(x);
        Ok(())
    }

    ghost arrays_fit_ext = { E.arrays_fit };

    ghost persists_ext = { λ a b h e t k.
        value_persists (λ o. point_reading E.ring E.embed (embedded E.embed o.values))
        (folder_inputs_of a) (folder_inputs_of b) e t h k };

    ghost computes_ext_represents = { λ a b h op x y e s t k l q.
        value_by_persists E.ring E.embed (λ o. embedded E.embed o.values) (folder_inputs_of a)
        (folder_inputs_of b) op x y e s t h k l q };

    ghost lifts_represents = { λ a b h x e t k q.
        value_persists (λ o. point_reading E.ring E.embed (embedded E.embed o.values))
        (folder_inputs_of a) (folder_inputs_of b) e t h (q ∙ k) };

    ghost asserts_ext_appends = { λ a b x t h k.
        (k.0, k.1 ∙ ap (added_to E.ring (folder_sum_of a).left a.accumulator) h, k.2) };
}

impl<'a, F: Field, E: ExtensionField<F>> PermutationAirBuilder for ProverFolder<'a, F, E> {
    fn ext_cell(&mut self, _c: ExtCell) -> Mem<E> {
        Ok(E::ZERO)
    }
}

impl<'a, F: Field, E: ExtensionField<F>> InteractionBuilder for ProverFolder<'a, F, E> {
    ghost use Rattle.p3_uni_stark.specs.ProverState.{folder_values_of, folder_inputs_of, IsFolderValue, HasWeighed};

    ghost sends = { λ a bus xs cs b. HasWeighed E.ring a b [] };

    fn push_interaction(&mut self, _bus_name: &str, fields: &[F], count: Count<F>) -> Mem<()>
        ensures later { folder_inputs_of self.new ≡ folder_inputs_of self.old }
        ensures keeps_shape { point_shape (folder_values_of self.new)
            ≡ point_shape (folder_values_of self.old) }
        ensures answers { IsTrue true → IsOk result }
        ensures appends { (fs : List (Tree F)) (v : Tree F)
            → Represent (λ e t. IsFolderValue E.ring E.embed self.old (E.embed e) t) fields.now fs
            → IsFolderValue E.ring E.embed self.old (E.embed count.value) v
            → IfOk result (λ _. HasWeighed E.ring self.old self.new []) }
        ensures sure { IsTrue true → IsOk result }
        ensures sends { IfOk result (λ _. HasWeighed E.ring self.old self.new []) }
        ensures on_error { OnErr result (HasWeighed E.ring self.old self.new []) }
    {
        Ok(())
    }

    fn push_local_interaction(&mut self, _fields: &[F], _counts: &[Count<F>]) -> Mem<()> {
        Ok(())
    }

    ghost sends_appends = { λ a b bus xs cs fs vs h k e. e };
}
