//! The prover's constraint folder with lookups.
ghost use Rattle.std.specs.Prelude.{◌≡◌, List, [], ◌∷◌, IfOk, OnErr, IsOk, IsTrue, true, refl};
ghost use Rattle.std.proofs.Common.{◌∙◌, ap};
ghost use Rattle.air_core.specs.CellValues.{reading_at};
ghost use Rattle.air_core.specs.Operation.{value_by};
ghost use Rattle.air_core.specs.Tree.{Tree, Represent};
ghost use Rattle.p3_uni_stark.specs.Fold.{added_to};
ghost use Rattle.p3_uni_stark.specs.Laws.Folders.{value_persists, weighed_along};
ghost use Rattle.batch_constraints.specs.Laws.Folders.{value_by_persists};
ghost use Rattle.prover_folder.specs.Laws.Cells.{base_value_by_persists, shape_with};

use air_core::{
    AirBuilder, Cell, Count, ExtCell, ExtensionBuilder, InteractionBuilder, PermutationAirBuilder,
};
use p3_field::{ExtensionField, Field, FieldCore, Mem, PrimeCharacteristicRing, RingCore};
use p3_uni_stark::ProverFolder;

/// Folds a table's constraints, those of its lookups among them, at one point of the quotient domain
/// (`ProverConstraintFolderWithLookups` of `p3-batch-stark`): the plain prover's folder, with the values of the
/// permutation columns, the challenges and the terminal of the lookups. It never fails. Constraints over the base field
/// and over the extension take their powers in the one order in which they are asserted, as the plain folder's do.
/// Interactions add nothing.
#[derive(Drop)]
pub struct ProverFolderWithLookups<'a, F, E> {
    /// The plain prover's folder, with the values of all other cells, the powers and the sum so far.
    pub inner: ProverFolder<'a, F, E>,
    /// The permutation columns' values at the point, one for each column.
    pub permutation_local: &'a [E],
    /// The permutation columns' values at the next point.
    pub permutation_next: &'a [E],
    /// The challenges of the lookups.
    pub permutation_challenges: &'a [E],
    /// The terminals of the lookups: none or one.
    pub permutation_values: &'a [E],
}

impl<'a, F: Field, E: ExtensionField<F>> ProverFolderWithLookups<'a, F, E> {
    ghost use Rattle.p3_uni_stark.specs.ProverState.{folder_sum_of, power_count};
    ghost use Rattle.prover_folder.specs.FolderState.{given_with};

    // Folds one more value in, as the plain folder does.
    fn fold_in(&mut self, x: E)
        ensures unchanged { given_with self.new ≡ given_with self.old }
        ensures sum { folder_sum_of self.new.inner
            ≡ added_to E.ring (folder_sum_of self.old.inner).left self.old.inner.accumulator x }
        ensures index { power_count self.new.inner ≡ power_count self.old.inner }
    {
        self.inner.fold_in(x);
    }
}

impl<'a, F: Field, E: ExtensionField<F>> AirBuilder for ProverFolderWithLookups<'a, F, E> {
    ghost use Rattle.p3_uni_stark.specs.ProverState.{folder_sum_of};
    ghost use Rattle.prover_folder.specs.FolderState.{given_with, given_cells, prover_shape_of, IsProverValue, HasWeighedWith, HasWeighedTreesWith};

    type F = F;

    type Expr = F;

    ghost represents = { λ b e t. IsProverValue E.ring E.embed b (E.embed e) t };

    ghost later = { λ a b. given_with b ≡ given_with a };

    ghost appends = { λ a b ts is. HasWeighedTreesWith E.ring E.embed a b ts };

    ghost asserts = { λ a x b. HasWeighedWith E.ring a b (E.embed x ∷ []) };

    ghost computes = { λ a op x y b e. e ≡ value_by F.ring op x y };

    ghost shape = { λ b. prover_shape_of b };

    ghost never_fails = { true };

    ghost only_asserting_fails = { true };

    fn cell(&mut self, c: Cell) -> Mem<F> {
        self.inner.cell(c)
    }

    fn constant(&mut self, x: F) -> Mem<F> {
        Ok(x)
    }

    fn add(&mut self, x: F, y: F) -> Mem<F> {
        Ok(x + y)
    }

    fn sub(&mut self, x: F, y: F) -> Mem<F> {
        Ok(x - y)
    }

    fn mul(&mut self, x: F, y: F) -> Mem<F> {
        Ok(x * y)
    }

    fn assert_zero(&mut self, x: F) -> Mem<()> {
        self.fold_in(E::from_base(x));
        Ok(())
    }

    ghost arrays_fit = { F.arrays_fit };

    ghost later_same = { λ a. refl };

    ghost later_along = { λ a b c p q. q ∙ p };

    ghost later_shape = { λ a b p. shape_with (given_with a) (given_with b) p };

    ghost persists = { λ a b h e t k.
        value_persists (λ o. reading_at E.ring E.embed (given_cells E.ring.zero E.embed o))
        (given_with a) (given_with b) (E.embed e) t h k };

    ghost appends_none = { λ a. (refl, refl, refl) };

    ghost appends_later = { λ a b t i h. h.0 };

    ghost appends_along = { λ a b c s t i j p q. (
      q.0 ∙ p.0,
      weighed_along E.ring (λ o. reading_at E.ring E.embed (given_cells E.ring.zero E.embed o))
          (given_with a)
          (given_with b) (folder_sum_of a.inner) (folder_sum_of b.inner) (folder_sum_of c.inner) s t
          p.0 p.1 q.1,
      q.2 ∙ p.2,
    ) };

    ghost never_fails_sure = { λ h. h };

    ghost computes_represents = { λ a b h op x y e s t k l q.
        base_value_by_persists F.ring F.ring_laws E.ring E.ring_laws E.embed E.embed_laws
        (λ o. given_cells E.ring.zero E.embed o) (given_with a) (given_with b) op x y e s t h k l
        q };

    ghost asserts_appends = { λ a b x t h k.
        (k.0, k.1 ∙ ap (added_to E.ring (folder_sum_of a.inner).left a.inner.accumulator) h, k.2) };
}

impl<'a, F: Field, E: ExtensionField<F>> ExtensionBuilder for ProverFolderWithLookups<'a, F, E> {
    ghost use Rattle.p3_uni_stark.specs.ProverState.{folder_sum_of};
    ghost use Rattle.prover_folder.specs.FolderState.{given_with, given_cells, IsProverValue, HasWeighedWith};

    type ExprEF = E;

    ghost represents_ext = { λ b e t. IsProverValue E.ring E.embed b e t };

    ghost asserts_ext = { λ a x b. HasWeighedWith E.ring a b (x ∷ []) };

    ghost computes_ext = { λ a op x y b e. e ≡ value_by E.ring op x y };

    ghost lifts = { λ a x b e. e ≡ E.embed x };

    fn lift(&mut self, x: F) -> Mem<E> {
        Ok(E::from_base(x))
    }

    fn add_ext(&mut self, x: E, y: E) -> Mem<E> {
        Ok(x + y)
    }

    fn sub_ext(&mut self, x: E, y: E) -> Mem<E> {
        Ok(x - y)
    }

    fn mul_ext(&mut self, x: E, y: E) -> Mem<E> {
        Ok(x * y)
    }

    fn assert_zero_ext(&mut self, x: E) -> Mem<()> {
        self.fold_in(x);
        Ok(())
    }

    ghost arrays_fit_ext = { E.arrays_fit };

    ghost persists_ext = { λ a b h e t k.
        value_persists (λ o. reading_at E.ring E.embed (given_cells E.ring.zero E.embed o))
        (given_with a) (given_with b) e t h k };

    ghost computes_ext_represents = { λ a b h op x y e s t k l q.
        value_by_persists E.ring E.embed (λ o. given_cells E.ring.zero E.embed o) (given_with a)
        (given_with b) op x y e s t h k l q };

    ghost lifts_represents = { λ a b h x e t k q.
        value_persists (λ o. reading_at E.ring E.embed (given_cells E.ring.zero E.embed o))
        (given_with a) (given_with b) e t h (q ∙ k) };

    ghost asserts_ext_appends = { λ a b x t h k.
        (k.0, k.1 ∙ ap (added_to E.ring (folder_sum_of a.inner).left a.inner.accumulator) h, k.2) };
}

impl<'a, F: Field, E: ExtensionField<F>> PermutationAirBuilder
    for ProverFolderWithLookups<'a, F, E> {
    fn ext_cell(&mut self, c: ExtCell) -> Mem<E> {
        let value = match c {
            ExtCell::Permutation { next: true, column } => self.permutation_next[column],
            ExtCell::Permutation {
                next: false,
                column,
            } => self.permutation_local[column],
            ExtCell::Challenge(n) => self.permutation_challenges[n],
            ExtCell::Terminal => self.permutation_values[0],
        };
        Ok(value)
    }
}

impl<'a, F: Field, E: ExtensionField<F>> InteractionBuilder for ProverFolderWithLookups<'a, F, E> {
    ghost use Rattle.prover_folder.specs.FolderState.{given_with, prover_shape_of, IsProverValue, HasWeighedWith};

    ghost sends = { λ a bus xs cs b. HasWeighedWith E.ring a b [] };

    fn push_interaction(&mut self, _bus_name: &str, fields: &[F], count: Count<F>) -> Mem<()>
        ensures later { given_with self.new ≡ given_with self.old }
        ensures keeps_shape { prover_shape_of self.new ≡ prover_shape_of self.old }
        ensures answers { IsTrue true → IsOk result }
        ensures appends { (fs : List (Tree F)) (v : Tree F)
            → Represent (λ e t. IsProverValue E.ring E.embed self.old (E.embed e) t) fields.now fs
            → IsProverValue E.ring E.embed self.old (E.embed count.value) v
            → IfOk result (λ _. HasWeighedWith E.ring self.old self.new []) }
        ensures sure { IsTrue true → IsOk result }
        ensures sends { IfOk result (λ _. HasWeighedWith E.ring self.old self.new []) }
        ensures on_error { OnErr result (HasWeighedWith E.ring self.old self.new []) }
    {
        Ok(())
    }

    fn push_local_interaction(&mut self, _fields: &[F], _counts: &[Count<F>]) -> Mem<()> {
        Ok(())
    }

    ghost sends_appends = { λ a b bus xs cs fs vs h k e. e };
}
