//! The verifier's constraint folder of a table with lookups.
ghost use Rattle.std.specs.Prelude.{◌≡◌, List, [], ◌∷◌, IfOk, OnErr, IsOk, IsTrue, true, refl};
ghost use Rattle.std.proofs.Common.{◌∙◌, ap};
ghost use Rattle.air_core.specs.Tree.{Tree, Represent};
ghost use Rattle.air_core.specs.Operation.{value_by};
ghost use Rattle.p3_uni_stark.specs.Laws.Folders.{value_persists, folded_along};
ghost use Rattle.batch_constraints.specs.Laws.Folders.{value_by_persists};

use air_core::{
    AirBuilder, Cell, Count, ExtCell, ExtensionBuilder, InteractionBuilder, PermutationAirBuilder,
};
use p3_field::{ExtensionField, Field, FieldCore, Mem, PrimeCharacteristicRing, RingCore};
use p3_uni_stark::VerifierFolder;

/// Folds the constraints of a table with lookups at one point by a challenge (`VerifierConstraintFolderWithLookups` of
/// `p3-batch-stark`): the cells of the base field are those of the folder inside, which has the sum and its challenge
/// too, and here are the values of the permutation columns, the challenges of the lookups and their terminals. It never
/// fails. Interactions add nothing.
#[derive(Drop)]
pub struct VerifierFolderWithLookups<'a, F, E> {
    /// The folder of a table without lookups.
    pub inner: VerifierFolder<'a, F, E>,
    /// The permutation columns' values at the point, one for each column.
    pub permutation_local: &'a [E],
    /// The permutation columns' values at the next point.
    pub permutation_next: &'a [E],
    /// The challenges of the lookups.
    pub permutation_challenges: &'a [E],
    /// The terminals of the lookups: none or one.
    pub permutation_values: &'a [E],
}

impl<'a, F: Field, E: ExtensionField<F>> AirBuilder for VerifierFolderWithLookups<'a, F, E> {
    ghost use Rattle.verifier_folder.specs.FolderState.{all_opened, verifier_cells_of, verifier_shape_of, reading_of, FolderValuesWithLookups, IsValueWithLookups, HasFoldedWith, HasFoldedTreesWith};

    type F = F;

    type Expr = E;

    ghost represents = { λ b e t. IsValueWithLookups E.ring E.embed b e t };

    ghost later = { λ a b. all_opened b ≡ all_opened a };

    ghost appends = { λ a b ts is. HasFoldedTreesWith E.ring E.embed a b ts };

    ghost asserts = { λ a x b. HasFoldedWith E.ring a b (x ∷ []) };

    ghost computes = { λ a op x y b e. e ≡ value_by E.ring op x y };

    ghost shape = { λ b. verifier_shape_of (all_opened b) };

    ghost never_fails = { true };

    ghost only_asserting_fails = { true };

    fn cell(&mut self, c: Cell) -> Mem<E> {
        self.inner.cell(c)
    }

    fn constant(&mut self, x: F) -> Mem<E> {
        Ok(E::from_base(x))
    }

    fn add(&mut self, x: E, y: E) -> Mem<E> {
        Ok(x + y)
    }

    fn sub(&mut self, x: E, y: E) -> Mem<E> {
        Ok(x - y)
    }

    fn mul(&mut self, x: E, y: E) -> Mem<E> {
        Ok(x * y)
    }

    fn assert_zero(&mut self, x: E) -> Mem<()> {
        self.inner.fold_in(x);
        Ok(())
    }

    ghost arrays_fit = { E.arrays_fit };

    ghost later_same = { λ a. refl };

    ghost later_along = { λ a b c p q. q ∙ p };

    ghost later_shape = { λ a b p.
        ap (λ (o : FolderValuesWithLookups F E). verifier_shape_of o) p };

    ghost persists = { λ a b h e t k.
        value_persists (λ o. reading_of E.ring E.embed o) (all_opened a) (all_opened b) e t h k };

    ghost appends_none = { λ a. (refl, refl) };

    ghost appends_later = { λ a b t i h. h.0 };

    ghost appends_along = { λ a b c s t i j p q. (
      q.0 ∙ p.0,
      folded_along E.ring (λ o. reading_of E.ring E.embed o) (λ o. o.opened.alpha) (all_opened a)
          (all_opened b) a.inner.accumulator b.inner.accumulator c.inner.accumulator s t p.0 p.1
          q.1,
    ) };

    ghost never_fails_sure = { λ h. h };

    ghost computes_represents = { λ a b h op x y e s t k l q.
        value_by_persists E.ring E.embed (λ o. verifier_cells_of E.ring.zero E.embed o)
        (all_opened a) (all_opened b) op x y e s t h k l q };

    ghost asserts_appends = { λ a b x t h k.
        (k.0, k.1 ∙ ap (E.ring.add (E.ring.mul a.inner.accumulator a.inner.alpha)) h) };
}

impl<'a, F: Field, E: ExtensionField<F>> ExtensionBuilder for VerifierFolderWithLookups<'a, F, E> {
    ghost use Rattle.verifier_folder.specs.FolderState.{all_opened, verifier_cells_of, reading_of, IsValueWithLookups, HasFoldedWith};

    type ExprEF = E;

    ghost represents_ext = { λ b e t. IsValueWithLookups E.ring E.embed b e t };

    ghost asserts_ext = { λ a x b. HasFoldedWith E.ring a b (x ∷ []) };

    ghost computes_ext = { λ a op x y b e. e ≡ value_by E.ring op x y };

    ghost lifts = { λ a x b e. e ≡ x };

    fn lift(&mut self, x: E) -> Mem<E> {
        Ok(x)
    }

    fn add_ext(&mut self, x: E, y: E) -> Mem<E> {
        Ok(x + y)
    }

    fn sub_ext(&mut self, x: E, y: E) -> Mem<E> {
        Ok(x - y)
    }

    fn mul_ext(&mut self, x: E, y: E) -> Mem<E> {
        Ok(x * y)
    }

    fn assert_zero_ext(&mut self, x: E) -> Mem<()> {
        self.inner.fold_in(x);
        Ok(())
    }

    ghost arrays_fit_ext = { E.arrays_fit };

    ghost persists_ext = { λ a b h e t k.
        value_persists (λ o. reading_of E.ring E.embed o) (all_opened a) (all_opened b) e t h k };

    ghost computes_ext_represents = { λ a b h op x y e s t k l q.
        value_by_persists E.ring E.embed (λ o. verifier_cells_of E.ring.zero E.embed o)
        (all_opened a) (all_opened b) op x y e s t h k l q };

    ghost lifts_represents = { λ a b h x e t k q.
        value_persists (λ o. reading_of E.ring E.embed o) (all_opened a) (all_opened b) e t h
        (q ∙ k) };

    ghost asserts_ext_appends = { λ a b x t h k.
        (k.0, k.1 ∙ ap (E.ring.add (E.ring.mul a.inner.accumulator a.inner.alpha)) h) };
}

impl<'a, F: Field, E: ExtensionField<F>> PermutationAirBuilder
    for VerifierFolderWithLookups<'a, F, E> {
    fn ext_cell(&mut self, c: ExtCell) -> Mem<E> {
        let value = match c {
            ExtCell::Permutation { next: true, column } => self.permutation_next[column],
            ExtCell::Permutation {
                next: false,
                column,
            } => self.permutation_local[column],
            ExtCell::Challenge(n) => self.permutation_challenges[n],
            ExtCell::Terminal => self.permutation_values[0],
        };
        Ok(value)
    }
}

impl<'a, F: Field, E: ExtensionField<F>> InteractionBuilder
    for VerifierFolderWithLookups<'a, F, E> {
    ghost use Rattle.verifier_folder.specs.FolderState.{all_opened, verifier_shape_of, IsValueWithLookups, HasFoldedWith};

    ghost sends = { λ a bus xs cs b. HasFoldedWith E.ring a b [] };

    fn push_interaction(&mut self, _bus_name: &str, fields: &[E], count: Count<E>) -> Mem<()>
        ensures later { all_opened self.new ≡ all_opened self.old }
        ensures keeps_shape { verifier_shape_of (all_opened self.new)
            ≡ verifier_shape_of (all_opened self.old) }
        ensures answers { IsTrue true → IsOk result }
        ensures appends { (fs : List (Tree F)) (v : Tree F)
            → Represent (IsValueWithLookups E.ring E.embed self.old) fields.now fs
            → IsValueWithLookups E.ring E.embed self.old count.value v
            → IfOk result (λ _. HasFoldedWith E.ring self.old self.new []) }
        ensures sure { IsTrue true → IsOk result }
        ensures sends { IfOk result (λ _. HasFoldedWith E.ring self.old self.new []) }
        ensures on_error { OnErr result (HasFoldedWith E.ring self.old self.new []) }
    {
        Ok(())
    }

    fn push_local_interaction(&mut self, _fields: &[E], _counts: &[Count<E>]) -> Mem<()> {
        Ok(())
    }

    ghost sends_appends = { λ a b bus xs cs fs vs h k e. e };
}
