//! Each field is an extension of dimension 1 of itself.
ghost use Rattle.std.specs.Prelude.{◌≡◌, ℕ, ◌+◌, ◌-◌, ◌*◌, ◌/◌, ◌%◌, ◌^◌, ◌<◌, ◌≤◌, length, get_or, List, [], ◌∷◌, refl};
ghost use Rattle.p3_field.specs.Field.{own_from_coefficients};
ghost use Rattle.p3_field.specs.Laws.Own.{own_laws, own_hom, own_spans};

use crate::{BasedVectorSpace, ExtensionField, Field, FieldCore, Mem, RingCore};
use std::alloc::Global;

#[tactic(auto, using(crate::specs::Laws::Own::flat_single))]
impl<F: FieldCore> BasedVectorSpace<F> for F {
    ghost DIMENSION = { 1 };

    ghost coefficients = { λ x. x ∷ [] };

    ghost from_coefficients = { own_from_coefficients F.ring.zero };

    const DIMENSION: usize = 1;

    fn basis_coefficient(&self, _i: usize) -> F {
        *self
    }

    fn flatten_to_base(alloc: Global, values: &[F]) -> Mem<Vec<F>> {
        values.to_vec(alloc)
    }

    fn reconstitute_from_base(alloc: Global, values: &[F]) -> Mem<Vec<F>> {
        values.to_vec(alloc)
    }

    ghost vector_laws = { own_laws F.ring.zero };
}

impl<F: Field> ExtensionField<F> for F {
    ghost embed = { λ x. x };

    ghost basis = { λ _. F.ring.one };

    fn from_base(x: F) -> F {
        x
    }

    fn from_ext_basis_coefficients(c: &[F]) -> Option<F> {
        if let [x] = c { Some(*x) } else { None }
    }

    ghost embed_laws = { own_hom F.ring };

    ghost basis_laws = { own_spans F.ring F.ring_laws };
}
