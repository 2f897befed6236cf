//! `QuarticExtension` over its base `BabyBear`: coefficients, basis and embedding.
ghost use Rattle.std.specs.Prelude.{◌≡◌, ℕ, ◌<◌};
ghost use Rattle.p3_field.specs.Quartic.{of_baby_bear_value, quartic_coefficients, quartic_from_coefficients, quartic_basis};
ghost use Rattle.p3_field.specs.Laws.QuarticLaws.{quartic_hom};
ghost use Rattle.p3_field.specs.Laws.QuarticVector.{quartic_vector_laws, quartic_spans};

use crate::baby_bear::{BEAR_0, BEAR_1, BabyBear};
use crate::quartic::QuarticExtension;
use crate::quartic::ring::of_baby_bear;
use crate::{BasedVectorSpace, ExtensionField, Mem};
use std::alloc::Global;

impl BasedVectorSpace<BabyBear> for QuarticExtension {
    ghost DIMENSION = { 4 };

    ghost coefficients = { quartic_coefficients };

    ghost from_coefficients = { quartic_from_coefficients };

    const DIMENSION: usize = 4;

    fn basis_coefficient(&self, i: usize) -> BabyBear {
        match i {
            0 => self.c0,
            1 => self.c1,
            2 => self.c2,
            _ => self.c3,
        }
    }

    fn flatten_to_base(alloc: Global, values: &[QuarticExtension]) -> Mem<Vec<BabyBear>> {
        let mut out = Vec::new(alloc);
        for x in values {
            out.extend_from_slice(&[x.c0, x.c1, x.c2, x.c3])?;
        }
        Ok(out)
    }

    fn reconstitute_from_base(alloc: Global, values: &[BabyBear]) -> Mem<Vec<QuarticExtension>> {
        let mut out = Vec::new(alloc);
        let mut rest = values;
        while let [c0, c1, c2, c3, tail @ ..] = rest {
            out.push(QuarticExtension {
                c0: *c0,
                c1: *c1,
                c2: *c2,
                c3: *c3,
            })?;
            rest = tail;
        }
        Ok(out)
    }

    ghost vector_laws = { quartic_vector_laws };
}

impl ExtensionField<BabyBear> for QuarticExtension {
    ghost embed = { of_baby_bear_value };

    ghost basis = { quartic_basis };

    fn from_base(x: BabyBear) -> QuarticExtension {
        of_baby_bear(x)
    }

    fn from_ext_basis_coefficients(c: &[QuarticExtension]) -> Option<QuarticExtension> {
        let [c0, c1, c2, c3] = c else { return None };
        Some(*c0 * basis(0) + (*c1 * basis(1) + (*c2 * basis(2) + *c3 * basis(3))))
    }

    ghost embed_laws = { quartic_hom };

    ghost basis_laws = { quartic_spans };
}

// The power x^`i`.
#[tactic(auto, using(crate::specs::Laws::QuarticLaws::quartic_same))]
fn basis(i: usize) -> QuarticExtension
    requires { i < 4 }
    ensures { result ≡ quartic_basis i }
{
    match i {
        0 => QuarticExtension {
            c0: BEAR_1,
            c1: BEAR_0,
            c2: BEAR_0,
            c3: BEAR_0,
        },
        1 => QuarticExtension {
            c0: BEAR_0,
            c1: BEAR_1,
            c2: BEAR_0,
            c3: BEAR_0,
        },
        2 => QuarticExtension {
            c0: BEAR_0,
            c1: BEAR_0,
            c2: BEAR_1,
            c3: BEAR_0,
        },
        _ => QuarticExtension {
            c0: BEAR_0,
            c1: BEAR_0,
            c2: BEAR_0,
            c3: BEAR_1,
        },
    }
}
