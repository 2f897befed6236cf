//! What the folders read: laws as the contracts of functions that compute nothing.
ghost use Rattle.std.specs.Prelude.{◌≡◌};
ghost use Rattle.air_core.specs.CellValues.{reading_at, map_values};
ghost use Rattle.p3_uni_stark.specs.Point.{PointValues, point_cells, point_reading, embedded};

use p3_field::{ExtensionField, Field, FieldCore, PrimeCharacteristicRing, RingCore};

/// The folders read constraints as rows, points and polynomials are read (`there_is_one_reading` of `air_core`): the
/// verifier's at its values (`verifier`), and the prover's at the images of its values (`prover`). Lookups have no cells
/// there but a terminal, which is zero.
pub fn folders_have_the_one_reading<F: Field, EF: ExtensionField<F>>()
    ensures verifier { (p : PointValues F EF)
        → point_reading EF.ring EF.embed p
        ≡ reading_at EF.ring EF.embed (point_cells EF.ring.zero EF.embed p) }
    ensures prover { (p : PointValues F F)
        → point_reading EF.ring EF.embed (embedded EF.embed p)
        ≡ reading_at EF.ring EF.embed (map_values EF.embed (point_cells F.ring.zero (λ x. x) p)) }
{}
