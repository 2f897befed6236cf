//! The fields over which the laws hold: laws as the contracts of functions that compute nothing.
ghost use Rattle.p3_field.specs.Quartic.{quartic_inv};
ghost use Rattle.law_committed.specs.Fields.{FieldsLaws, baby_bear_field, quartic_extension};

use p3_field::{BasedVectorSpace, ExtensionField, FieldCore, RingCore, TwoAdicCore, TwoAdicField};

/// Each two-adic field with a field above it meets the laws that this crate's other laws ask of fields.
pub fn fields_have_laws<F: TwoAdicField, EF: ExtensionField<F>>()
    ensures { FieldsLaws (record {
      ring = F.ring;
      inv = F.inv;
      root = F.root;
      generator = F.GENERATOR;
    })
        (record {
          ring = EF.ring;
          embed = EF.embed;
          dimension = EF.DIMENSION;
          basis = EF.basis;
          coefficients = EF.coefficients;
          from_coefficients = EF.from_coefficients;
        }) F.TWO_ADICITY
        EF.inv }
{}

/// `BabyBear` and `QuarticExtension` meet them: so there are such fields.
pub fn baby_bear_has_laws()
    ensures { FieldsLaws baby_bear_field quartic_extension 27 quartic_inv }
{}
