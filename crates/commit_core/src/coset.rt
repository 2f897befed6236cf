//! Schemes whose domains are cosets.
ghost use Rattle.std.specs.Prelude.{◌≡◌, ℕ, ◌^◌};
ghost use Rattle.p3_field.specs.Domain.{CosetData, point};

use crate::domain::PolynomialSpace;
use crate::pcs::Pcs;
use crate::univariate::UnivariateStarkPcs;
use p3_field::{
    ExtensionField, Field, FieldCore, PrimeCharacteristicRing, RingCore, TwoAdicCore, TwoAdicField,
    TwoAdicMultiplicativeCoset,
};

/// A scheme whose domains are the cosets of a two-adic field (not in Plonky3): its contracts see a domain's points as
/// the coset's, in the order of the generator's powers. So what `natural_domain_for_degree` gives is known whole, and so
/// is each part of a split.
pub trait CosetPcs<Challenge, Challenger>: UnivariateStarkPcs<
    Challenge,
    Challenger,
    Domain = TwoAdicMultiplicativeCoset<<Self as Pcs<Challenge, Challenger>>::Val>,
>
where
    <Self as Pcs<Challenge, Challenger>>::Val: TwoAdicField,
    Challenge: ExtensionField<<Self as Pcs<Challenge, Challenger>>::Val>,
{
    // a domain has as many points as the coset
    ghost coset_points: { (d : CosetData Self.Val)
        → ⟦<<Self as Pcs<Challenge, Challenger>>::Domain as PolynomialSpace>⟧.points d
        ≡ 2 ^ d.log_size };

    // and the same points, in the coset's order
    ghost coset_point: { (d : CosetData Self.Val) (i : ℕ)
        → ⟦<<Self as Pcs<Challenge, Challenger>>::Domain as PolynomialSpace>⟧.point_at d i
        ≡ point Self.Val.ring Self.Val.root d i };
}
