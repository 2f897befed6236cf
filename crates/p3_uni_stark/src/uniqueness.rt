//! That powers and a quotient's values are fixed: laws as the contracts of functions that compute nothing.
ghost use Rattle.std.specs.Prelude.{◌≡◌, ℕ, ◌+◌, ◌*◌, ◌<◌, ◌≤◌, List, [], length, get_or};
ghost use Rattle.p3_field.specs.Field.{combine};
ghost use Rattle.p3_field.specs.Poly.{tabulate};
ghost use Rattle.p3_field.specs.Domain.{CosetData, point};
ghost use Rattle.commit_core.specs.Space.{IsPart, EachOf};
ghost use Rattle.air_core.specs.Layout.{folding_powers};
ghost use Rattle.p3_uni_stark.specs.Fold.{fold_powers};
ghost use Rattle.p3_uni_stark.specs.Recombine.{domain_at, AllDisjoint, recombined};

use p3_field::{
    BasedVectorSpace, ExtensionField, Field, FieldCore, PrimeCharacteristicRing, RingCore,
    TwoAdicCore, TwoAdicField,
};

/// The powers of a challenge that a layout gives to n constraints of one kind, by their places in order, are the weights
/// of the fold.
pub fn powers_are_in_order<EF: Field>()
    ensures { (a : EF) (n : ℕ)
        → folding_powers EF.ring a n (tabulate n (λ i. i)) ≡ fold_powers EF.ring a n }
{}

/// No two parts of a domain that is split have a point in common, so that a quotient is recombined from its chunks on
/// them without a test of the domains.
pub fn split_domains_are_disjoint<F: TwoAdicField>()
    ensures { (whole : CosetData F) (c : ℕ) (parts : List (CosetData F))
        → (whole.shift ≡ F.ring.zero → ⊥) → whole.log_size ≤ F.TWO_ADICITY
        → EachOf c parts (IsPart F.ring F.root whole c)
        → AllDisjoint (record {
          ring = F.ring;
          inv = F.inv;
          root = F.root;
          generator = F.GENERATOR;
        }) parts }
{}

/// A quotient's value at each point of a chunk's domain is the chunk's value there: where the domains are cosets of one
/// group that share no point (`own`), and so where they are the parts of a domain that is split, at each point of that
/// domain (`part`).
pub fn recombined_on_domains<F: TwoAdicField, EF: ExtensionField<F>>()
    ensures own { (ds : List (CosetData F)) (chunks : List (List EF)) (i k : ℕ) → i < length ds
        → AllDisjoint (record {
          ring = F.ring;
          inv = F.inv;
          root = F.root;
          generator = F.GENERATOR;
        }) ds
        → ((j : ℕ) → j < length ds → (domain_at F.ring ds j).shift ≡ F.ring.zero → ⊥)
        → (domain_at F.ring ds i).log_size ≤ F.TWO_ADICITY
        → ((j : ℕ) → j < length ds
        → (domain_at F.ring ds j).log_size ≡ (domain_at F.ring ds i).log_size)
        → recombined (record { ring = F.ring; inv = F.inv; root = F.root; generator = F.GENERATOR })
        (record {
          ring = EF.ring;
          embed = EF.embed;
          dimension = EF.DIMENSION;
          basis = EF.basis;
          coefficients = EF.coefficients;
          from_coefficients = EF.from_coefficients;
        }) ds chunks (EF.embed (point F.ring F.root (domain_at F.ring ds i) k))
        ≡ combine EF.ring EF.basis 0 (get_or chunks i []) }
    ensures part { (whole : CosetData F) (c : ℕ) (parts : List (CosetData F))
        (chunks : List (List EF)) (i k : ℕ) → (whole.shift ≡ F.ring.zero → ⊥)
        → whole.log_size ≤ F.TWO_ADICITY
        → EachOf c parts (IsPart F.ring F.root whole c) → i < c
        → recombined (record { ring = F.ring; inv = F.inv; root = F.root; generator = F.GENERATOR })
        (record {
          ring = EF.ring;
          embed = EF.embed;
          dimension = EF.DIMENSION;
          basis = EF.basis;
          coefficients = EF.coefficients;
          from_coefficients = EF.from_coefficients;
        }) parts chunks (EF.embed (point F.ring F.root whole (i + c * k)))
        ≡ combine EF.ring EF.basis 0 (get_or chunks i []) }
{}
