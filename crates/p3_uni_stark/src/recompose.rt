//! A quotient's value from those of its chunks.
ghost use Rattle.std.specs.Prelude.{◌≡◌, ℕ, ◌+◌, ◌<◌, ◌^◌, ◌↔◌, IsTrue, length, map, get_or};
ghost use Rattle.std.specs.List.{All};
ghost use Rattle.p3_field.specs.Field.{combine};
ghost use Rattle.p3_field.specs.Poly.{eval_poly, product};
ghost use Rattle.p3_field.specs.Domain.{vanishing_polynomial, point};
ghost use Rattle.commit_core.specs.Space.{IsPoint};
ghost use Rattle.p3_uni_stark.specs.Recombine.{domain_at, IsDisjointFrom, AllDisjoint, chunk_weight, recombined};

use crate::config::{Challenge, Domain, StarkGenericConfig};
use commit_core::{PolynomialSpace, are_disjoint};
use p3_field::{
    ExtensionField, Field, FieldCore, PrimeCharacteristicRing, RingCore, TwoAdicCore, TwoAdicField,
    TwoAdicMultiplicativeCoset,
};

// Whether a domain of the list shares no point with any other of it.
fn is_disjoint_from_others<F: TwoAdicField>(
    domains: &[TwoAdicMultiplicativeCoset<F>],
    index: usize,
) -> bool
    requires { index < length domains.now }
    ensures { IsTrue result ↔ IsDisjointFrom
        (record { ring = F.ring; inv = F.inv; root = F.root; generator = F.GENERATOR }) domains.now
        index }
{
    for (other, domain) in domains.iter().enumerate() {
        if other != index && !are_disjoint(&domains[index], domain) {
            return false;
        }
    }
    true
}

/// Whether no two domains of the list share a point (not in Plonky3).
pub fn are_all_disjoint<F: TwoAdicField>(domains: &[TwoAdicMultiplicativeCoset<F>]) -> bool
    ensures { IsTrue result ↔ AllDisjoint
        (record { ring = F.ring; inv = F.inv; root = F.root; generator = F.GENERATOR })
        domains.now }
{
    for index in 0..domains.len() {
        if !is_disjoint_from_others(domains, index) {
            return false;
        }
    }
    true
}

// The product of the domains' vanishing polynomials at a point, which isn't zero outside of all of them.
fn vanishing_product<F: TwoAdicField, EF: ExtensionField<F>>(
    domains: &[TwoAdicMultiplicativeCoset<F>],
    x: EF,
) -> EF
    ensures value { result ≡ product EF.ring (length domains.now)
        (λ j. eval_poly EF.ring (map EF.embed
        (vanishing_polynomial F.ring F.inv (domain_at F.ring domains.now j))) x) }
    ensures nonzero { ((j : ℕ) → j < length domains.now
        → IsPoint (2 ^ (domain_at F.ring domains.now j).log_size)
        (point F.ring F.root (domain_at F.ring domains.now j)) EF.embed x → ⊥)
        → result ≡ EF.ring.zero → ⊥ }
{
    let mut product = EF::ONE;
    for domain in domains {
        product = product * domain.vanishing_poly_at_point(x);
    }
    product
}

// The weight of a chunk's domain at a point.
fn weight_at<F: TwoAdicField, EF: ExtensionField<F>>(
    domains: &[TwoAdicMultiplicativeCoset<F>],
    chunk: usize,
    x: EF,
) -> EF
    requires chunk { chunk < length domains.now }
    requires disjoint { AllDisjoint
        (record { ring = F.ring; inv = F.inv; root = F.root; generator = F.GENERATOR })
        domains.now }
    ensures { result ≡ chunk_weight
        (record { ring = F.ring; inv = F.inv; root = F.root; generator = F.GENERATOR })
        (record {
          ring = EF.ring;
          embed = EF.embed;
          dimension = EF.DIMENSION;
          basis = EF.basis;
          coefficients = EF.coefficients;
          from_coefficients = EF.from_coefficients;
        }) domains.now
        chunk x }
{
    let before = &domains[..chunk];
    let after = &domains[chunk + 1..];
    let first = domains[chunk].first_point();
    let scale = vanishing_product(before, first) * vanishing_product(after, first);
    vanishing_product(before, x) * vanishing_product(after, x) * EF::from_base(scale.inverse())
}

// The value of a chunk, from those of its coefficient columns.
fn chunk_value<F: TwoAdicField, EF: ExtensionField<F>>(values: &[EF]) -> EF
    requires { length values.now ≡ EF.DIMENSION }
    ensures { result ≡ combine EF.ring EF.basis 0 values.now }
{
    match EF::from_ext_basis_coefficients(values) {
        Some(value) => value,
        None => unreachable!(),
    }
}

/// The value at a point of a quotient whose chunks have the values `chunks` there: for each chunk the values of its
/// coefficient columns, as many as the larger field has dimensions. Chunk i's polynomials agree with the quotient on
/// domain i, and no two domains share a point (test: `are_all_disjoint`). Own: the rule is that of
/// `recompose_quotient_from_chunks` of `p3-uni-stark`.
pub fn recomposed_quotient<F: TwoAdicField, EF: ExtensionField<F>>(
    domains: &[TwoAdicMultiplicativeCoset<F>],
    chunks: &[Vec<EF>],
    x: EF,
) -> EF
    requires one_for_each { length chunks.now ≡ length domains.now }
    requires disjoint { AllDisjoint
        (record { ring = F.ring; inv = F.inv; root = F.root; generator = F.GENERATOR })
        domains.now }
    requires dimension { All (λ c. length c.items ≡ EF.DIMENSION) chunks.now }
    ensures { result ≡ recombined
        (record { ring = F.ring; inv = F.inv; root = F.root; generator = F.GENERATOR })
        (record {
          ring = EF.ring;
          embed = EF.embed;
          dimension = EF.DIMENSION;
          basis = EF.basis;
          coefficients = EF.coefficients;
          from_coefficients = EF.from_coefficients;
        }) domains.now (map (λ c. c.items) chunks.now) x }
{
    let mut sum = EF::ZERO;
    for (chunk, values) in chunks.iter().enumerate() {
        sum = sum + weight_at(domains, chunk, x) * chunk_value::<F, EF>(values);
    }
    sum
}

/// The value of `recomposed_quotient` over a configuration's fields (`recompose_quotient_from_chunks` of `p3-uni-stark`).
pub fn recompose_quotient_from_chunks<SC: StarkGenericConfig>(
    domains: &[Domain<SC>],
    chunks: &[Vec<Challenge<SC>>],
    zeta: Challenge<SC>,
) -> Challenge<SC>
    requires one_for_each { length chunks.now ≡ length domains.now }
    requires disjoint { AllDisjoint
        (record {
          ring = SC.Val.ring;
          inv = SC.Val.inv;
          root = SC.Val.root;
          generator = SC.Val.GENERATOR;
        }) domains.now }
    requires dimension { All (λ c. length c.items ≡ SC.Challenge.DIMENSION) chunks.now }
    ensures { result ≡ recombined
        (record {
          ring = SC.Val.ring;
          inv = SC.Val.inv;
          root = SC.Val.root;
          generator = SC.Val.GENERATOR;
        })
        (record {
          ring = SC.Challenge.ring;
          embed = SC.Challenge.embed;
          dimension = SC.Challenge.DIMENSION;
          basis = SC.Challenge.basis;
          coefficients = SC.Challenge.coefficients;
          from_coefficients = SC.Challenge.from_coefficients;
        }) domains.now (map (λ c. c.items) chunks.now) zeta }
{
    recomposed_quotient(domains, chunks, zeta)
}
