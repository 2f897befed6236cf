//! Layouts of AIRs and of their constraints.
ghost use Rattle.std.specs.Prelude.{◌≡◌, ℕ, ◌+◌, ◌-◌, ◌<◌, length, All, IfOk};
ghost use Rattle.air_core.specs.Layout.{layout_of, Places, place_count, folding_powers};

use crate::base::BaseAir;
use p3_field::{Field, FieldCore, Mem, PrimeCharacteristicRing, RingCore};
use std::alloc::Global;
use std::marker::Model;

/// How many cells of each kind there are (`crate::AirLayout`).
#[derive(Clone, Copy)]
pub struct AirLayout {
    /// Columns of the preprocessed trace.
    pub preprocessed_width: usize,
    /// Columns of the main trace.
    pub main_width: usize,
    /// Public values.
    pub num_public_values: usize,
    /// Periodic columns.
    pub num_periodic_columns: usize,
    /// Columns of the permutation trace.
    pub permutation_width: usize,
    /// Challenges of the lookups.
    pub num_permutation_challenges: usize,
    /// Terminals of the lookups: 0 or 1.
    pub num_permutation_values: usize,
}

impl AirLayout {
    /// The layout of an AIR without lookups, in which the last three numbers are 0.
    pub fn from_air<F: Field, A: BaseAir<F>>(air: &A) -> AirLayout
        ensures { result ≡ layout_of (A.declaration air.now) }
    {
        AirLayout {
            preprocessed_width: air.preprocessed_width(),
            main_width: air.width(),
            num_public_values: air.num_public_values(),
            num_periodic_columns: air.periodic_columns().len(),
            permutation_width: 0,
            num_permutation_challenges: 0,
            num_permutation_values: 0,
        }
    }
}

/// The places of the constraints over the base field and of those over the extension, in the order in which all are
/// asserted (`crate::ConstraintLayout`).
#[derive(Drop)]
pub struct ConstraintLayout {
    /// The places of the constraints over the base field.
    pub base_indices: Vec<usize>,
    /// The places of the constraints over the extension.
    pub ext_indices: Vec<usize>,
}

impl Model for ConstraintLayout {
    ghost Value = { Places };

    ghost view = { λ l. record {
      base_indices = l.base_indices.items;
      ext_indices = l.ext_indices.items;
    } };
}

impl ConstraintLayout {
    /// How many constraints there are.
    pub fn total_constraints(&self) -> usize
        ensures { result ≡ place_count self.now }
    {
        self.base_indices.len() + self.ext_indices.len()
    }

    /// The power of `alpha` of each constraint, of those over the base field and of those over the extension:
    /// constraint i of n in the order of assertion has alpha^(n-1-i). Each listed place is below n.
    pub fn decompose_alpha<EF: Field>(&self, alloc: Global, alpha: EF) -> Mem<(Vec<EF>, Vec<EF>)>
        requires base { All (λ i. i < place_count self.now) self.now.base_indices }
        requires extension { All (λ i. i < place_count self.now) self.now.ext_indices }
        ensures base { IfOk result
            (λ p. p.0.items ≡ folding_powers EF.ring alpha (place_count self.now)
            self.now.base_indices) }
        ensures extension { IfOk result
            (λ p. p.1.items ≡ folding_powers EF.ring alpha (place_count self.now)
            self.now.ext_indices) }
    {
        let total = self.total_constraints();
        let base = powers_at(alloc, alpha, total, &self.base_indices)?;
        let extension = powers_at(alloc, alpha, total, &self.ext_indices)?;
        Ok((base, extension))
    }
}

// The power of alpha of each of these places among `total` constraints.
fn powers_at<EF: Field>(alloc: Global, alpha: EF, total: usize, places: &[usize]) -> Mem<Vec<EF>>
    requires { All (λ i. i < total) places.now }
    ensures { IfOk result (λ v. v.items ≡ folding_powers EF.ring alpha total places.now) }
{
    let mut powers = Vec::with_capacity(alloc, places.len())?;
    for place in places {
        powers.push(alpha.exp_u64((total - 1 - *place) as u64))?;
    }
    Ok(powers)
}
