//! Low-degree extensions of matrices.
ghost use Rattle.std.specs.Prelude.{◌≡◌, ◌≤◌, ◌↔◌, IsTrue, IfOk, MatchOption, All};
ghost use Rattle.commit_core.specs.Commitments.{AreExtensions};
ghost use Rattle.plain_pcs.specs.Scheme.{scheme};
ghost use Rattle.plain_pcs.specs.Extension.{IsCommittable, Extends, extension_of};
ghost use Rattle.p3_field.specs.Checks.{IsFirstWithout};

use p3_dft::TwoAdicSubgroupDft;
use p3_field::{
    Field, FieldCore, Mem, PrimeCharacteristicRing, RingCore, TwoAdicCore, TwoAdicField,
    TwoAdicMultiplicativeCoset,
};
use p3_matrix::RowMajorMatrix;
use std::alloc::Global;

/// The extension of a matrix on a domain (not in Plonky3): the values of its columns' polynomials on the coset whose
/// shift is the field's GENERATOR and which is 2^`log_blowup` times as large as the domain.
pub(crate) fn extension<F: TwoAdicField, D: TwoAdicSubgroupDft<F>>(
    alloc: Global,
    dft: &D,
    log_blowup: usize,
    domain: TwoAdicMultiplicativeCoset<F>,
    matrix: RowMajorMatrix<F>,
) -> Mem<RowMajorMatrix<F>>
    requires { IsCommittable
        (scheme F.ring F.inv F.root F.GENERATOR F.TWO_ADICITY (record { log_blowup = log_blowup }))
        domain matrix }
    ensures { IfOk result (λ m.
        m ≡ extension_of (scheme F.ring F.inv F.root F.GENERATOR F.TWO_ADICITY
        (record { log_blowup = log_blowup })) domain matrix) }
{
    domain.valid();
    let shift = F::GENERATOR * domain.shift_inverse();
    let extended = dft.coset_lde_batch(alloc, matrix, log_blowup, shift)?;
    // For the proof alone: `height` tells that the values fill whole rows.
    extended.height();
    Ok(extended)
}

// Whether the scheme can commit to a matrix on a domain.
fn is_committable<F: TwoAdicField>(
    log_blowup: usize,
    domain: &TwoAdicMultiplicativeCoset<F>,
    matrix: &RowMajorMatrix<F>,
) -> bool
    requires { log_blowup ≤ F.TWO_ADICITY }
    ensures { IsTrue result ↔ IsCommittable
        (scheme F.ring F.inv F.root F.GENERATOR F.TWO_ADICITY (record { log_blowup = log_blowup }))
        domain.now matrix.now }
{
    domain.valid();
    matrix.width() > 0
        && matrix.height() == domain.size()
        && domain.log_size() + log_blowup <= F::TWO_ADICITY
}

/// The place of the first matrix that the scheme can't commit to on its domain, or None where it can commit to all.
pub(crate) fn first_not_committable<F: TwoAdicField>(
    log_blowup: usize,
    evaluations: &[(TwoAdicMultiplicativeCoset<F>, RowMajorMatrix<F>)],
) -> Option<usize>
    requires { log_blowup ≤ F.TWO_ADICITY }
    ensures { MatchOption result
        (All (λ e. IsCommittable
        (scheme F.ring F.inv F.root F.GENERATOR F.TWO_ADICITY (record { log_blowup = log_blowup }))
        e.0 e.1) evaluations.now)
        (IsFirstWithout (λ e. IsCommittable
        (scheme F.ring F.inv F.root F.GENERATOR F.TWO_ADICITY (record { log_blowup = log_blowup }))
        e.0 e.1) evaluations.now) }
{
    for (matrix, evaluated) in evaluations.iter().enumerate() {
        if !is_committable(log_blowup, &evaluated.0, &evaluated.1) {
            return Some(matrix);
        }
    }
    None
}

/// The extensions of matrices on their domains. None is copied.
pub(crate) fn extensions_from<F: TwoAdicField, D: TwoAdicSubgroupDft<F>>(
    alloc: Global,
    dft: &D,
    log_blowup: usize,
    evaluations: Vec<(TwoAdicMultiplicativeCoset<F>, RowMajorMatrix<F>)>,
) -> Mem<Vec<RowMajorMatrix<F>>>
    requires { All (λ e. IsCommittable
        (scheme F.ring F.inv F.root F.GENERATOR F.TWO_ADICITY (record { log_blowup = log_blowup }))
        e.0 e.1) evaluations.items }
    ensures { IfOk result (λ v.
        AreExtensions (Extends (scheme F.ring F.inv F.root F.GENERATOR F.TWO_ADICITY
        (record { log_blowup = log_blowup }))) evaluations.items v.items) }
{
    let mut extensions = Vec::with_capacity(alloc, evaluations.len())?;
    for evaluated in evaluations {
        let (domain, matrix) = evaluated;
        domain.valid();
        extensions.push(extension(alloc, dft, log_blowup, domain, matrix)?)?;
    }
    Ok(extensions)
}
