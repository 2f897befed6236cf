//! Calls of the transforms.

use crate::matrices::matrix_of;
use crate::printing::{print_bears, print_matrix, print_numbers};
use crate::reading::values_of;
use p3_dft::{
    NaiveDft, Radix2Dit, TwoAdicSubgroupDft, interpolant_on_coset, interpolants_on_coset,
    values_on_coset,
};
use p3_field::{BabyBear, FieldCore, Mem, RingCore};
use p3_matrix::{RowMajorMatrix, is_power_of_two, log2_strict_usize};
use std::alloc::Global;
use std::io;

/// Calls of a transform of a matrix, over the bound alone: the numbers are the width, the added bits, the shift, and then the
/// matrix's values.
pub fn transform<T: TwoAdicSubgroupDft<BabyBear>, R: Print + AllocGlobal>(
    rt: &R,
    transform: &T,
    call: &str,
    numbers: &[u64],
) -> io::Result<()> {
    let [width, added, shift, cells @ ..] = numbers else {
        return rt.println("bad case");
    };
    let m = matrix_of(rt.alloc(), *width as usize, cells)?;
    let shift = BabyBear::from_u64(*shift);
    if !is_power_of_two(m.height()) || m.height() > 1 << 20 || *added > 7 || shift.is_zero() {
        return rt.println("bad case");
    }
    let transformed = match call {
        "dft" => transform.dft_batch(rt.alloc(), m)?,
        "idft" => transform.idft_batch(rt.alloc(), m)?,
        _ => transform.coset_lde_batch(rt.alloc(), m, *added as usize, shift)?,
    };
    print_matrix(rt, &transformed)
}

/// Calls of one column on the coset with a shift and the logarithm of a size, which the first two numbers are.
pub fn column<R: Print + AllocGlobal>(rt: &R, call: &str, numbers: &[u64]) -> io::Result<()> {
    let [shift, log_size, rest @ ..] = numbers else {
        return rt.println("bad case");
    };
    let column = values_of::<BabyBear, BabyBear>(rt.alloc(), rest)?;
    let (shift, log_size) = (BabyBear::from_u64(*shift), *log_size as usize);
    if log_size > 27 || column.len() != 1 << log_size || shift.is_zero() {
        return rt.println("bad case");
    }
    match call {
        "values" => print_bears(rt, &values_on_coset(rt.alloc(), &column, shift, log_size)?),
        _ => print_bears(
            rt,
            &interpolant_on_coset(rt.alloc(), &column, shift, log_size)?,
        ),
    }
}

// The matrix of this width with the values 0, 1, 2, .. row after row, so many of them.
fn counted(alloc: Global, width: usize, count: u64) -> Mem<RowMajorMatrix<BabyBear>> {
    let mut numbers = Vec::new(alloc);
    for number in 0..count {
        numbers.push(number)?;
    }
    matrix_of(alloc, width, &numbers)
}

/// Calls of both transforms of the matrix whose values count up from zero: whether they give the same. The numbers are the
/// width, the added bits, the shift, and how many values there are.
pub fn both<R: Print + AllocGlobal>(rt: &R, call: &str, numbers: &[u64]) -> io::Result<()> {
    let [width, added, shift, count] = numbers else {
        return rt.println("bad case");
    };
    let m = counted(rt.alloc(), *width as usize, *count)?;
    let (added, shift) = (*added as usize, BabyBear::from_u64(*shift));
    if !is_power_of_two(m.height()) || m.height() > 1 << 20 || added > 7 || shift.is_zero() {
        return rt.println("bad case");
    }
    let copied = m.try_clone(rt.alloc())?;
    let (naive, radix2) = match call {
        "dft" => (
            NaiveDft.dft_batch(rt.alloc(), copied)?,
            Radix2Dit.dft_batch(rt.alloc(), m)?,
        ),
        "idft" => (
            NaiveDft.idft_batch(rt.alloc(), copied)?,
            Radix2Dit.idft_batch(rt.alloc(), m)?,
        ),
        _ => (
            NaiveDft.coset_lde_batch(rt.alloc(), copied, added, shift)?,
            Radix2Dit.coset_lde_batch(rt.alloc(), m, added, shift)?,
        ),
    };
    print_numbers(rt, &[(naive.as_slice() == radix2.as_slice()) as u64])
}

/// Whether the values of the matrix of this width whose values count up from zero lead back to it.
pub fn round_trip<R: Print + AllocGlobal>(rt: &R, numbers: &[u64]) -> io::Result<()> {
    let [width, count] = numbers else {
        return rt.println("bad case");
    };
    let m = counted(rt.alloc(), *width as usize, *count)?;
    if !is_power_of_two(m.height()) || m.height() > 1 << 20 {
        return rt.println("bad case");
    }
    let copied = m.try_clone(rt.alloc())?;
    let values = Radix2Dit.dft_batch(rt.alloc(), m)?;
    if !is_power_of_two(values.height()) || values.height() > 1 << 20 {
        return rt.println("bad case");
    }
    let back = Radix2Dit.idft_batch(rt.alloc(), values)?;
    print_numbers(rt, &[(back.as_slice() == copied.as_slice()) as u64])
}

/// The coefficients of the interpolants of a matrix's columns on the coset of its height with a shift: the numbers are the
/// width, the shift, and then the matrix's values.
pub fn columns<R: Print + AllocGlobal>(rt: &R, numbers: &[u64]) -> io::Result<()> {
    let [width, shift, cells @ ..] = numbers else {
        return rt.println("bad case");
    };
    let m = matrix_of(rt.alloc(), *width as usize, cells)?;
    let shift = BabyBear::from_u64(*shift);
    if !is_power_of_two(m.height()) || shift.is_zero() {
        return rt.println("bad case");
    }
    let log_size = log2_strict_usize(m.height());
    if log_size > 27 {
        return rt.println("bad case");
    }
    print_matrix(rt, &interpolants_on_coset(rt.alloc(), &m, shift, log_size)?)
}
