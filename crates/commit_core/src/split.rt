//! A coset split in parts, and the rows of a matrix with it.
ghost use Rattle.std.specs.Prelude.{◌≡◌, ℕ, ◌+◌, ◌*◌, ◌/◌, ◌%◌, ◌^◌, ◌<◌, ◌≤◌, List, IfOk, length, zip};
ghost use Rattle.std.specs.Int.{IsPowerOfTwo};
ghost use Rattle.p3_field.specs.Ring.{Ring, pow};
ghost use Rattle.p3_field.specs.Domain.{point};
ghost use Rattle.p3_matrix.specs.Matrix.{Rows, height};
ghost use Rattle.commit_core.specs.Space.{IsPart, IsSplit, EachOf};

use p3_field::{
    Field, FieldCore, Mem, PrimeCharacteristicRing, RingCore, TwoAdicCore, TwoAdicField,
    TwoAdicMultiplicativeCoset,
};
use p3_matrix::{RowMajorMatrix, log2_strict_usize};
use std::alloc::Global;

// The parts of a coset, each from one of its first points.
pub(crate) fn split_domain<F: TwoAdicField>(
    alloc: Global,
    domain: &TwoAdicMultiplicativeCoset<F>,
    num_chunks: usize,
) -> Mem<Vec<TwoAdicMultiplicativeCoset<F>>>
    requires power { IsPowerOfTwo num_chunks }
    requires fits { num_chunks ≤ 2 ^ domain.now.log_size }
    ensures { IfOk result (λ v.
        EachOf num_chunks v.items (IsPart F.ring F.root domain.now num_chunks)) }
{
    let log_chunks = log2_strict_usize(num_chunks);
    let mut parts = Vec::with_capacity(alloc, num_chunks)?;
    for i in 0..num_chunks {
        parts.push(part_from(domain, i, log_chunks))?;
    }
    Ok(parts)
}

// The part that begins at point i.
fn part_from<F: TwoAdicField>(
    domain: &TwoAdicMultiplicativeCoset<F>,
    i: usize,
    log_chunks: usize,
) -> TwoAdicMultiplicativeCoset<F>
    requires { log_chunks ≤ domain.now.log_size }
    ensures { IsPart F.ring F.root domain.now (2 ^ log_chunks) i result }
{
    domain.valid();
    TwoAdicMultiplicativeCoset::new(domain.point(i), domain.log_size() - log_chunks).unwrap()
}

// The rows of each part.
pub(crate) fn split_rows<F: Copy>(
    alloc: Global,
    m: &RowMajorMatrix<F>,
    num_chunks: usize,
) -> Mem<Vec<RowMajorMatrix<F>>>
    requires power { IsPowerOfTwo num_chunks }
    requires fits { num_chunks ≤ height m.now }
    requires height { IsPowerOfTwo (height m.now) }
    ensures { IfOk result (λ v. EachOf num_chunks v.items (IsSplit m.now num_chunks)) }
{
    let mut parts = Vec::with_capacity(alloc, num_chunks)?;
    for i in 0..num_chunks {
        parts.push(rows_from(alloc, m, i, num_chunks)?)?;
    }
    Ok(parts)
}

/// Every stride-th row of a matrix from row `first` on (not in Plonky3): row j of the answer is row first + stride j.
/// `first` is below `stride`, and `stride` divides the matrix's height; the answer is as wide as the matrix and has
/// height / stride rows. The only error is running out of memory.
pub fn rows_from<F: Copy>(
    alloc: Global,
    m: &RowMajorMatrix<F>,
    first: usize,
    stride: usize,
) -> Mem<RowMajorMatrix<F>>
    requires first { first < stride }
    requires divides { height m.now / stride * stride ≡ height m.now }
    ensures { IfOk result (IsSplit m.now stride first) }
{
    let mut values = Vec::new(alloc);
    for j in 0..m.height() / stride {
        values.extend_from_slice(m.row(first + stride * j))?;
    }
    Ok(RowMajorMatrix::new(values, m.width()))
}

/// Each item of the first list with the one at its place in the second, in order: so the parts of a domain get their rows
/// (not in Plonky3). The only error is running out of memory.
pub fn paired<X: Copy, Y: Drop>(alloc: Global, xs: &[X], ys: Vec<Y>) -> Mem<Vec<(X, Y)>>
    requires { length xs.now ≡ length ys.items }
    ensures { IfOk result (λ v. v.items ≡ zip xs.now ys.items) }
{
    let mut pairs = Vec::with_capacity(alloc, ys.len())?;
    for y in ys {
        pairs.push((xs[pairs.len()], y))?;
    }
    Ok(pairs)
}
