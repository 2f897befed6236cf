//! The degree bits of a batch's tables, and the numbers of their quotients' chunks.
ghost use Rattle.std.specs.Prelude.{◌≡◌, ℕ, ◌+◌, ◌-◌, ◌^◌, ◌<◌, ◌≤◌, [], length, map, All, IfOk};
ghost use Rattle.std.specs.Prelude.{slice_index_or as get_or};
ghost use Rattle.p3_field.specs.Checks.{in_turn};
ghost use Rattle.p3_field.specs.Poly.{tabulate};
ghost use Rattle.p3_lookup.specs.Written.{read_all};
ghost use Rattle.batch_constraints.specs.BatchTrees.{AreLookupsOf};
ghost use Rattle.batch_statement.specs.Statement.{AirTable, tables_of};
ghost use Rattle.verifier_shape.specs.ShapeChecks.{log_chunks_at, chunks_of_table, size_checks, sizes_at};
ghost use Rattle.batch_statement.specs.Verdict.{IsVerdict};

use crate::powers::power_of_two;
use air_core::{Air, AirLayout, BaseAir};
use batch_constraints::get_log_num_quotient_chunks;
use batch_statement::BatchVerificationError;
use p3_field::{Field, FieldCore, Mem, RingCore};
use p3_lookup::{LogUpGadget, Lookups};
use p3_uni_stark::{InvalidProofShapeError, VerificationError};
use std::alloc::Global;

// The logarithm of the number of chunks of a table's quotient, before masking.
fn log_chunks_over<F: Field, A: Air<F>>(
    alloc: Global,
    air: &A,
    lookups: &Lookups<F>,
    height: usize,
    masks: usize,
) -> Mem<usize>
    requires height { 0 < height }
    requires masks { masks ≤ 1 }
    requires lookups { AreLookupsOf (A.declaration air.now) (read_all lookups.now) }
    ensures { IfOk result (λ k.
        k ≡ chunks_of_table F.ring masks height
        (record { declaration = A.declaration air.now; trees = A.trees air.now })
        (read_all lookups.now)) }
{
    let layout = AirLayout::from_air::<F, A>(air);
    let gadget = LogUpGadget::new();
    get_log_num_quotient_chunks(
        alloc,
        air,
        layout,
        height,
        lookups.as_slice(),
        masks,
        &gadget,
    )
}

// The checks of a table's size. It gives the logarithm of the number of its quotient's chunks before masking.
#[tactic(auto, unfolding(p3_field::specs::Checks::NoneFails, p3_field::specs::Checks::FirstFails))]
fn table_size<F: Field, A: Air<F>, R>(
    alloc: Global,
    index: usize,
    air: &A,
    lookups: &Lookups<F>,
    bits: usize,
    least: usize,
    most: usize,
    masks: usize,
) -> Result<usize, BatchVerificationError<R>>
    requires fits { most < 64 }
    requires masked { masks ≤ least }
    requires masks { masks ≤ 1 }
    requires lookups { AreLookupsOf (A.declaration air.now) (read_all lookups.now) }
    ensures verdict { IsVerdict (size_checks index least most bits
        (chunks_of_table F.ring masks (2 ^ (bits - masks))
        (record { declaration = A.declaration air.now; trees = A.trees air.now })
        (read_all lookups.now)) masks) result }
    ensures chunks { IfOk result
        (λ k. k ≡ chunks_of_table F.ring masks (2 ^ (bits - masks))
        (record { declaration = A.declaration air.now; trees = A.trees air.now })
        (read_all lookups.now)) }
{
    if bits < least {
        return Err(BatchVerificationError::Verification(VerificationError::InvalidProofShape(
            InvalidProofShapeError::DegreeBitsTooSmall {
                air: Some(index),
                minimum: least,
                got: bits,
            },
        )));
    }
    if bits > most {
        return Err(BatchVerificationError::Verification(VerificationError::InvalidProofShape(
            InvalidProofShapeError::DegreeBitsTooLarge {
                air: Some(index),
                maximum: most,
                got: bits,
            },
        )));
    }
    match log_chunks_over(alloc, air, lookups, power_of_two(bits - masks), masks) {
        Err(_) => Err(BatchVerificationError::OutOfMemory),
        Ok(chunks) => {
            let got = chunks.saturating_add(masks);
            if got >= 64 {
                return Err(BatchVerificationError::Verification(
                    VerificationError::InvalidProofShape(
                        InvalidProofShapeError::QuotientDomainTooLarge {
                            air: Some(index),
                            maximum: 63,
                            got,
                        },
                    ),
                ));
            }
            Ok(chunks)
        }
    }
}

/// The checks of the size of one table of a batch: `DegreeBitsTooSmall` and `DegreeBitsTooLarge` exactly where its degree bits are below `least` or above
/// `most`, then `QuotientDomainTooLarge` exactly where its quotient would have 2^64 chunks or more. It gives the logarithm of the number
/// of its chunks before masking, and takes memory for the degrees of its constraints.
pub fn size_at<F: Field, A: Air<F>, R>(
    alloc: Global,
    index: usize,
    airs: &[A],
    lookups: &[Lookups<F>],
    degree_bits: &[usize],
    least: usize,
    most: usize,
    masks: usize,
) -> Result<usize, BatchVerificationError<R>>
    requires fits { most < 64 }
    requires masked { masks ≤ least }
    requires masks { masks ≤ 1 }
    requires airs { index < length airs.now }
    requires lookups { index < length lookups.now }
    requires bits { index < length degree_bits.now }
    requires reads { (a : A)
        → AreLookupsOf (A.declaration (get_or airs.now index a))
        (read_all (get_or lookups.now index [])) }
    ensures verdict { IsVerdict
        (sizes_at F.ring least most masks (tables_of A.declaration A.trees airs.now)
        (map read_all lookups.now) degree_bits.now index) result }
    ensures chunks { IfOk result
        (λ n. n ≡ log_chunks_at F.ring masks (tables_of A.declaration A.trees airs.now)
        (map read_all lookups.now) degree_bits.now index) }
{
    table_size(
        alloc,
        index,
        &airs[index],
        &lookups[index],
        degree_bits[index],
        least,
        most,
        masks,
    )
}

// The checks of the tables' sizes, one table after the other. It gives the logarithms of the numbers of their quotients'
// chunks before masking.
pub(crate) fn check_sizes<F: Field, A: Air<F>, R>(
    alloc: Global,
    airs: &[A],
    lookups: &[Lookups<F>],
    degree_bits: &[usize],
    least: usize,
    most: usize,
    masks: usize,
) -> Result<Vec<usize>, BatchVerificationError<R>>
    requires fits { most < 64 }
    requires masked { masks ≤ least }
    requires masks { masks ≤ 1 }
    requires lookups { length lookups.now ≡ length airs.now }
    requires bits { length degree_bits.now ≡ length airs.now }
    requires reads { (i : ℕ) (a : A) → i < length airs.now
        → AreLookupsOf (A.declaration (get_or airs.now i a)) (read_all (get_or lookups.now i [])) }
    ensures verdict { IsVerdict
        (in_turn (length airs.now)
        (sizes_at F.ring least most masks (tables_of A.declaration A.trees airs.now)
        (map read_all lookups.now) degree_bits.now)) result }
    ensures chunks { IfOk result
        (λ v. v.items ≡ tabulate (length airs.now)
        (log_chunks_at F.ring masks (tables_of A.declaration A.trees airs.now)
        (map read_all lookups.now) degree_bits.now)) }
{
    let mut chunks = Vec::new(alloc);
    for index in 0..airs.len() {
        let count = size_at(alloc, index, airs, lookups, degree_bits, least, most, masks)?;
        chunks.push(count)?;
    }
    Ok(chunks)
}
