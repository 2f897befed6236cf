//! The shape of a batch's script, of its AIRs and its common data.
ghost use Rattle.std.specs.Prelude.{◌≡◌, [], map, length, count_by, is_some, option_map, IfOk};
ghost use Rattle.std.specs.Option.{option_copied};
ghost use Rattle.air_core.specs.Shape.{width_of};
ghost use Rattle.p3_lookup.specs.Written.{read_all};
ghost use Rattle.batch_statement.specs.Statement.{tables_of, statement_with};
ghost use Rattle.batch_statement.specs.Words.{has_some};
ghost use Rattle.verifier_draws.specs.Draws.{lookup_counts_in, script_shape};

use air_core::{Air, BaseAir};
use batch_statement::SharedData;
use batch_transcript::BatchShape;
use p3_field::{Field, FieldCore, Mem, RingCore};
use p3_lookup::Lookups;
use std::alloc::Global;
use transcript_version::TranscriptVersion;

// The width of each AIR's main trace.
fn trace_widths<F: Field, A: BaseAir<F>>(alloc: Global, airs: &[A]) -> Mem<Vec<usize>>
    ensures { IfOk result (λ v. v.items ≡ map (λ a. (A.declaration a).width) airs.now) }
{
    let mut widths = Vec::with_capacity(alloc, airs.len())?;
    for air in airs {
        widths.push(air.width())?;
    }
    Ok(widths)
}

// The number of each AIR's public values.
fn public_value_counts<F: Field, A: BaseAir<F>>(alloc: Global, airs: &[A]) -> Mem<Vec<usize>>
    ensures { IfOk result (λ v. v.items ≡ map (λ a. (A.declaration a).public_values) airs.now) }
{
    let mut counts = Vec::with_capacity(alloc, airs.len())?;
    for air in airs {
        counts.push(air.num_public_values())?;
    }
    Ok(counts)
}

// The width of each AIR's preprocessed trace, zero where there is none.
fn preprocessed_widths<F: Field, A: BaseAir<F>>(alloc: Global, airs: &[A]) -> Mem<Vec<usize>>
    ensures { IfOk result (λ v.
        v.items ≡ map (λ a. width_of (A.declaration a).preprocessed) airs.now) }
{
    let mut widths = Vec::with_capacity(alloc, airs.len())?;
    for air in airs {
        widths.push(air.preprocessed_width())?;
    }
    Ok(widths)
}

// Whether a table has lookups.
fn has_lookups<F>(lookups: &Lookups<F>) -> bool
    ensures { result ≡ has_some (read_all lookups.now) }
{
    !lookups.as_slice().is_empty()
}

// How many tables have lookups.
fn tables_with_lookups<F>(lookups: &[Lookups<F>]) -> usize
    ensures { result ≡ count_by (λ ls. has_some (read_all ls)) lookups.now }
{
    lookups.iter().filter(|table| has_lookups(table)).count()
}

// Each table's number of lookups.
fn numbers_of_lookups<F>(alloc: Global, lookups: &[Lookups<F>]) -> Mem<Vec<usize>>
    ensures { IfOk result (λ v. v.items ≡ map (λ ls. length (read_all ls)) lookups.now) }
{
    let mut counts = Vec::with_capacity(alloc, lookups.len())?;
    for table in lookups {
        counts.push(table.as_slice().len())?;
    }
    Ok(counts)
}

// Each table's number of lookups, where the version's shapes have them.
fn lookup_counts<F>(
    alloc: Global,
    version: TranscriptVersion,
    lookups: &[Lookups<F>],
) -> Mem<Vec<usize>>
    ensures { IfOk result (λ v. v.items ≡ lookup_counts_in version (map read_all lookups.now)) }
{
    match version {
        TranscriptVersion::V1 => Ok(Vec::new(alloc)),
        TranscriptVersion::V2 => numbers_of_lookups(alloc, lookups),
    }
}

/// The commitment to the preprocessed traces, where there are such (not in Plonky3).
pub fn preprocessed_commitment<F, Com>(common: &SharedData<F, Com>) -> Option<&Com>
    ensures value { option_copied result ≡ option_map (λ g. g.commitment) common.now.preprocessed }
    ensures variant { is_some result ≡ is_some common.now.preprocessed }
{
    match &common.preprocessed {
        Some(traces) => Some(&traces.commitment),
        None => None,
    }
}

/// The shape of the script of a batch of these AIRs in a version, with these bits for the two grindings (not in Plonky3). The only error is running out
/// of memory.
pub fn batch_shape<F: Field, A: Air<F>, Com>(
    alloc: Global,
    airs: &[A],
    common: &SharedData<F, Com>,
    version: TranscriptVersion,
    zk: bool,
    lookup_bits: usize,
    ood_bits: usize,
) -> Mem<BatchShape>
    ensures { IfOk result (λ s.
        s ≡ script_shape version zk lookup_bits ood_bits
        (statement_with (tables_of A.declaration A.trees airs.now) [] common.now)) }
{
    Ok(BatchShape {
        trace_widths: trace_widths(alloc, airs)?,
        public_value_counts: public_value_counts(alloc, airs)?,
        preprocessed_widths: preprocessed_widths(alloc, airs)?,
        has_preprocessed_commitment: common.preprocessed.is_some(),
        num_lookup_instances: tables_with_lookups(&common.lookups),
        lookup_pow_bits: lookup_bits,
        has_randomization_commitment: zk,
        ood_pow_bits: ood_bits,
        version,
        lookup_counts: lookup_counts(alloc, version, &common.lookups)?,
    })
}
