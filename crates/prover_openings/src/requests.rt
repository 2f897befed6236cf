//! The requests to open a batch's committed matrices, round by round.
ghost use Rattle.std.specs.Prelude.{◌≡◌, ℕ, ◌<◌, ◌≤◌, ◌++◌, All, Some, length, map, IfOk};
ghost use Rattle.std.specs.Option.{option_copied};
ghost use Rattle.verifier_claims.specs.Claims.{matrix_tables};
ghost use Rattle.batch_statement.specs.Words.{bits_at};
ghost use Rattle.batch_config.specs.Domains.{next_by};
ghost use Rattle.prover_openings.specs.Asked.{asked, plan_of, request_where};

use crate::points::{all_chunks, all_main, all_permutations, all_preprocessed};
use air_core::BaseAir;
use batch_setup::TableInstance;
use batch_statement::SharedData;
use commit_core::OpeningRequest;
use p3_field::{
    BasedVectorSpace, ExtensionField, Field, FieldCore, Mem, PrimeCharacteristicRing, RingCore,
    TwoAdicCore, TwoAdicField,
};
use p3_lookup::Lookups;
use std::alloc::Global;

// For each preprocessed matrix its table.
fn tables_of_matrices<F, Com>(common: &SharedData<F, Com>) -> &[usize]
    ensures { result.now ≡ matrix_tables common.now.preprocessed }
{
    match &common.preprocessed {
        None => &[],
        Some(traces) => &traces.matrix_to_instance,
    }
}

// The lookups of each table.
pub(crate) fn lookups_of<F, Com>(common: &SharedData<F, Com>) -> &[Lookups<F>]
    ensures { result.now ≡ common.now.lookups }
{
    &common.lookups
}

// Requests, and after them one for these points, where its prover data is there.
fn with_request<'a, D, E: Drop>(
    requests: Vec<OpeningRequest<'a, D, E>>,
    prover_data: Option<&'a D>,
    points: Vec<Vec<E>>,
) -> Mem<Vec<OpeningRequest<'a, D, E>>>
    ensures { IfOk result (λ v.
        v.items ≡ requests.entry.items
        ++ request_where (option_copied prover_data.entry) (map (λ x. x.items) points.items)) }
{
    match prover_data {
        None => Ok(requests),
        Some(prover_data) => {
            let mut requests = requests;
            requests.push(OpeningRequest {
                prover_data,
                points,
            })?;
            Ok(requests)
        }
    }
}

// All requests, in the order of the rounds: the traces, the quotients' chunks, the preprocessed traces, and the permutation
// columns.
pub(crate) fn all_requests<'a, F: TwoAdicField, A: BaseAir<F>, E: ExtensionField<F>, Com, D>(
    alloc: Global,
    main: &'a D,
    quotient: &'a D,
    preprocessed: Option<&'a D>,
    permutation: Option<&'a D>,
    instances: &[TableInstance<'_, F, A>],
    common: &SharedData<F, Com>,
    degree_bits: &[usize],
    chunk_counts: &[usize],
    masks: usize,
    zeta: E,
) -> Mem<Vec<OpeningRequest<'a, D, E>>>
    requires bits { length degree_bits.now ≡ length instances.now }
    requires chunks { length chunk_counts.now ≡ length instances.now }
    requires lookups { length common.now.lookups ≡ length instances.now }
    requires listed { All (λ i. i < length instances.now) (matrix_tables common.now.preprocessed) }
    requires masked { (i : ℕ) → i < length instances.now → masks ≤ bits_at degree_bits.now i }
    requires fits { (i : ℕ) → i < length instances.now → bits_at degree_bits.now i ≤ F.TWO_ADICITY }
    ensures { IfOk result (λ v. v.items
        ≡ asked (plan_of A.declaration instances.now common.now degree_bits.now chunk_counts.now)
        zeta (next_by E.ring E.embed F.root masks zeta)
        (record {
          main = main.now;
          quotient = quotient.now;
          preprocessed = option_copied preprocessed.entry;
          permutation = option_copied permutation.entry;
        })) }
{
    let mains = all_main(alloc, zeta, masks, instances, degree_bits)?;
    let chunks = all_chunks(alloc, zeta, chunk_counts)?;
    let matrices = tables_of_matrices(common);
    let preprocesseds = all_preprocessed(alloc, zeta, masks, instances, degree_bits, matrices)?;
    let permutations = all_permutations(alloc, zeta, masks, lookups_of(common), degree_bits)?;
    let first = with_request(Vec::new(alloc), Some(main), mains)?;
    let second = with_request(first, Some(quotient), chunks)?;
    let third = with_request(second, preprocessed, preprocesseds)?;
    with_request(third, permutation, permutations)
}
