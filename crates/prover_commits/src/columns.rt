//! The permutation columns of all tables of a batch.
ghost use Rattle.std.specs.Prelude.{◌≡◌, ◌^◌, ◌<◌, ◌≤◌, ◌++◌, false, length, map, Option, option_map, option_to_list, IfOk};
ghost use Rattle.std.specs.Int.{IsPowerOfTwo};
ghost use Rattle.p3_field.specs.Domain.{subgroup};
ghost use Rattle.batch_setup.specs.Setup.{log_of};
ghost use Rattle.prover_answer.specs.Batch.{IsTracedAll, all_challenges, all_permutations};
ghost use Rattle.prover_answer.specs.Proving.{IsPairGroundOf, fraction_part};
ghost use Rattle.prover_answer.specs.Verdict.{IsProverVerdict};
ghost use Rattle.law_honest.specs.HonestProof.{terminals};
ghost use Rattle.prover_commits.specs.Columns.{ArePermutationsMade, AreReady, IsAllMade, IsMadeMore};

use crate::rows_domain;
use crate::table::table_columns;
use air_core::{Air, BaseAir};
use batch_setup::StarkInstance;
use batch_statement::CommonData;
use commit_core::{CosetPcs, Pcs, PolynomialSpace, UnivariateStarkPcs};
use p3_field::{
    BasedVectorSpace, ExtensionField, Field, FieldCore, Mem, PrimeCharacteristicRing, PrimeCore64,
    PrimeField64, RingCore, TwoAdicCore, TwoAdicField, TwoAdicMultiplicativeCoset,
};
use p3_lookup::LookupTerminal;
use p3_matrix::RowMajorMatrix;
use p3_uni_stark::{Challenge, Domain, PcsProverError, StarkGenericConfig, Val};
use prover_answer::{Batches, ProvingError};
use std::alloc::Global;

/// The permutation columns of a batch, and its terminals (not in Plonky3).
#[derive(Drop)]
pub struct Permutations<F: TwoAdicCore, E> {
    /// For each table with lookups, in order, its permutation columns: the running sum and a column for each lookup, by their coefficients,
    /// on the domain of its rows.
    pub columns: Vec<(TwoAdicMultiplicativeCoset<F>, RowMajorMatrix<F>)>,
    /// For each table the value with which its running sum ends: None where it has no lookups.
    pub terminals: Vec<Option<LookupTerminal<E>>>,
}

// Matrices on domains, and after them one that may be there, on the domain of so many rows.
fn with_matrix<SC: StarkGenericConfig>(
    config: &SC,
    columns: Vec<(Domain<SC>, RowMajorMatrix<Val<SC>>)>,
    matrix: Option<RowMajorMatrix<Val<SC>>>,
    height: usize,
) -> Mem<Vec<(Domain<SC>, RowMajorMatrix<Val<SC>>)>>
    requires power { IsPowerOfTwo height }
    requires fits { height ≤ 2 ^ SC.Val.TWO_ADICITY }
    ensures { IfOk result (λ v.
        v.items ≡ columns.items ++ option_to_list
        (option_map (λ m. (subgroup SC.Val.ring (log_of height), m)) matrix)) }
{
    match matrix {
        None => Ok(columns),
        Some(matrix) => {
            let mut columns = columns;
            columns.push((rows_domain(config, height), matrix))?;
            Ok(columns)
        }
    }
}

// What is made of the tables before this place, and of the table at it, for these lists of challenges.
fn with_table<SC: StarkGenericConfig, A: Air<Val<SC>>>(
    alloc: Global,
    config: &SC,
    instances: &[StarkInstance<'_, SC, A>],
    common: &CommonData<SC>,
    challenges: &[Vec<Challenge<SC>>],
    place: usize,
    made: Permutations<Val<SC>, Challenge<SC>>,
) -> Result<Permutations<Val<SC>, Challenge<SC>>, ProvingError<PcsProverError<SC>>>
    requires within { place < length instances.now }
    requires lookups { length common.now.lookups ≡ length instances.now }
    requires challenges { length challenges.now ≡ length instances.now }
    requires ready { AreReady (⟦<SC as Batches<A>>⟧.batch config.now instances.now common.now)
        (map (λ v. v.items) challenges.now) (length instances.now) }
    requires made { ArePermutationsMade
        (⟦<SC as Batches<A>>⟧.batch config.now instances.now common.now)
        (map (λ v. v.items) challenges.now) place made.columns.items made.terminals.items }
    ensures { IsMadeMore (⟦<SC as Batches<A>>⟧.batch config.now instances.now common.now)
        (map (λ v. v.items) challenges.now) (length instances.now) place (λ r. r.columns.items)
        (λ r. r.terminals.items) result }
{
    let instance = &instances[place];
    let lookups = common.lookups[place].as_slice();
    let (matrix, terminal) = table_columns(alloc, place, instance, lookups, &challenges[place])?;
    let columns = with_matrix(config, made.columns, matrix, instance.trace.height())?;
    let mut terminals = made.terminals;
    terminals.push(terminal)?;
    Ok(Permutations { columns, terminals })
}

// What is made of all tables, for these lists of challenges.
fn columns_for<SC: StarkGenericConfig, A: Air<Val<SC>>>(
    alloc: Global,
    config: &SC,
    instances: &[StarkInstance<'_, SC, A>],
    common: &CommonData<SC>,
    challenges: &[Vec<Challenge<SC>>],
) -> Result<Permutations<Val<SC>, Challenge<SC>>, ProvingError<PcsProverError<SC>>>
    requires lookups { length common.now.lookups ≡ length instances.now }
    requires challenges { length challenges.now ≡ length instances.now }
    requires ready { AreReady (⟦<SC as Batches<A>>⟧.batch config.now instances.now common.now)
        (map (λ v. v.items) challenges.now) (length instances.now) }
    ensures { IsAllMade (⟦<SC as Batches<A>>⟧.batch config.now instances.now common.now)
        (map (λ v. v.items) challenges.now) (length instances.now) (λ r. r.columns.items)
        (λ r. r.terminals.items) result }
{
    let mut made = Permutations {
        columns: Vec::new(alloc),
        terminals: Vec::with_capacity(alloc, instances.len())?,
    };
    for place in 0..instances.len() {
        made = with_table(alloc, config, instances, common, challenges, place, made)?;
    }
    Ok(made)
}

/// The permutation columns of all tables of a batch, flattened, each on the domain of its table's rows, and the terminals (`prove_batch` of
/// `p3-batch-stark`): for each table with lookups what `generate_permutation` gives for its trace, its AIR's preprocessed trace, its public
/// values, its lookups and their challenges. The answer is `LookupDenominatorZero` exactly where a denominator is zero: the first, by
/// tables and then by rows. Only out of memory is free.
///
/// The batch is traced, the backend masks nothing, and `challenges` has for each table the challenges of its lookups, as they are drawn
/// after the grinding value of the lookups' pair.
pub fn permutation_columns<SC: StarkGenericConfig, A: Air<Val<SC>>>(
    alloc: Global,
    config: &SC,
    instances: &[StarkInstance<'_, SC, A>],
    common: &CommonData<SC>,
    challenges: &[Vec<Challenge<SC>>],
) -> Result<Permutations<Val<SC>, Challenge<SC>>, ProvingError<PcsProverError<SC>>>
    requires plain { SC.Pcs.ZK ≡ false }
    requires traced { let b = ⟦<SC as Batches<A>>⟧.batch config.now instances.now common.now in
        IsTracedAll b }
    requires challenges { let b = ⟦<SC as Batches<A>>⟧.batch config.now instances.now common.now in
        (w : Option SC.Val) × IsPairGroundOf b w
        × (map (λ v. v.items) challenges.now ≡ all_challenges b w) }
    ensures verdict { let b = ⟦<SC as Batches<A>>⟧.batch config.now instances.now common.now in
        IsProverVerdict (fraction_part b) result }
    ensures columns { let b = ⟦<SC as Batches<A>>⟧.batch config.now instances.now common.now in
        IfOk result (λ r. (w : Option SC.Val) → IsPairGroundOf b w
        → r.columns.items ≡ all_permutations b w) }
    ensures terminals { let b = ⟦<SC as Batches<A>>⟧.batch config.now instances.now common.now in
        IfOk result (λ r. (w : Option SC.Val) → IsPairGroundOf b w
        → map (option_map (λ t. t.0)) r.terminals.items
        ≡ terminals b.setting b.prover b.statement b.traces b.degree_bits w) }
{
    columns_for(alloc, config, instances, common, challenges)
}
