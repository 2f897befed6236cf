//! The constructors of prover data.
ghost use Rattle.std.specs.Prelude.{◌≡◌, ℕ, ◌+◌, ◌<◌, ◌≤◌, ◌++◌, cond, flat_map, length, map, replicate, IfErr, IfOk};
ghost use Rattle.std.specs.Prelude.{slice_index_or as get_or};
ghost use Rattle.p3_field.specs.Poly.{tabulate};
ghost use Rattle.commit_core.specs.Commitments.{IsCommitment};
ghost use Rattle.p3_lookup.specs.Bus.{HaveOneWidth};
ghost use Rattle.p3_lookup.specs.Lookup.{lookups_of};
ghost use Rattle.p3_lookup.specs.Written.{read_all};
ghost use Rattle.batch_statement.specs.Statement.{WellFormed, read_common};
ghost use Rattle.batch_setup.specs.Packed.{batch_sources, packed_at, KeepChunks, KeepChunksWithin};
ghost use Rattle.batch_setup.specs.Preprocessed.{ArePrepared};
ghost use Rattle.batch_setup.specs.Setup.{airs_of, bits_of, ArePowers};
ghost use Rattle.batch_setup.specs.SetupChecks.{degree_checks, length_checks, trace_checks, table_setup_checks, AreWithinBounds};
ghost use Rattle.batch_setup.specs.Verdict.{IsSetUp};

use crate::error::SetupError;
use crate::instance::{StarkInstance, degree_bits, lent_airs};
use crate::lookups::batch_lookups;
use crate::preprocessed::prepared;
use crate::prover_data::{PreprocessedProverData, ProverData, SetupData};
use air_core::{Air, BaseAir};
use batch_statement::SharedData;
use commit_core::{CosetPcs, Pcs, PolynomialSpace, UnivariateStarkPcs};
use p3_field::{
    BasedVectorSpace, ExtensionField, Field, FieldCore, Mem, PrimeCharacteristicRing, PrimeCore64,
    PrimeField64, RingCore, TwoAdicCore, TwoAdicField,
};
use p3_uni_stark::{PcsProverError, StarkGenericConfig, Val};
use std::alloc::Global;

// Whether both lists have an item for each AIR.
#[tactic(auto, unfolding(p3_field::specs::Checks::NoneFails, p3_field::specs::Checks::FirstFails))]
fn check_lengths<A, E>(
    airs: &[A],
    degree_bits: &[usize],
    budgets: &[usize],
) -> Result<(), SetupError<E>>
    ensures verdict { IsSetUp
        (length_checks (length airs.now) (length degree_bits.now) (length budgets.now)) result }
    ensures no_memory { IfErr result (λ e. e ≡ SetupError.LengthMismatch) }
{
    if degree_bits.len() != airs.len() || budgets.len() != airs.len() {
        return Err(SetupError::LengthMismatch);
    }
    Ok(())
}

// So many zeros.
fn zeros(alloc: Global, n: usize) -> Mem<Vec<usize>>
    ensures { IfOk result (λ v. v.items ≡ replicate n 0) }
{
    vec![in alloc; 0; n]
}

// The data of AIRs with as many degree bits and budgets.
fn tables_data<SC: StarkGenericConfig, A: Air<Val<SC>>>(
    alloc: Global,
    config: &SC,
    airs: &[A],
    degree_bits: &[usize],
    budgets: &[usize],
    masks: usize,
    log_blowup: usize,
) -> Result<ProverData<SC>, SetupError<PcsProverError<SC>>>
    requires bits { length degree_bits.now ≡ length airs.now }
    requires budgets { length budgets.now ≡ length airs.now }
    requires masks { masks ≤ 1 }
    requires masked { (i : ℕ) → i < length airs.now → masks ≤ get_or degree_bits.now i 0 }
    requires fits { (i : ℕ) → i < length airs.now → get_or degree_bits.now i 0 < 64 }
    requires two_adic { (i : ℕ) → i < length airs.now
        → get_or degree_bits.now i 0 ≤ SC.Val.TWO_ADICITY }
    requires widths { HaveOneWidth (flat_map (λ a. lookups_of (A.interactions a)) airs.now) }
    ensures verdict { IsSetUp (table_setup_checks SC.Val.ring masks log_blowup
        (SC.Pcs.commit_fault (SC.pcs_of config.now))
        (batch_sources A.declaration A.trees A.interactions airs.now) degree_bits.now budgets.now
        (length airs.now)) result }
    ensures lookups { IfOk result (λ d. map read_all d.common.lookups
        ≡ tabulate (length airs.now)
        (packed_at SC.Val.ring masks (batch_sources A.declaration A.trees A.interactions airs.now)
        degree_bits.now budgets.now)) }
    ensures preprocessed { IfOk result (λ d. ArePrepared
        (λ es p. IsCommitment SC.Val.ring
        ⟦<<SC::Pcs as Pcs<SC::Challenge, SC::Challenger>>::Domain as PolynomialSpace>⟧.points
        ⟦<<SC::Pcs as Pcs<SC::Challenge, SC::Challenger>>::Domain as PolynomialSpace>⟧.point_at
        (SC.Pcs.commits (SC.pcs_of config.now))
        (SC.Pcs.made (SC.pcs_of config.now)) (SC.Pcs.holds (SC.pcs_of config.now)) es p)
        SC.Val.ring.one (batch_sources A.declaration A.trees A.interactions airs.now)
        degree_bits.now (length airs.now) d.common.preprocessed
        d.prover_only.preprocessed_prover_data) }
    ensures formed { IfOk result
        (λ d. WellFormed (map A.declaration airs.now) (read_common d.common)) }
{
    let (preprocessed, made_prover_data) = prepared(alloc, config, airs, degree_bits, masks)?;
    let lookups = batch_lookups(alloc, airs, degree_bits, budgets, masks, log_blowup)?;
    let common = SharedData::new(preprocessed, lookups);
    let prover_only = PreprocessedProverData {
        preprocessed_prover_data: made_prover_data,
    };
    Ok(SetupData {
        common,
        prover_only,
    })
}

impl<F, Com, PD> SetupData<F, Com, PD> {
    /// The prover's data of AIRs (`ProverData::from_airs_and_degrees_with_lookup_budgets` of `p3-batch-stark`): the lookups of
    /// each AIR, packed within the larger of its table's free budget and of the one that is asked for, and one commitment to
    /// the AIRs' preprocessed traces, in order, each on the natural domain of its extended degree. Where no AIR has one there
    /// is no commitment. `trace_ext_degree_bits` has for each AIR the logarithm of its table's height, and one more where the
    /// backend masks; `log_blowup` is the logarithm of the backend's blowup. The data is well-formed.
    ///
    /// The degree bits lie in the backend's bounds, and the tuples that the AIRs send on one bus have one width. The answer is,
    /// the first in this order:
    ///
    /// - `LengthMismatch` exactly where the lists differ in their lengths, before any memory is wanted (`memory`);
    /// - `PreprocessedHeight` for the first preprocessed trace with another height than its table;
    /// - `Pcs` where the backend refuses the commitment;
    /// - `LookupBudget` for the first budget above the free one whose packed lookups give more chunks, with masking, than the
    ///   backend's blowup. Its `log_chunks` is the logarithm of that number, and stops at the greatest `usize`.
    ///
    /// A budget of at most the free one leaves the number of chunks as it is without packing (`chunks`); a larger one may cost chunks, up to
    /// the backend's blowup.
    pub fn from_airs_and_degrees_with_lookup_budgets<SC: StarkGenericConfig, A: Air<Val<SC>>>(
        alloc: Global,
        config: &SC,
        airs: &[A],
        trace_ext_degree_bits: &[usize],
        lookup_budget_overrides: &[usize],
        log_blowup: usize,
    ) -> Result<ProverData<SC>, SetupError<PcsProverError<SC>>>
        requires bits { AreWithinBounds (SC.Pcs.log_min (SC.pcs_of config.now) + cond SC.Pcs.ZK 1 0)
            (SC.Pcs.log_max (SC.pcs_of config.now)) trace_ext_degree_bits.now }
        requires widths { HaveOneWidth (flat_map (λ a. lookups_of (A.interactions a)) airs.now) }
        ensures verdict { IsSetUp
            (length_checks (length airs.now) (length trace_ext_degree_bits.now)
            (length lookup_budget_overrides.now)
            ++ table_setup_checks SC.Val.ring (cond SC.Pcs.ZK 1 0) log_blowup
            (SC.Pcs.commit_fault (SC.pcs_of config.now))
            (batch_sources A.declaration A.trees A.interactions airs.now) trace_ext_degree_bits.now
            lookup_budget_overrides.now (length airs.now)) result }
        ensures memory { IfErr result (λ e. e ≡ SetupError.OutOfMemory
            → (length trace_ext_degree_bits.now ≡ length airs.now)
            × (length lookup_budget_overrides.now ≡ length airs.now)) }
        ensures lookups { IfOk result (λ d. map read_all d.common.lookups
            ≡ tabulate (length airs.now)
            (packed_at SC.Val.ring (cond SC.Pcs.ZK 1 0)
            (batch_sources A.declaration A.trees A.interactions airs.now) trace_ext_degree_bits.now
            lookup_budget_overrides.now)) }
        ensures preprocessed { IfOk result (λ d. ArePrepared
            (λ es p. IsCommitment SC.Val.ring
            ⟦<<SC::Pcs as Pcs<SC::Challenge, SC::Challenger>>::Domain as PolynomialSpace>⟧.points
            ⟦<<SC::Pcs as Pcs<SC::Challenge, SC::Challenger>>::Domain as PolynomialSpace>⟧.point_at
            (SC.Pcs.commits (SC.pcs_of config.now))
            (SC.Pcs.made (SC.pcs_of config.now)) (SC.Pcs.holds (SC.pcs_of config.now)) es p)
            SC.Val.ring.one (batch_sources A.declaration A.trees A.interactions airs.now)
            trace_ext_degree_bits.now (length airs.now) d.common.preprocessed
            d.prover_only.preprocessed_prover_data) }
        ensures formed { IfOk result
            (λ d. WellFormed (map A.declaration airs.now) (read_common d.common)) }
        ensures chunks { IfOk result
            (λ d. KeepChunksWithin SC.Val.ring (cond SC.Pcs.ZK 1 0)
            (batch_sources A.declaration A.trees A.interactions airs.now)
            trace_ext_degree_bits.now lookup_budget_overrides.now
            (map read_all d.common.lookups)) }
    {
        check_lengths(airs, trace_ext_degree_bits, lookup_budget_overrides)?;
        let masks = config.is_zk();
        tables_data(
            alloc,
            config,
            airs,
            trace_ext_degree_bits,
            lookup_budget_overrides,
            masks,
            log_blowup,
        )
    }

    /// The same without budgets that are asked for (`ProverData::from_airs_and_degrees` of `p3-batch-stark`): each table's
    /// lookups are packed within its free budget, which keeps the number of its chunks (`chunks`). The conditions are the same, and so are
    /// the answers, of which `LookupBudget` never comes.
    pub fn from_airs_and_degrees<SC: StarkGenericConfig, A: Air<Val<SC>>>(
        alloc: Global,
        config: &SC,
        airs: &[A],
        trace_ext_degree_bits: &[usize],
    ) -> Result<ProverData<SC>, SetupError<PcsProverError<SC>>>
        requires bits { AreWithinBounds (SC.Pcs.log_min (SC.pcs_of config.now) + cond SC.Pcs.ZK 1 0)
            (SC.Pcs.log_max (SC.pcs_of config.now)) trace_ext_degree_bits.now }
        requires widths { HaveOneWidth (flat_map (λ a. lookups_of (A.interactions a)) airs.now) }
        ensures verdict { IsSetUp
            (degree_checks (length airs.now) (length trace_ext_degree_bits.now)
            ++ trace_checks SC.Val.ring.one (cond SC.Pcs.ZK 1 0)
            (SC.Pcs.commit_fault (SC.pcs_of config.now))
            (batch_sources A.declaration A.trees A.interactions airs.now) trace_ext_degree_bits.now
            (length airs.now)) result }
        ensures lookups { IfOk result (λ d. map read_all d.common.lookups
            ≡ tabulate (length airs.now)
            (packed_at SC.Val.ring (cond SC.Pcs.ZK 1 0)
            (batch_sources A.declaration A.trees A.interactions airs.now) trace_ext_degree_bits.now
            (replicate (length airs.now) 0))) }
        ensures preprocessed { IfOk result (λ d. ArePrepared
            (λ es p. IsCommitment SC.Val.ring
            ⟦<<SC::Pcs as Pcs<SC::Challenge, SC::Challenger>>::Domain as PolynomialSpace>⟧.points
            ⟦<<SC::Pcs as Pcs<SC::Challenge, SC::Challenger>>::Domain as PolynomialSpace>⟧.point_at
            (SC.Pcs.commits (SC.pcs_of config.now))
            (SC.Pcs.made (SC.pcs_of config.now)) (SC.Pcs.holds (SC.pcs_of config.now)) es p)
            SC.Val.ring.one (batch_sources A.declaration A.trees A.interactions airs.now)
            trace_ext_degree_bits.now (length airs.now) d.common.preprocessed
            d.prover_only.preprocessed_prover_data) }
        ensures formed { IfOk result
            (λ d. WellFormed (map A.declaration airs.now) (read_common d.common)) }
        ensures chunks { IfOk result
            (λ d. KeepChunks SC.Val.ring (cond SC.Pcs.ZK 1 0)
            (batch_sources A.declaration A.trees A.interactions airs.now)
            trace_ext_degree_bits.now (map read_all d.common.lookups)) }
    {
        let budgets = zeros(alloc, airs.len())?;
        Self::from_airs_and_degrees_with_lookup_budgets(
            alloc,
            config,
            airs,
            trace_ext_degree_bits,
            &budgets,
            usize::MAX,
        )
    }

    /// The same of instances (`ProverData::from_instances` of `p3-batch-stark`): of their AIRs in order, each with the degree
    /// bits of its trace, which are the logarithm of its height, and one more where the backend masks.
    ///
    /// Each trace's height is a power of two, the degree bits lie in the backend's bounds, and the tuples that the AIRs send on
    /// one bus have one width. The answers are those above, of which `LengthMismatch` and `LookupBudget` never come.
    pub fn from_instances<SC: StarkGenericConfig, A: Air<Val<SC>>>(
        alloc: Global,
        config: &SC,
        instances: &[StarkInstance<'_, SC, A>],
    ) -> Result<ProverData<SC>, SetupError<PcsProverError<SC>>>
        requires powers { ArePowers instances.now }
        requires bits { AreWithinBounds (SC.Pcs.log_min (SC.pcs_of config.now) + cond SC.Pcs.ZK 1 0)
            (SC.Pcs.log_max (SC.pcs_of config.now)) (bits_of (cond SC.Pcs.ZK 1 0) instances.now) }
        requires widths { HaveOneWidth
            (flat_map (λ a. lookups_of (A.interactions a)) (airs_of instances.now)) }
        ensures verdict { IsSetUp (trace_checks SC.Val.ring.one (cond SC.Pcs.ZK 1 0)
            (SC.Pcs.commit_fault (SC.pcs_of config.now))
            (batch_sources A.declaration A.trees A.interactions (airs_of instances.now))
            (bits_of (cond SC.Pcs.ZK 1 0) instances.now) (length (airs_of instances.now))) result }
        ensures lookups { IfOk result (λ d. map read_all d.common.lookups
            ≡ tabulate (length (airs_of instances.now))
            (packed_at SC.Val.ring (cond SC.Pcs.ZK 1 0)
            (batch_sources A.declaration A.trees A.interactions (airs_of instances.now))
            (bits_of (cond SC.Pcs.ZK 1 0) instances.now)
            (replicate (length (airs_of instances.now)) 0))) }
        ensures preprocessed { IfOk result (λ d. ArePrepared
            (λ es p. IsCommitment SC.Val.ring
            ⟦<<SC::Pcs as Pcs<SC::Challenge, SC::Challenger>>::Domain as PolynomialSpace>⟧.points
            ⟦<<SC::Pcs as Pcs<SC::Challenge, SC::Challenger>>::Domain as PolynomialSpace>⟧.point_at
            (SC.Pcs.commits (SC.pcs_of config.now))
            (SC.Pcs.made (SC.pcs_of config.now)) (SC.Pcs.holds (SC.pcs_of config.now)) es p)
            SC.Val.ring.one (batch_sources A.declaration A.trees A.interactions
            (airs_of instances.now)) (bits_of (cond SC.Pcs.ZK 1 0) instances.now)
            (length (airs_of instances.now)) d.common.preprocessed
            d.prover_only.preprocessed_prover_data) }
        ensures formed { IfOk result
            (λ d. WellFormed (map A.declaration (airs_of instances.now)) (read_common d.common)) }
        ensures chunks { IfOk result
            (λ d. KeepChunks SC.Val.ring (cond SC.Pcs.ZK 1 0)
            (batch_sources A.declaration A.trees A.interactions (airs_of instances.now))
            (bits_of (cond SC.Pcs.ZK 1 0) instances.now) (map read_all d.common.lookups)) }
    {
        let airs = lent_airs(alloc, instances)?;
        let bits = degree_bits(alloc, instances, config.is_zk())?;
        Self::from_airs_and_degrees(alloc, config, &airs, &bits)
    }
}
