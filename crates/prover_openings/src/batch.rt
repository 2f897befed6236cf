//! The openings of a batch, as its prover makes them.
ghost use Rattle.std.specs.Prelude.{◌≡◌, false, IfOk, option_map};
ghost use Rattle.prover_answer.specs.Batch.{HasProverData, IsTracedAll, preprocessed_all};
ghost use Rattle.prover_answer.specs.Verdict.{IsProverVerdict};
ghost use Rattle.prover_openings.specs.Asked.{kept_of};
ghost use Rattle.prover_openings.specs.Check.{AreOpenedAll, IsLeftAfter, IsProofOfAsked, IsReady, IsTakenForAll, KeepsState, opening_request_checks};

use crate::counts::all_counts;
use crate::openings::open_counted;
use crate::requests::lookups_of;
use air_core::{Air, BaseAir};
use batch_setup::{Committed, StarkInstance, degree_bits};
use batch_statement::{CommonData, OpenedValuesWithLookups};
use commit_core::{CosetPcs, Pcs, PolynomialSpace, UnivariateStarkPcs};
use p3_field::{
    BasedVectorSpace, ExtensionField, Field, FieldCore, PrimeCharacteristicRing, PrimeCore64,
    PrimeField64, RingCore, TwoAdicCore, TwoAdicField,
};
use p3_uni_stark::{Challenge, Challenger, PcsProof, PcsProverError, StarkGenericConfig, Val};
use prover_answer::{Batches, ProverSettings, ProvingError};
use std::alloc::Global;

/// Opens what a batch's prover committed to: each main, preprocessed and permutation matrix at `zeta`, and at the next point
/// where next columns are declared (a permutation matrix always), and each chunk of a quotient at `zeta`. The answer is what is
/// opened of each table, in order, and the backend's proof. After `prove_batch` of `p3-batch-stark`.
///
/// The batch is traced, and the backend masks nothing. The prover data is the prover data of the batch's commitments: to
/// the preprocessed traces, to the traces, to the permutation columns, and to the quotients' chunks. `zeta` and the
/// challenger's state are those of the batch's script.
///
/// What is opened is what an honest proof opens (`opened`); the proof is what the backend gives for the requests that an honest
/// prover makes (`proves`), and is taken for the claims of the honest proof, unless a point is excluded (`taken`). The challenger is
/// left where the backend leaves it after these requests (`after`); an error but out of memory leaves it as it was (`unchanged`).
///
/// `Pcs` comes exactly where the backend refuses these requests, with the phase `Opening`; the only other error is running out
/// of memory. No opened value is copied.
pub fn open_batch<SC: StarkGenericConfig, A: Air<Val<SC>>>(
    alloc: Global,
    config: &SC,
    instances: &[StarkInstance<'_, SC, A>],
    common: &CommonData<SC>,
    preprocessed: Option<&Committed<SC>>,
    main: &Committed<SC>,
    permutation: Option<&Committed<SC>>,
    quotient: &Committed<SC>,
    zeta: Challenge<SC>,
    challenger: &mut Challenger<SC>,
) -> Result<
    (Vec<OpenedValuesWithLookups<Challenge<SC>>>, PcsProof<SC>),
    ProvingError<PcsProverError<SC>>,
>
    requires plain { SC.Pcs.ZK ≡ false }
    requires traced { let b = ⟦<SC as Batches<A>>⟧.batch config.now instances.now common.now in
        IsTracedAll b }
    requires preprocessed { let b = ⟦<SC as Batches<A>>⟧.batch config.now instances.now
        common.now in
        HasProverData (⟦<SC as ProverSettings>⟧.commits_to config.now) (preprocessed_all b)
        b.statement.common.preprocessed (option_map (λ d. d.now) preprocessed) }
    requires ready { let b = ⟦<SC as Batches<A>>⟧.batch config.now instances.now common.now in
        let k = ⟦<SC as ProverSettings>⟧.prover_backend config.now in
        IsReady k b (kept_of main.now quotient.now preprocessed permutation)
        (⟦<SC as ProverSettings>⟧.commits_to config.now) zeta challenger.old }
    ensures verdict { let b = ⟦<SC as Batches<A>>⟧.batch config.now instances.now common.now in
        let k = ⟦<SC as ProverSettings>⟧.prover_backend config.now in
        IsProverVerdict (opening_request_checks k b
        (kept_of main.now quotient.now preprocessed.entry permutation.entry)) result }
    ensures opened { let b = ⟦<SC as Batches<A>>⟧.batch config.now instances.now common.now in
        IfOk result (λ r. AreOpenedAll b r.0.items) }
    ensures proves { let b = ⟦<SC as Batches<A>>⟧.batch config.now instances.now common.now in
        let k = ⟦<SC as ProverSettings>⟧.prover_backend config.now in
        IfOk result (λ r. IsProofOfAsked k b
        (kept_of main.now quotient.now preprocessed.entry permutation.entry)
        (SC.Pcs.proves (SC.pcs_of config.now)) r.1) }
    ensures unchanged { KeepsState result challenger.new challenger.old }
    ensures after { let b = ⟦<SC as Batches<A>>⟧.batch config.now instances.now common.now in
        IfOk result (λ r. IsLeftAfter b
        (kept_of main.now quotient.now preprocessed.entry permutation.entry)
        (SC.Pcs.after_open (SC.pcs_of config.now)) challenger.new r.1) }
    ensures taken { let b = ⟦<SC as Batches<A>>⟧.batch config.now instances.now common.now in
        let k = ⟦<SC as ProverSettings>⟧.prover_backend config.now in
        IfOk result (λ r. IsTakenForAll k b (SC.Pcs.opens (SC.pcs_of config.now)) r.1) }
{
    let bits = degree_bits(alloc, instances, config.is_zk())?;
    let counts = all_counts(alloc, instances, lookups_of(common))?;
    open_counted(
        alloc,
        config,
        instances,
        common,
        preprocessed,
        main,
        permutation,
        quotient,
        &bits,
        &counts,
        zeta,
        challenger,
    )
}
