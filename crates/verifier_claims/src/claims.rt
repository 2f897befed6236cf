//! What a batch proof claims of its commitments.
ghost use Rattle.std.specs.Prelude.{◌≡◌, ◌<◌, Some, None, map, length, IfErr, IfOk};
ghost use Rattle.std.specs.Prelude.{slice_index_or as get_or};
ghost use Rattle.p3_field.specs.Checks.{NoneFails};
ghost use Rattle.p3_field.specs.Poly.{tabulate};
ghost use Rattle.verifier_claims.specs.ClaimChecks.{AreSized, made_checks};
ghost use Rattle.verifier_claims.specs.Claims.{chunk_domains_at, claimed_of, claims, commitment_in, place_of_preprocessed, rounds_before};
ghost use Rattle.batch_statement.specs.Words.{bits_at};
ghost use Rattle.batch_config.specs.Domains.{chunk_domains};
ghost use Rattle.batch_config.specs.Setting.{masks};
ghost use Rattle.batch_statement.specs.Verdict.{IsVerdict};
ghost use Rattle.batch_statement.specs.Statement.{WellFormed, read_common};

use crate::claim_parts::{made, rounds_over};
use crate::preprocessed::matrices_in;
use air_core::BaseAir;
use batch_config::Settings;
use batch_statement::{
    BatchCommitments, BatchOpenedValues, BatchVerificationError, CommonData,
    OpenedValuesWithLookups, PreprocessedTraces, SharedData,
};
use commit_core::{CommitmentOpening, CosetPcs, Pcs, PolynomialSpace, UnivariateStarkPcs};
use p3_field::{
    BasedVectorSpace, ExtensionField, Field, FieldCore, Mem, PrimeCharacteristicRing, PrimeCore64,
    PrimeField64, RingCore, TwoAdicCore, TwoAdicField,
};
use p3_uni_stark::{Challenge, Challenger, Commitment, Domain, PcsError, StarkGenericConfig, Val};
use std::alloc::Global;

/// The claims of a proof, the domains of each table's chunks, and the place of the preprocessed round
/// (`OpeningArgumentWithQuotientDomains` of `p3-batch-stark`).
pub type OpeningArgumentWithQuotientDomains<SC> = (
    Vec<CommitmentOpening<Challenge<SC>, Commitment<SC>, Domain<SC>>>,
    Vec<Vec<Domain<SC>>>,
    Option<usize>,
);

// What is opened of each table.
fn instances_of<E>(opened: &BatchOpenedValues<E>) -> &[OpenedValuesWithLookups<E>]
    ensures { result.now ≡ opened.now }
{
    &opened.instances
}

// The preprocessed traces, where there are such.
fn traces_in<F, Com>(common: &SharedData<F, Com>) -> &Option<PreprocessedTraces<Com>>
    ensures { result.now ≡ common.now.preprocessed }
{
    &common.preprocessed
}

// A commitment like this one, where there is one.
fn copy_of<SC: StarkGenericConfig>(
    alloc: Global,
    config: &SC,
    commitment: &Option<Commitment<SC>>,
) -> Mem<Option<Commitment<SC>>>
    ensures { IfOk result (λ c. c ≡ commitment.now) }
{
    match commitment {
        None => Ok(None),
        Some(commitment) => {
            let copy = config.pcs().clone_commitment(alloc, commitment)?;
            Ok(Some(copy))
        }
    }
}

// Commitments like these.
fn copies_of<SC: StarkGenericConfig>(
    alloc: Global,
    config: &SC,
    commitments: &BatchCommitments<Commitment<SC>>,
) -> Mem<BatchCommitments<Commitment<SC>>>
    ensures { IfOk result (λ c. c ≡ commitments.now) }
{
    let main = config.pcs().clone_commitment(alloc, &commitments.main)?;
    let permutation = copy_of(alloc, config, &commitments.permutation)?;
    let quotient_chunks = config
        .pcs()
        .clone_commitment(alloc, &commitments.quotient_chunks)?;
    let random = copy_of(alloc, config, &commitments.random)?;
    Ok(BatchCommitments {
        main,
        permutation,
        quotient_chunks,
        random,
    })
}

// A commitment like that to preprocessed columns, where there is one.
fn preprocessed_copy<SC: StarkGenericConfig>(
    alloc: Global,
    config: &SC,
    preprocessed: &Option<PreprocessedTraces<Commitment<SC>>>,
) -> Mem<Option<Commitment<SC>>>
    ensures { IfOk result (λ c. c ≡ commitment_in preprocessed.now) }
{
    match preprocessed {
        None => Ok(None),
        Some(traces) => {
            let copy = config.pcs().clone_commitment(alloc, &traces.commitment)?;
            Ok(Some(copy))
        }
    }
}

// How many rounds stand before the preprocessed one.
fn count_before<Com>(random: &Option<Com>) -> usize
    ensures { result ≡ rounds_before random.now }
{
    match random {
        None => 2,
        Some(_) => 3,
    }
}

// The place of the preprocessed round.
fn place_of<Com>(
    commitments: &BatchCommitments<Com>,
    preprocessed: &Option<PreprocessedTraces<Com>>,
) -> Option<usize>
    ensures { result ≡ place_of_preprocessed commitments.now preprocessed.now }
{
    match preprocessed {
        None => None,
        Some(_) => Some(count_before(&commitments.random)),
    }
}

// The checks, which give the domains of all chunks.
fn made_at<SC: StarkGenericConfig, A: BaseAir<Val<SC>>>(
    alloc: Global,
    config: &SC,
    airs: &[A],
    commitments: &BatchCommitments<Commitment<SC>>,
    opened_values: &BatchOpenedValues<Challenge<SC>>,
    common: &CommonData<SC>,
    degree_bits: &[usize],
    preprocessed_widths: &[usize],
    log_num_quotient_chunks: &[usize],
) -> Result<Vec<Vec<Domain<SC>>>, BatchVerificationError<PcsError<SC>>>
    requires { WellFormed (map A.declaration airs.now) (read_common common.now) }
    ensures verdict { let claimed = claimed_of A.declaration airs.now common.now.preprocessed
        commitments.now opened_values.now degree_bits.now log_num_quotient_chunks.now in
        IsVerdict (made_checks (⟦<SC as Settings>⟧.setting config.now) claimed
        preprocessed_widths.now) result }
    ensures memory { let claimed = claimed_of A.declaration airs.now common.now.preprocessed
        commitments.now opened_values.now degree_bits.now log_num_quotient_chunks.now in
        IfErr result (λ e. e ≡ BatchVerificationError.OutOfMemory
        → NoneFails (made_checks {R = SC.Pcs.Error} (⟦<SC as Settings>⟧.setting config.now) claimed
        preprocessed_widths.now)) }
    ensures domains { IfOk result (λ v. map (λ d. d.items) v.items
        ≡ tabulate (length airs.now)
        (chunk_domains_at SC.Val.ring SC.Val.root SC.Val.GENERATOR
        (masks (⟦<SC as Settings>⟧.setting config.now)) degree_bits.now
        log_num_quotient_chunks.now)) }
    ensures sized { IfOk result
        (λ v. AreSized (masks (⟦<SC as Settings>⟧.setting config.now)) SC.Val.TWO_ADICITY
        (length airs.now) degree_bits.now opened_values.now (map (λ d. d.items) v.items)) }
{
    let pcs = config.pcs();
    let masks = config.is_zk();
    let least = pcs.log_min_trace_height() + masks;
    let preprocessed = traces_in(common);
    made(
        alloc,
        airs,
        commitments,
        instances_of(opened_values),
        preprocessed,
        degree_bits,
        preprocessed_widths,
        log_num_quotient_chunks,
        masks,
        least,
        pcs.log_max_trace_height(),
    )
}

/// The claims of a batch proof, round by round, with the domains of each table's quotient chunks and the place of the
/// preprocessed round (`commitments_with_opening_points` of Plonky3's `p3-batch-stark`).
///
/// Up to five rounds, in this order: what is random, the main columns, the quotients' chunks, the preprocessed columns, the
/// permutation columns. A round is there where its commitment is. It has a matrix for each AIR, in the AIRs' order; the
/// chunks' round has each table's chunks one after another, the preprocessed round has a matrix for each committed one, and
/// the permutation round leaves out a table whose current row has no value. A matrix has its values at `zeta`, and at
/// the next point where next columns are declared and for permutation columns. The domains are, for each AIR, those of its
/// 2^(log chunks + masks) chunks. The place is 2, or 3 after a random commitment, and None where nothing is preprocessed.
///
/// Refused, the first in this order: `InstanceCountMismatch` where a list or the preprocessed entries haven't one item for
/// each AIR; per table `DegreeBitsTooSmall`, `DegreeBitsTooLarge`; `RandomizationError` where there is a random commitment
/// and a table's random opening is absent; `TraceNextMismatch` where a declared next row is absent; per table
/// `QuotientDomainTooLarge`; `QuotientDomainsCountMismatch` where other than 2^(log chunks + masks) chunks are opened; per
/// preprocessed matrix `PreprocessedMetadataMismatch` at width 0, `MissingPreprocessedValues` where no current row is opened,
/// `PreprocessedMetadataMismatch` where it was committed for other degree bits, `MissingPreprocessedValues` where a declared
/// next row is absent; `PermutationLengthMismatch` where permutation columns are committed to and a table's two rows differ
/// in length. Out of memory comes only where none of these does.
///
/// The checks allocate nothing. After all of them the domains are made, and each claimed row and each commitment is copied
/// once. The common data is well-formed for the AIRs.
pub fn commitments_with_opening_points<SC: StarkGenericConfig, A: BaseAir<Val<SC>>>(
    alloc: Global,
    config: &SC,
    airs: &[A],
    zeta: Challenge<SC>,
    commitments: &BatchCommitments<Commitment<SC>>,
    opened_values: &BatchOpenedValues<Challenge<SC>>,
    common: &CommonData<SC>,
    degree_bits: &[usize],
    preprocessed_widths: &[usize],
    log_num_quotient_chunks: &[usize],
) -> Result<OpeningArgumentWithQuotientDomains<SC>, BatchVerificationError<PcsError<SC>>>
    requires { WellFormed (map A.declaration airs.now) (read_common common.now) }
    ensures verdict { let claimed = claimed_of A.declaration airs.now common.now.preprocessed
        commitments.now opened_values.now degree_bits.now log_num_quotient_chunks.now in
        IsVerdict (made_checks (⟦<SC as Settings>⟧.setting config.now) claimed
        preprocessed_widths.now) result }
    ensures memory { let claimed = claimed_of A.declaration airs.now common.now.preprocessed
        commitments.now opened_values.now degree_bits.now log_num_quotient_chunks.now in
        IfErr result (λ e. e ≡ BatchVerificationError.OutOfMemory
        → NoneFails (made_checks {R = SC.Pcs.Error} (⟦<SC as Settings>⟧.setting config.now) claimed
        preprocessed_widths.now)) }
    ensures claims { let claimed = claimed_of A.declaration airs.now common.now.preprocessed
        commitments.now opened_values.now degree_bits.now log_num_quotient_chunks.now in
        IfOk result (λ answer. answer.0.items
        ≡ claims (⟦<SC as Settings>⟧.setting config.now) claimed zeta) }
    ensures domains { IfOk result (λ answer. map (λ chunks. chunks.items) answer.1.items
        ≡ tabulate (length airs.now)
        (λ i. chunk_domains (⟦<SC as Settings>⟧.setting config.now) (bits_at degree_bits.now i)
        (get_or log_num_quotient_chunks.now i 0))) }
    ensures place { IfOk result
        (λ answer. answer.2 ≡ place_of_preprocessed commitments.now common.now.preprocessed) }
{
    let domains = made_at(
        alloc,
        config,
        airs,
        commitments,
        opened_values,
        common,
        degree_bits,
        preprocessed_widths,
        log_num_quotient_chunks,
    )?;
    let preprocessed = traces_in(common);
    let copies = copies_of(alloc, config, commitments)?;
    let shared = preprocessed_copy(alloc, config, preprocessed)?;
    let claims = rounds_over(
        alloc,
        copies,
        shared,
        zeta,
        config.is_zk(),
        airs,
        &domains,
        degree_bits,
        instances_of(opened_values),
        matrices_in(preprocessed),
    )?;
    Ok((claims, domains, place_of(commitments, preprocessed)))
}
