//! All checks of the call that makes a batch's claims, and all rounds.
ghost use Rattle.std.specs.Prelude.{◌≡◌, ℕ, ◌+◌, ◌<◌, ◌≤◌, ◌++◌, [], All, Some, length, map, IfErr, IfOk};
ghost use Rattle.std.specs.Prelude.{slice_index_or as get_or};
ghost use Rattle.std.specs.List.{flat_map};
ghost use Rattle.p3_field.specs.Checks.{NoneFails};
ghost use Rattle.p3_field.specs.Poly.{tabulate};
ghost use Rattle.verifier_claims.specs.ClaimChecks.{AreSized, first_made, made_by};
ghost use Rattle.verifier_claims.specs.Claims.{chunk_claims, chunk_domains_at, claimed_of, claims_by, main_claim, preprocessed_matrix_claim, matrix_tables, permutation_claims, random_claim, claims_of_round};
ghost use Rattle.batch_statement.specs.Words.{bits_at, instance_at};
ghost use Rattle.batch_config.specs.Domains.{next_by};
ghost use Rattle.batch_statement.specs.Verdict.{IsDecided, IsVerdict};

use crate::claim_checks::{
    all_bits, all_counts, all_matrices, all_next, listed, random_where, rows_where,
};
use crate::claim_rounds::{
    all_chunk_claims, all_matrix_claims, all_permutation_claims, main_claims, random_claims,
};
use crate::domains::{all_domains, all_sizes};
use air_core::BaseAir;
use batch_statement::{
    BatchCommitments, BatchVerificationError, OpenedValuesWithLookups, PreprocessedTraces,
};
use commit_core::{CommitmentOpening, MatrixOpening};
use p3_field::{
    BasedVectorSpace, ExtensionField, Field, FieldCore, Mem, PrimeCharacteristicRing, RingCore,
    TwoAdicCore, TwoAdicField, TwoAdicMultiplicativeCoset,
};
use std::alloc::Global;

// The checks before any domain is made.
fn first_checks<F: FieldCore, A: BaseAir<F>, E, Com, R>(
    airs: &[A],
    commitments: &BatchCommitments<Com>,
    instances: &[OpenedValuesWithLookups<E>],
    preprocessed: &Option<PreprocessedTraces<Com>>,
    degree_bits: &[usize],
    widths: &[usize],
    log_chunks: &[usize],
    least: usize,
    most: usize,
) -> Result<(), BatchVerificationError<R>>
    ensures { IsDecided (first_made least most
        (claimed_of A.declaration airs.now preprocessed.now commitments.now instances.now
        degree_bits.now log_chunks.now) widths.now) result }
{
    let tables = airs.len();
    let opened = instances.len();
    let bits = degree_bits.len();
    let columns = widths.len();
    let chunks = log_chunks.len();
    listed(tables, preprocessed, opened, bits, columns, chunks)?;
    all_bits(degree_bits, least, most)?;
    random_where(&commitments.random, instances)?;
    all_next(airs, instances)
}

// All checks of the call that makes a batch's claims, before anything is made.
fn all_checks<F: TwoAdicField, A: BaseAir<F>, E, Com, R>(
    airs: &[A],
    commitments: &BatchCommitments<Com>,
    instances: &[OpenedValuesWithLookups<E>],
    preprocessed: &Option<PreprocessedTraces<Com>>,
    degree_bits: &[usize],
    widths: &[usize],
    log_chunks: &[usize],
    masks: usize,
    least: usize,
    most: usize,
) -> Result<(), BatchVerificationError<R>>
    requires { All (λ i. i < length airs.now) (matrix_tables preprocessed.now) }
    ensures { IsDecided (made_by masks least most F.TWO_ADICITY
        (claimed_of A.declaration airs.now preprocessed.now commitments.now instances.now
        degree_bits.now log_chunks.now) widths.now) result }
{
    first_checks(
        airs,
        commitments,
        instances,
        preprocessed,
        degree_bits,
        widths,
        log_chunks,
        least,
        most,
    )?;
    all_sizes::<F, R>(degree_bits, log_chunks, masks, most)?;
    all_counts(log_chunks, masks, instances)?;
    all_matrices(airs, preprocessed, degree_bits, widths, instances)?;
    rows_where(&commitments.permutation, instances)
}

// All checks of the call that makes a batch's claims, and then the domains of all chunks.
pub(crate) fn made<F: TwoAdicField, A: BaseAir<F>, E, Com, R>(
    alloc: Global,
    airs: &[A],
    commitments: &BatchCommitments<Com>,
    instances: &[OpenedValuesWithLookups<E>],
    preprocessed: &Option<PreprocessedTraces<Com>>,
    degree_bits: &[usize],
    widths: &[usize],
    log_chunks: &[usize],
    masks: usize,
    least: usize,
    most: usize,
) -> Result<Vec<Vec<TwoAdicMultiplicativeCoset<F>>>, BatchVerificationError<R>>
    requires masked { masks ≤ least }
    requires fits { most ≤ F.TWO_ADICITY }
    requires listed { All (λ i. i < length airs.now) (matrix_tables preprocessed.now) }
    ensures verdict { IsVerdict (made_by masks least most F.TWO_ADICITY
        (claimed_of A.declaration airs.now preprocessed.now commitments.now instances.now
        degree_bits.now log_chunks.now) widths.now) result }
    ensures memory { IfErr result (λ e. e ≡ BatchVerificationError.OutOfMemory
        → NoneFails (made_by {R = R} masks least most F.TWO_ADICITY
        (claimed_of A.declaration airs.now preprocessed.now commitments.now instances.now
        degree_bits.now log_chunks.now) widths.now)) }
    ensures domains { IfOk result
        (λ v. map (λ d. d.items) v.items
        ≡ tabulate (length airs.now)
        (chunk_domains_at F.ring F.root F.GENERATOR masks degree_bits.now log_chunks.now)) }
    ensures sized { IfOk result
        (λ v. AreSized masks F.TWO_ADICITY (length airs.now) degree_bits.now instances.now
        (map (λ d. d.items) v.items)) }
{
    all_checks::<F, A, E, Com, R>(
        airs,
        commitments,
        instances,
        preprocessed,
        degree_bits,
        widths,
        log_chunks,
        masks,
        least,
        most,
    )?;
    let domains = all_domains(alloc, degree_bits, log_chunks, masks)?;
    Ok(domains)
}

// The claims on a commitment, after others.
fn with_round<D, E, Com>(
    alloc: Global,
    made: Vec<CommitmentOpening<E, Com, D>>,
    commitment: Com,
    matrices: Vec<MatrixOpening<E, D>>,
) -> Mem<Vec<CommitmentOpening<E, Com, D>>>
where
    D: Drop,
    E: Drop,
    Com: Drop,
    ensures { IfOk result (λ v.
        v.items ≡ made.items ++ claims_of_round (Some commitment) matrices.items) }
{
    let mut claims = made;
    claims.push(CommitmentOpening {
        commitment,
        matrices,
    })?;
    Ok(claims)
}

// The claims on the random commitment, where there is one.
fn random_round<F: TwoAdicField, E: RingCore, Com: Drop>(
    alloc: Global,
    commitment: Option<Com>,
    zeta: E,
    degree_bits: &[usize],
    instances: &[OpenedValuesWithLookups<E>],
) -> Mem<Vec<CommitmentOpening<E, Com, TwoAdicMultiplicativeCoset<F>>>>
    requires instances { length instances.now ≡ length degree_bits.now }
    requires fits { (i : ℕ) → i < length degree_bits.now
        → bits_at degree_bits.now i ≤ F.TWO_ADICITY }
    ensures { IfOk result (λ v.
        v.items ≡ claims_of_round commitment
        (tabulate (length degree_bits.now)
        (random_claim F.ring zeta degree_bits.now instances.now))) }
{
    match commitment {
        None => Ok(Vec::new(alloc)),
        Some(commitment) => {
            let matrices = random_claims(alloc, zeta, degree_bits, instances)?;
            with_round(alloc, Vec::new(alloc), commitment, matrices)
        }
    }
}

// The claims on the commitment to preprocessed columns, where there is one, after others.
fn with_preprocessed_round<F: TwoAdicField, A: BaseAir<F>, E: ExtensionField<F>, Com: Drop>(
    alloc: Global,
    made: Vec<CommitmentOpening<E, Com, TwoAdicMultiplicativeCoset<F>>>,
    commitment: Option<Com>,
    zeta: E,
    masks: usize,
    airs: &[A],
    degree_bits: &[usize],
    instances: &[OpenedValuesWithLookups<E>],
    matrices: &[usize],
) -> Mem<Vec<CommitmentOpening<E, Com, TwoAdicMultiplicativeCoset<F>>>>
    requires listed { All (λ i. i < length airs.now) matrices.now }
    requires bits { length degree_bits.now ≡ length airs.now }
    requires instances { length instances.now ≡ length airs.now }
    requires masked { (i : ℕ) → i < length airs.now → masks ≤ bits_at degree_bits.now i }
    requires fits { (i : ℕ) → i < length airs.now → bits_at degree_bits.now i ≤ F.TWO_ADICITY }
    ensures { IfOk result (λ v. v.items
        ≡ made.items ++ claims_of_round commitment
        (tabulate (length matrices.now)
        (preprocessed_matrix_claim F.ring zeta (next_by E.ring E.embed F.root masks zeta)
        (map A.declaration airs.now) degree_bits.now instances.now matrices.now))) }
{
    match commitment {
        None => Ok(made),
        Some(commitment) => {
            let matrices = all_matrix_claims(
                alloc,
                zeta,
                masks,
                airs,
                degree_bits,
                instances,
                matrices,
            )?;
            with_round(alloc, made, commitment, matrices)
        }
    }
}

// The claims on the commitment to permutation columns, where there is one, after others.
fn with_permutation_round<F: TwoAdicField, E: ExtensionField<F>, Com: Drop>(
    alloc: Global,
    made: Vec<CommitmentOpening<E, Com, TwoAdicMultiplicativeCoset<F>>>,
    commitment: Option<Com>,
    zeta: E,
    masks: usize,
    degree_bits: &[usize],
    instances: &[OpenedValuesWithLookups<E>],
) -> Mem<Vec<CommitmentOpening<E, Com, TwoAdicMultiplicativeCoset<F>>>>
    requires instances { length instances.now ≡ length degree_bits.now }
    requires masked { (i : ℕ) → i < length degree_bits.now → masks ≤ bits_at degree_bits.now i }
    requires fits { (i : ℕ) → i < length degree_bits.now
        → bits_at degree_bits.now i ≤ F.TWO_ADICITY }
    ensures { IfOk result (λ v. v.items
        ≡ made.items ++ claims_of_round commitment
        (flat_map (permutation_claims F.ring zeta (next_by E.ring E.embed F.root masks zeta)
        degree_bits.now instances.now) (tabulate (length degree_bits.now) (λ i. i)))) }
{
    match commitment {
        None => Ok(made),
        Some(commitment) => {
            let matrices = all_permutation_claims(alloc, zeta, masks, degree_bits, instances)?;
            with_round(alloc, made, commitment, matrices)
        }
    }
}

// All claims, round by round.
fn rounds<F: TwoAdicField, A: BaseAir<F>, E: ExtensionField<F>, Com: Drop>(
    alloc: Global,
    commitments: BatchCommitments<Com>,
    preprocessed: Option<Com>,
    zeta: E,
    masks: usize,
    airs: &[A],
    domains: &[Vec<TwoAdicMultiplicativeCoset<F>>],
    degree_bits: &[usize],
    instances: &[OpenedValuesWithLookups<E>],
    matrices: &[usize],
) -> Mem<Vec<CommitmentOpening<E, Com, TwoAdicMultiplicativeCoset<F>>>>
    requires listed { All (λ i. i < length airs.now) matrices.now }
    requires domains { length domains.now ≡ length airs.now }
    requires bits { length degree_bits.now ≡ length airs.now }
    requires instances { length instances.now ≡ length airs.now }
    requires masked { (i : ℕ) → i < length airs.now → masks ≤ bits_at degree_bits.now i }
    requires fits { (i : ℕ) → i < length airs.now → bits_at degree_bits.now i ≤ F.TWO_ADICITY }
    requires count { (i : ℕ) → i < length airs.now
        → length (instance_at instances.now i).base.quotient_chunks
        ≡ length (get_or (map (λ v. v.items) domains.now) i []) }
    requires chunks { (i : ℕ) → i < length airs.now
        → All (λ d. d.log_size + masks ≤ F.TWO_ADICITY)
        (get_or (map (λ v. v.items) domains.now) i []) }
    ensures { IfOk result (λ v. v.items
        ≡ claims_by F.ring zeta (next_by E.ring E.embed F.root masks zeta) masks
        (map (λ v. v.items) domains.now)
        (map A.declaration airs.now) commitments preprocessed matrices.now degree_bits.now
        instances.now) }
{
    let BatchCommitments {
        main,
        permutation,
        quotient_chunks,
        random,
    } = commitments;
    let first = random_round(alloc, random, zeta, degree_bits, instances)?;
    let mains = main_claims(alloc, zeta, masks, airs, degree_bits, instances)?;
    let second = with_round(alloc, first, main, mains)?;
    let chunks = all_chunk_claims(alloc, zeta, masks, domains, instances)?;
    let third = with_round(alloc, second, quotient_chunks, chunks)?;
    let fourth = with_preprocessed_round(
        alloc,
        third,
        preprocessed,
        zeta,
        masks,
        airs,
        degree_bits,
        instances,
        matrices,
    )?;
    let fifth = with_permutation_round(
        alloc,
        fourth,
        permutation,
        zeta,
        masks,
        degree_bits,
        instances,
    )?;
    Ok(fifth)
}

// All claims, round by round, of lists that the checks let through.
pub(crate) fn rounds_over<F: TwoAdicField, A: BaseAir<F>, E: ExtensionField<F>, Com: Drop>(
    alloc: Global,
    commitments: BatchCommitments<Com>,
    preprocessed: Option<Com>,
    zeta: E,
    masks: usize,
    airs: &[A],
    domains: &[Vec<TwoAdicMultiplicativeCoset<F>>],
    degree_bits: &[usize],
    instances: &[OpenedValuesWithLookups<E>],
    matrices: &[usize],
) -> Mem<Vec<CommitmentOpening<E, Com, TwoAdicMultiplicativeCoset<F>>>>
    requires listed { All (λ i. i < length airs.now) matrices.now }
    requires sized { AreSized masks F.TWO_ADICITY (length airs.now) degree_bits.now instances.now
        (map (λ v. v.items) domains.now) }
    ensures { IfOk result (λ v. v.items
        ≡ claims_by F.ring zeta (next_by E.ring E.embed F.root masks zeta) masks
        (map (λ v. v.items) domains.now)
        (map A.declaration airs.now) commitments preprocessed matrices.now degree_bits.now
        instances.now) }
{
    rounds(
        alloc,
        commitments,
        preprocessed,
        zeta,
        masks,
        airs,
        domains,
        degree_bits,
        instances,
        matrices,
    )
}
