//! The plain scheme over a field and a transform.
ghost use Rattle.std.specs.Prelude.{◌≡◌, refl, ℕ, ◌^◌, ◌-◌, ◌+◌, ◌*◌, ◌/◌, ◌<◌, ◌≤◌, true, false, List, All, MatchOption, Some, IfOk, IsOk, length, map, slice_get};
ghost use Rattle.std.specs.Int.{IsPowerOfTwo};
ghost use Rattle.p3_field.specs.Domain.{CosetData, coset_point, point, IsInterpolant};
ghost use Rattle.p3_matrix.specs.Matrix.{Rows, height, column};
ghost use Rattle.commit_core.specs.Space.{EachOf};
ghost use Rattle.commit_core.specs.Periodic.{IsGreatest, IsPeriod, IsPeriodicTable};
ghost use Rattle.commit_core.specs.Failure.{RefusedBy, IfRefused, VerifiedBy, NoneOf};
ghost use Rattle.commit_core.specs.Commitments.{IsSubgroup, Committed, IsCommitment, IsEvaluated, OpenedCommitment, AreOpenedCommitments, nested, IsOpening, AreExtensions};
ghost use Rattle.plain_pcs.specs.Scheme.{Blowup, scheme, PlainCommitmentData};
ghost use Rattle.plain_pcs.specs.Extension.{commitment_of, Extends};
ghost use Rattle.plain_pcs.specs.Checks.{Opens, Fault};
ghost use Rattle.plain_pcs.specs.Holding.{IsMade, AreHolding};
ghost use Rattle.plain_pcs.specs.Refusals.{CommitFault, HasSubgroupHeight, ExtensionsFault, QuotientFault, OpenFault, IfOutOfMemory};
ghost use Rattle.plain_pcs.specs.Laws.Scheme.{held_count, none_below_zero, not_hidden, difference_fits};
ghost use Rattle.plain_pcs.specs.Laws.Quotients.{refused_by_parts, granted_by_parts};
ghost use Rattle.plain_pcs.specs.Laws.Checks.{opens_faultless as faultless_where_opens, some_fault as fault_where_not, one_fault as first_fault_is_one};
ghost use Rattle.plain_pcs.specs.Laws.Causes.{one_commit_cause, one_extensions_cause, one_quotient_cause, one_open_cause};
ghost use Rattle.plain_pcs.specs.Laws.Alike.{opened_alike as asked_alike, extended_alike as extensions_alike};

use crate::commitment::{PlainCommitment, PlainProof, PlainProverData};
use crate::committing::{commit, commit_extensions, committed, extensions};
use crate::error::{PlainError, PlainProverError};
use crate::evaluating::{evaluations_on_domain, periodic_table};
use crate::opening::open;
use crate::verifying::first_fault;
use commit_core::{
    CommitmentOpening, CosetPcs, OpenedValues, OpeningRequest, Pcs, PcsFailure, PeriodicLdeTable,
    UnivariateStarkPcs,
};
use p3_dft::TwoAdicSubgroupDft;
use p3_field::{
    ExtensionField, FieldCore, Mem, RingCore, TwoAdicCore, TwoAdicField, TwoAdicMultiplicativeCoset,
};
use p3_matrix::{RowMajorMatrix, log2_strict_usize};
use std::alloc::Global;
use std::marker::{Model, PhantomData};

/// The plain scheme over the field `F`, with the transform `D` (not in Plonky3). Extensions are 2^`log_blowup` times as
/// large as their columns' domain. A contract sees the scheme as its `log_blowup` alone: which transform runs makes no
/// difference to an answer.
#[derive(Drop)]
pub struct PlainPcs<F: TwoAdicCore, D> {
    dft: D,
    log_blowup: usize,
    field: PhantomData<F>,
}

impl<F: TwoAdicCore, D> Model for PlainPcs<F, D> {
    ghost Value = { Blowup };

    ghost view = { λ p. record { log_blowup = p.log_blowup } };

    ghost invariant = { λ p. p.log_blowup ≤ F.TWO_ADICITY };
}

impl<F: TwoAdicField, D: TwoAdicSubgroupDft<F> + Drop> PlainPcs<F, D> {
    /// The scheme with this transform and this logarithm to base 2 of the blowup; None exactly where the logarithm is above
    /// the field's two-adicity.
    pub fn new(dft: D, log_blowup: usize) -> Option<Self>
        ensures { MatchOption result (F.TWO_ADICITY < log_blowup)
            (λ p. (p ≡ record { log_blowup = log_blowup }) × (log_blowup ≤ F.TWO_ADICITY)) }
    {
        if log_blowup > F::TWO_ADICITY {
            None
        } else {
            Some(PlainPcs {
                dft,
                log_blowup,
                field: PhantomData,
            })
        }
    }
}

impl<F: TwoAdicField, D> PlainPcs<F, D> {
    /// Does nothing, and tells the caller's proof what every scheme meets, which a proof can't read from the type alone: the
    /// logarithm of the blowup is at most the field's two-adicity.
    pub fn valid(&self)
        ensures { self.now.log_blowup ≤ F.TWO_ADICITY }
    {
        let _ = &self.log_blowup;
    }

    /// Per column of the matrix of this number in a commitment the coefficients, lowest first and as many as rows, of its
    /// interpolant on the coset with shift GENERATOR and a point for each row. The matrix must exist, and its height be a
    /// power of two up to 2^`TWO_ADICITY`.
    pub fn committed(
        &self,
        alloc: Global,
        commitment: &PlainCommitment<F>,
        matrix: usize,
    ) -> Mem<Vec<Vec<F>>>
        requires exists { matrix < length commitment.now.matrices }
        requires height { (m : Rows F) → slice_get commitment.now.matrices matrix ≡ Some m
            → HasSubgroupHeight F.TWO_ADICITY m }
        ensures { IfOk result (λ v. (m : Rows F) (k : ℕ)
            → slice_get commitment.now.matrices matrix ≡ Some m → height m ≡ 2 ^ k
            → EachOf m.width v.items
            (λ j f. IsInterpolant F.ring (coset_point F.ring F.GENERATOR (F.root k))
            (column F.ring.zero m j) f.items)) }
    {
        committed(alloc, commitment, matrix)
    }
}

// The subgroup of size 2^`log_size`.
#[tactic(auto, using(crate::specs::Laws::Scheme::is_subgroup, p3_matrix::specs::Laws::Powers::power_le_cancel))]
fn subgroup<F: TwoAdicField>(log_size: usize) -> TwoAdicMultiplicativeCoset<F>
    requires { log_size ≤ F.TWO_ADICITY }
    ensures { result ≡ record { shift = F.ring.one; log_size = log_size } }
{
    match TwoAdicMultiplicativeCoset::new(F::ONE, log_size) {
        Some(domain) => domain,
        None => unreachable!(),
    }
}

impl<F: TwoAdicField, D: TwoAdicSubgroupDft<F>, E: ExtensionField<F>, C> Pcs<E, C>
    for PlainPcs<F, D> {
    type Val = F;

    type Domain = TwoAdicMultiplicativeCoset<F>;

    type Commitment = PlainCommitment<F>;

    type ProverData = PlainProverData<F>;

    type Proof = PlainProof;

    type Error = PlainError;

    type ProverError = PlainProverError;

    ghost commit_fault = { λ s es e.
        CommitFault (scheme F.ring F.inv F.root F.GENERATOR F.TWO_ADICITY s) es e };

    ghost commits = { λ s es c.
        c ≡ commitment_of (scheme F.ring F.inv F.root F.GENERATOR F.TWO_ADICITY s) es };

    ghost made = { λ s d. IsMade d };

    ghost matrix_count = { λ s d. length d };

    ghost holds = { λ s d c cs.
        AreHolding (scheme F.ring F.inv F.root F.GENERATOR F.TWO_ADICITY s) d c cs };

    ghost open_fault = { λ s rs e. OpenFault rs e };

    ghost proves = { λ s t rs p. p ≡ record {} };

    ghost after_open = { λ s t rs p. t };

    ghost after_verify = { λ s t claims p. t };

    ghost excludes = { λ s x. ⊥ };

    ghost opens = { λ s t claims p.
        Opens (scheme F.ring F.inv F.root F.GENERATOR F.TWO_ADICITY s) E.ring E.embed claims };

    ghost fault = { λ s t claims p e.
        Fault (scheme F.ring F.inv F.root F.GENERATOR F.TWO_ADICITY s) E.ring E.embed claims e };

    /// The subgroup with this many points.
    fn natural_domain_for_degree(&self, degree: usize) -> TwoAdicMultiplicativeCoset<F> {
        subgroup(log2_strict_usize(degree))
    }

    /// The commitment is each matrix's extension, as wide and 2^`log_blowup` times as high, by one transform; the prover
    /// keeps a copy of the extensions. `Commit` names the first that can't be committed to, and comes exactly where there is one.
    fn commit(
        &self,
        alloc: Global,
        evaluations: Vec<(TwoAdicMultiplicativeCoset<F>, RowMajorMatrix<F>)>,
    ) -> Result<(PlainCommitment<F>, PlainProverData<F>), PcsFailure<PlainProverError>>
        ensures refusal { RefusedBy
            (CommitFault (scheme F.ring F.inv F.root F.GENERATOR F.TWO_ADICITY self.now)
            evaluations.items) result }
        ensures searched { IfOutOfMemory result
            (NoneOf (CommitFault (scheme F.ring F.inv F.root F.GENERATOR F.TWO_ADICITY self.now)
            evaluations.items)) }
        ensures committed { IfOk result
            (IsCommitment F.ring (λ (d : CosetData F). 2 ^ d.log_size)
            (λ (d : CosetData F). point F.ring F.root d) (λ es c. c
            ≡ commitment_of (scheme F.ring F.inv F.root F.GENERATOR F.TWO_ADICITY self.now) es)
            IsMade (AreHolding (scheme F.ring F.inv F.root F.GENERATOR F.TWO_ADICITY self.now))
            evaluations.items) }
    {
        commit(alloc, &self.dft, self.log_blowup, evaluations)
    }

    /// The values of the committed polynomials. The proof is empty, no point is excluded, and the challenger stays as it was.
    /// `Open` comes exactly where a request's lists aren't one per matrix, for the first such request.
    fn open(
        &self,
        alloc: Global,
        requests: Vec<OpeningRequest<'_, PlainProverData<F>, E>>,
        challenger: &mut C,
    ) -> Result<(OpenedValues<E>, PlainProof), PcsFailure<PlainProverError>>
        requires { All (λ r. IsMade r.prover_data) requests.items }
        ensures refusal { RefusedBy (OpenFault requests.entry.items) result }
        ensures searched { IfOutOfMemory result (NoneOf (OpenFault requests.entry.items)) }
        ensures unchanged { IfRefused result (λ _. challenger.new ≡ challenger.old) }
        ensures challenger { challenger.new ≡ challenger.old }
        ensures proof { IfOk result (λ w. w.1 ≡ record {}) }
        ensures after { IfOk result (λ _. challenger.new ≡ challenger.old) }
        ensures opening { IfOk result
            (λ w. (held : List (OpenedCommitment (PlainCommitmentData F) F))
            → AreOpenedCommitments (AreHolding
            (scheme F.ring F.inv F.root F.GENERATOR F.TWO_ADICITY self.now)) requests.entry.items
            held
            → IsOpening E.ring E.embed (λ (d : CosetData F). 2 ^ d.log_size) (λ (x : E). ⊥)
            (Opens (scheme F.ring F.inv F.root F.GENERATOR F.TWO_ADICITY self.now) E.ring E.embed)
            requests.entry.items (nested w.0) held) }
    {
        let values = open(alloc, self.log_blowup, &requests)?;
        Ok((values, PlainProof))
    }

    /// Interpolates every column once and tests each claim. The proof isn't read, and the challenger stays as it was.
    fn verify(
        &self,
        alloc: Global,
        claims: Vec<CommitmentOpening<E, PlainCommitment<F>, TwoAdicMultiplicativeCoset<F>>>,
        proof: &PlainProof,
        challenger: &mut C,
    ) -> Result<(), PcsFailure<PlainError>>
        ensures verdict { VerifiedBy
            (Opens (scheme F.ring F.inv F.root F.GENERATOR F.TWO_ADICITY self.now) E.ring E.embed
            claims.items)
            (Fault (scheme F.ring F.inv F.root F.GENERATOR F.TWO_ADICITY self.now) E.ring E.embed
            claims.items) result }
        ensures after { IsOk result → challenger.new ≡ challenger.old }
        ensures challenger { challenger.new ≡ challenger.old }
    {
        match first_fault(alloc, self.log_blowup, &claims)? {
            None => Ok(()),
            Some(fault) => Err(PcsFailure::Refused(fault)),
        }
    }

    /// The copy shares the extensions: nothing is copied, and no memory is taken.
    fn clone_commitment(&self, alloc: Global, c: &PlainCommitment<F>) -> Mem<PlainCommitment<F>> {
        c.try_clone()
    }

    ghost holds_all = { λ s d c cs h. held_count h };

    ghost opens_faultless = { λ s t claims p o.
        faultless_where_opens (scheme F.ring F.inv F.root F.GENERATOR F.TWO_ADICITY s) E.ring
        E.embed claims o };

    ghost some_fault = { λ s t claims p n f.
        fault_where_not (scheme F.ring F.inv F.root F.GENERATOR F.TWO_ADICITY s) E.ring E.embed
        claims n f };

    ghost one_fault = { λ s t claims p e g h k.
        first_fault_is_one (scheme F.ring F.inv F.root F.GENERATOR F.TWO_ADICITY s) E.ring E.embed
        claims e g h k };

    ghost one_commit_fault = { λ s es e g f h.
        one_commit_cause (scheme F.ring F.inv F.root F.GENERATOR F.TWO_ADICITY s) es e g f h };

    ghost one_open_fault = { λ s rs e g f h. one_open_cause rs e g f h };

    ghost opened_alike = { λ s rs qs e a f.
        asked_alike (scheme F.ring F.inv F.root F.GENERATOR F.TWO_ADICITY s) rs qs e a f };

    ghost one_state = { λ s t rs held claims p proves are claimed opens. refl };
}

impl<F: TwoAdicField, D: TwoAdicSubgroupDft<F>, E: ExtensionField<F>, C> UnivariateStarkPcs<E, C>
    for PlainPcs<F, D> {
    ghost ZK = { false };

    const ZK: bool = false;

    ghost log_max = { λ s. F.TWO_ADICITY - s.log_blowup };

    ghost log_min = { λ _. 0 };

    ghost commitment_of = { λ s es.
        commitment_of (scheme F.ring F.inv F.root F.GENERATOR F.TWO_ADICITY s) es };

    ghost extension_fault = { λ s es n e.
        CommitFault (scheme F.ring F.inv F.root F.GENERATOR F.TWO_ADICITY s) es e };

    ghost extends = { λ s d m l.
        Extends (scheme F.ring F.inv F.root F.GENERATOR F.TWO_ADICITY s) d m l };

    ghost ldes_fault = { λ s ls e.
        ExtensionsFault (scheme F.ring F.inv F.root F.GENERATOR F.TWO_ADICITY s) ls e };

    ghost quotient_fault = { λ s d m n e.
        QuotientFault (scheme F.ring F.inv F.root F.GENERATOR F.TWO_ADICITY s) d n e };

    /// The field's two-adicity less `log_blowup`.
    fn log_max_trace_height(&self) -> usize {
        F::TWO_ADICITY - self.log_blowup
    }

    /// Zero: a column may have one row.
    fn log_min_trace_height(&self) -> usize {
        0
    }

    /// The extension of each chunk, 2^`log_blowup` times as high as the chunk and as wide. Their number isn't read. `Commit`
    /// names the first chunk that has no columns, another height than its domain's size, or an extension of more than
    /// 2^`TWO_ADICITY` rows, and comes exactly where there is one.
    fn get_quotient_ldes(
        &self,
        alloc: Global,
        evaluations: Vec<(TwoAdicMultiplicativeCoset<F>, RowMajorMatrix<F>)>,
        num_chunks: usize,
    ) -> Result<Vec<RowMajorMatrix<F>>, PcsFailure<PlainProverError>>
        ensures refusal { RefusedBy
            (CommitFault (scheme F.ring F.inv F.root F.GENERATOR F.TWO_ADICITY self.now)
            evaluations.items) result }
        ensures searched { IfOutOfMemory result
            (NoneOf (CommitFault (scheme F.ring F.inv F.root F.GENERATOR F.TWO_ADICITY self.now)
            evaluations.items)) }
        ensures extensions { IfOk result
            (λ v. AreExtensions (Extends
            (scheme F.ring F.inv F.root F.GENERATOR F.TWO_ADICITY self.now)) evaluations.items
            v.items) }
    {
        extensions(alloc, &self.dft, self.log_blowup, evaluations)
    }

    /// The commitment is the extensions; the prover keeps a copy of each with the coset of its height. `Commit` names the
    /// first whose height isn't 2^k for a k of at most `TWO_ADICITY`, and comes exactly where there is one.
    fn commit_ldes(
        &self,
        alloc: Global,
        ldes: Vec<RowMajorMatrix<F>>,
    ) -> Result<(PlainCommitment<F>, PlainProverData<F>), PcsFailure<PlainProverError>>
        ensures refusal { RefusedBy
            (ExtensionsFault (scheme F.ring F.inv F.root F.GENERATOR F.TWO_ADICITY self.now)
            ldes.items) result }
        ensures searched { IfOutOfMemory result
            (NoneOf (ExtensionsFault (scheme F.ring F.inv F.root F.GENERATOR F.TWO_ADICITY self.now)
            ldes.items)) }
        ensures commitment { IfOk result (λ w. w.0 ≡ record { matrices = ldes.items }) }
        ensures made { IfOk result (λ w. IsMade w.1) }
        ensures count { IfOk result (λ w. length w.1 ≡ length ldes.items) }
        ensures committed { IfOk result
            (λ w. (chunks : List (CosetData F × Rows F))
            → AreExtensions (Extends
            (scheme F.ring F.inv F.root F.GENERATOR F.TWO_ADICITY self.now)) chunks ldes.items
            → IsCommitment F.ring (λ (d : CosetData F). 2 ^ d.log_size)
            (λ (d : CosetData F). point F.ring F.root d) (λ es c. c
            ≡ commitment_of (scheme F.ring F.inv F.root F.GENERATOR F.TWO_ADICITY self.now) es)
            IsMade (AreHolding (scheme F.ring F.inv F.root F.GENERATOR F.TWO_ADICITY self.now))
            chunks w) }
    {
        commit_extensions(alloc, self.log_blowup, ldes)
    }

    /// A row for each point of the domain and a column for each polynomial: rows of the kept extension where the domain's points are some
    /// of its own, and else by one transform of it.
    fn get_evaluations_on_domain(
        &self,
        alloc: Global,
        prover_data: &PlainProverData<F>,
        idx: usize,
        domain: TwoAdicMultiplicativeCoset<F>,
    ) -> Mem<RowMajorMatrix<F>> {
        evaluations_on_domain(alloc, &self.dft, prover_data, idx, domain)
    }

    /// The table by one transform of the columns over the longest period, from which the values repeat: it has the longest period times
    /// as many rows as the quotient domain is times as large as the trace domain.
    fn build_periodic_lde_table(
        &self,
        alloc: Global,
        periodic_cols: &[Vec<F>],
        trace_domain: TwoAdicMultiplicativeCoset<F>,
        quotient_domain: TwoAdicMultiplicativeCoset<F>,
    ) -> Mem<PeriodicLdeTable<F>>
        requires fit { All (λ c. IsPeriod (2 ^ trace_domain.log_size) (length c.items))
            periodic_cols.now }
        requires shift { point F.ring F.root trace_domain 0 ≡ F.ring.one }
        requires larger { 2 ^ trace_domain.log_size ≤ 2 ^ quotient_domain.log_size }
        ensures table { IfOk result
            (IsPeriodicTable F.ring (2 ^ trace_domain.log_size) (point F.ring F.root trace_domain)
            (2 ^ quotient_domain.log_size)
            (point F.ring F.root quotient_domain) (map (λ c. c.items) periodic_cols.now)) }
        ensures height { IfOk result
            (λ t. (period : ℕ) → IsGreatest (map (λ c. length c.items) periodic_cols.now) period
            → height t ≡ period * (2 ^ quotient_domain.log_size / 2 ^ trace_domain.log_size)) }
    {
        periodic_table(
            alloc,
            &self.dft,
            periodic_cols,
            trace_domain,
            quotient_domain,
        )
    }

    ghost heights_ordered = { λ s. none_below_zero (F.TWO_ADICITY - s.log_blowup) };

    ghost heights_masked = { λ s h. not_hidden h };

    ghost heights_fit = { λ s. difference_fits F.TWO_ADICITY s.log_blowup };

    ghost quotient_refused = { λ s d m n parts e power fits rows are fault. refused_by_parts
        (scheme F.ring F.inv F.root F.GENERATOR F.TWO_ADICITY s) d m n parts power rows are
        F.ring_laws F.field_laws F.root_laws e fault };

    ghost quotient_granted = { λ s d m n parts power fits rows are none.
        granted_by_parts (scheme F.ring F.inv F.root F.GENERATOR F.TWO_ADICITY s) d m n parts power
        rows are none };

    ghost one_extension_fault = { λ s es n e g f h.
        one_commit_cause (scheme F.ring F.inv F.root F.GENERATOR F.TWO_ADICITY s) es e g f h };

    ghost one_ldes_fault = { λ s ls e g f h.
        one_extensions_cause (scheme F.ring F.inv F.root F.GENERATOR F.TWO_ADICITY s) ls e g f h };

    ghost extended_alike = { λ s es ls ks e a b f. extensions_alike
        (scheme F.ring F.inv F.root F.GENERATOR F.TWO_ADICITY s) es ls ks e a b f };

    ghost one_quotient_fault = { λ s d m n e g f h.
        one_quotient_cause (scheme F.ring F.inv F.root F.GENERATOR F.TWO_ADICITY s) d n e g f h };

    ghost one_commitment = { λ s es c z h. h };
}

impl<F: TwoAdicField, D: TwoAdicSubgroupDft<F>, E: ExtensionField<F>, C> CosetPcs<E, C>
    for PlainPcs<F, D> {
    ghost coset_points = { λ d. refl };

    ghost coset_point = { λ d i. refl };
}
