//! What provers and verifiers of STARKs need of a scheme that commits to polynomials.
ghost use Rattle.std.specs.Prelude.{◌≡◌, ℕ, ◌+◌, ◌<◌, ◌≤◌, ◌⊎◌, Bool, IsTrue, IsFalse, List, Option, None, Some, Ok, All, length, map, slice_get, IfOk, IsOk};
ghost use Rattle.std.specs.Int.{IsPowerOfTwo};
ghost use Rattle.p3_matrix.specs.Matrix.{Rows, height};
ghost use Rattle.commit_core.specs.Periodic.{IsPeriod, IsPeriodicTable};
ghost use Rattle.commit_core.specs.Claims.{CommitmentClaim, Request};
ghost use Rattle.commit_core.specs.Failure.{NoneOf, RefusedBy, FaultInTurn, NoneInTurn, IfRefused, VerifiedBy};
ghost use Rattle.commit_core.specs.Commitments.{Committed, IsCommitment, IsEvaluated, OpenedCommitment, AreOpenedCommitments, nested, IsOpening, AreParts, AreExtensions};

use crate::claims::{CommitmentOpening, OpenedValues, OpeningRequest};
use crate::domain::PolynomialSpace;
use crate::failure::PcsFailure;
use crate::pcs::Pcs;
use crate::periodic_table::PeriodicLdeTable;
use crate::split::paired;
use p3_field::{
    BasedVectorSpace, ExtensionField, Field, FieldCore, Mem, PrimeCharacteristicRing, RingCore,
    TwoAdicCore,
};
use p3_matrix::RowMajorMatrix;
use std::alloc::Global;

/// What provers and verifiers of STARKs need beside `Pcs` (`UnivariateStarkPcs` of `p3-commit`).
///
/// Where `ZK` is false, a commitment is one function of the scheme and of the committed domains and matrices,
/// `commitment_of`, for all four calls that commit.
pub trait UnivariateStarkPcs<Challenge, Challenger>: Pcs<Challenge, Challenger>
where
    Challenge: ExtensionField<Self::Val>,
{
    ghost ZK: { Bool };

    /// Whether commitments are masked by random values.
    const ZK: bool;

    // the logarithms of the greatest and the least number of rows
    ghost log_max: { Self → ℕ };

    ghost log_min: { Self → ℕ };

    // the commitment to the matrices on these domains, where nothing is masked
    ghost commitment_of: { Self → List (Self.Domain × Rows Self.Val) → Self.Commitment };

    // why the scheme refuses to extend the chunks of a quotient, of which there are so many
    ghost extension_fault: { Self → List (Self.Domain × Rows Self.Val) → ℕ → Self.ProverError
        → Type 0 };

    // the last matrix is the scheme's extension of the values on this domain
    ghost extends: { Self → Self.Domain → Rows Self.Val → Rows Self.Val → Type 0 };

    // why the scheme refuses to commit to extensions
    ghost ldes_fault: { Self → List (Rows Self.Val) → Self.ProverError → Type 0 };

    // why the scheme refuses to commit to a quotient that has these values on this domain, in so many parts
    ghost quotient_fault: { Self → Self.Domain → Rows Self.Val → ℕ → Self.ProverError → Type 0 };

    /// The logarithm of the greatest number of rows that a trace may have.
    fn log_max_trace_height(&self) -> usize
        ensures { result ≡ log_max self.now };

    /// The logarithm of the least number of rows that a trace may have.
    fn log_min_trace_height(&self) -> usize
        ensures { result ≡ log_min self.now };

    /// The extensions of a quotient's chunks, one for each, to which `commit_ldes` commits. `Refused` comes exactly
    /// where `extension_fault` names a cause.
    fn get_quotient_ldes(
        &self,
        alloc: Global,
        evaluations: Vec<(Self::Domain, RowMajorMatrix<Self::Val>)>,
        num_chunks: usize,
    ) -> Result<Vec<RowMajorMatrix<Self::Val>>, PcsFailure<Self::ProverError>>
        ensures refusal { RefusedBy (extension_fault self.now evaluations.items num_chunks) result }
        ensures extensions { IfOk result
            (λ v. AreExtensions (extends self.now) evaluations.items v.items) };

    /// Commits to the chunks of which these are extensions that `get_quotient_ldes` gave, of one call or of several. Of
    /// other matrices neither the values that are opened later nor the acceptance of the opening is promised. `Refused`
    /// comes exactly where `ldes_fault` names a cause.
    fn commit_ldes(
        &self,
        alloc: Global,
        ldes: Vec<RowMajorMatrix<Self::Val>>,
    ) -> Result<(Self::Commitment, Self::ProverData), PcsFailure<Self::ProverError>>
        ensures refusal { RefusedBy (ldes_fault self.now ldes.items) result }
        ensures made { IfOk result (λ w. Self.made self.now w.1) }
        ensures count { IfOk result (λ w. Self.matrix_count self.now w.1 ≡ length ldes.items) }
        ensures committed { IfOk result
            (λ w. (chunks : List (Self.Domain × Rows Self.Val))
            → AreExtensions (extends self.now) chunks ldes.items
            → IsCommitment Self.Val.ring Self.Domain.points Self.Domain.point_at
            (Self.commits self.now) (Self.made self.now) (Self.holds self.now) chunks w) };

    /// The values of the polynomials of one committed matrix on a domain: column j has the values of polynomial j, one for
    /// each point, in the domain's order. `prover_data` must come from this scheme, and `idx`, the matrix's place in it, be
    /// below its number of matrices; the domain may be any. Of prover data that `commit_ldes` made from other matrices than
    /// the scheme's own extensions no values are promised. The only error is running out of memory.
    fn get_evaluations_on_domain(
        &self,
        alloc: Global,
        prover_data: &Self::ProverData,
        idx: usize,
        domain: Self::Domain,
    ) -> Mem<RowMajorMatrix<Self::Val>>
        requires made { Self.made self.now prover_data.now }
        requires index { idx < Self.matrix_count self.now prover_data.now }
        ensures { IfOk result (λ m.
            (commitment : Self.Commitment) (cs : List (Committed Self.Val)) (c : Committed Self.Val)
            → Self.holds self.now prover_data.now commitment cs → slice_get cs idx ≡ Some c
            → IsEvaluated Self.Val.ring (Self.Domain.points domain) (Self.Domain.point_at domain) c
            m) };

    /// The same without masking, under the same conditions.
    fn get_evaluations_on_domain_no_random(
        &self,
        alloc: Global,
        prover_data: &Self::ProverData,
        idx: usize,
        domain: Self::Domain,
    ) -> Mem<RowMajorMatrix<Self::Val>>
        requires made { Self.made self.now prover_data.now }
        requires index { idx < Self.matrix_count self.now prover_data.now }
        ensures { IfOk result (λ m.
            (commitment : Self.Commitment) (cs : List (Committed Self.Val)) (c : Committed Self.Val)
            → Self.holds self.now prover_data.now commitment cs → slice_get cs idx ≡ Some c
            → IsEvaluated Self.Val.ring (Self.Domain.points domain) (Self.Domain.point_at domain) c
            m) }
    {
        self.get_evaluations_on_domain(alloc, prover_data, idx, domain)
    }

    /// The table of periodic columns on a quotient domain that is at least as large as the trace domain, whose shift is
    /// one: row i of column c is the value of the column's polynomial at point i of the quotient domain. Without columns
    /// it is empty.
    fn build_periodic_lde_table(
        &self,
        alloc: Global,
        periodic_cols: &[Vec<Self::Val>],
        trace_domain: Self::Domain,
        quotient_domain: Self::Domain,
    ) -> Mem<PeriodicLdeTable<Self::Val>>
        requires fit { All (λ c. IsPeriod (Self.Domain.points trace_domain) (length c.items))
            periodic_cols.now }
        requires shift { Self.Domain.point_at trace_domain 0 ≡ Self.Val.ring.one }
        requires larger { Self.Domain.points trace_domain ≤ Self.Domain.points quotient_domain }
        ensures { IfOk result (IsPeriodicTable Self.Val.ring (Self.Domain.points trace_domain)
            (Self.Domain.point_at trace_domain) (Self.Domain.points quotient_domain)
            (Self.Domain.point_at quotient_domain) (map (λ c. c.items) periodic_cols.now)) };

    /// A commitment to polynomials of random values, which a scheme that masks nothing lacks.
    fn get_opt_randomization_poly_commitment(
        &self,
        alloc: Global,
        domains: &[Self::Domain],
    ) -> Result<Option<(Self::Commitment, Self::ProverData)>, PcsFailure<Self::ProverError>>
        ensures { result ≡ Ok None }
    {
        Ok(None)
    }

    /// Commits as `commit` does, without masking.
    final fn commit_preprocessing(
        &self,
        alloc: Global,
        evaluations: Vec<(Self::Domain, RowMajorMatrix<Self::Val>)>,
    ) -> Result<(Self::Commitment, Self::ProverData), PcsFailure<Self::ProverError>>
        ensures refusal { RefusedBy (Self.commit_fault self.now evaluations.items) result }
        ensures committed { IfOk result
            (IsCommitment Self.Val.ring Self.Domain.points Self.Domain.point_at
            (Self.commits self.now) (Self.made self.now) (Self.holds self.now) evaluations.items) }
    {
        self.commit(alloc, evaluations)
    }

    /// Commits to the parts of a quotient that is given by its values on a domain: part i has rows i, i + `num_chunks`,
    /// i + 2 * `num_chunks` and so on, on the part of the domain that begins at point i, and is committed to as a matrix of
    /// its own. There must be a row for each point, and `num_chunks` be a power of two and at most the number of points. It
    /// is refused exactly as `get_quotient_ldes` of these parts is, and else as `commit_ldes` of its answer: so `Refused`
    /// comes exactly where `quotient_fault` names a cause.
    final fn commit_quotient(
        &self,
        alloc: Global,
        quotient_domain: Self::Domain,
        evaluations: RowMajorMatrix<Self::Val>,
        num_chunks: usize,
    ) -> Result<(Self::Commitment, Self::ProverData), PcsFailure<Self::ProverError>>
        requires power { IsPowerOfTwo num_chunks }
        requires fits { num_chunks ≤ Self.Domain.points quotient_domain }
        requires height { height evaluations ≡ Self.Domain.points quotient_domain }
        ensures refusal { RefusedBy (quotient_fault self.now quotient_domain evaluations num_chunks)
            result }
        ensures refused { IfRefused result
            (λ e. (parts : List (Self.Domain × Rows Self.Val))
            × AreParts (Self.Domain.part quotient_domain num_chunks) evaluations num_chunks parts
            × FaultInTurn (extension_fault self.now parts num_chunks)
            (AreExtensions (extends self.now) parts) (ldes_fault self.now) e) }
        ensures granted { IfOk result
            (λ w. (parts : List (Self.Domain × Rows Self.Val))
            × AreParts (Self.Domain.part quotient_domain num_chunks) evaluations num_chunks parts
            × NoneInTurn (extension_fault self.now parts num_chunks)
            (AreExtensions (extends self.now) parts) (ldes_fault self.now)
            × IsCommitment Self.Val.ring Self.Domain.points Self.Domain.point_at
            (Self.commits self.now) (Self.made self.now) (Self.holds self.now) parts w) }
    {
        let parts = quotient_parts(alloc, &quotient_domain, evaluations, num_chunks)?;
        let ldes = self.get_quotient_ldes(alloc, parts, num_chunks)?;
        self.commit_ldes(alloc, ldes)
    }

    /// Opens as `open` does, with the same answers: `Refused` comes exactly where `open_fault` names a cause, and leaves the
    /// challenger as it was. Nothing may be masked (`ZK` is false), and each request's prover data must come from this
    /// scheme. `preprocessed_commitment` is the place among the requests, from 0, of that of preprocessed columns, or None;
    /// it makes no difference here.
    final fn open_with_preprocessing(
        &self,
        alloc: Global,
        requests: Vec<OpeningRequest<'_, Self::ProverData, Challenge>>,
        challenger: &mut Challenger,
        preprocessed_commitment: Option<usize>,
    ) -> Result<(OpenedValues<Challenge>, Self::Proof), PcsFailure<Self::ProverError>>
        requires plain { IsFalse ZK }
        requires made { All (λ r. Self.made self.now r.prover_data) requests.items }
        ensures refusal { RefusedBy (Self.open_fault self.now requests.entry.items) result }
        ensures unchanged { IfRefused result (λ _. challenger.new ≡ challenger.old) }
        ensures proof { IfOk result
            (λ w. Self.proves self.now challenger.old requests.entry.items w.1) }
        ensures after { IfOk result
            (λ w. challenger.new ≡ Self.after_open self.now challenger.old requests.entry.items
            w.1) }
        ensures opening { IfOk result
            (λ w. (held : List (OpenedCommitment Self.Commitment Self.Val))
            → AreOpenedCommitments (Self.holds self.now) requests.entry.items held
            → IsOpening Challenge.ring Challenge.embed Self.Domain.points (Self.excludes self.now)
            (λ claims. Self.opens self.now challenger.old claims w.1) requests.entry.items
            (nested w.0) held) }
    {
        self.open(alloc, requests, challenger)
    }

    /// Verifies as `verify` does. The number is the place of the claim whose commitment is that of preprocessed columns.
    final fn verify_with_preprocessing(
        &self,
        alloc: Global,
        claims: Vec<CommitmentOpening<Challenge, Self::Commitment, Self::Domain>>,
        proof: &Self::Proof,
        challenger: &mut Challenger,
        preprocessed_commitment: Option<usize>,
    ) -> Result<(), PcsFailure<Self::Error>>
        ensures verdict { VerifiedBy (Self.opens self.now challenger.old claims.items proof.now)
            (Self.fault self.now challenger.old claims.items proof.now) result }
        ensures after { IsOk result
            → challenger.new ≡ Self.after_verify self.now challenger.old claims.items proof.now }
    {
        self.verify(alloc, claims, proof, challenger)
    }

    ghost heights_ordered: { (s : Self) → log_min s ≤ log_max s };

    ghost heights_masked: { (s : Self) → IsTrue ZK → log_min s + 1 ≤ log_max s };

    ghost heights_fit: { (s : Self) → log_max s ≤ Self.Val.TWO_ADICITY };

    // The causes to refuse a quotient are those to refuse its parts: a cause to extend them, or else to commit to what may be
    // their extensions, is one.
    ghost quotient_refused: { (s : Self) (d : Self.Domain) (m : Rows Self.Val) (n : ℕ)
        (parts : List (Self.Domain × Rows Self.Val)) (e : Self.ProverError)
        → IsPowerOfTwo n → n ≤ Self.Domain.points d → height m ≡ Self.Domain.points d
        → AreParts (Self.Domain.part d n) m n parts
        → FaultInTurn (extension_fault s parts n) (AreExtensions (extends s) parts) (ldes_fault s) e
        → quotient_fault s d m n e };

    // where the parts have no cause, and some extensions of them have none, the quotient has none
    ghost quotient_granted: { (s : Self) (d : Self.Domain) (m : Rows Self.Val) (n : ℕ)
        (parts : List (Self.Domain × Rows Self.Val)) → IsPowerOfTwo n
        → n ≤ Self.Domain.points d → height m ≡ Self.Domain.points d
        → AreParts (Self.Domain.part d n) m n parts
        → NoneInTurn (extension_fault s parts n) (AreExtensions (extends s) parts) (ldes_fault s)
        → NoneOf (quotient_fault s d m n) };

    // the cause to refuse to extend, to commit to extensions, and to commit to a quotient, is one
    ghost one_extension_fault: { (s : Self) (es : List (Self.Domain × Rows Self.Val)) (n : ℕ)
        (e g : Self.ProverError) → extension_fault s es n e → extension_fault s es n g → e ≡ g };

    ghost one_ldes_fault: { (s : Self) (ls : List (Rows Self.Val)) (e g : Self.ProverError)
        → ldes_fault s ls e → ldes_fault s ls g → e ≡ g };

    // which extensions of the same matrices are committed to makes no difference to a refusal
    ghost extended_alike: { (s : Self) (es : List (Self.Domain × Rows Self.Val))
        (ls ks : List (Rows Self.Val)) (e : Self.ProverError) → AreExtensions (extends s) es ls
        → AreExtensions (extends s) es ks → ldes_fault s ls e → ldes_fault s ks e };

    ghost one_quotient_fault: { (s : Self) (d : Self.Domain) (m : Rows Self.Val) (n : ℕ)
        (e g : Self.ProverError) → quotient_fault s d m n e → quotient_fault s d m n g → e ≡ g };

    // Where nothing is masked, the commitment is one function of what is committed.
    ghost one_commitment: { (s : Self) (e : List (Self.Domain × Rows Self.Val))
        (c : Self.Commitment) → IsFalse ZK → Self.commits s e c → c ≡ commitment_of s e };
}

// The parts of a domain, each with its rows.
fn quotient_parts<D: PolynomialSpace>(
    alloc: Global,
    domain: &D,
    evaluations: RowMajorMatrix<D::Val>,
    num_chunks: usize,
) -> Mem<Vec<(D, RowMajorMatrix<D::Val>)>>
    requires power { IsPowerOfTwo num_chunks }
    requires fits { num_chunks ≤ D.points domain.now }
    requires height { height evaluations ≡ D.points domain.now }
    ensures { IfOk result (λ v.
        AreParts (D.part domain.now num_chunks) evaluations num_chunks v.items) }
{
    let rows = domain.split_evals(alloc, num_chunks, evaluations)?;
    let domains = domain.split_domains(alloc, num_chunks)?;
    let parts = paired(alloc, &domains, rows)?;
    Ok(parts)
}
