//! Schemes that commit to matrices and open their rows.
ghost use Rattle.std.specs.Prelude.{◌≡◌, ℕ, ◌<◌, List, [], ◌∷◌, length, map, All, IfOk, MatchOption, ⊤};
ghost use Rattle.std.specs.Int.{IsPowerOfTwo};
ghost use Rattle.p3_matrix.specs.Matrix.{Rows, height};
ghost use Rattle.p3_matrix.specs.declared.dense.Dimensions.{Dimensions};
ghost use Rattle.commit_core.specs.Failure.{NoneOf, FaultUnless, VerifiedBy};
ghost use Rattle.commit_core.specs.Periodic.{IsGreatest, EachFrom};
ghost use Rattle.commit_rows.specs.Batches.{lists, IsBatch, IsRowOf, AreRowsAt, dimensions_of, HaveWidths};

use commit_core::PcsFailure;
use p3_field::Mem;
use p3_matrix::{Dimensions, RowMajorMatrix};
use std::alloc::{AllocError, Global};

/// A scheme that commits to a batch of matrices and opens a row of each (`Mmcs` of `p3-commit`: a mixed matrix commitment
/// scheme).
///
/// A row is named by its number in the highest matrix. In a matrix of height h it is the row of that number without its
/// lowest bits, so many that h rows are left.
pub trait Mmcs<T: Copy + Eq> {
    /// The prover data of committed matrices.
    type ProverData: Drop;

    /// What a verifier gets of them.
    type Commitment: Drop;

    /// A proof that rows are the committed ones.
    type Proof: Drop;

    /// A proof of several openings at once.
    type MultiProof: Drop;

    /// Why an opening is refused.
    type Error: Drop;

    // matrices of this width are taken
    ghost takes: { ℕ → Type 0 };

    // the matrices that prover data has
    ghost matrices: { Self.ProverData → List (Rows T) };

    // prover data belongs to this commitment
    ghost belongs: { Self → Self.ProverData → Self.Commitment → Type 0 };

    // the proof shows that these are the rows at a place in matrices of these dimensions
    ghost opens: { Self → Self.Commitment → List Dimensions → ℕ → List (List T) → Self.Proof
        → Type 0 };

    // the first fault of an opening for which it doesn't
    ghost fault: { Self → Self.Commitment → List Dimensions → ℕ → List (List T) → Self.Proof
        → Self.Error → Type 0 };

    // the same for several places
    ghost multi_opens: { Self → Self.Commitment → List Dimensions → List ℕ → List (List (List T))
        → Self.MultiProof → Type 0 };

    ghost multi_fault: { Self → Self.Commitment → List Dimensions → List ℕ → List (List (List T))
        → Self.MultiProof → Self.Error → Type 0 };

    /// Commits to at least one matrix, of heights that are powers of two. Only memory can run out.
    fn commit(
        &self,
        alloc: Global,
        inputs: Vec<RowMajorMatrix<T>>,
    ) -> Mem<(Self::Commitment, Self::ProverData)>
        requires batch { IsBatch inputs.items }
        requires widths { All (λ m. takes m.width) inputs.items }
        ensures matrices { IfOk result (λ w. matrices w.1 ≡ inputs.items) }
        ensures belongs { IfOk result (λ w. belongs self.now w.1 w.0) };

    /// Opens one row of each matrix: of the highest that with this number, which is below its height. Only memory can run
    /// out.
    fn open_batch(
        &self,
        alloc: Global,
        index: usize,
        prover_data: &Self::ProverData,
    ) -> Mem<BatchOpening<T, Self>>
        requires { IsRowOf (matrices prover_data.now) index }
        ensures rows { IfOk result
            (λ o. AreRowsAt (matrices prover_data.now) index (lists o.opened_values.items)) }
        ensures accepted { IfOk result
            (λ o. (c : Self.Commitment) → belongs self.now prover_data.now c
            → opens self.now c (dimensions_of (matrices prover_data.now)) index
            (lists o.opened_values.items) o.opening_proof) };

    /// The committed matrices.
    fn get_matrices<'a>(&self, prover_data: &'a Self::ProverData) -> &'a [RowMajorMatrix<T>]
        ensures { result.now ≡ matrices prover_data.now };

    /// Whether the rows are the committed ones, of matrices of these dimensions, at this place: Ok exactly where the proof
    /// shows it (`opens`), and else `Refused` of the first fault. A row of another width than its matrix is refused.
    fn verify_batch(
        &self,
        alloc: Global,
        commit: &Self::Commitment,
        dimensions: &[Dimensions],
        index: usize,
        opening: BatchOpeningRef<'_, T, Self>,
    ) -> Result<(), PcsFailure<Self::Error>>
        requires { All (λ d. takes d.width) dimensions.now }
        ensures { VerifiedBy (opens self.now commit.now dimensions.now index
            (lists opening.entry.opened_values.now) opening.entry.opening_proof.now)
            (fault self.now commit.now dimensions.now index (lists opening.entry.opened_values.now)
            opening.entry.opening_proof.now) result };

    /// The rows of `open_batch` at each of these places, with one proof.
    fn open_multi_batch(
        &self,
        alloc: Global,
        indices: &[usize],
        prover_data: &Self::ProverData,
    ) -> Mem<(Vec<Vec<Vec<T>>>, Self::MultiProof)>
        requires { All (IsRowOf (matrices prover_data.now)) indices.now }
        ensures rows { IfOk result
            (λ w. EachFrom indices.now (map (λ rows. lists rows.items) w.0.items)
            (AreRowsAt (matrices prover_data.now))) }
        ensures accepted { IfOk result
            (λ w. (c : Self.Commitment) → belongs self.now prover_data.now c
            → multi_opens self.now c (dimensions_of (matrices prover_data.now)) indices.now
            (map (λ rows. lists rows.items) w.0.items) w.1) };

    /// What `verify_batch` does for several places at once.
    fn verify_multi_batch(
        &self,
        alloc: Global,
        commit: &Self::Commitment,
        dimensions: &[Dimensions],
        indices: &[usize],
        opened_values: &[Vec<Vec<T>>],
        proof: &Self::MultiProof,
    ) -> Result<(), PcsFailure<Self::Error>>
        requires { All (λ d. takes d.width) dimensions.now }
        ensures { VerifiedBy (multi_opens self.now commit.now dimensions.now indices.now
            (map (λ rows. lists rows.items) opened_values.now) proof.now)
            (multi_fault self.now commit.now dimensions.now indices.now
            (map (λ rows. lists rows.items) opened_values.now) proof.now) result };

    /// The height of each committed matrix.
    fn get_matrix_heights(&self, alloc: Global, prover_data: &Self::ProverData) -> Mem<Vec<usize>>
        ensures { IfOk result (λ v. v.items ≡ map (λ m. height m) (matrices prover_data.now)) }
    {
        heights_of(alloc, self.get_matrices(prover_data))
    }

    /// The greatest height of a committed matrix, where there is one.
    fn get_max_height(&self, prover_data: &Self::ProverData) -> usize
        requires { 0 < length (matrices prover_data.now) }
        ensures { IsGreatest (map (λ m. height m) (matrices prover_data.now)) result }
    {
        greatest_height(self.get_matrices(prover_data)).unwrap()
    }

    /// Commits to one matrix.
    final fn commit_matrix(
        &self,
        alloc: Global,
        input: RowMajorMatrix<T>,
    ) -> Mem<(Self::Commitment, Self::ProverData)>
        requires height { IsPowerOfTwo (height input) }
        requires width { takes input.width }
        ensures matrices { IfOk result (λ w. matrices w.1 ≡ input ∷ []) }
        ensures belongs { IfOk result (λ w. belongs self.now w.1 w.0) }
    {
        let inputs = one_matrix(alloc, input)?;
        self.commit(alloc, inputs)
    }

    /// Commits to one column.
    final fn commit_vec(
        &self,
        alloc: Global,
        input: Vec<T>,
    ) -> Mem<(Self::Commitment, Self::ProverData)>
        requires height { IsPowerOfTwo (length input.items) }
        requires width { takes 1 }
        ensures matrices { IfOk result
            (λ w. matrices w.1 ≡ record { values = input.items; width = 1 } ∷ []) }
        ensures belongs { IfOk result (λ w. belongs self.now w.1 w.0) }
    {
        self.commit_matrix(alloc, RowMajorMatrix::new_col(input))
    }

    // an opening that is accepted has no fault
    ghost opens_faultless: { (s : Self) (c : Self.Commitment) (ds : List Dimensions) (i : ℕ)
        (rows : List (List T)) (p : Self.Proof) → opens s c ds i rows p
        → NoneOf (fault s c ds i rows p) };

    ghost multi_opens_faultless: { (s : Self) (c : Self.Commitment) (ds : List Dimensions)
        (is : List ℕ) (rows : List (List (List T))) (p : Self.MultiProof)
        → multi_opens s c ds is rows p → NoneOf (multi_fault s c ds is rows p) };

    // one that isn't has a first fault
    ghost some_fault: { (s : Self) (c : Self.Commitment) (ds : List Dimensions) (i : ℕ)
        (rows : List (List T)) (p : Self.Proof)
        → FaultUnless (opens s c ds i rows p) (fault s c ds i rows p) };

    ghost multi_some_fault: { (s : Self) (c : Self.Commitment) (ds : List Dimensions) (is : List ℕ)
        (rows : List (List (List T))) (p : Self.MultiProof)
        → FaultUnless (multi_opens s c ds is rows p) (multi_fault s c ds is rows p) };

    // the first fault is one
    ghost one_fault: { (s : Self) (c : Self.Commitment) (ds : List Dimensions) (i : ℕ)
        (rows : List (List T)) (p : Self.Proof) (e g : Self.Error)
        → fault s c ds i rows p e → fault s c ds i rows p g → e ≡ g };

    ghost multi_one_fault: { (s : Self) (c : Self.Commitment) (ds : List Dimensions) (is : List ℕ)
        (rows : List (List (List T))) (p : Self.MultiProof) (e g : Self.Error)
        → multi_fault s c ds is rows p e → multi_fault s c ds is rows p g → e ≡ g };

    // rows that are accepted have their matrices' widths
    ghost opened_widths: { (s : Self) (c : Self.Commitment) (ds : List Dimensions) (i : ℕ)
        (rows : List (List T)) (p : Self.Proof) → opens s c ds i rows p → HaveWidths ds rows };

    ghost multi_opened_widths: { (s : Self) (c : Self.Commitment) (ds : List Dimensions)
        (is : List ℕ) (rows : List (List (List T))) (p : Self.MultiProof)
        → multi_opens s c ds is rows p → All (HaveWidths ds) rows };
}

/// The rows opened of a batch of matrices, one each, with the proof that they are the committed ones (`BatchOpening` of
/// `p3-commit`).
#[derive(Drop)]
pub struct BatchOpening<T: Copy + Eq, M: Mmcs<T>> {
    /// A row of each matrix.
    pub opened_values: Vec<Vec<T>>,
    /// The proof.
    pub opening_proof: M::Proof,
}

/// The same, borrowed (`BatchOpeningRef` of `p3-commit`).
pub struct BatchOpeningRef<'a, T: Copy + Eq, M: Mmcs<T>> {
    /// A row of each matrix.
    pub opened_values: &'a [Vec<T>],
    /// The proof.
    pub opening_proof: &'a M::Proof,
}

impl<T: Copy + Eq, M: Mmcs<T>> BatchOpening<T, M> {
    /// The opening of these rows with this proof.
    pub fn new(opened_values: Vec<Vec<T>>, opening_proof: M::Proof) -> Self
        ensures rows { lists result.opened_values.items ≡ lists opened_values.items }
        ensures proof { result.opening_proof ≡ opening_proof }
    {
        BatchOpening {
            opened_values,
            opening_proof,
        }
    }

    /// The rows and the proof.
    pub fn unpack(self) -> (Vec<Vec<T>>, M::Proof)
        ensures rows { lists result.0.items ≡ lists self.opened_values.items }
        ensures proof { result.1 ≡ self.opening_proof }
    {
        let BatchOpening {
            opened_values,
            opening_proof,
        } = self;
        (opened_values, opening_proof)
    }
}

impl<'a, T: Copy + Eq, M: Mmcs<T>> Clone for BatchOpeningRef<'a, T, M> {
    ghost is_clone = { λ x y. y ≡ x };

    ghost is_infallible = { λ _. ⊤ };

    fn clone(&self) -> Result<Self, AllocError> {
        Ok(*self)
    }
}

impl<'a, T: Copy + Eq, M: Mmcs<T>> Copy for BatchOpeningRef<'a, T, M> {}

impl<'a, T: Copy + Eq, M: Mmcs<T>> BatchOpeningRef<'a, T, M> {
    /// The opening of these rows with this proof.
    pub fn new(opened_values: &'a [Vec<T>], opening_proof: &'a M::Proof) -> Self
        ensures rows { result.opened_values.now ≡ opened_values.now }
        ensures proof { result.opening_proof.now ≡ opening_proof.now }
    {
        BatchOpeningRef {
            opened_values,
            opening_proof,
        }
    }

    /// The rows and the proof.
    pub fn unpack(&self) -> (&'a [Vec<T>], &'a M::Proof)
        ensures rows { result.0.now ≡ self.now.opened_values.now }
        ensures proof { result.1.now ≡ self.now.opening_proof.now }
    {
        (self.opened_values, self.opening_proof)
    }
}

impl<'a, T: Copy + Eq, M: Mmcs<T>> From<&'a BatchOpening<T, M>> for BatchOpeningRef<'a, T, M> {
    ghost from_gives = { λ o r. (lists r.opened_values.now ≡ lists o.now.opened_values.items)
        × (r.opening_proof.now ≡ o.now.opening_proof) };

    fn from(opening: &'a BatchOpening<T, M>) -> Self {
        BatchOpeningRef {
            opened_values: &opening.opened_values,
            opening_proof: &opening.opening_proof,
        }
    }
}

// The list of one matrix.
fn one_matrix<T: Copy>(alloc: Global, input: RowMajorMatrix<T>) -> Mem<Vec<RowMajorMatrix<T>>>
    requires { IsPowerOfTwo (height input) }
    ensures list { IfOk result (λ v. v.items ≡ input ∷ []) }
{
    let mut inputs = Vec::new(alloc);
    inputs.push(input)?;
    Ok(inputs)
}

// The height of each matrix.
fn heights_of<T>(alloc: Global, matrices: &[RowMajorMatrix<T>]) -> Mem<Vec<usize>>
    ensures { IfOk result (λ v. v.items ≡ map (λ m. height m) matrices.now) }
{
    matrices.iter().map(|m| m.height()).collect(alloc)
}

/// The height of the highest matrix (not in Plonky3), and None exactly where there is no matrix.
pub fn greatest_height<T>(matrices: &[RowMajorMatrix<T>]) -> Option<usize>
    ensures { MatchOption result (length matrices.now ≡ 0)
        (IsGreatest (map (λ m. height m) matrices.now)) }
{
    matrices.iter().map(|m| m.height()).max()
}

impl<'m, T: Copy + Eq, M: Mmcs<T>> Mmcs<T> for &'m M {
    type ProverData = M::ProverData;

    type Commitment = M::Commitment;

    type Proof = M::Proof;

    type MultiProof = M::MultiProof;

    type Error = M::Error;

    ghost takes = { λ w. M.takes w };

    ghost matrices = { λ d. M.matrices d };

    ghost belongs = { λ s d c. M.belongs s.now d c };

    ghost opens = { λ s c ds i rows p. M.opens s.now c ds i rows p };

    ghost fault = { λ s c ds i rows p e. M.fault s.now c ds i rows p e };

    ghost multi_opens = { λ s c ds is rows p. M.multi_opens s.now c ds is rows p };

    ghost multi_fault = { λ s c ds is rows p e. M.multi_fault s.now c ds is rows p e };

    fn commit(
        &self,
        alloc: Global,
        inputs: Vec<RowMajorMatrix<T>>,
    ) -> Mem<(M::Commitment, M::ProverData)>
        requires batch { IsBatch inputs.items }
        requires widths { All (λ m. M.takes m.width) inputs.items }
        ensures matrices { IfOk result (λ w. M.matrices w.1 ≡ inputs.items) }
        ensures belongs { IfOk result (λ w. M.belongs self.now.now w.1 w.0) }
    {
        (**self).commit(alloc, inputs)
    }

    fn open_batch(
        &self,
        alloc: Global,
        index: usize,
        prover_data: &M::ProverData,
    ) -> Mem<BatchOpening<T, Self>> {
        let opening = (**self).open_batch(alloc, index, prover_data)?;
        let (opened_values, opening_proof) = opening.unpack();
        let opening = BatchOpening {
            opened_values,
            opening_proof,
        };
        Ok(opening)
    }

    fn get_matrices<'a>(&self, prover_data: &'a M::ProverData) -> &'a [RowMajorMatrix<T>] {
        (**self).get_matrices(prover_data)
    }

    fn verify_batch(
        &self,
        alloc: Global,
        commit: &M::Commitment,
        dimensions: &[Dimensions],
        index: usize,
        opening: BatchOpeningRef<'_, T, Self>,
    ) -> Result<(), PcsFailure<M::Error>>
        requires { All (λ d. M.takes d.width) dimensions.now }
        ensures { VerifiedBy (M.opens self.now.now commit.now dimensions.now index
            (lists opening.entry.opened_values.now) opening.entry.opening_proof.now)
            (M.fault self.now.now commit.now dimensions.now index
            (lists opening.entry.opened_values.now) opening.entry.opening_proof.now) result }
    {
        let inner = BatchOpeningRef {
            opened_values: opening.opened_values,
            opening_proof: opening.opening_proof,
        };
        (**self).verify_batch(alloc, commit, dimensions, index, inner)
    }

    fn open_multi_batch(
        &self,
        alloc: Global,
        indices: &[usize],
        prover_data: &M::ProverData,
    ) -> Mem<(Vec<Vec<Vec<T>>>, M::MultiProof)> {
        (**self).open_multi_batch(alloc, indices, prover_data)
    }

    fn verify_multi_batch(
        &self,
        alloc: Global,
        commit: &M::Commitment,
        dimensions: &[Dimensions],
        indices: &[usize],
        opened_values: &[Vec<Vec<T>>],
        proof: &M::MultiProof,
    ) -> Result<(), PcsFailure<M::Error>> {
        (**self).verify_multi_batch(alloc, commit, dimensions, indices, opened_values, proof)
    }

    ghost opens_faultless = { λ s c ds i rows p h. M.opens_faultless s.now c ds i rows p h };

    ghost multi_opens_faultless = { λ s c ds is rows p h.
        M.multi_opens_faultless s.now c ds is rows p h };

    ghost some_fault = { λ s c ds i rows p n f. M.some_fault s.now c ds i rows p n f };

    ghost multi_some_fault = { λ s c ds is rows p n f.
        M.multi_some_fault s.now c ds is rows p n f };

    ghost one_fault = { λ s c ds i rows p e g f h. M.one_fault s.now c ds i rows p e g f h };

    ghost multi_one_fault = { λ s c ds is rows p e g f h.
        M.multi_one_fault s.now c ds is rows p e g f h };

    ghost opened_widths = { λ s c ds i rows p h. M.opened_widths s.now c ds i rows p h };

    ghost multi_opened_widths = { λ s c ds is rows p h.
        M.multi_opened_widths s.now c ds is rows p h };
}
