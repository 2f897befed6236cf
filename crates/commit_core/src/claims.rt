//! Claims that committed polynomials have some values at some points, and requests to open them.
ghost use Rattle.std.specs.Prelude.{◌≡◌, map, List, IfOk};
ghost use Rattle.commit_core.specs.Claims.{PointClaim, MatrixClaim, CommitmentClaim, Request, point_claim, matrix_claim, commitment_claim};

use p3_field::Mem;
use std::alloc::Global;
use std::marker::Model;

/// The claimed values of all columns of a matrix at one point, in the order of the columns (`PointOpening` of
/// `p3-commit`).
#[derive(Drop)]
pub struct PointOpening<Challenge> {
    /// The point.
    pub point: Challenge,
    /// The value of each column's polynomial there.
    pub values: Vec<Challenge>,
}

impl<Challenge> Model for PointOpening<Challenge> {
    ghost Value = { PointClaim Challenge };

    ghost view = { λ s. record { point = s.point; values = s.values.items } };
}

impl<Challenge> From<(Challenge, Vec<Challenge>)> for PointOpening<Challenge> {
    ghost from_gives = { λ pair claim. claim ≡ point_claim pair };

    fn from((point, values): (Challenge, Vec<Challenge>)) -> Self {
        PointOpening { point, values }
    }
}

/// The points at which a committed matrix is opened, with the claimed values, and the domain on which its columns were
/// given (`MatrixOpening` of `p3-commit`).
#[derive(Drop)]
pub struct MatrixOpening<Challenge, Domain> {
    /// The domain of the columns.
    pub domain: Domain,
    /// The points with the claimed values.
    pub points: Vec<PointOpening<Challenge>>,
}

impl<Challenge, Domain> Model for MatrixOpening<Challenge, Domain> {
    ghost Value = { MatrixClaim Challenge Domain };

    ghost view = { λ s. record { domain = s.domain; points = s.points.items } };
}

impl<Challenge: Drop, Domain: Drop> MatrixOpening<Challenge, Domain> {
    /// The claim of a domain and of pairs of a point and its values, in their order.
    pub fn from_tuple(alloc: Global, t: (Domain, Vec<(Challenge, Vec<Challenge>)>)) -> Mem<Self>
        ensures { IfOk result (λ c. c ≡ matrix_claim t) }
    {
        let (domain, pairs) = t;
        let mut points = Vec::with_capacity(alloc, pairs.len())?;
        for pair in pairs {
            points.push(PointOpening::from(pair))?;
        }
        Ok(MatrixOpening { domain, points })
    }
}

/// A commitment with the claims on each of its matrices, in the order in which they were committed
/// (`CommitmentOpening` of `p3-commit`). `Pcs::verify` tests a list of these.
#[derive(Drop)]
pub struct CommitmentOpening<Challenge, Commitment, Domain> {
    /// The commitment.
    pub commitment: Commitment,
    /// The claims on each matrix.
    pub matrices: Vec<MatrixOpening<Challenge, Domain>>,
}

impl<Challenge, Commitment, Domain> Model for CommitmentOpening<Challenge, Commitment, Domain> {
    ghost Value = { CommitmentClaim Challenge Commitment Domain };

    ghost view = { λ s. record { commitment = s.commitment; matrices = s.matrices.items } };
}

impl<Challenge: Drop, Commitment: Drop, Domain: Drop> CommitmentOpening<
    Challenge,
    Commitment,
    Domain,
> {
    /// The claims of a commitment and of pairs of a domain and what is claimed there, in their order.
    pub fn from_tuple(
        alloc: Global,
        t: (Commitment, Vec<(Domain, Vec<(Challenge, Vec<Challenge>)>)>),
    ) -> Mem<Self>
        ensures { IfOk result (λ c. c ≡ commitment_claim t) }
    {
        let (commitment, pairs) = t;
        let matrices = matrix_openings(alloc, pairs)?;
        Ok(CommitmentOpening {
            commitment,
            matrices,
        })
    }
}

// The claims of pairs of a domain and what is claimed there, in their order.
fn matrix_openings<Challenge: Drop, Domain: Drop>(
    alloc: Global,
    pairs: Vec<(Domain, Vec<(Challenge, Vec<Challenge>)>)>,
) -> Mem<Vec<MatrixOpening<Challenge, Domain>>>
    ensures { IfOk result (λ v. v.items ≡ map matrix_claim pairs.items) }
{
    let mut matrices = Vec::with_capacity(alloc, pairs.len())?;
    for pair in pairs {
        let matrix = MatrixOpening::from_tuple(alloc, pair)?;
        matrices.push(matrix)?;
    }
    Ok(matrices)
}

/// The name of `CommitmentOpening` in older code (`CommitmentWithOpeningPoints` of `p3-commit`).
pub type CommitmentWithOpeningPoints<Challenge, Commitment, Domain> = CommitmentOpening<
    Challenge,
    Commitment,
    Domain,
>;

/// Prover data and, for each of its matrices, the points at which it is to be opened (`OpeningRequest` of `p3-commit`).
#[derive(Drop)]
pub struct OpeningRequest<'a, ProverData, Challenge> {
    /// The prover data of a commitment.
    pub prover_data: &'a ProverData,
    /// A list of points for each matrix.
    pub points: Vec<Vec<Challenge>>,
}

impl<'a, ProverData, Challenge> Model for OpeningRequest<'a, ProverData, Challenge> {
    ghost Value = { Request ProverData Challenge };

    ghost view = { λ s. record {
      prover_data = s.prover_data.now;
      points = map (λ v. v.items) s.points.items;
    } };
}

impl<'a, ProverData, Challenge> From<(&'a ProverData, Vec<Vec<Challenge>>)>
    for OpeningRequest<'a, ProverData, Challenge> {
    ghost from_gives = { λ pair request.
        request ≡ record { prover_data = pair.0.now; points = map (λ v. v.items) pair.1.items } };

    fn from((prover_data, points): (&'a ProverData, Vec<Vec<Challenge>>)) -> Self {
        OpeningRequest {
            prover_data,
            points,
        }
    }
}

impl<'a, ProverData, Challenge: Copy> OpeningRequest<'a, ProverData, Challenge> {
    /// A request equal to this one.
    pub fn try_clone(&self, alloc: Global) -> Mem<Self>
        ensures { IfOk result (λ r. r ≡ self.now) }
    {
        let mut points = Vec::with_capacity(alloc, self.points.len())?;
        for list in &self.points {
            points.push(Vec::from_slice(alloc, list)?)?;
        }
        Ok(OpeningRequest {
            prover_data: self.prover_data,
            points,
        })
    }
}

/// The values opened at one point, one for each column.
pub type OpenedValuesForPoint<F> = Vec<F>;

/// The values opened of one matrix, point by point.
pub type OpenedValuesForMatrix<F> = Vec<OpenedValuesForPoint<F>>;

/// The values opened of one commitment, matrix by matrix.
pub type OpenedValuesForRound<F> = Vec<OpenedValuesForMatrix<F>>;

/// The values that an opening gives, request by request.
pub type OpenedValues<F> = Vec<OpenedValuesForRound<F>>;
