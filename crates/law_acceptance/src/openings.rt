//! That a backend opens honest proofs: laws as the contracts of functions that compute nothing.
ghost use Rattle.std.specs.Prelude.{◌≡◌, ℕ, ◌<◌, false, List, length, map, Option};
ghost use Rattle.std.specs.List.{flat_map};
ghost use Rattle.p3_field.specs.Domain.{CosetData, subgroup};
ghost use Rattle.p3_field.specs.Poly.{tabulate};
ghost use Rattle.p3_matrix.specs.Matrix.{Rows};
ghost use Rattle.air_core.specs.Shape.{HasColumns};
ghost use Rattle.commit_core.specs.Claims.{Request};
ghost use Rattle.commit_core.specs.Commitments.{AreCommitted, AreOpenedCommitments, AvoidAll, Committed, OpenedCommitment, IsOpening};
ghost use Rattle.batch_statement.specs.Statement.{Statement};
ghost use Rattle.law_valid.specs.Traced.{TracedTable, all_traced, declared, preprocessed_matrices, traced_at};
ghost use Rattle.law_valid.specs.Valid.{IsTracedBatch};
ghost use Rattle.law_honest.specs.HonestProof.{alpha, challenges_at, chunk_matrices, honest_claims, opening_state, permutation_matrices};
ghost use Rattle.law_acceptance.specs.Honest.{prover_with};
ghost use Rattle.law_acceptance.specs.Rounds.{AskFor, chunks, committed_of, opened_commitments_of, honest_rounds, mains, permutations, preprocesseds, values_in_rounds};

use batch_config::Settings;
use commit_core::{CosetPcs, Pcs, PolynomialSpace, UnivariateStarkPcs};
use p3_field::{
    BasedVectorSpace, ExtensionField, Field, FieldCore, PrimeCharacteristicRing, PrimeCore64,
    PrimeField64, RingCore, TwoAdicCore, TwoAdicField,
};
use p3_uni_stark::{StarkGenericConfig, Val};

/// What a backend that masks nothing keeps of the matrices of an honest proof of a traced batch, on the points of its own
/// domains, is what the rounds say: the polynomials of the committed tables, with their sizes. So it is for the traces
/// (`mains`), the quotients' chunks (`chunks`), the permutation columns (`permutations`), and the preprocessed traces
/// (`preprocesseds`), where each of these has a column, as an AIR's does.
pub fn honest_matrices_are_committed<SC: StarkGenericConfig>()
    ensures mains { (config : SC) (s : Statement SC.Val SC.Pcs.Commitment)
        (traces : List (Rows SC.Val)) (degree_bits : List ℕ)
        (commitment_of : List (CosetData SC.Val × Rows SC.Val) → SC.Pcs.Commitment)
        (w : Option SC.Val) (z : SC.Val) (held : List (Committed SC.Val))
        → let c = ⟦<SC as Settings>⟧.setting config in
        let p = prover_with SC.Challenge.inv SC.Val.canonical commitment_of in
        SC.Pcs.ZK ≡ false → IsTracedBatch c commitment_of s traces degree_bits
        → AreCommitted SC.Val.ring
        ⟦<<SC::Pcs as Pcs<SC::Challenge, SC::Challenger>>::Domain as PolynomialSpace>⟧.points
        ⟦<<SC::Pcs as Pcs<SC::Challenge, SC::Challenger>>::Domain as PolynomialSpace>⟧.point_at
        (map (λ (t : TracedTable SC.Val). (subgroup SC.Val.ring t.degree_bits, t.trace))
        (all_traced s traces degree_bits)) held
        → held ≡ committed_of (mains c p s traces degree_bits w z) }
    ensures chunks { (config : SC) (s : Statement SC.Val SC.Pcs.Commitment)
        (traces : List (Rows SC.Val)) (degree_bits : List ℕ)
        (commitment_of : List (CosetData SC.Val × Rows SC.Val) → SC.Pcs.Commitment)
        (w : Option SC.Val) (z : SC.Val) (held : List (Committed SC.Val))
        → let c = ⟦<SC as Settings>⟧.setting config in
        let p = prover_with SC.Challenge.inv SC.Val.canonical commitment_of in
        SC.Pcs.ZK ≡ false → IsTracedBatch c commitment_of s traces degree_bits
        → AreCommitted SC.Val.ring
        ⟦<<SC::Pcs as Pcs<SC::Challenge, SC::Challenger>>::Domain as PolynomialSpace>⟧.points
        ⟦<<SC::Pcs as Pcs<SC::Challenge, SC::Challenger>>::Domain as PolynomialSpace>⟧.point_at
        (flat_map (λ i. chunk_matrices c p (traced_at s traces degree_bits i)
        (challenges_at c p s traces degree_bits w i) (alpha c p s traces degree_bits w))
        (tabulate (length s.tables) (λ i. i))) held
        → held ≡ committed_of (chunks c p s traces degree_bits w z) }
    ensures permutations { (config : SC) (s : Statement SC.Val SC.Pcs.Commitment)
        (traces : List (Rows SC.Val)) (degree_bits : List ℕ)
        (commitment_of : List (CosetData SC.Val × Rows SC.Val) → SC.Pcs.Commitment)
        (w : Option SC.Val) (z : SC.Val) (held : List (Committed SC.Val))
        → let c = ⟦<SC as Settings>⟧.setting config in
        let p = prover_with SC.Challenge.inv SC.Val.canonical commitment_of in
        SC.Pcs.ZK ≡ false → IsTracedBatch c commitment_of s traces degree_bits
        → AreCommitted SC.Val.ring
        ⟦<<SC::Pcs as Pcs<SC::Challenge, SC::Challenger>>::Domain as PolynomialSpace>⟧.points
        ⟦<<SC::Pcs as Pcs<SC::Challenge, SC::Challenger>>::Domain as PolynomialSpace>⟧.point_at
        (flat_map (λ i. permutation_matrices c p (traced_at s traces degree_bits i)
        (challenges_at c p s traces degree_bits w i)) (tabulate (length s.tables) (λ i. i))) held
        → held ≡ committed_of (permutations c p s traces degree_bits w z) }
    ensures preprocesseds { (config : SC) (s : Statement SC.Val SC.Pcs.Commitment)
        (traces : List (Rows SC.Val)) (degree_bits : List ℕ)
        (commitment_of : List (CosetData SC.Val × Rows SC.Val) → SC.Pcs.Commitment)
        (w : Option SC.Val) (z : SC.Val) (held : List (Committed SC.Val))
        → let c = ⟦<SC as Settings>⟧.setting config in
        let p = prover_with SC.Challenge.inv SC.Val.canonical commitment_of in
        SC.Pcs.ZK ≡ false → IsTracedBatch c commitment_of s traces degree_bits
        → ((i : ℕ) → i < length s.tables
        → HasColumns (declared (traced_at s traces degree_bits i)).preprocessed)
        → AreCommitted SC.Val.ring
        ⟦<<SC::Pcs as Pcs<SC::Challenge, SC::Challenger>>::Domain as PolynomialSpace>⟧.points
        ⟦<<SC::Pcs as Pcs<SC::Challenge, SC::Challenger>>::Domain as PolynomialSpace>⟧.point_at
        (preprocessed_matrices SC.Val.ring.one (all_traced s traces degree_bits)) held
        → held ≡ committed_of (preprocesseds c p s traces degree_bits w z) }
{}

/// A backend that masks nothing opens an honest proof of a traced batch: where the requests ask for each round's matrices at
/// their points, and their prover data holds what the rounds hold, what the backend's `open` gives from the state of the
/// openings is this. The proof is taken for the honest claims, unless a point is excluded (`taken`), and the values are those
/// of the committed polynomials (`values`).
pub fn an_honest_opening_is_taken<SC: StarkGenericConfig>()
    ensures taken { (config : SC) (s : Statement SC.Val SC.Pcs.Commitment)
        (traces : List (Rows SC.Val)) (degree_bits : List ℕ)
        (commitment_of : List (CosetData SC.Val × Rows SC.Val) → SC.Pcs.Commitment)
        (w : Option SC.Val) (z : SC.Val)
        (requests : List (Request SC.Pcs.ProverData SC.Challenge))
        (values : List (List (List (List SC.Challenge)))) (proof : SC.Pcs.Proof)
        → let c = ⟦<SC as Settings>⟧.setting config in
        let p = prover_with SC.Challenge.inv SC.Val.canonical commitment_of in
        SC.Pcs.ZK ≡ false → IsTracedBatch c commitment_of s traces degree_bits
        → AskFor (honest_rounds c p s traces degree_bits w z) requests
        → AreOpenedCommitments (SC.Pcs.holds (SC.pcs_of config)) requests
        (opened_commitments_of (honest_rounds c p s traces degree_bits w z))
        → ((held : List (OpenedCommitment SC.Pcs.Commitment SC.Val))
        → AreOpenedCommitments (SC.Pcs.holds (SC.pcs_of config)) requests held
        → IsOpening SC.Challenge.ring SC.Challenge.embed
        ⟦<<SC::Pcs as Pcs<SC::Challenge, SC::Challenger>>::Domain as PolynomialSpace>⟧.points
        (SC.Pcs.excludes (SC.pcs_of config))
        (λ claims. SC.Pcs.opens (SC.pcs_of config) (opening_state c p s traces degree_bits w z)
        claims proof) requests values held)
        → AvoidAll (SC.Pcs.excludes (SC.pcs_of config)) requests
        → SC.Pcs.opens (SC.pcs_of config) (opening_state c p s traces degree_bits w z)
        (honest_claims c p s traces degree_bits w z proof) proof }
    ensures values { (config : SC) (s : Statement SC.Val SC.Pcs.Commitment)
        (traces : List (Rows SC.Val)) (degree_bits : List ℕ)
        (commitment_of : List (CosetData SC.Val × Rows SC.Val) → SC.Pcs.Commitment)
        (w : Option SC.Val) (z : SC.Val)
        (requests : List (Request SC.Pcs.ProverData SC.Challenge))
        (values : List (List (List (List SC.Challenge)))) (proof : SC.Pcs.Proof)
        → let c = ⟦<SC as Settings>⟧.setting config in
        let p = prover_with SC.Challenge.inv SC.Val.canonical commitment_of in
        SC.Pcs.ZK ≡ false → IsTracedBatch c commitment_of s traces degree_bits
        → AskFor (honest_rounds c p s traces degree_bits w z) requests
        → AreOpenedCommitments (SC.Pcs.holds (SC.pcs_of config)) requests
        (opened_commitments_of (honest_rounds c p s traces degree_bits w z))
        → ((held : List (OpenedCommitment SC.Pcs.Commitment SC.Val))
        → AreOpenedCommitments (SC.Pcs.holds (SC.pcs_of config)) requests held
        → IsOpening SC.Challenge.ring SC.Challenge.embed
        ⟦<<SC::Pcs as Pcs<SC::Challenge, SC::Challenger>>::Domain as PolynomialSpace>⟧.points
        (SC.Pcs.excludes (SC.pcs_of config))
        (λ claims. SC.Pcs.opens (SC.pcs_of config) (opening_state c p s traces degree_bits w z)
        claims proof) requests values held)
        → values ≡ values_in_rounds SC.Challenge.ring SC.Challenge.embed
        (honest_rounds c p s traces degree_bits w z) }
{}
