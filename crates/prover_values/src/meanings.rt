//! What is read on a domain, and what is committed to of a quotient: laws as the contracts of functions that compute nothing.
ghost use Rattle.std.specs.Prelude.{◌≡◌, ℕ, ◌^◌, ◌<◌, ◌≤◌, List, map};
ghost use Rattle.p3_field.specs.Field.{TwoAdic, Extension};
ghost use Rattle.p3_field.specs.Domain.{CosetData, point};
ghost use Rattle.p3_matrix.specs.Matrix.{Rows, height};
ghost use Rattle.air_core.specs.Tree.{Tree};
ghost use Rattle.commit_core.specs.Commitments.{AreCommitted, Committed, IsEvaluated};
ghost use Rattle.commit_core.specs.Space.{EachOf};
ghost use Rattle.law_committed.specs.Committed.{CommittedTable};
ghost use Rattle.law_committed.specs.Fields.{FieldsLaws};
ghost use Rattle.law_committed.specs.Quotient.{IsQuotientDomain, honest_quotient};
ghost use Rattle.law_committed.specs.Traces.{IsSomeTall, IsTall};
ghost use Rattle.prover_values.specs.Chunks.{IsChunk};
ghost use Rattle.prover_values.specs.Evaluations.{Evaluations, IsReadOn};

/// Whatever matrices with a row for each point of a domain are given, they are a table's, of any height: so what
/// `quotient_values` says for each table that is read says of each call what it gives.
pub fn some_table_is_read<F, E>()
    ensures { (f : TwoAdic F) (e : Extension F E) (top : ℕ) (inverse : E → E) (d : CosetData F)
        (log_height : ℕ) (given : Evaluations F E) → FieldsLaws f e top inverse
        → d.log_size ≤ top → (d.shift ≡ f.ring.zero → ⊥) → IsTall (2 ^ d.log_size) given.main
        → IsSomeTall (2 ^ d.log_size) given.preprocessed
        → IsSomeTall (2 ^ d.log_size) given.permutation
        → (t : CommittedTable F E) × (t.log_height ≡ log_height) × IsReadOn f t d given }
{}

/// What a scheme gives as the values of committed polynomials on a domain is what `quotient_values` takes, where its domains have
/// their points as those of cosets, as each `CosetPcs` has: the values on the coset (`read`), with a row for each point unless
/// there is no column (`tall`).
pub fn evaluations_are_read<F>()
    ensures read { (f : TwoAdic F) (d : CosetData F) (points : ℕ) (point_at : ℕ → F)
        (c : Committed F) (m : Rows F) (size : ℕ) → points ≡ 2 ^ d.log_size
        → ((i : ℕ) → point_at i ≡ point f.ring f.root d i)
        → IsEvaluated f.ring points point_at c m
        → IsEvaluated f.ring (2 ^ d.log_size) (point f.ring f.root d)
        (record { size = size; polynomials = c.polynomials }) m }
    ensures tall { (f : TwoAdic F) (points : ℕ) (point_at : ℕ → F) (c : Committed F) (m : Rows F)
        → IsEvaluated f.ring points point_at c m → 0 < m.width → height m ≡ points }
{}

/// What is held of a commitment to the chunks of a table's quotient are the polynomials of the honest quotient's chunks, where
/// the scheme has its domains' points as those of cosets, as each `CosetPcs` has.
pub fn committed_chunks_are_honest<F, E>()
    ensures { (f : TwoAdic F) (e : Extension F E) (top : ℕ) (inverse : E → E)
        (t : CommittedTable F E) (trees : List (Tree F)) (alpha : E) (shift : F) (log_chunks : ℕ)
        (chunks : List (CosetData F × Rows F))
        (points : CosetData F → ℕ) (point_at : CosetData F → ℕ → F) (held : List (Committed F))
        → FieldsLaws f e top inverse
        → IsQuotientDomain f e t shift log_chunks top
        → EachOf (2 ^ log_chunks) chunks (IsChunk f e t shift log_chunks trees alpha)
        → ((d : CosetData F) → points d ≡ 2 ^ d.log_size)
        → ((d : CosetData F) (i : ℕ) → point_at d i ≡ point f.ring f.root d i)
        → AreCommitted f.ring points point_at chunks held
        → map (λ c. c.polynomials) held
        ≡ (honest_quotient f e t shift log_chunks trees alpha).chunks }
{}
