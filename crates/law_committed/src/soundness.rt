//! What an identity at a drawn point says of a committed table, and how many draws are unlucky: laws as the contracts of
//! functions that compute nothing.
ghost use Rattle.std.specs.Prelude.{◌≡◌, ◌⊎◌, ℕ, ◌+◌, ◌-◌, ◌*◌, ◌<◌, ◌≤◌, max, List, All, length};
ghost use Rattle.p3_field.specs.Field.{TwoAdic, Extension};
ghost use Rattle.air_core.specs.Degree.{full_polynomial_degree};
ghost use Rattle.air_core.specs.Tree.{Tree};
ghost use Rattle.law_committed.specs.Batch.{AllHold, AreIdentities, DividedTable, IsUnluckyAlphaOfBatch, IsUnluckyZetaOfBatch};
ghost use Rattle.law_committed.specs.Committed.{CommittedTable, Holds, IsBounded, table_periods_of, row_count_of};
ghost use Rattle.law_committed.specs.Fields.{FieldsLaws};
ghost use Rattle.law_committed.specs.Identity.{CommittedIdentity, CommittedQuotient, IsBoundedQuotient, chunk_count_of};
ghost use Rattle.law_committed.specs.Unlucky.{AreDistinct, IsUnluckyAlpha, IsUnluckyAlphaAt, IsUnluckyZeta};

/// Where the identity of a committed table holds at zeta, each of its trees is zero on each of its rows, or alpha is unlucky,
/// or zeta is.
pub fn an_identity_makes_a_table_hold<F, E>()
    ensures { (f : TwoAdic F) (e : Extension F E) (top : ℕ) (inverse : E → E)
        (t : CommittedTable F E) (trees : List (Tree F)) (q : CommittedQuotient F) (alpha zeta : E)
        → FieldsLaws f e top inverse
        → t.log_height ≤ top → CommittedIdentity f e t trees q alpha zeta
        → Holds f e t trees ⊎ (IsUnluckyAlpha f e t trees alpha
        ⊎ IsUnluckyZeta f e t trees q alpha zeta) }
{}

/// The same of a batch with one alpha and one zeta: where each table's identity holds at zeta, each table holds, or one of the
/// two is unlucky for some table.
pub fn identities_make_a_batch_hold<F, E>()
    ensures { (f : TwoAdic F) (e : Extension F E) (top : ℕ) (inverse : E → E)
        (batch : List (DividedTable F E)) (alpha zeta : E) → FieldsLaws f e top inverse
        → All (λ b. b.table.log_height ≤ top) batch → AreIdentities f e batch alpha zeta
        → AllHold f e batch ⊎ (IsUnluckyAlphaOfBatch f e batch alpha
        ⊎ IsUnluckyZetaOfBatch f e batch alpha zeta) }
{}

/// Fewer alphas are unlucky at a row than the table has trees (`row`), and none without trees (`none`); on all n rows at most
/// n (N - 1) are, for N trees (`rows`).
pub fn few_alphas_are_unlucky<F, E>()
    ensures row { (f : TwoAdic F) (e : Extension F E) (top : ℕ) (inverse : E → E)
        (t : CommittedTable F E) (trees : List (Tree F)) (i : ℕ) (alphas : List E)
        → FieldsLaws f e top inverse
        → 0 < length trees → AreDistinct e.ring.zero alphas
        → All (IsUnluckyAlphaAt f e t trees i) alphas → length alphas < length trees }
    ensures none { (f : TwoAdic F) (e : Extension F E) (t : CommittedTable F E)
        (trees : List (Tree F)) (alpha : E)
        → length trees ≡ 0 → IsUnluckyAlpha f e t trees alpha → ⊥ }
    ensures rows { (f : TwoAdic F) (e : Extension F E) (top : ℕ) (inverse : E → E)
        (t : CommittedTable F E) (trees : List (Tree F)) (alphas : List E)
        → FieldsLaws f e top inverse
        → AreDistinct e.ring.zero alphas → All (IsUnluckyAlpha f e t trees) alphas
        → length alphas ≤ row_count_of t * (length trees - 1) }
{}

/// For a bounded table of n rows and a bounded quotient of C chunks at most the larger of p and n (C + 1) - 1 zetas are
/// unlucky, where no tree's degree over the rows is above p; these degrees don't stop at the greatest `usize`.
pub fn few_zetas_are_unlucky<F, E>()
    ensures { (f : TwoAdic F) (e : Extension F E) (top : ℕ) (inverse : E → E)
        (t : CommittedTable F E) (trees : List (Tree F)) (q : CommittedQuotient F) (alpha : E)
        (p : ℕ) (zetas : List E) → FieldsLaws f e top inverse
        → t.log_height ≤ top → IsBounded f t → IsBoundedQuotient f t q
        → All (λ tree. full_polynomial_degree (row_count_of t) (table_periods_of t) tree ≤ p) trees
        → AreDistinct e.ring.zero zetas → All (IsUnluckyZeta f e t trees q alpha) zetas
        → length zetas ≤ max p (row_count_of t * (chunk_count_of q + 1) - 1) }
{}
