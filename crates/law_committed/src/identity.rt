//! The identity of a committed table's constraints with their quotient: laws as the contracts of functions that compute
//! nothing.
ghost use Rattle.std.specs.Prelude.{◌≡◌, ◌↔◌, ℕ, suc, ◌+◌, ◌-◌, ◌*◌, ◌<◌, ◌≤◌, max, List, All, map};
ghost use Rattle.p3_field.specs.Ring.{sub};
ghost use Rattle.p3_field.specs.Field.{TwoAdic, Extension};
ghost use Rattle.p3_field.specs.Poly.{eval_poly, DegreeBelow};
ghost use Rattle.air_core.specs.Degree.{full_polynomial_degree};
ghost use Rattle.air_core.specs.Tree.{Tree, eval_tree};
ghost use Rattle.p3_uni_stark.specs.Fold.{fold};
ghost use Rattle.p3_uni_stark.specs.Recombine.{recombined};
ghost use Rattle.law_committed.specs.Committed.{CommittedTable, IsBounded, table_periods_of, reading, row_count_of};
ghost use Rattle.law_committed.specs.Fields.{FieldsLaws};
ghost use Rattle.law_committed.specs.Identity.{CommittedIdentity, CommittedQuotient, IsBoundedQuotient, chunk_values, chunk_count_of, identity_poly, quotient_poly, rows_vanishing_polynomial};

/// A quotient's polynomial has at each point the value that is recombined from its chunks' values there (`quotient`). The
/// value of the identity polynomial is the fold of the trees' values, minus that of the vanishing polynomial times the
/// quotient's (`value`), so that it is zero exactly where the identity holds (`root`).
pub fn an_identity_holds_at_roots<F, E>()
    ensures quotient { (f : TwoAdic F) (e : Extension F E) (top : ℕ) (inverse : E → E)
        (q : CommittedQuotient F) (x : E) → FieldsLaws f e top inverse
        → eval_poly e.ring (quotient_poly f e q) x
        ≡ recombined f e q.domains (chunk_values f e q x) x }
    ensures value { (f : TwoAdic F) (e : Extension F E) (top : ℕ) (inverse : E → E)
        (t : CommittedTable F E) (trees : List (Tree F)) (q : CommittedQuotient F)
        (alpha x : E) → FieldsLaws f e top inverse
        → eval_poly e.ring (identity_poly f e t trees q alpha) x
        ≡ sub e.ring (fold e.ring alpha (map (eval_tree (reading f e t x)) trees))
        (e.ring.mul (eval_poly e.ring (rows_vanishing_polynomial f e t) x)
        (recombined f e q.domains (chunk_values f e q x) x)) }
    ensures root { (f : TwoAdic F) (e : Extension F E) (top : ℕ) (inverse : E → E)
        (t : CommittedTable F E) (trees : List (Tree F)) (q : CommittedQuotient F) (alpha x : E)
        → FieldsLaws f e top inverse
        → CommittedIdentity f e t trees q alpha x
        ↔ (eval_poly e.ring (identity_poly f e t trees q alpha) x ≡ e.ring.zero) }
{}

/// For a bounded table of n rows and a quotient of C chunks, which are over domains of n points and have degrees below n, the
/// quotient's polynomial has a degree below n C (`quotient`). The identity polynomial has at most the larger of p and
/// n (C + 1) - 1, where no tree's degree over the rows is above p (`identity`); these degrees don't stop at the greatest
/// `usize`.
pub fn an_identity_has_a_degree<F, E>()
    ensures quotient { (f : TwoAdic F) (e : Extension F E) (top : ℕ) (inverse : E → E)
        (t : CommittedTable F E) (q : CommittedQuotient F) → FieldsLaws f e top inverse
        → IsBoundedQuotient f t q
        → DegreeBelow e.ring (chunk_count_of q * row_count_of t) (quotient_poly f e q) }
    ensures identity { (f : TwoAdic F) (e : Extension F E) (top : ℕ) (inverse : E → E)
        (t : CommittedTable F E) (trees : List (Tree F)) (q : CommittedQuotient F)
        (alpha : E) (p : ℕ) → FieldsLaws f e top inverse
        → t.log_height ≤ top → IsBounded f t → IsBoundedQuotient f t q
        → All (λ tree. full_polynomial_degree (row_count_of t) (table_periods_of t) tree ≤ p) trees
        → DegreeBelow e.ring (suc (max p (row_count_of t * (chunk_count_of q + 1) - 1)))
        (identity_poly f e t trees q alpha) }
{}
