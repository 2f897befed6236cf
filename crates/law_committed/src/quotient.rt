//! The quotient that an honest prover commits to: laws as the contracts of functions that compute nothing.
ghost use Rattle.std.specs.Prelude.{◌≡◌, ℕ, ◌+◌, ◌*◌, ◌^◌, ◌<◌, ◌≤◌, List, [], All, get_or};
ghost use Rattle.p3_field.specs.Ring.{pow};
ghost use Rattle.p3_field.specs.Field.{TwoAdic, Extension};
ghost use Rattle.p3_field.specs.Poly.{tabulate, eval_poly};
ghost use Rattle.p3_field.specs.Domain.{IsInterpolant, point};
ghost use Rattle.air_core.specs.Degree.{full_polynomial_degree};
ghost use Rattle.air_core.specs.Tree.{Tree};
ghost use Rattle.law_committed.specs.Committed.{CommittedTable, Holds, IsBounded, table_periods_of, row_count_of};
ghost use Rattle.law_committed.specs.Fields.{FieldsLaws, baby_bear_field, quartic_extension};
ghost use Rattle.law_committed.specs.Identity.{CommittedIdentity, IsBoundedQuotient, quotient_poly, rows_vanishing_polynomial};
ghost use Rattle.law_committed.specs.Quotient.{IsQuotientDomain, chunk_cell, chunk_domain, fold_quotient, quotient_value, folded_poly, honest_chunk, honest_quotient, quotient_domain};

use p3_field::{BabyBear, QuarticExtension};

/// A coset is a quotient domain, apart from the rows, where its shift isn't zero, nor one to the power of its size.
pub fn shifts_give_quotient_domains<F, E>()
    ensures { (f : TwoAdic F) (e : Extension F E) (top : ℕ) (inverse : E → E)
        (t : CommittedTable F E) (shift : F) (log_chunks : ℕ) → FieldsLaws f e top inverse
        → t.log_height + log_chunks ≤ top → (shift ≡ f.ring.zero → ⊥)
        → (pow f.ring shift (2 ^ (t.log_height + log_chunks)) ≡ f.ring.one → ⊥)
        → IsQuotientDomain f e t shift log_chunks top }
{}

/// So over `BabyBear` its generator gives one for each height and number of chunks up to the largest subgroup.
pub fn baby_bear_has_quotient_domains()
    ensures { (t : CommittedTable BabyBear QuarticExtension) (log_chunks : ℕ)
        → t.log_height + log_chunks ≤ 27
        → IsQuotientDomain baby_bear_field quartic_extension t baby_bear_field.generator log_chunks
        27 }
{}

/// Where a table holds, the fold by alpha of its trees' polynomials is the vanishing polynomial times another (`divides`),
/// which has the honest quotient's values on the quotient domain (`values`).
pub fn a_table_that_holds_has_a_quotient<F, E>()
    ensures divides { (f : TwoAdic F) (e : Extension F E) (top : ℕ) (inverse : E → E)
        (t : CommittedTable F E) (trees : List (Tree F)) (alpha x : E) → FieldsLaws f e top inverse
        → t.log_height ≤ top → Holds f e t trees
        → eval_poly e.ring (folded_poly f e t trees alpha) x
        ≡ e.ring.mul (eval_poly e.ring (rows_vanishing_polynomial f e t) x)
        (eval_poly e.ring (fold_quotient f e t trees alpha) x) }
    ensures values { (f : TwoAdic F) (e : Extension F E) (top : ℕ) (inverse : E → E)
        (t : CommittedTable F E) (trees : List (Tree F)) (alpha : E) (shift : F)
        (log_chunks m : ℕ) → FieldsLaws f e top inverse
        → IsQuotientDomain f e t shift log_chunks top → Holds f e t trees
        → m < 2 ^ (t.log_height + log_chunks)
        → quotient_value f e t shift log_chunks trees alpha
        (point f.ring f.root (quotient_domain f e t shift log_chunks) m)
        ≡ eval_poly e.ring (fold_quotient f e t trees alpha)
        (e.embed (point f.ring f.root (quotient_domain f e t shift log_chunks) m)) }
{}

/// The honest chunks are over domains of the table's height, with polynomials of degrees below it (`bounded`): each is the
/// only interpolant of its cells (`only`). Where the table holds, it is bounded, and each tree's degree over its n rows is
/// below n (C + 1) for C chunks, the quotient that is recombined of the chunks is at every point that of the fold by the
/// vanishing polynomial (`recombined`), and so the identity holds at every point (`identity`).
pub fn an_honest_quotient_is_that_of_the_fold<F, E>()
    ensures bounded { (f : TwoAdic F) (e : Extension F E) (top : ℕ) (inverse : E → E)
        (t : CommittedTable F E) (trees : List (Tree F)) (alpha : E) (shift : F)
        (log_chunks : ℕ) → FieldsLaws f e top inverse
        → IsQuotientDomain f e t shift log_chunks top
        → IsBoundedQuotient f t (honest_quotient f e t shift log_chunks trees alpha) }
    ensures only { (f : TwoAdic F) (e : Extension F E) (top : ℕ) (inverse : E → E)
        (t : CommittedTable F E) (trees : List (Tree F)) (alpha : E) (shift : F)
        (log_chunks i k : ℕ) (g : List F) → FieldsLaws f e top inverse
        → IsQuotientDomain f e t shift log_chunks top → k < e.dimension
        → IsInterpolant f.ring (point f.ring f.root (chunk_domain f e t shift log_chunks i))
        (tabulate (row_count_of t) (chunk_cell f e t shift log_chunks trees alpha i k)) g
        → g ≡ get_or (honest_chunk f e t shift log_chunks trees alpha i) k [] }
    ensures recombined { (f : TwoAdic F) (e : Extension F E) (top : ℕ) (inverse : E → E)
        (t : CommittedTable F E) (trees : List (Tree F)) (alpha : E) (shift : F)
        (log_chunks : ℕ) (x : E) → FieldsLaws f e top inverse
        → IsQuotientDomain f e t shift log_chunks top → IsBounded f t → Holds f e t trees
        → All (λ tree. full_polynomial_degree (row_count_of t) (table_periods_of t) tree
        < row_count_of t * (2 ^ log_chunks + 1)) trees
        → eval_poly e.ring (quotient_poly f e (honest_quotient f e t shift log_chunks trees alpha))
        x ≡ eval_poly e.ring (fold_quotient f e t trees alpha) x }
    ensures identity { (f : TwoAdic F) (e : Extension F E) (top : ℕ) (inverse : E → E)
        (t : CommittedTable F E) (trees : List (Tree F)) (alpha : E) (shift : F)
        (log_chunks : ℕ) (x : E) → FieldsLaws f e top inverse
        → IsQuotientDomain f e t shift log_chunks top → IsBounded f t → Holds f e t trees
        → All (λ tree. full_polynomial_degree (row_count_of t) (table_periods_of t) tree
        < row_count_of t * (2 ^ log_chunks + 1)) trees
        → CommittedIdentity f e t trees (honest_quotient f e t shift log_chunks trees alpha) alpha
        x }
{}
