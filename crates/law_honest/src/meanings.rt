//! What the honest proof is: laws as the contracts of functions that compute nothing.
ghost use Rattle.std.specs.Prelude.{◌≡◌, ◌⊎◌, ℕ, ◌+◌, ◌*◌, ◌^◌, ◌<◌, Bool, true, List, length, All, Option, Some, Ok, Err, option_to_list};
ghost use Rattle.std.specs.List.{flat_map};
ghost use Rattle.p3_field.specs.Checks.{NoneFails};
ghost use Rattle.p3_field.specs.Ring.{of_nat};
ghost use Rattle.p3_field.specs.Domain.{CosetData};
ghost use Rattle.p3_matrix.specs.Matrix.{FillsRows, Rows, height};
ghost use Rattle.commit_core.specs.Commitments.{AreParts};
ghost use Rattle.commit_core.specs.Space.{IsPart};
ghost use Rattle.air_core.specs.Shape.{ReadsDeclared, declared_shape};
ghost use Rattle.p3_lookup.specs.Generated.{IsGenerated};
ghost use Rattle.p3_lookup.specs.Term.{sum_of};
ghost use Rattle.p3_lookup.specs.declared.terminal.GenerateError.TheVariants.{DenominatorZero};
ghost use Rattle.p3_lookup.specs.declared.terminal.LookupTerminal.{LookupTerminal};
ghost use Rattle.batch_config.specs.Setting.{Setting};
ghost use Rattle.batch_statement.specs.Proof.{ProofData};
ghost use Rattle.batch_statement.specs.Statement.{Statement};
ghost use Rattle.verifier_draws.specs.Draws.{drawn, grinding_checks, table_challenges};
ghost use Rattle.law_committed.specs.Committed.{Holds};
ghost use Rattle.law_committed.specs.Fields.{AreDecided, FieldsLaws};
ghost use Rattle.law_committed.specs.Identity.{CommittedIdentity};
ghost use Rattle.law_committed.specs.Quotient.{honest_quotient, quotient_domain};
ghost use Rattle.law_valid.specs.Traced.{TracedTable, constraints, declared, log_parts, log_rows, quotient_shift, traced_at};
ghost use Rattle.law_valid.specs.Valid.{IsTracedBatch, Valid};
ghost use Rattle.law_honest.specs.HonestProof.{AreCanonical, AreLogHeights, CanBeBuilt, FractionsAt, HasZeroDenominator, HasQuotientRows, HaveFractions, IsBuilt, IsDenominatorZero, IsLookupGround, IsOodGround, LacksLookupGround, LacksOodGround, Prover, alpha, argument_of_table, challenges_at, chunk_matrices, honest_committed_at, committed_table, honest_proof, opening_state, permutation_columns, honest_terminal, terminals, zeta};

/// What a verifier draws along an honest proof is what its parts were made of, each draw over the parts before it: the challenges
/// of each table's lookups (`challenges`), the challenge that folds the constraints (`alpha`), the point of the openings
/// (`zeta`), and the challenger's state in which they are proved (`opening`).
pub fn an_honest_proofs_draws_are_its_own<C, F, E, Com, Opening>()
    ensures challenges { (c : Setting C F E Com) (p : Prover F E Com) (s : Statement F Com)
        (traces : List (Rows F)) (degree_bits : List ℕ) (lookup_witness : Option F)
        (ood_witness : F) (opening : Opening) (i : ℕ)
        → table_challenges c.extension.ring
        (drawn c.challenger c.field.ring c.extension.ring c.extension.dimension c.initial c.version
        c.zk c.lookup_bits c.ood_bits s
        (honest_proof c p s traces degree_bits lookup_witness ood_witness opening)) s i
        ≡ challenges_at c p s traces degree_bits lookup_witness i }
    ensures alpha { (c : Setting C F E Com) (p : Prover F E Com) (s : Statement F Com)
        (traces : List (Rows F)) (degree_bits : List ℕ) (lookup_witness : Option F)
        (ood_witness : F) (opening : Opening)
        → (drawn c.challenger c.field.ring c.extension.ring c.extension.dimension c.initial
        c.version c.zk c.lookup_bits c.ood_bits s
        (honest_proof c p s traces degree_bits lookup_witness ood_witness opening)).alpha
        ≡ alpha c p s traces degree_bits lookup_witness }
    ensures zeta { (c : Setting C F E Com) (p : Prover F E Com) (s : Statement F Com)
        (traces : List (Rows F)) (degree_bits : List ℕ) (lookup_witness : Option F)
        (ood_witness : F) (opening : Opening)
        → (drawn c.challenger c.field.ring c.extension.ring c.extension.dimension c.initial
        c.version c.zk c.lookup_bits c.ood_bits s
        (honest_proof c p s traces degree_bits lookup_witness ood_witness opening)).zeta
        ≡ zeta c p s traces degree_bits lookup_witness ood_witness }
    ensures opening { (c : Setting C F E Com) (p : Prover F E Com) (s : Statement F Com)
        (traces : List (Rows F)) (degree_bits : List ℕ) (lookup_witness : Option F)
        (ood_witness : F) (opening : Opening)
        → (drawn c.challenger c.field.ring c.extension.ring c.extension.dimension c.initial
        c.version c.zk c.lookup_bits c.ood_bits s
        (honest_proof c p s traces degree_bits lookup_witness ood_witness opening)).opening
        ≡ opening_state c p s traces degree_bits lookup_witness ood_witness }
{}

/// A verifier takes the grinding values of an honest proof, which are the least that pass: no check of these values fails. The
/// canonical numbers are those of a prime field's values.
pub fn an_honest_proofs_grinding_is_taken<C, F, E, Com, Opening, R>()
    ensures { (c : Setting C F E Com) (p : Prover F E Com) (s : Statement F Com)
        (traces : List (Rows F)) (degree_bits : List ℕ) (lookup_witness : Option F)
        (ood_witness : F) (opening : Opening)
        → AreCanonical c.field.ring c.order p.canonical
        → IsLookupGround c p s traces degree_bits lookup_witness
        → IsOodGround c p s traces degree_bits lookup_witness ood_witness
        → NoneFails (grinding_checks c.challenger c.field.ring c.extension.ring
        c.extension.dimension c.initial c.version c.zk c.lookup_bits c.ood_bits s
        (honest_proof c p s traces degree_bits lookup_witness ood_witness opening) {R = R}) }
{}

/// Configuration, statement, traces and the proof of the openings fix the honest proof: two that are built so are one
/// (`by_openings`). So where a proof of openings says nothing, as the plain backend's, there is one honest proof at most (`plain`).
pub fn there_is_one_honest_proof<C, F, E, Com, Opening>()
    ensures by_openings { (c : Setting C F E Com) (p : Prover F E Com) (s : Statement F Com)
        (traces : List (Rows F)) (degree_bits : List ℕ) (q r : ProofData F E Com Opening)
        → AreCanonical c.field.ring c.order p.canonical
        → IsBuilt c p s traces degree_bits q → IsBuilt c p s traces degree_bits r
        → q.opening_proof ≡ r.opening_proof → q ≡ r }
    ensures plain { (c : Setting C F E Com) (p : Prover F E Com) (s : Statement F Com)
        (traces : List (Rows F)) (degree_bits : List ℕ) (q r : ProofData F E Com Opening)
        → AreCanonical c.field.ring c.order p.canonical → ((x y : Opening) → x ≡ y)
        → IsBuilt c p s traces degree_bits q → IsBuilt c p s traces degree_bits r → q ≡ r }
{}

/// Either an event comes, the first of the three, or there are grinding values with which a proof is built honestly, whatever
/// proves its openings. The canonical numbers are those of a prime field's values.
pub fn an_event_comes_or_a_proof_is_built<C, F, E, Com, Opening>()
    ensures { (c : Setting C F E Com) (p : Prover F E Com) (s : Statement F Com)
        (traces : List (Rows F)) (degree_bits : List ℕ)
        → ((n : ℕ) → n < c.order → p.canonical (of_nat c.field.ring n) ≡ n) → AreDecided E
        → AreLogHeights c p s traces degree_bits
        → LacksLookupGround c p s traces degree_bits
        ⊎ (HasZeroDenominator c p s traces degree_bits
        ⊎ (LacksOodGround c p s traces degree_bits ⊎ CanBeBuilt c p s traces degree_bits Opening)) }
{}

/// One event comes at most: a grind without a value excludes the events after it (`lookup`), a zero denominator the grind before
/// zeta (`denominator`); and a zero denominator has one place (`place`).
pub fn one_event_comes_at_most<C, F, E, Com>()
    ensures lookup { (c : Setting C F E Com) (p : Prover F E Com) (s : Statement F Com)
        (traces : List (Rows F)) (degree_bits : List ℕ)
        → AreCanonical c.field.ring c.order p.canonical → LacksLookupGround c p s traces degree_bits
        → (HasZeroDenominator c p s traces degree_bits ⊎ LacksOodGround c p s traces degree_bits)
        → ⊥ }
    ensures denominator { (c : Setting C F E Com) (p : Prover F E Com) (s : Statement F Com)
        (traces : List (Rows F)) (degree_bits : List ℕ)
        → AreCanonical c.field.ring c.order p.canonical
        → HasZeroDenominator c p s traces degree_bits → LacksOodGround c p s traces degree_bits
        → ⊥ }
    ensures place { (c : Setting C F E Com) (p : Prover F E Com) (s : Statement F Com)
        (traces : List (Rows F)) (degree_bits : List ℕ) (i row j other : ℕ)
        → AreCanonical c.field.ring c.order p.canonical
        → IsDenominatorZero c p s traces degree_bits i row
        → IsDenominatorZero c p s traces degree_bits j other
        → (i ≡ j) × (row ≡ other) }
{}

/// Where an event comes there is no honest proof: where no number passes the lookups' grind, no value is ground (`lookup`); where
/// a denominator is zero, not all tables have their fractions (`denominator`); where no number passes the grind before zeta, no
/// value is ground there (`ood`).
pub fn no_honest_proof_where_an_event_comes<C, F, E, Com>()
    ensures lookup { (c : Setting C F E Com) (p : Prover F E Com) (s : Statement F Com)
        (traces : List (Rows F)) (degree_bits : List ℕ) (lookup_witness : Option F)
        → AreCanonical c.field.ring c.order p.canonical → LacksLookupGround c p s traces degree_bits
        → IsLookupGround c p s traces degree_bits lookup_witness → ⊥ }
    ensures denominator { (c : Setting C F E Com) (p : Prover F E Com) (s : Statement F Com)
        (traces : List (Rows F)) (degree_bits : List ℕ) (i row : ℕ) (lookup_witness : Option F)
        → AreCanonical c.field.ring c.order p.canonical
        → IsDenominatorZero c p s traces degree_bits i row
        → IsLookupGround c p s traces degree_bits lookup_witness
        → HaveFractions c p s traces degree_bits lookup_witness → ⊥ }
    ensures ood { (c : Setting C F E Com) (p : Prover F E Com) (s : Statement F Com)
        (traces : List (Rows F)) (degree_bits : List ℕ) (lookup_witness : Option F)
        (ood_witness : F)
        → AreCanonical c.field.ring c.order p.canonical → LacksOodGround c p s traces degree_bits
        → IsLookupGround c p s traces degree_bits lookup_witness
        → IsOodGround c p s traces degree_bits lookup_witness ood_witness → ⊥ }
{}

/// The degree bits of a traced batch are the logarithms of the heights (`heights`). Where besides the statement is valid, its AIRs
/// read declared cells alone, as each AIR does, and no denominator is zero, all constraints of each table that an honest proof
/// commits to are zero on its rows (`holds`), and their identity with the honest quotient holds at every point (`identity`). For
/// a table of n rows and a quotient of C chunks, n (C + 1) is below 2^64.
pub fn honest_tables_hold<C, F, E, Com>()
    ensures heights { (c : Setting C F E Com) (p : Prover F E Com) (s : Statement F Com)
        (traces : List (Rows F)) (degree_bits : List ℕ)
        → IsTracedBatch c p.commitment_of s traces degree_bits
        → AreLogHeights c p s traces degree_bits }
    ensures holds { (c : Setting C F E Com) (p : Prover F E Com) (eq : F → F → Bool)
        (s : Statement F Com) (traces : List (Rows F)) (degree_bits : List ℕ)
        (lookup_witness : Option F) (i : ℕ)
        → FieldsLaws c.field c.extension c.two_adicity p.inverse
        → Valid c eq p.commitment_of s traces degree_bits → i < length s.tables
        → let t = traced_at s traces degree_bits i in
        All (ReadsDeclared (declared_shape (declared t))) t.table.trees
        → HaveFractions c p s traces degree_bits lookup_witness
        → Holds c.field c.extension (honest_committed_at c p s traces degree_bits lookup_witness i)
        (constraints c t) }
    ensures identity { (c : Setting C F E Com) (p : Prover F E Com) (eq : F → F → Bool)
        (s : Statement F Com) (traces : List (Rows F)) (degree_bits : List ℕ)
        (lookup_witness : Option F) (i : ℕ) (folding x : E)
        → FieldsLaws c.field c.extension c.two_adicity p.inverse
        → Valid c eq p.commitment_of s traces degree_bits → i < length s.tables
        → let t = traced_at s traces degree_bits i in
        All (ReadsDeclared (declared_shape (declared t))) t.table.trees
        → HaveFractions c p s traces degree_bits lookup_witness
        → 2 ^ log_rows c t * (2 ^ log_parts c t + 1) < 2 ^ 64
        → let k = honest_committed_at c p s traces degree_bits lookup_witness i in
        CommittedIdentity c.field c.extension k (constraints c t)
        (honest_quotient c.field c.extension k (quotient_shift c) (log_parts c t) (constraints c t)
        folding) folding x }
{}

/// Where a statement with traces is valid, the terminals of its honest proof sum to zero, whatever is drawn for the lookups. `eq` is
/// equality of values.
pub fn honest_terminals_sum_to_zero<C, F, E, Com>()
    ensures { (c : Setting C F E Com) (p : Prover F E Com) (eq : F → F → Bool) (s : Statement F Com)
        (traces : List (Rows F)) (degree_bits : List ℕ) (lookup_witness : Option F)
        → FieldsLaws c.field c.extension c.two_adicity p.inverse
        → ((x y : F) → eq x y ≡ true → x ≡ y) → ((x : F) → eq x x ≡ true)
        → Valid c eq p.commitment_of s traces degree_bits
        → sum_of c.extension.ring
        (flat_map option_to_list (terminals c p s traces degree_bits lookup_witness))
        ≡ c.extension.ring.zero }
{}

/// The chunks that an honest prover commits to are what splitting its quotient gives: where a matrix has the quotient's values row by
/// row, as coefficients, the parts of the quotient's domain with their parts of this matrix are the chunks.
pub fn a_split_quotient_is_its_chunks<C, F, E, Com>()
    ensures { (c : Setting C F E Com) (p : Prover F E Com) (t : TracedTable F) (challenges : List E)
        (folding : E) (m : Rows F) (pieces : List (CosetData F × Rows F))
        → FieldsLaws c.field c.extension c.two_adicity p.inverse
        → HasQuotientRows c p t challenges folding m
        → All (λ (e : CosetData F × Rows F). FillsRows e.1.values e.1.width) pieces
        → AreParts (λ (n : ℕ) (d : CosetData F). IsPart c.field.ring c.field.root
        (quotient_domain c.field c.extension (committed_table c p t challenges) (quotient_shift c)
        (log_parts c t)) (2 ^ log_parts c t) n d) m (2 ^ log_parts c t) pieces
        → pieces ≡ chunk_matrices c p t challenges folding }
{}

/// What `generate_permutation` answers for a table with lookups is honest: its columns and its terminal are the table's permutation
/// columns and terminal (`columns`, `terminal`), and the zero denominator that it names is the event, where it is asked for the
/// tables in order (`fault`).
pub fn what_is_generated_is_honest<C, F, E, Com>()
    ensures columns { (c : Setting C F E Com) (p : Prover F E Com) (t : TracedTable F)
        (challenges : List E) (m : Rows E) (terminal : LookupTerminal E)
        → 0 < length t.lookups → height t.trace ≡ 2 ^ log_rows c t → FillsRows m.values m.width
        → IsGenerated (argument_of_table c p t challenges) (height t.trace) (Ok (m, terminal))
        → m ≡ permutation_columns c p t challenges }
    ensures terminal { (c : Setting C F E Com) (p : Prover F E Com) (t : TracedTable F)
        (challenges : List E) (m : Rows E) (terminal : LookupTerminal E)
        → 0 < length t.lookups → height t.trace ≡ 2 ^ log_rows c t → FillsRows m.values m.width
        → IsGenerated (argument_of_table c p t challenges) (height t.trace) (Ok (m, terminal))
        → Some terminal.0 ≡ honest_terminal c p t challenges }
    ensures fault { (c : Setting C F E Com) (p : Prover F E Com) (s : Statement F Com)
        (traces : List (Rows F)) (degree_bits : List ℕ) (w : Option F) (i row lookup tuple : ℕ)
        → IsLookupGround c p s traces degree_bits w → i < length s.tables
        → ((j : ℕ) → j < i → FractionsAt c p s traces degree_bits w j)
        → let t = traced_at s traces degree_bits i in height t.trace ≡ 2 ^ log_rows c t
        → IsGenerated (argument_of_table c p t (challenges_at c p s traces degree_bits w i))
        (height t.trace) (Err (DenominatorZero row lookup tuple))
        → IsDenominatorZero c p s traces degree_bits i row }
{}
