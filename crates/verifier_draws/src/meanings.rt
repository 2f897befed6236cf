//! What the definitions are fixed by: laws as the contracts of functions that compute nothing.
ghost use Rattle.std.specs.Prelude.{◌≡◌, ℕ, Bool, false, List, [], count_by, length};
ghost use Rattle.std.specs.List.{list_any};
ghost use Rattle.p3_field.specs.Checks.{AreSingle};
ghost use Rattle.p3_field.specs.Ring.{Ring};
ghost use Rattle.p3_challenger.specs.Script.{ChallengerOf};
ghost use Rattle.p3_lookup.specs.Lookup.{LookupData};
ghost use Rattle.transcript_version.specs.declared.TranscriptVersion.{TranscriptVersion};
ghost use Rattle.batch_transcript.specs.BatchScript.{Draws};
ghost use Rattle.batch_statement.specs.Proof.{ProofData};
ghost use Rattle.batch_statement.specs.Statement.{Statement};
ghost use Rattle.batch_statement.specs.Words.{has_some};
ghost use Rattle.batch_transcript.specs.Shapes.{IsShape};
ghost use Rattle.verifier_draws.specs.Draws.{drawn_pair, grinding_checks, script_shape};

/// Each check of the grinding values has exactly one refusal where it fails, so there is one verdict on them.
pub fn there_is_one_verdict<C, F, E, Com, Opening, PcsErr>()
    ensures { (c : ChallengerOf C F E Com) (f : Ring F) (e : Ring E) (dimension : ℕ) (initial : C)
        (version : TranscriptVersion) (zk : Bool) (lookup_bits ood_bits : ℕ) (s : Statement F Com)
        (p : ProofData F E Com Opening)
        → AreSingle (grinding_checks c f e dimension initial version zk lookup_bits ood_bits s p
        {R = PcsErr}) }
{}

/// Where no table has lookups, no pair is drawn for them.
pub fn no_pair_without_lookups<C, F, E>()
    ensures { (lookups : List (List (LookupData F))) (d : Draws C E)
        → list_any has_some lookups ≡ false → drawn_pair (count_by has_some lookups) d ≡ [] }
{}

/// The shape of a statement's script is one of batches, where there are as many lists of lookups as tables. So the separators of two statements
/// have one encoding only where both are of one version, and in version 2 only where each table has as many lookups in the one as in the other.
pub fn a_statements_shape_is_one_of_batches<F, Com>()
    ensures { (version : TranscriptVersion) (zk : Bool) (lookup_bits ood_bits : ℕ)
        (s : Statement F Com) → length s.common.lookups ≡ length s.tables
        → IsShape (script_shape version zk lookup_bits ood_bits s) }
{}
