//! What a batch's checks are of one swap table: a law as the contract of a function that computes nothing.
ghost use Rattle.std.specs.Prelude.{◌≡◌, ◌↔◌, ℕ, ◌≤◌, List, [], ◌∷◌};
ghost use Rattle.p3_field.specs.Checks.{FirstFails, NoneFails};
ghost use Rattle.p3_field.specs.declared.baby_bear.BabyBear.{BabyBear};
ghost use Rattle.verifier_batch.specs.BatchChecks.{checks};
ghost use Rattle.transcript_version.specs.declared.TranscriptVersion.{TranscriptVersion};
ghost use Rattle.tool_statement.specs.Config.{tool_backend, tool_setting};
ghost use Rattle.tool_statement.specs.StatedTables.{tool_statement};
ghost use Rattle.tool_statement.specs.declared.table.TableStatement.TheVariants.{Swap};
ghost use Rattle.law_swap_checks.specs.SwapChecks.{Refusal, swap_checks};
ghost use Rattle.law_swap_checks.specs.SwapShape.{IsSwapShape, SwapProof};

/// Over the transcript of either version, on a proof of one swap table of up to 2^10 rows whose lists have the shape of an honest proof, the checks of a batch come to a
/// short list in plain terms, `swap_checks`: no check of the one fails exactly where none of the other does (`accepted`), and the
/// first that fails has the same refusals (`refused`). There are proofs of that shape for tables of each height (`met`).
pub fn swap_proofs_are_checked_alike()
    ensures accepted { (version : TranscriptVersion) (k : ℕ) (a b x : BabyBear) (p : SwapProof)
        → k ≤ 10 → IsSwapShape k p
        → NoneFails (checks (tool_setting version) tool_backend (tool_statement (Swap k a b x ∷ []))
        p) ↔ NoneFails (swap_checks version k a b x p) }
    ensures refused { (version : TranscriptVersion) (k : ℕ) (a b x : BabyBear) (p : SwapProof)
        (e : Refusal) → k ≤ 10 → IsSwapShape k p
        → FirstFails (checks (tool_setting version) tool_backend
        (tool_statement (Swap k a b x ∷ [])) p) e ↔ FirstFails (swap_checks version k a b x p) e }
    ensures met { (k : ℕ) → (p : SwapProof) × IsSwapShape k p }
{}
