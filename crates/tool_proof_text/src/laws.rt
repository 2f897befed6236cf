//! What a text tells, and what there is at most one of: laws as the contracts of functions that compute nothing.

ghost use Rattle.std.specs.Prelude.{◌≡◌, ◌++◌, ℕ, List, length};
ghost use Rattle.tool_lines.specs.Texts.{line_text};
ghost use Rattle.tool_lines.specs.WholeText.{TextsTell, IsFaultLineFrom, ReadsBackFrom};
ghost use Rattle.tool_proof_text.specs.ProofText.{ToolProofData, ProofWithin, proof_numbers};

/// Each proof within the limits has one text, its lines. A text is the text of one proof alone, and where it ends is told by
/// it: no proof's text is the front of another's.
pub fn one_text()
    ensures { TextsTell ProofWithin proof_numbers }
{}

/// Bytes have, from a place on, at most one line of fault.
pub fn one_fault()
    ensures { (bytes : List ℕ) (from line other : ℕ)
        → IsFaultLineFrom ProofWithin proof_numbers bytes from line
        → IsFaultLineFrom ProofWithin proof_numbers bytes from other → line ≡ other }
{}

/// The text of a proof within the limits, after any bytes, is read as this proof, unless memory runs out.
pub fn read_back()
    ensures { (proof : ToolProofData) (front : List ℕ) → ProofWithin proof
        → ReadsBackFrom ProofWithin proof_numbers
        (front ++ line_text (proof_numbers proof)) (length front) proof }
{}
