//! What a command answers for bytes that are no text of its grammar.

ghost use Rattle.std.specs.Prelude.{◌≡◌, ℕ, IfOk, IsErr};
ghost use Rattle.tool_lines.specs.declared.parse.TextError.TheVariants.{Line, OutOfMemory};
ghost use Rattle.tool_run.specs.BadInput.{bad_input_text};

use p3_field::Mem;
use std::alloc::{AllocError, Global};
use tool_lines::{TextError, push_number};
use tool_verifier::{Answer, Status};

const BAD_INPUT: &[u8] = b"bad input at line ";

/// What a command answers for bytes that are no text of its grammar (not in Plonky3): `BadInput`, and the line that names the line at fault. Out of
/// memory wherever the reading was.
pub fn bad_input(alloc: Global, error: TextError) -> Mem<Answer>
    ensures line { (at : ℕ) → error ≡ Line at
        → IfOk result (λ a. (a.status ≡ Status.BadInput) × (a.text.items ≡ bad_input_text at)) }
    ensures memory { error ≡ OutOfMemory → IsErr result }
{
    match error {
        TextError::Line(line) => {
            let mut text = Vec::new(alloc);
            text.extend_from_slice(BAD_INPUT)?;
            push_number(&mut text, line as u64)?;
            Ok(Answer {
                status: Status::BadInput,
                text,
            })
        }
        TextError::OutOfMemory => Err(AllocError),
    }
}
