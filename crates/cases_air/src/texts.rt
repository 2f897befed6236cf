//! The texts of refusals that no other case meets.

use crate::printing::push_word;
use crate::reading::Case;
use air_check::CheckFailure;
use p3_field::Mem;
use p3_lookup::{GenerateError, LookupError};
use std::alloc::{AllocError, Global};

/// The text of an error with these numbers.
pub fn text(alloc: Global, out: &mut String, case: &Case) -> Mem<()> {
    let [air, expected, got] = case.at;
    match case.call {
        "width" => push_word(out, LookupError::PermutationWidthMismatch { air, expected }),
        "length" => push_word(out, LookupError::PermutationLengthMismatch { air }),
        "presence" => push_word(
            out,
            LookupError::TerminalPresenceMismatch {
                air,
                expected_present: expected == 1,
                got_present: got == 1,
            },
        ),
        "commitment" => push_word(out, LookupError::CommitmentMismatch),
        "failing" => {
            let places = vec![in alloc; expected, got]?;
            push_word(out, CheckFailure::Failing { row: air, places })
        }
        "unchecked" => push_word(out, CheckFailure::from(AllocError)),
        "ungenerated" => push_word(out, GenerateError::from(AllocError)),
        _ => push_word(out, "bad case"),
    }
}
