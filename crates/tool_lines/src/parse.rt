//! A whole text, from its first byte to its last.

ghost use Rattle.std.specs.Prelude.{◌≡◌, ◌≤◌, ◌+◌, ◌==◌, count_by, length};
ghost use Rattle.tool_lines.specs.WholeText.{ReadsText, ReadsTextFrom};

use crate::forms::Form;
use crate::texts::{ItemError, Reader};
use std::alloc::Global;

/// Why bytes are no text.
#[derive(Debug, Drop, PartialEq, Eq)]
pub enum TextError {
    /// The bytes are no value's text, and this is the line of the fault, counted from 1: one more than the greatest number of whole
    /// lines at their start that begin some value's text.
    Line(usize),
    /// Memory ran out.
    OutOfMemory,
}

/// Reads the one value whose text the bytes are, from the first to the last.
///
/// It is `Line` exactly where they are no value's text.
pub fn read_text<T: Form>(alloc: Global, bytes: &[u8]) -> Result<T::Value, TextError>
    ensures { ReadsText T.data_of T.within T.numbers bytes.now result }
{
    read_text_from::<T>(alloc, bytes, 0)
}

/// Reads the one value whose text the bytes are from byte `from` to the last.
///
/// It is `Line` exactly where they are no value's text. The line of the fault is counted from the first byte of all.
pub fn read_text_from<T: Form>(
    alloc: Global,
    bytes: &[u8],
    from: usize,
) -> Result<T::Value, TextError>
    requires { from ≤ length bytes.now }
    ensures { ReadsTextFrom T.data_of T.within T.numbers bytes.now from result }
{
    let mut reader = Reader::new(&bytes[from..]);
    match T::read(alloc, &mut reader) {
        Ok(value) => {
            if reader.rest().is_empty() {
                return Ok(value);
            }
        }
        Err(ItemError::OutOfMemory) => return Err(TextError::OutOfMemory),
        Err(ItemError::Malformed) => {}
    }
    let read = bytes.len() - reader.rest().len();
    Err(TextError::Line(line_after(&bytes[..read])))
}

/// The number of the line after these whole lines, counted from 1.
fn line_after(lines: &[u8]) -> usize
    ensures { result ≡ count_by (λ b. b == 10) lines.now + 1 }
{
    lines.iter().filter(|byte| **byte == b'\n').count() + 1
}
