//! Texts of numbers, a line for each: how one line is read, and how one is printed.

ghost use Rattle.std.specs.Prelude.{◌≡◌, ◌≢◌, ◌≤◌, ◌++◌, ◌∷◌, [], List, ℕ, length, drop, decimal, MatchOption, OnOk, IsTrue, ◌↔◌};
ghost use Rattle.tool_lines.specs.Texts.{ReadsKnown, Between, one_number, line_text};

use itoa::Buffer;
use p3_field::Mem;
use std::alloc::{AllocError, AllocFailed};
use std::marker::Model;

/// Why a value could not be read off a text.
#[derive(Debug, Drop, PartialEq, Eq)]
pub enum ItemError {
    /// The first line that is left goes on from the lines before it in no text.
    Malformed,
    /// Memory ran out.
    OutOfMemory,
}

impl From<AllocError> for ItemError {
    ghost use Rattle.tool_lines.specs.declared.texts.ItemError.TheVariants.{OutOfMemory};

    ghost from_gives = { λ _ e. e ≡ OutOfMemory };

    fn from(_: AllocError) -> Self {
        ItemError::OutOfMemory
    }
}

impl<T: Drop> From<AllocFailed<T>> for ItemError {
    ghost use Rattle.tool_lines.specs.declared.texts.ItemError.TheVariants.{OutOfMemory};

    ghost from_gives = { λ _ e. e ≡ OutOfMemory };

    fn from(_: AllocFailed<T>) -> Self {
        ItemError::OutOfMemory
    }
}

/// What is left of a text (not in Plonky3). Contracts see its bytes.
#[derive(Drop)]
pub struct Reader<'a> {
    rest: &'a [u8],
}

impl<'a> Model for Reader<'a> {
    ghost use Rattle.std.specs.Prelude.{List, ℕ};

    ghost Value = { List ℕ };

    ghost view = { λ r. r.rest.now };
}

impl<'a> Reader<'a> {
    /// A reader of the whole text.
    pub fn new(text: &'a [u8]) -> Self
        ensures { result ≡ text.now }
    {
        Reader { rest: text }
    }

    /// The bytes that are left.
    pub fn rest(&self) -> &[u8]
        ensures { result.now ≡ self.now }
    {
        self.rest
    }

    /// Reads the number of the next line, which has to be one from `least` to `most`.
    ///
    /// It is `Malformed` exactly where no such line is next, and then nothing is read.
    pub fn number(&mut self, least: u32, most: u32) -> Result<u32, ItemError>
        requires { least ≤ most }
        ensures { ReadsKnown (Between least most) one_number self.old self.new result }
    {
        match first_number(self.rest, most) {
            None => Err(ItemError::Malformed),
            Some((value, _)) if value < least => Err(ItemError::Malformed),
            Some((value, len)) => {
                self.rest = &self.rest[len..];
                Ok(value)
            }
        }
    }
}

/// Whether the one digit so far is a zero.
fn is_leading_zero(count: usize, value: u64) -> bool
    ensures { IsTrue result ↔ (count ≡ 1) × (value ≡ 0) }
{
    count == 1 && value == 0
}

/// The number of the first line, if it is one of at most `most`, and the line's length with its end.
fn first_number(bytes: &[u8], most: u32) -> Option<(u32, usize)>
    ensures { MatchOption result
        ((n : ℕ) (rest : List ℕ) → n ≤ most → bytes.now ≢ decimal n ++ 10 ∷ rest)
        (λ p. (p.0 ≤ most) × (p.1 ≤ length bytes.now)
        × (bytes.now ≡ decimal p.0 ++ 10 ∷ drop p.1 bytes.now)) }
{
    let mut value: u64 = 0;
    for (i, byte) in bytes.iter().enumerate() {
        if *byte == b'\n' {
            return if i == 0 {
                None
            } else {
                Some((value as u32, i + 1))
            };
        }
        if !byte.is_ascii_digit() {
            return None;
        }
        if is_leading_zero(i, value) {
            return None;
        }
        value = 10 * value + (*byte - b'0') as u64;
        if value > most as u64 {
            return None;
        }
    }
    None
}

/// Prints the line of a number. On an error a part of the line may stand.
pub fn push_number(out: &mut Vec<u8>, value: u64) -> Mem<()>
    ensures { OnOk result (out.new.items ≡ out.old.items ++ line_text (value ∷ [])) }
{
    let mut buffer = Buffer::new();
    out.extend_from_slice(buffer.format(value).as_bytes())?;
    out.push(b'\n')?;
    Ok(())
}
