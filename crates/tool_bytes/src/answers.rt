//! Std's readers and writers as ends stand on them, and what their calls may answer.

ghost use Rattle.std.specs.Prelude.{◌≡◌, ℕ, List, Result, length, min, drop, Ok, Vec, IsOk, IfErr, OnOk, OnErr, ⊤};
ghost use Rattle.std.specs.Io.{ReadsAtMost, WritesAtMost};
ghost use Rattle.std.specs.Io.KnownBytes.{ReadConsumes, WriteAppends};
ghost use Rattle.std.specs.IoError.{error_kind};
ghost use Rattle.std.specs.declared.io.Error.{Error};
ghost use Rattle.std.specs.declared.io.ErrorKind.TheVariants.{OutOfMemory};

use std::alloc::Allocator;
use std::io;
use std::io::{AsBytes, Cursor, Print, Printer, Read, StdinLock, Write};

/// A reader of std, and what its calls may answer (not in Plonky3). Std's `Read` alone doesn't say that an answer is
/// the reader's.
pub trait InputStream: Read {
    /// A call that finds the reader in the first state, and leaves it in the second and the buffer so, may answer this.
    ghost answers: { Self → Self → List ℕ → Result ℕ Error → Type 0 };

    /// What `Read::read` answers.
    fn read_some(&mut self, buf: &mut [u8]) -> io::Result<usize>
        ensures bound { ReadsAtMost result buf.new }
        ensures bytes { ReadConsumes (Self.remaining self.old) (Self.remaining self.new) result
            buf.new }
        ensures answer { answers self.old self.new buf.new result };
}

/// A slice never fails.
impl InputStream for &[u8] {
    ghost answers = { λ old new piece answer. answer ≡ Ok (min (length old.now) (length piece)) };

    fn read_some(&mut self, buf: &mut [u8]) -> io::Result<usize> {
        self.read(buf)
    }
}

/// A cursor never fails.
impl<T: AsBytes> InputStream for Cursor<T> {
    ghost answers = { λ _ _ _ answer. IsOk answer };

    fn read_some(&mut self, buf: &mut [u8]) -> io::Result<usize> {
        self.read(buf)
    }
}

/// Nothing is known of what standard input answers.
impl InputStream for StdinLock<'static> {
    ghost answers = { λ _ _ _ _. ⊤ };

    fn read_some(&mut self, buf: &mut [u8]) -> io::Result<usize> {
        self.read(buf)
    }
}

/// A writer of std, and what its calls may answer (not in Plonky3).
pub trait OutputStream: Write {
    /// A call that finds the writer in the first state, leaves it in the second, and is given this piece may answer this.
    ghost answers: { Self → Self → List ℕ → Result ℕ Error → Type 0 };

    /// What `Write::write` answers.
    fn write_some(&mut self, piece: &[u8]) -> io::Result<usize>
        ensures bound { WritesAtMost result piece.now }
        ensures bytes { WriteAppends (Self.contents self.old) (Self.contents self.new) result
            piece.now }
        ensures answer { answers self.old self.new piece.now result };
}

/// A vector takes all, or is out of memory and stays as it was.
impl<A: Allocator> OutputStream for Vec<u8, A> {
    ghost answers = { λ old new piece answer. OnOk answer (answer ≡ Ok (length piece))
        × OnErr answer (new.items ≡ old.items) × IfErr answer (λ e. error_kind e ≡ OutOfMemory) };

    fn write_some(&mut self, piece: &[u8]) -> io::Result<usize> {
        self.write(piece)
    }
}

/// A slice takes what there is room for, never fails, and then begins after what it took.
impl OutputStream for &mut [u8] {
    ghost answers = { λ old new piece answer. let n = min (length piece) (length old.now) in
        (answer ≡ Ok n) × (new.now ≡ drop n old.now) };

    fn write_some(&mut self, piece: &[u8]) -> io::Result<usize> {
        self.write(piece)
    }
}

/// Nothing is known of what standard output answers.
impl<P: Print> OutputStream for Printer<'_, P> {
    ghost answers = { λ _ _ _ _. ⊤ };

    fn write_some(&mut self, piece: &[u8]) -> io::Result<usize> {
        self.write(piece)
    }
}
