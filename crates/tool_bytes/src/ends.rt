//! The ends: where a program's bytes come from, and where its text goes.

ghost use Rattle.std.specs.Prelude.{◌≡◌, ◌<◌, List, ℕ, Option, length, IfOk};
ghost use Rattle.std.specs.Io.{ReadsAtMost, WritesAtMost};
ghost use Rattle.std.specs.Io.KnownBytes.{ReadConsumes, WriteAppends};
ghost use Rattle.tool_bytes.specs.Causes.{HasCause};

use std::alloc::AllocError;

/// An end refused a call, and its count of faults rose.
#[derive(Debug, Drop, PartialEq, Eq)]
pub struct Failed;

/// Why an input could not be read whole.
#[derive(Debug, Drop, PartialEq, Eq)]
pub enum InputError {
    /// A read failed.
    ReadFault,
    /// The input has more than [`MAX_BYTES`](crate::MAX_BYTES) bytes.
    TooLarge,
    /// Memory ran out.
    OutOfMemory,
}

impl From<AllocError> for InputError {
    ghost use Rattle.tool_bytes.specs.declared.ends.InputError.TheVariants.{OutOfMemory};

    ghost from_gives = { λ _ e. e ≡ OutOfMemory };

    fn from(_: AllocError) -> Self {
        InputError::OutOfMemory
    }
}

/// Where bytes come from (not in Plonky3).
pub trait Source {
    /// The bytes that are left, where the source tells them.
    ghost left: { Self → Option (List ℕ) };

    /// How often a read has failed. The count never falls, and stays at 2^64 - 1 once it is there.
    ghost faults: { Self → ℕ };

    /// Puts the next bytes into the front of `buf`, and answers their number.
    ///
    /// Zero ends the input: a source that tells its bytes answers it only where none is left.
    /// `Failed` comes only where the count of faults rose, and such a call takes nothing. A call that is `Ok` counts none.
    fn read(&mut self, buf: &mut [u8]) -> Result<usize, Failed>
        requires { 0 < length buf.old }
        ensures bound { ReadsAtMost result buf.new }
        ensures bytes { ReadConsumes (left self.old) (left self.new) result buf.new }
        ensures cause { HasCause (faults self.old) (faults self.new) result };
}

/// Where a text goes (not in Plonky3).
pub trait Sink {
    /// The bytes that were written, where the sink tells them.
    ghost written: { Self → Option (List ℕ) };

    /// How often a write has failed. The count never falls, and stays at 2^64 - 1 once it is there.
    ghost faults: { Self → ℕ };

    /// Takes some bytes off the front of `piece`, at least one, and answers their number.
    ///
    /// `Failed` comes only where the count of faults rose, and such a call takes nothing. A call that is `Ok` counts none.
    fn write(&mut self, piece: &[u8]) -> Result<usize, Failed>
        requires { 0 < length piece.now }
        ensures bound { WritesAtMost result piece.now }
        ensures some { IfOk result (λ n. 0 < n) }
        ensures bytes { WriteAppends (written self.old) (written self.new) result piece.now }
        ensures cause { HasCause (faults self.old) (faults self.new) result };
}
