//! A sink that never fails.

ghost use Rattle.std.specs.Prelude.{◌≡◌, ◌<◌, ◌+◌, ◌-◌, ◌^◌, length, min, IfOk, Ok, None};
ghost use Rattle.std.specs.Io.{WritesAtMost};
ghost use Rattle.std.specs.Io.KnownBytes.{WriteAppends};
ghost use Rattle.tool_bytes.specs.Causes.{HasCause};

use tool_bytes::{Failed, Sink};

/// A sink that takes everything and never fails. Of what was written it keeps the number of bytes alone (not in Plonky3).
#[derive(Drop)]
pub struct NullSink {
    taken: u64,
}

impl NullSink {
    /// A sink that has taken nothing.
    pub fn new() -> Self
        ensures taken { result.taken ≡ 0 }
        ensures written { ⟦<NullSink as Sink>⟧.written result ≡ None }
        ensures faults { ⟦<NullSink as Sink>⟧.faults result ≡ 0 }
    {
        NullSink { taken: 0 }
    }

    /// How many bytes were written; the number stays at 2^64 - 1 once it is there.
    pub fn taken(&self) -> u64
        ensures { result ≡ self.now.taken }
    {
        self.taken
    }
}

impl Sink for NullSink {
    ghost written = { λ _. None };

    ghost faults = { λ _. 0 };

    /// Takes the whole piece, and counts its bytes.
    fn write(&mut self, piece: &[u8]) -> Result<usize, Failed>
        requires { 0 < length piece.now }
        ensures bound { WritesAtMost result piece.now }
        ensures some { IfOk result (λ n. 0 < n) }
        ensures bytes { WriteAppends None None result piece.now }
        ensures cause { HasCause 0 0 result }
        ensures count { result ≡ Ok (length piece.now) }
        ensures taken { self.new.taken ≡ min (self.old.taken + length piece.now) (2 ^ 64 - 1) }
    {
        self.taken = self.taken.saturating_add(piece.len() as u64);
        Ok(piece.len())
    }
}
