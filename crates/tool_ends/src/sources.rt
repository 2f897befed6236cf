//! Sources that never fail.

ghost use Rattle.std.specs.Prelude.{◌≡◌, ◌<◌, length, replicate, min, drop, Ok, Some, None};
ghost use Rattle.std.specs.Io.{ReadsAtMost};
ghost use Rattle.std.specs.Io.KnownBytes.{ReadConsumes};
ghost use Rattle.tool_bytes.specs.Causes.{HasCause};

use std::marker::Model;
use tool_bytes::{Failed, Source};

/// A source of bytes in memory, which tells them and never fails (not in Plonky3).
#[derive(Drop)]
pub struct SteadySource {
    bytes: Vec<u8>,
    at: usize,
}

/// Its value is the bytes that are left.
impl Model for SteadySource {
    ghost use Rattle.std.specs.Prelude.{◌≤◌, ℕ, List, drop, length};

    ghost Value = { List ℕ };

    ghost view = { λ s. drop s.at s.bytes.items };

    ghost invariant = { λ s. s.at ≤ length s.bytes.items };
}

impl SteadySource {
    /// A source of these bytes.
    pub fn new(bytes: Vec<u8>) -> Self
        ensures value { result ≡ bytes.items }
        ensures left { ⟦<SteadySource as Source>⟧.left result ≡ Some bytes.items }
        ensures faults { ⟦<SteadySource as Source>⟧.faults result ≡ 0 }
    {
        SteadySource { bytes, at: 0 }
    }
}

impl Source for SteadySource {
    ghost left = { λ s. Some s };

    ghost faults = { λ _. 0 };

    /// Gives all the bytes that fit.
    fn read(&mut self, buf: &mut [u8]) -> Result<usize, Failed>
        requires { 0 < length buf.old }
        ensures bound { ReadsAtMost result buf.new }
        ensures bytes { ReadConsumes (Some self.old) (Some self.new) result buf.new }
        ensures cause { HasCause 0 0 result }
        ensures count { result ≡ Ok (min (length self.old) (length buf.old)) }
    {
        let left = &self.bytes[self.at..];
        let count = left.len().min(buf.len());
        buf[..count].copy_from_slice(&left[..count]);
        self.at += count;
        Ok(count)
    }
}

/// A source that gives one byte without end, never fails, and tells no bytes (not in Plonky3).
#[derive(Drop)]
pub struct EndlessSource {
    byte: u8,
}

impl EndlessSource {
    /// A source of this byte.
    pub fn new(byte: u8) -> Self
        ensures byte { result.byte ≡ byte }
        ensures left { ⟦<EndlessSource as Source>⟧.left result ≡ None }
        ensures faults { ⟦<EndlessSource as Source>⟧.faults result ≡ 0 }
    {
        EndlessSource { byte }
    }
}

impl Source for EndlessSource {
    ghost left = { λ _. None };

    ghost faults = { λ _. 0 };

    /// Fills the buffer, and stays as it was: so no read ends the input.
    fn read(&mut self, buf: &mut [u8]) -> Result<usize, Failed>
        requires { 0 < length buf.old }
        ensures bound { ReadsAtMost result buf.new }
        ensures bytes { ReadConsumes None None result buf.new }
        ensures cause { HasCause 0 0 result }
        ensures count { result ≡ Ok (length buf.old) }
        ensures filled { buf.new ≡ replicate (length buf.old) self.old.byte }
        ensures unchanged { self.new ≡ self.old }
    {
        buf.fill(self.byte);
        Ok(buf.len())
    }
}
