//! Ends in memory, which fail at the listed calls.

ghost use Rattle.std.specs.Prelude.{◌≡◌, ◌<◌, [], length, IfOk, Some};
ghost use Rattle.std.specs.Io.{ReadsAtMost, WritesAtMost};
ghost use Rattle.std.specs.Io.KnownBytes.{ReadConsumes, WriteAppends};
ghost use Rattle.tool_bytes.specs.Causes.{HasCause};
ghost use Rattle.tool_bytes.specs.Memory.{ReadsMemory, WritesMemory};

use crate::ends::{Failed, Sink, Source};
use std::alloc::{AllocError, Global};
use std::marker::Model;

/// A source of bytes in memory, which tells them, and fails at the listed calls (not in Plonky3).
#[derive(Drop)]
pub struct MemorySource {
    bytes: Vec<u8>,
    at: usize,
    failing: Vec<u64>,
    calls: u64,
    faults: u64,
}

impl Model for MemorySource {
    ghost use Rattle.std.specs.Prelude.{◌^◌, ◌<◌, ◌≤◌, drop, length};
    ghost use Rattle.tool_bytes.specs.Memory.{MemoryInput};

    ghost Value = { MemoryInput };

    ghost view = { λ s. record {
      left = drop s.at s.bytes.items;
      failing = s.failing.items;
      calls = s.calls;
      faults = s.faults;
    } };

    ghost invariant = { λ s. (s.at ≤ length s.bytes.items) × (s.faults < 2 ^ 64) };
}

impl MemorySource {
    /// A source of these bytes. Of its calls of `read`, counted from 0, those in `failing` fail, and count a fault.
    pub fn new(bytes: Vec<u8>, failing: Vec<u64>) -> Self
        ensures value { result ≡ record {
          left = bytes.items;
          failing = failing.items;
          calls = 0;
          faults = 0;
        } }
        ensures left { ⟦<MemorySource as Source>⟧.left result ≡ Some bytes.items }
        ensures faults { ⟦<MemorySource as Source>⟧.faults result ≡ 0 }
    {
        MemorySource {
            bytes,
            at: 0,
            failing,
            calls: 0,
            faults: 0,
        }
    }
}

impl Source for MemorySource {
    ghost left = { λ s. Some s.left };

    ghost faults = { λ s. s.faults };

    fn read(&mut self, buf: &mut [u8]) -> Result<usize, Failed>
        requires { 0 < length buf.old }
        ensures bound { ReadsAtMost result buf.new }
        ensures bytes { ReadConsumes (Some self.old.left) (Some self.new.left) result buf.new }
        ensures cause { HasCause self.old.faults self.new.faults result }
        ensures call { ReadsMemory self.old self.new (length buf.old) result }
    {
        let call = self.calls;
        self.calls = call.saturating_add(1);
        if self.failing.contains(&call) {
            self.faults = self.faults.saturating_add(1);
            return Err(Failed);
        }
        let left = &self.bytes[self.at..];
        let count = left.len().min(buf.len());
        buf[..count].copy_from_slice(&left[..count]);
        self.at += count;
        Ok(count)
    }
}

/// A sink in memory, which tells what was written, and fails at the listed calls (not in Plonky3).
#[derive(Drop)]
pub struct MemorySink {
    bytes: Vec<u8>,
    room: usize,
    most: usize,
    failing: Vec<u64>,
    calls: u64,
    faults: u64,
}

impl Model for MemorySink {
    ghost use Rattle.std.specs.Prelude.{◌^◌, ◌<◌, ◌≤◌, length, vec_capacity};
    ghost use Rattle.tool_bytes.specs.Memory.{MemoryOutput};

    ghost Value = { MemoryOutput };

    ghost view = { λ s. record {
      written = s.bytes.items;
      room = s.room;
      most = s.most;
      failing = s.failing.items;
      calls = s.calls;
      faults = s.faults;
    } };

    ghost invariant = { λ s. (length s.bytes.items ≤ s.room) × (s.room ≤ vec_capacity s.bytes)
        × (s.faults < 2 ^ 64) };
}

impl MemorySink {
    /// An empty sink with room for `room` bytes, which takes at most `most` bytes in one call.
    ///
    /// Of its calls of `write`, counted from 0, those in `failing` fail, and so do those that could take nothing;
    /// each counts a fault. It fails only where out of memory.
    pub fn new(
        alloc: Global,
        room: usize,
        most: usize,
        failing: Vec<u64>,
    ) -> Result<Self, AllocError>
        ensures value { IfOk result (λ s.
            s ≡ record {
              written = [];
              room = room;
              most = most;
              failing = failing.items;
              calls = 0;
              faults = 0;
            }) }
        ensures written { IfOk result (λ s. ⟦<MemorySink as Sink>⟧.written s ≡ Some []) }
        ensures faults { IfOk result (λ s. ⟦<MemorySink as Sink>⟧.faults s ≡ 0) }
    {
        Ok(MemorySink {
            bytes: Vec::with_capacity(alloc, room)?,
            room,
            most,
            failing,
            calls: 0,
            faults: 0,
        })
    }

    /// What was written.
    pub fn bytes(&self) -> &[u8]
        ensures { result.now ≡ self.now.written }
    {
        &self.bytes
    }
}

impl Sink for MemorySink {
    ghost written = { λ s. Some s.written };

    ghost faults = { λ s. s.faults };

    fn write(&mut self, piece: &[u8]) -> Result<usize, Failed>
        requires { 0 < length piece.now }
        ensures bound { WritesAtMost result piece.now }
        ensures some { IfOk result (λ n. 0 < n) }
        ensures bytes { WriteAppends (Some self.old.written) (Some self.new.written) result
            piece.now }
        ensures cause { HasCause self.old.faults self.new.faults result }
        ensures call { WritesMemory self.old self.new (length piece.now) result }
    {
        let call = self.calls;
        self.calls = call.saturating_add(1);
        let room = self.room - self.bytes.len();
        let count = piece.len().min(self.most).min(room);
        if count == 0 || self.failing.contains(&call) {
            self.faults = self.faults.saturating_add(1);
            return Err(Failed);
        }
        self.bytes.extend_from_slice(&piece[..count]).unwrap();
        Ok(count)
    }
}
