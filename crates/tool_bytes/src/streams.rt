//! Ends over std's readers and writers.

ghost use Rattle.std.specs.Prelude.{◌≡◌, ◌<◌, ◌≤◌, ◌^◌, ℕ, Result, length, IfOk};
ghost use Rattle.std.specs.Io.{ReadsAtMost, WritesAtMost};
ghost use Rattle.std.specs.Io.KnownBytes.{ReadConsumes, WriteAppends};
ghost use Rattle.tool_bytes.specs.Causes.{HasCause, CountsFault};
ghost use Rattle.std.specs.declared.io.Error.{Error};

use crate::answers::{InputStream, OutputStream};
use crate::ends::{Failed, Sink, Source};
use std::io;

/// What an end answers where std's stream answers this: the number, where it is at least `least`, and else `Failed`. The
/// count of faults rises by one where the end fails, and else stays as it was (not in Plonky3).
fn counted(answer: io::Result<usize>, least: usize, faults: &mut u64) -> Result<usize, Failed>
    ensures { CountsFault answer least faults.old faults.new result }
{
    match answer {
        Ok(count) if count >= least => Ok(count),
        _ => {
            *faults = faults.saturating_add(1);
            Err(Failed)
        }
    }
}

/// A source over a reader of std, as standard input is. It tells the bytes that the reader tells: standard input tells none (not
/// in Plonky3).
#[derive(Drop)]
pub struct StdSource<R> {
    reader: R,
    faults: u64,
    ghost counted: { faults < 2 ^ 64 },
}

impl<R: InputStream> StdSource<R> {
    /// A source over this reader, with no fault.
    pub fn new(reader: R) -> Self
        ensures left { ⟦<StdSource<R> as Source>⟧.left result ≡ R.remaining reader }
        ensures faults { ⟦<StdSource<R> as Source>⟧.faults result ≡ 0 }
    {
        StdSource { reader, faults: 0 }
    }
}

impl<R: InputStream> Source for StdSource<R> {
    ghost use Rattle.tool_bytes.specs.Streams.{reader_of, source_faults};

    ghost left = { λ s. R.remaining (reader_of s) };

    ghost faults = { λ s. source_faults s };

    fn read(&mut self, buf: &mut [u8]) -> Result<usize, Failed>
        requires { 0 < length buf.old }
        ensures bound { ReadsAtMost result buf.new }
        ensures bytes { ReadConsumes (R.remaining (reader_of self.old))
            (R.remaining (reader_of self.new)) result buf.new }
        ensures cause { HasCause (source_faults self.old) (source_faults self.new) result }

        // The reader was asked, and its answer is counted: `Failed` comes exactly where the reader answered an error.
        ensures answer { (answer : Result ℕ Error)
            × R.answers (reader_of self.old) (reader_of self.new) buf.new answer
            × CountsFault answer 0 (source_faults self.old) (source_faults self.new) result }
    {
        counted(self.reader.read_some(buf), 0, &mut self.faults)
    }
}

/// A sink over a writer of std, as standard output is. It tells the bytes that the writer tells: standard output tells none (not
/// in Plonky3).
#[derive(Drop)]
pub struct StdSink<W> {
    writer: W,
    faults: u64,
    ghost counted: { faults < 2 ^ 64 },
}

impl<W: OutputStream> StdSink<W> {
    /// A sink over this writer, with no fault.
    pub fn new(writer: W) -> Self
        ensures written { ⟦<StdSink<W> as Sink>⟧.written result ≡ W.contents writer }
        ensures faults { ⟦<StdSink<W> as Sink>⟧.faults result ≡ 0 }
    {
        StdSink { writer, faults: 0 }
    }
}

impl<W: OutputStream> Sink for StdSink<W> {
    ghost use Rattle.tool_bytes.specs.Streams.{writer_of, sink_faults};

    ghost written = { λ s. W.contents (writer_of s) };

    ghost faults = { λ s. sink_faults s };

    fn write(&mut self, piece: &[u8]) -> Result<usize, Failed>
        requires { 0 < length piece.now }
        ensures bound { WritesAtMost result piece.now }
        ensures some { IfOk result (λ n. 0 < n) }
        ensures bytes { WriteAppends (W.contents (writer_of self.old))
            (W.contents (writer_of self.new)) result piece.now }
        ensures cause { HasCause (sink_faults self.old) (sink_faults self.new) result }

        // The writer was asked, and its answer is counted: `Failed` comes exactly where the writer answered an error or took nothing.
        ensures answer { (answer : Result ℕ Error)
            × W.answers (writer_of self.old) (writer_of self.new) piece.now answer
            × CountsFault answer 1 (sink_faults self.old) (sink_faults self.new) result }
    {
        counted(self.writer.write_some(piece), 1, &mut self.faults)
    }
}

#[cfg(test)]
mod tests;
