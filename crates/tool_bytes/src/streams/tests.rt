//! Ends over std's readers and writers in memory.

ghost use Rattle.std.specs.Prelude.{◌≡◌, ◌<◌, IsErr, None, false, length};
ghost use Rattle.std.specs.Io.{ReadsAtMost, WritesAtMost};
ghost use Rattle.std.specs.Io.KnownBytes.{ReadConsumes, WriteAppends};

use super::*;
use crate::{InputError, read_whole, write_whole};
use std::alloc::AllocError;
use std::io::{Read, Write};
use std::test::Fail;

/// A reader whose first call fails, and then a text.
#[derive(Drop)]
struct FailingReader<'a> {
    text: &'a [u8],
    failed: bool,
}

impl<'a> Read for FailingReader<'a> {
    fn read(&mut self, buf: &mut [u8]) -> io::Result<usize>
        ensures bound { ReadsAtMost result buf.new }
        ensures bytes { ReadConsumes None None result buf.new }
        ensures first { self.old.failed ≡ false → IsErr result }
    {
        if self.failed {
            return self.text.read(buf);
        }
        self.failed = true;
        Err(io::Error::from(io::ErrorKind::BrokenPipe))
    }
}

impl InputStream for FailingReader<'_> {
    ghost answers = { λ old _ _ answer. old.failed ≡ false → IsErr answer };

    fn read_some(&mut self, buf: &mut [u8]) -> io::Result<usize> {
        self.read(buf)
    }
}

/// A writer whose first call fails, and which then takes all.
#[derive(Drop)]
struct FailingWriter {
    taken: usize,
    failed: bool,
}

impl Write for FailingWriter {
    fn write(&mut self, piece: &[u8]) -> io::Result<usize>
        ensures bound { WritesAtMost result piece.now }
        ensures bytes { WriteAppends None None result piece.now }
        ensures first { self.old.failed ≡ false → IsErr result }
    {
        if self.failed {
            self.taken = self.taken.saturating_add(piece.len());
            return Ok(piece.len());
        }
        self.failed = true;
        Err(io::Error::from(io::ErrorKind::BrokenPipe))
    }

    fn flush(&mut self) -> io::Result<()> {
        Ok(())
    }
}

impl OutputStream for FailingWriter {
    ghost answers = { λ old _ _ answer. old.failed ≡ false → IsErr answer };

    fn write_some(&mut self, piece: &[u8]) -> io::Result<usize> {
        self.write(piece)
    }
}

#[test]
fn a_read_that_fails_ends_the_reading(rt: HostRuntime) {
    let alloc = rt.alloc();
    let mut source = StdSource::new(FailingReader {
        text: b"1\n".as_slice(),
        failed: false,
    });
    let answer = read_whole(alloc, &mut source).err();
    assert_eq!(rt; (answer, source.faults), (Some(InputError::ReadFault), 1));
}

#[test]
fn a_write_that_fails_ends_the_writing(rt: HostRuntime) {
    let mut sink = StdSink::new(FailingWriter {
        taken: 0,
        failed: false,
    });
    let answer = write_whole(&mut sink, b"1\n");
    assert_eq!(rt;
        (answer, sink.writer.taken, sink.faults),
        (Err(Failed), 0, 1)
    );
}

#[test]
fn a_slice_is_read_to_its_end(rt: HostRuntime) -> Result<(), Fail> {
    let alloc = rt.alloc();
    let text = b"1\n23\n";
    let mut source = StdSource::new(text.as_slice());
    let Ok(bytes) = read_whole(alloc, &mut source) else {
        return Err("not read".into());
    };
    assert_eq!(rt; bytes.as_slice(), text.as_slice());
    assert_eq!(rt; source.faults, 0);
    Ok(())
}

/// The number of bytes read off a slice, of which no read fails.
fn read_of_slice(source: &mut StdSource<&[u8]>, buf: &mut [u8]) -> usize
    requires { 0 < length buf.old }
{
    match source.read(buf) {
        Ok(count) => count,
        Err(Failed) => unreachable!(),
    }
}

#[test]
fn no_read_of_a_slice_fails(rt: HostRuntime) {
    let mut source = StdSource::new(b"1\n".as_slice());
    let mut buf = [0; 5];
    let counts = [
        read_of_slice(&mut source, &mut buf),
        read_of_slice(&mut source, &mut buf),
    ];
    assert_eq!(rt; counts, [2, 0]);
}

#[test]
fn a_text_is_written_into_a_vec(rt: HostRuntime) {
    let text = b"1\n23\n";
    let mut sink = StdSink::new(Vec::new(rt.alloc()));
    let answer = write_whole(&mut sink, text);
    assert_eq!(rt;
        (answer, sink.writer.as_slice(), sink.faults),
        (Ok(()), text.as_slice(), 0)
    );
}

#[test]
fn a_full_slice_takes_nothing(rt: HostRuntime) {
    let mut room = [0u8; 2];
    let mut sink = StdSink::new(room.as_mut_slice());
    let answer = write_whole(&mut sink, b"1\n2\n");
    assert_eq!(rt; (answer, sink.faults), (Err(Failed), 1));
}

#[test]
fn a_slice_holds_what_was_written(rt: HostRuntime) {
    let mut room = [0u8; 5];
    let mut sink = StdSink::new(room.as_mut_slice());
    let answer = write_whole(&mut sink, b"1\n2\n");
    let left = sink.writer.len();
    assert_eq!(rt; (answer, left, room), (Ok(()), 1, *b"1\n2\n\0"));
}

#[test]
fn out_of_memory_is_an_input_error(rt: HostRuntime) {
    let failure: InputError = AllocError.into();
    assert_eq!(rt; failure, InputError::OutOfMemory);
}
