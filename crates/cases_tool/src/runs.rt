//! Runs of the program over ends in memory.
ghost use Rattle.std.specs.Prelude.{◌≡◌, ◌≤◌, IfOk};
ghost use Rattle.tool_bytes.specs.Causes.{Rose};

use crate::printing::{print_answer, shown};
use batch_tool::{
    Answer, EndlessSource, MemorySink, MemorySource, NullSink, Source, Status, SteadySource, run,
};
use p3_field::Mem;
use std::alloc::Global;
use std::io;

/// The room of a sink, which no answer here fills.
const ROOM: usize = 3_000_000;

// The words of a program's call.
fn words_of(alloc: Global, words: &[&str]) -> Mem<Vec<String>> {
    let mut all = Vec::new(alloc);
    for word in words {
        all.push(String::from_str(alloc, *word)?)?;
    }
    Ok(all)
}

// The list of this number, where there is one.
fn list_of(alloc: Global, number: Option<u64>) -> Mem<Vec<u64>> {
    match number {
        Some(number) => Ok(vec![in alloc; number]?),
        None => Ok(Vec::new(alloc)),
    }
}

/// How the ends of a run are.
#[derive(Clone, Copy)]
struct MemoryEnds {
    // how many bytes the sink has room for
    room: usize,
    // the most bytes of a write
    most: usize,
    // the call of the source that fails
    read: Option<u64>,
    // the call of the sink that fails
    write: Option<u64>,
}

/// Ends that never fail here.
const WIDE: MemoryEnds = MemoryEnds {
    room: ROOM,
    most: 1000,
    read: None,
    write: None,
};

// What these words answer to an input over such ends.
fn ran_over(alloc: Global, words: &[&str], input: Vec<u8>, ends: &MemoryEnds) -> Mem<Answer> {
    let words = words_of(alloc, words)?;
    let mut source = MemorySource::new(input, list_of(alloc, ends.read)?);
    let mut sink = MemorySink::new(alloc, ends.room, ends.most, list_of(alloc, ends.write)?)?;
    let status = run(alloc, &words, &mut source, &mut sink);
    let text = sink.bytes().to_vec(alloc)?;
    Ok(Answer { status, text })
}

/// What these words answer to an input, over ends that never fail.
pub fn ran(alloc: Global, words: &[&str], input: Vec<u8>) -> Mem<Answer> {
    ran_over(alloc, words, input, &WIDE)
}

/// Runs these words on an input.
pub fn words<R: Print + AllocGlobal>(rt: &R, input: Vec<u8>, words: &[&str]) -> io::Result<()> {
    print_answer(rt, &ran(rt.alloc(), words, input)?)
}

/// Runs `prove 1` on an input, and gives the text that it writes.
pub fn proved<R: Print + AllocGlobal>(rt: &R, input: Vec<u8>) -> io::Result<Vec<u8>> {
    let answer = ran(rt.alloc(), &["prove", "1"], input)?;
    print_answer(rt, &answer)?;
    Ok(answer.text)
}

/// Runs words over ends of which these three come first: how many bytes a write takes at most, the call of the source that fails, and that of the
/// sink. No call fails where there is no number.
pub fn ends<R: Print + AllocGlobal>(rt: &R, input: Vec<u8>, words: &[&str]) -> io::Result<()> {
    let [most, read, write, words @ ..] = words else {
        return rt.println("bad case");
    };
    let ends = MemoryEnds {
        room: ROOM,
        most: most.parse::<usize>().unwrap_or(0),
        read: read.parse::<u64>().ok(),
        write: write.parse::<u64>().ok(),
    };
    print_answer(rt, &ran_over(rt.alloc(), words, input, &ends)?)
}

/// Runs words over a sink with room for as many bytes as the first says.
pub fn room<R: Print + AllocGlobal>(rt: &R, input: Vec<u8>, words: &[&str]) -> io::Result<()> {
    let [room, words @ ..] = words else {
        return rt.println("bad case");
    };
    let ends = MemoryEnds {
        room: room.parse::<usize>().unwrap_or(0),
        most: 1000,
        read: None,
        write: None,
    };
    print_answer(rt, &ran_over(rt.alloc(), words, input, &ends)?)
}

// What these words answer over a source and a sink that counts, and how many bytes were written.
fn counted<S: Source>(alloc: Global, words: &[&str], source: &mut S) -> Mem<(Status, u64)>
    ensures later { S.faults source.old ≤ S.faults source.new }
    ensures read_fault { IfOk result
        (λ r. r.0 ≡ Status.ReadFault → Rose (S.faults source.old) (S.faults source.new)) }
    ensures write_fault { IfOk result (λ r. r.0 ≡ Status.WriteFault → ⊥) }
{
    let words = words_of(alloc, words)?;
    let mut sink = NullSink::new();
    let status = run(alloc, &words, source, &mut sink);
    Ok((status, sink.taken()))
}

/// Runs words over bytes in memory without a fault, and prints the status and how many bytes were written.
pub fn steady<R: Print + AllocGlobal>(rt: &R, input: Vec<u8>, words: &[&str]) -> io::Result<()> {
    let (status, taken) = counted(rt.alloc(), words, &mut SteadySource::new(input))?;
    if status == Status::ReadFault || status == Status::WriteFault {
        unreachable!();
    }
    let status = status.number();
    println!(rt; "{status} {taken}")
}

/// Runs words over an input without an end, of the first word's byte, and prints the same.
pub fn endless<R: Print + AllocGlobal>(rt: &R, words: &[&str]) -> io::Result<()> {
    let [byte, words @ ..] = words else {
        return rt.println("bad case");
    };
    let byte = byte.parse::<u8>().unwrap_or(0);
    let (status, taken) = counted(rt.alloc(), words, &mut EndlessSource::new(byte))?;
    let status = status.number();
    println!(rt; "{status} {taken}")
}

/// Runs the first of these words on an input, and prints the status and the first word of the text alone.
pub fn gist<R: Print + AllocGlobal>(rt: &R, input: Vec<u8>, words: &[&str]) -> io::Result<()> {
    let word = words.first().copied().unwrap_or("");
    let answer = ran(rt.alloc(), &[word], input)?;
    let status = answer.status.number();
    let text = shown(rt.alloc(), &answer.text)?;
    let first = text.split(' ').next().unwrap_or("");
    println!(rt; "{status} {first}")
}

/// Runs `prove` on a job, and `verify` on what it writes: prints the first status, and then the second with its text.
pub fn played<R: Print + AllocGlobal>(rt: &R, input: Vec<u8>) -> io::Result<()> {
    let proved = ran(rt.alloc(), &["prove"], input)?;
    let status = proved.status.number();
    print!(rt; "{status} ")?;
    words(rt, proved.text, &["verify"])
}
