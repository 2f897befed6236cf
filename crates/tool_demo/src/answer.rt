//! What `demo N` answers.
ghost use Rattle.std.specs.Prelude.{◌≡◌, IfOk};
ghost use Rattle.tool_demo.specs.Demo.{demo_job as job_of};
ghost use Rattle.tool_demo.specs.DemoAnswer.{IsDemoAnswer, demo_text, line_count};
ghost use Rattle.tool_prover.specs.JobAnswer.{IsJobAnswer};
ghost use Rattle.tool_verifier.specs.declared.status.Status.TheVariants.{Done};

use crate::job::demo_job;
use itoa::Buffer;
use p3_field::Mem;
use p3_uni_stark::TranscriptVersion;
use std::alloc::Global;
use tool_lines::push_number;
use tool_prover::answer_prove;
use tool_verifier::{Answer, Status};

// How many lines a text has.
fn lines_of(text: &[u8]) -> usize
    ensures { result ≡ line_count text.now }
{
    text.iter().filter(|byte| **byte == b'\n').count()
}

// The line of the number's job, where its proof file is this.
fn demo_line(alloc: Global, number: u32, file: &[u8]) -> Mem<Vec<u8>>
    ensures { IfOk result (λ v. v.items ≡ demo_text number (line_count file.now)) }
{
    let lines = lines_of(file);
    let mut buffer = Buffer::new();
    let mut line = Vec::new(alloc);
    line.extend_from_slice(b"demo ")?;
    line.extend_from_slice(buffer.format(number).as_bytes())?;
    line.extend_from_slice(b" tables 5 lines ")?;
    push_number(&mut line, lines as u64)?;
    Ok(line)
}

/// What `demo N` answers (not in Plonky3): for the job that the number stands for what `prove` answers (`answer_prove` of `tool_prover`),
/// but in place of the proof file the one line `demo N tables 5 lines L`, where L is the file's number of lines. The only error is running
/// out of memory.
pub fn answer_demo(alloc: Global, number: u32) -> Mem<Answer>
    ensures { IfOk result (λ a. IsDemoAnswer number a.status a.text.items) }
{
    let job = demo_job(alloc, number)?;
    let answer = answer_prove(alloc, TranscriptVersion::V2, &job)?;
    match answer.status {
        Status::Done => Ok(Answer {
            status: Status::Done,
            text: demo_line(alloc, number, &answer.text)?,
        }),
        _ => Ok(answer),
    }
}
