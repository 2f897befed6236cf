//! Many proof files that are made of one.

use crate::printing::shown;
use crate::reading::{Edit, as_lines, edited};
use crate::runs::ran;
use batch_tool::{Answer, Status};
use p3_field::Mem;
use std::alloc::Global;
use std::io;

// What `verify` answers to a file.
fn verified(alloc: Global, file: &[u8]) -> Mem<Answer> {
    ran(alloc, &["verify"], file.to_vec(alloc)?)
}

// The line that an answer names as bad input; zero where it names none.
fn line_at_fault(answer: &Answer) -> u64 {
    match as_lines(&answer.text).strip_prefix("bad input at line ") {
        Some(line) => line.trim_end().parse::<u64>().unwrap_or(0),
        None => 0,
    }
}

// 1 where `verify` answers that this line of a file is bad input, and else 0.
fn is_at_fault(alloc: Global, file: &[u8], line: usize) -> Mem<u64> {
    let answer = verified(alloc, file)?;
    let is_named = line_at_fault(&answer) == line as u64;
    Ok((answer.status == Status::BadInput && is_named) as u64)
}

/// Cuts a file before each line, and before that line's end, and prints how often `verify` names this line, of both.
pub fn cut<R: Print + AllocGlobal>(rt: &R, file: &[u8]) -> io::Result<()> {
    let alloc = rt.alloc();
    let mut cut = Vec::new(alloc);
    let mut before: u64 = 0;
    let mut inside: u64 = 0;
    for (place, line) in as_lines(file).lines().enumerate() {
        let number = place.saturating_add(1);
        before = before.saturating_add(is_at_fault(alloc, &cut, number)?);
        cut.extend_from_slice(line.as_bytes())?;
        inside = inside.saturating_add(is_at_fault(alloc, &cut, number)?);
        cut.push(b'\n')?;
    }
    println!(rt; "{before} {inside}")
}

/// Puts a word in the place of each line that is another one, and prints how many of these files are bad input, the sum of the lines at fault, and
/// how many are neither bad input nor refused.
pub fn changed<R: Print + AllocGlobal>(rt: &R, file: &[u8], words: &[&str]) -> io::Result<()> {
    let alloc = rt.alloc();
    let word = words.first().copied().unwrap_or("");
    let text = format!(in alloc; "{word}\n")?.into_bytes();
    let mut edit = [Edit { line: 0, text }];
    let mut bad: u64 = 0;
    let mut sum: u64 = 0;
    let mut others: u64 = 0;
    for (place, line) in as_lines(file).lines().enumerate() {
        if line == word {
            continue;
        }
        edit[0].line = place.saturating_add(1);
        let answer = verified(alloc, &edited(alloc, file, &edit)?)?;
        match answer.status {
            Status::BadInput => {
                bad = bad.saturating_add(1);
                sum = sum.saturating_add(line_at_fault(&answer));
            }
            Status::Refused => {}
            _ => others = others.saturating_add(1),
        }
    }
    println!(rt; "{bad} {sum} {others}")
}

// The status and the text that `verify` answers to a file with one more line, this number.
fn answer_with(alloc: Global, file: &[u8], number: u64) -> Mem<String> {
    let line = format!(in alloc; "{number}\n")?;
    let mut longer = file.to_vec(alloc)?;
    longer.extend_from_slice(line.as_bytes())?;
    let answer = verified(alloc, &longer)?;
    let status = answer.status.number();
    let text = shown(alloc, &answer.text)?;
    format!(in alloc; "{status} {text}")
}

/// Appends to a file each number below the first word as a line, and prints how many of these files are refused for the grinding or the identity,
/// and whether any is for the identity.
pub fn ground<R: Print + AllocGlobal>(rt: &R, file: &[u8], words: &[&str]) -> io::Result<()> {
    let count = words
        .first()
        .copied()
        .unwrap_or("")
        .parse::<u64>()
        .unwrap_or(0);
    let mut grindings: u64 = 0;
    let mut identities: u64 = 0;
    for number in 0..count {
        match answer_with(rt.alloc(), file, number)?.as_str() {
            "1 refused OodPowWitness 4/" => grindings = grindings.saturating_add(1),
            "1 refused OodEvaluationMismatch 0/" => identities = identities.saturating_add(1),
            _ => {}
        }
    }
    let refused = grindings.saturating_add(identities);
    let is_any = identities > 0;
    println!(rt; "{refused} {is_any}")
}
