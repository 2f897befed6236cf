//! The nets of messages, and the line that says whether they are zero.

use crate::printing::print_text;
use p3_field::{BabyBear, Mem, PrimeCore64, RingCore};
use stark_balance::{Message, net_counts};
use std::alloc::Global;
use std::io;
use tool_balance::push_nets_line;

// The message that a word spells: its bus, the values of its tuple and its count, with commas between them. None where there are fewer than two numbers.
fn message_of(alloc: Global, word: &str) -> Mem<Option<Message<BabyBear>>> {
    let mut values = Vec::new(alloc);
    for number in word.split(',') {
        values.push(BabyBear::from_u64(number.parse::<u64>().unwrap_or(0)))?;
    }
    match values.as_slice() {
        [bus, tuple @ .., count] => Ok(Some(Message {
            bus: bus.as_canonical_u64() as usize,
            tuple: tuple.to_vec(alloc)?,
            count: *count,
        })),
        _ => Ok(None),
    }
}

// The word that spells a message, and a blank.
fn push_word(out: &mut Vec<u8>, alloc: Global, message: &Message<BabyBear>) -> Mem<()> {
    let bus = message.bus;
    out.extend_from_slice(format!(in alloc; "{bus},")?.as_bytes())?;
    for i in 0..message.tuple.len() {
        let value = message.tuple[i].as_canonical_u64();
        out.extend_from_slice(format!(in alloc; "{value},")?.as_bytes())?;
    }
    let count = message.count.as_canonical_u64();
    out.extend_from_slice(format!(in alloc; "{count} ")?.as_bytes())?;
    Ok(())
}

/// Prints the nets of the messages that the words spell, and their line.
pub fn nets<R: Print + AllocGlobal>(rt: &R, words: &[&str]) -> io::Result<()> {
    let alloc = rt.alloc();
    let mut messages = Vec::new(alloc);
    for word in words {
        match message_of(alloc, *word)? {
            Some(message) => messages.push(message)?,
            None => return rt.println("bad case"),
        }
    }
    let nets = net_counts(alloc, &messages)?;
    let mut out = Vec::new(alloc);
    for i in 0..nets.len() {
        push_word(&mut out, alloc, &nets[i])?;
    }
    push_nets_line(&mut out, &nets)?;
    print_text(rt, &out)
}
