//! The lines of rows.
ghost use Rattle.std.specs.Prelude.{◌≡◌, ◌<◌, ◌++◌, OnOk, length};
ghost use Rattle.tool_hash_lines.specs.RowText.{unreadable_line, word_text, words_line};

use itoa::Buffer;
use p3_field::Mem;
use std::alloc::Global;

// Appends a word in 8 lower-case hexadecimal digits, the highest first. On an error a part may stand.
#[tactic(auto, unfolding(crate::specs::RowText::word_text))]
fn push_word(alloc: Global, text: &mut Vec<u8>, word: u32) -> Mem<()>
    ensures { OnOk result (text.new.items ≡ text.old.items ++ word_text word) }
{
    let digits = hex::encode(alloc, word.to_be_bytes())?;
    text.extend_from_slice(digits.as_bytes())?;
    Ok(())
}

/// Appends the line of these words, of which there is one at least: each in hexadecimal, with a space between two, and an LF. On an error a part may stand.
pub(crate) fn push_words(alloc: Global, text: &mut Vec<u8>, words: &[u32]) -> Mem<()>
    requires { 0 < length words.now }
    ensures { OnOk result (text.new.items ≡ text.old.items ++ words_line words.now) }
{
    push_word(alloc, text, words[0])?;
    let others = &words[1..];
    for word in others {
        text.push(b' ')?;
        push_word(alloc, text, *word)?;
    }
    text.push(b'\n')?;
    Ok(())
}

/// Appends the line of an unreadable row: `row`, its number in decimal, `unreadable`, and an LF. On an error a part may stand.
#[tactic(auto, unfolding(crate::specs::RowText::unreadable_line))]
pub(crate) fn push_unreadable(text: &mut Vec<u8>, row: usize) -> Mem<()>
    ensures { OnOk result (text.new.items ≡ text.old.items ++ unreadable_line row) }
{
    let mut buffer = Buffer::new();
    text.extend_from_slice(b"row ")?;
    text.extend_from_slice(buffer.format(row as u64).as_bytes())?;
    text.extend_from_slice(b" unreadable\n")?;
    Ok(())
}
