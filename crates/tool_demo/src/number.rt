//! The number that a word writes.
ghost use Rattle.tool_demo.specs.DemoAnswer.{WritesNumber};

use itoa::Buffer;

/// The number that the word writes in decimal, without a leading zero or a sign, up to 4294967295 (not in Plonky3). None exactly where
/// it writes none.
pub fn read_number(word: &str) -> Option<u32>
    ensures { WritesNumber word.now result }
{
    let Ok(number) = word.parse::<u32>() else {
        return None;
    };
    let mut buffer = Buffer::new();
    if buffer.format(number) == word {
        Some(number)
    } else {
        None
    }
}
