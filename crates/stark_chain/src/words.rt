//! The texts of words.
use p3_field::Mem;
use std::alloc::Global;
use tool_lines::{Form, ItemError, Reader, WordLine, print_items, read_items};

/// The words of a chaining value.
const CHAINING_WORDS: usize = 8;

/// The words of a block.
const BLOCK_WORDS: usize = 16;

/// The form of a chaining value: a line for each of its 8 words.
pub(crate) struct ChainingText;

impl Form for ChainingText {
    type Value = [u32; 8];

    ghost use Rattle.std.specs.Prelude.{List, ℕ};
    ghost use Rattle.stark_chain.specs.Texts.{AreWordsOf, words_numbers};
    ghost use Rattle.stark_chain.specs.Laws.Texts.{words-grammar};

    ghost Data = { List ℕ };

    ghost data_of = { λ words. words };

    ghost within = { AreWordsOf 8 };

    ghost numbers = { words_numbers };

    ghost grammar = { words-grammar 8 };

    fn read(alloc: Global, reader: &mut Reader) -> Result<[u32; 8], ItemError> {
        let items = read_items::<WordLine>(alloc, reader, CHAINING_WORDS)?;
        let mut words = [0; 8];
        words.copy_from_slice(&items);
        Ok(words)
    }

    fn print(value: &[u32; 8], out: &mut Vec<u8>) -> Mem<()> {
        print_items::<WordLine>(value, out)
    }
}

/// The form of a block: a line for each of its 16 words.
pub(crate) struct BlockText;

impl Form for BlockText {
    type Value = [u32; 16];

    ghost use Rattle.std.specs.Prelude.{List, ℕ};
    ghost use Rattle.stark_chain.specs.Texts.{AreWordsOf, words_numbers};
    ghost use Rattle.stark_chain.specs.Laws.Texts.{words-grammar};

    ghost Data = { List ℕ };

    ghost data_of = { λ words. words };

    ghost within = { AreWordsOf 16 };

    ghost numbers = { words_numbers };

    ghost grammar = { words-grammar 16 };

    fn read(alloc: Global, reader: &mut Reader) -> Result<[u32; 16], ItemError> {
        let items = read_items::<WordLine>(alloc, reader, BLOCK_WORDS)?;
        let mut words = [0; 16];
        words.copy_from_slice(&items);
        Ok(words)
    }

    fn print(value: &[u32; 16], out: &mut Vec<u8>) -> Mem<()> {
        print_items::<WordLine>(value, out)
    }
}
