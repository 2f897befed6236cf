//! Texts of numbers, a line for each, of which each value has exactly one: for programs whose files are to be read in one way only.
//!
//! A [`Form`] says how values are written, each as one text, and its grammar is proved with it. [`read_text`] reads the one value
//! whose text some bytes are, or names the line of the first fault. A [`Reader`] is what is left of a text, and the calls over it
//! read and print the parts that texts are made of.
#![tactic(auto)]

mod counts;
mod fixed;
mod forms;
mod lists;
mod parse;
mod texts;

pub use counts::read_powers;
pub use fixed::{read_fixed, read_headed};
pub use forms::{Form, WordLine};
pub use lists::{ListOf, print_items, print_list, read_items, read_list};
pub use parse::{TextError, read_text, read_text_from};
pub use texts::{ItemError, Reader, push_number};
