//! What the program's `verify` answers for a proof file: whether the stated tables' heights are those of the proof, whether the batch
//! verifier accepts it, and the text that says so.
//!
//! The definitions that contracts cite are in `specs/`: a file's answer and what it means (`FileAnswer`), the texts of refusals (`Refusals`).
#![tactic(auto)]

mod answer;
mod fault_names;
mod fault_numbers;
mod file_answer;
mod heights;
mod laws;
mod meaning;
mod refusal;
mod status;
mod tables;
mod told;

pub use answer::{Answer, answer_tables};
pub use fault_names::fault_name;
pub use fault_numbers::{push_fault, push_spaced};
pub use file_answer::answer_verify;
pub use laws::there_is_one_answer;
pub use meaning::accepted_means;
pub use refusal::{fault_line, mismatch_line, refusal_line};
pub use status::Status;
pub use tables::verify_tables;
pub use told::statuses_are_told;
