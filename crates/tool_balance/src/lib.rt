//! What the program's `balance` answers for a proof file: the refusal of `verify`, or `accepted` and whether what the tables send to each other balances, as the
//! rows say that the proof commits to.
//!
//! The definitions that contracts cite are in `specs/`: a file's answer (`FileBalance`), the line of nets (`Nets`).
#![tactic(auto)]

mod answer;
mod laws;
mod matrices;
mod messages;
mod nets;
mod rows;

pub use answer::answer_balance;
pub use laws::there_is_one_answer;
pub use nets::push_nets_line;
