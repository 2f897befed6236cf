//! The program's jobs that a number stands for, and what `demo N` answers: the job of N is proved as any other, and its answer is a line.
//!
//! The definitions that contracts cite are in `specs/`: the job (`Demo`), and the answer with the words that name a number (`DemoAnswer`).
#![tactic(auto)]

mod answer;
mod generator;
mod job;
mod laws;
mod number;
mod tables;

pub use answer::answer_demo;
pub use job::demo_job;
pub use laws::there_is_one_answer;
pub use number::read_number;
