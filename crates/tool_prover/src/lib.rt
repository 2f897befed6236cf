//! What the program's `prove` answers for a job: the text of its proof file, or the line that says why there is none.
//!
//! The definitions that contracts cite are in `specs/`: a job as a batch that is proved (`JobBatch`), when a point lies on no table's rows
//! (`Outside`), and a job's answer (`JobAnswer`).
#![tactic(auto)]

mod answer;
mod laws;
mod outside;
mod proving;

pub use answer::answer_prove;
pub use laws::{there_is_one_answer, traced_batches_are_granted};
pub use outside::avoids_subgroup;
