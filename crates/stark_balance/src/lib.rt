//! Lookup balance: what the terminals of a batch say of what its tables send, and the nets of messages.
//!
//! `table_messages` gives what a table sends, `net_counts` what is left over of it on each bus. The functions of `meanings`
//! compute nothing: their contracts are laws of the definitions in `specs/`: nets (`Nets`), tables on which the constraints
//! of their lookups vanish (`Vanishing`, `Batch`), unlucky lookup challenges (`Unlucky`) and how many there may be (`Count`).
#![tactic(auto)]

mod counts;
pub mod meanings;
mod message;
mod messages;

pub use counts::net_counts;
pub use message::Message;
pub use messages::table_messages;
