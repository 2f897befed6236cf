//! Tables as AIRs over any field: the swap table and the wheel, which the program has, and the sending table, which tests use.
//!
//! Each module has one table. Its declaration, its constraint trees and its interactions are definitions of `specs/`,
//! and the `impl`s of `BaseAir` and `Air` are proved to answer and to append exactly these. `README.md` says what each
//! table is for.
#![tactic(auto)]

mod sending;
mod swap;
mod wheel;

pub use sending::SendingAir;
pub use swap::SwapAir;
pub use wheel::WheelAir;
