//! What may follow a list of tokens.
#![tactic(auto)]

mod due;
pub mod expected;
mod kinds;
mod reply;
pub mod set;
mod start;
mod word;
