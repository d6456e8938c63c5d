//! The command `apply`: requests from a source, answered in order, their acts in a journal, and their replies to a sink.
//!
//! `wallet_main` is the top call. What it promises is told in its clauses, by the definitions of op_model: a session
//! over the bytes that were read, and what the journal's disk spells at every moment.
#![tactic(auto)]

mod laws;
mod outside;
mod program;
mod session;
#[cfg(test)]
mod tests;
mod words;

pub use laws::calls_are_one_history;
pub use outside::Outside;
pub use program::{plain_main, wallet_main};
