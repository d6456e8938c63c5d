//! The wallet: a legal history, and the plain wallet's answers on it.
//!
//! A request is answered in two steps. A plan reads the wallet and tells the refusal, or the act and the reply behind it,
//! as the model's definitions do. Taking an entry changes the wallet, and nothing else does.
#![tactic(auto)]

mod history;
mod planning;
mod wallet;

pub use history::History;
pub use wallet::{Outcome, Wallet};
