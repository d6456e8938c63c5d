//! The money of a wallet: its ledger, incoming payments, quotes and outgoing payments, as a legal history has them. All
//! values are smallest units of an account's asset.
#![tactic(auto)]

mod accounts;
mod balances;
mod making;
mod money;
mod payments;
mod receiving;
mod rows;
mod taking;
mod terms;

pub use money::Money;
pub use terms::Parties;
