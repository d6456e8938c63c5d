//! A ledger of accounts on which value is posted, and held before it is posted. All values are smallest units of an
//! account's asset.
#![tactic(auto)]

mod book;
mod indexed;
mod law;
mod places;
#[cfg(test)]
mod tests;
mod values;

pub use book::Ledger;
pub use law::balances_are_sums;
pub use values::{Balance, LedgerFault, Piece};
