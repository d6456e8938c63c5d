//! The values that a ledger keeps, takes and answers.

use op_model::Account;
use thiserror::Error;

/// What is posted and held on an account, in smallest units of its asset. `Outside` stands below zero by what is
/// posted on it: that is its asset's total.
#[derive(Clone, Copy)]
pub struct Balance {
    pub account: Account,
    pub asset: u32,
    pub posted: u64,
    pub held: u64,
}

/// A piece of a payment: what is sent and the fee leave the payer, in smallest units of the payer's asset, and what is
/// delivered reaches the payee, in those of the payee's.
#[derive(Clone, Copy)]
pub struct Piece {
    pub payer: Account,
    pub payee: Account,
    pub sent: u64,
    pub fee: u64,
    pub delivered: u64,
}

/// Why value is not moved or held.
#[derive(Clone, Copy, Debug, PartialEq, Eq, Error)]
pub enum LedgerFault {
    /// The account has less available than is asked for.
    #[error("only {available} is available in the account")]
    Short { available: u64 },
    /// The asset's total would pass the largest value.
    #[error("the total of the asset, which is {total}, would pass the largest value")]
    AssetFull { total: u64 },
}
