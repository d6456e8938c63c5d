//! The money of a wallet.
ghost use Rattle.std.specs.Prelude.{[]};
ghost use Rattle.op_paying.specs.Money.{IsMoneyOf};

use op_incoming::Incomings;
use op_ledger::Ledger;
use op_outgoing::Outgoings;
use std::alloc::Global;

/// Accounts, payments and quotes, each of which is what a legal history says: contracts speak of that history alone
/// (`IsMoneyOf`). A taken entry is the history's next.
#[derive(Drop)]
pub struct Money {
    pub(crate) ledger: Ledger,
    pub(crate) incomings: Incomings,
    pub(crate) outgoings: Outgoings,
    // the most pieces of a payment from each asset, by its number
    pub(crate) pieces: Vec<u8>,
    // how many addresses there are
    pub(crate) addresses: u32,
}

impl Money {
    /// Of a history without entries. Takes no memory.
    pub fn new(alloc: Global) -> Money
        ensures { IsMoneyOf [] result }
    {
        Money {
            ledger: Ledger::new(alloc),
            incomings: Incomings::new(alloc),
            outgoings: Outgoings::new(alloc),
            pieces: Vec::new(alloc),
            addresses: 0,
        }
    }
}
