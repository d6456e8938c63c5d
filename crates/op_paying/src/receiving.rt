//! Incoming payments.
ghost use Rattle.std.specs.Prelude.{◌≡◌, ℕ, List, Some, OnOk, OnErr};
ghost use Rattle.op_model.specs.Payments.{incoming_made};
ghost use Rattle.op_model.specs.Steps.{is_incoming_due};
ghost use Rattle.op_model.specs.declared.act.Act.TheVariants as acts;
ghost use Rattle.op_model.specs.declared.act.Entry.{Entry as AnyEntry};
ghost use Rattle.op_paying.specs.Money.{IsMoneyOf};
ghost use Rattle.op_paying.specs.Taking.{CanTake, TakesEntry, KeepsHistories};

use crate::money::Money;
use op_incoming::IncomingFault;
use op_model::{Entry, IncomingRow};
use op_time::Moment;
use std::alloc::AllocError;

impl Money {
    /// An incoming payment, with the row that its act makes. Only memory may be wanting, since the entry may follow.
    pub fn take_incoming(&mut self, entry: &Entry, row: IncomingRow) -> Result<(), AllocError>
        requires can { CanTake self.old entry.now }
        requires is { incoming_made entry.now.at entry.now.act ≡ Some row }
        ensures ok { OnOk result (TakesEntry entry.now self.old self.new) }
        ensures err { OnErr result (KeepsHistories self.old self.new) }
    {
        match self.incomings.add(entry.at, row) {
            Ok(_) => Ok(()),
            Err(IncomingFault::Memory) => Err(AllocError),
            Err(IncomingFault::ZeroAmount) => unreachable!(),
            Err(IncomingFault::ExpiresInPast) => unreachable!(),
            Err(IncomingFault::AlreadyClosed) => unreachable!(),
            Err(IncomingFault::AssetMismatch) => unreachable!(),
        }
    }

    /// A completion by its payee. The payment is open, since the entry may follow.
    pub fn take_completion(&mut self, entry: &Entry, incoming: u64)
        requires can { CanTake self.old entry.now }
        requires is { (grant : ℕ) × (entry.now.act ≡ acts.IncomingCompleted grant incoming) }
        ensures { TakesEntry entry.now self.old self.new }
    {
        match self.incomings.complete(incoming, entry.at) {
            Ok(()) => {}
            Err(_) => unreachable!(),
        }
    }

    /// An expiry. It is due, since the entry may follow.
    pub fn take_expiry(&mut self, entry: &Entry, incoming: u64)
        requires can { CanTake self.old entry.now }
        requires is { entry.now.act ≡ acts.IncomingExpired incoming }
        ensures { TakesEntry entry.now self.old self.new }
    {
        self.incomings.expire(incoming, entry.at);
    }

    /// Whether the expiry of an incoming payment is due at a moment. `false` where it is not there.
    pub fn is_expiry_due(&self, incoming: u64, t: Moment) -> bool
        ensures { (history : List AnyEntry) → IsMoneyOf history self.now → result ≡ is_incoming_due history incoming t }
    {
        let Some(row) = self.incomings.row(incoming) else {
            return false;
        };
        if t.ms() < row.expiry.ms() {
            return false;
        }
        // It was made below its expiry: it is open in that moment where neither an act nor its bound has closed it.
        self.incomings.is_open(incoming, row.made)
    }
}
