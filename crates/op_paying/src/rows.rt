//! Rows of incoming payments, quotes and outgoing payments, and what an incoming payment still takes: read alone.
ghost use Rattle.std.specs.Prelude.{◌≡◌, ◌≤◌, List, length, false};
ghost use Rattle.std.specs.Option.{option_copied, option_map_or};
ghost use Rattle.op_amount.specs.declared.TheConstants.{TOP};
ghost use Rattle.op_model.specs.Incoming.{is_open, is_completed, room_of};
ghost use Rattle.op_model.specs.Payments.{incomings, incoming_row, quote_row, payments_made, outgoing_row, received};
ghost use Rattle.op_model.specs.declared.act.Entry.{Entry};
ghost use Rattle.op_paying.specs.Money.{IsMoneyOf};

use crate::money::Money;
use op_model::{IncomingRow, OutgoingRow, QuoteRow};
use op_time::Moment;

impl Money {
    /// Incoming payment `n` as it was made (Open Payments, incoming payments). `None` exactly where it is not there.
    pub fn incoming(&self, n: u64) -> Option<&IncomingRow>
        ensures { (history : List Entry) → IsMoneyOf history self.now → option_copied result ≡ incoming_row history n }
    {
        self.incomings.row(n)
    }

    /// Quote `n` (Open Payments, quotes). `None` exactly where it is not there.
    pub fn quote(&self, n: u64) -> Option<&QuoteRow>
        ensures { (history : List Entry) → IsMoneyOf history self.now → option_copied result ≡ quote_row history n }
    {
        self.outgoings.quote(n)
    }

    /// Outgoing payment `n`, as far as it has come (Open Payments, outgoing payments). `None` exactly where it is not
    /// there.
    pub fn outgoing(&self, n: u64) -> Option<&OutgoingRow>
        ensures { (history : List Entry) → IsMoneyOf history self.now → option_copied result ≡ outgoing_row history n }
    {
        self.outgoings.row(n)
    }

    /// How many incoming payments there are.
    pub fn incoming_count(&self) -> u64
        ensures { (history : List Entry) → IsMoneyOf history self.now → result ≡ length (incomings history) }
    {
        self.incomings.count()
    }

    /// How many outgoing payments there are.
    pub fn outgoing_count(&self) -> u64
        ensures { (history : List Entry) → IsMoneyOf history self.now → result ≡ length (payments_made history) }
    {
        self.outgoings.count()
    }

    /// Whether incoming payment `n` is there and open at a moment: no act completed or expired it, it has received less
    /// than its bound, and the moment is below its expiry.
    pub fn is_open(&self, n: u64, t: Moment) -> bool
        ensures { (history : List Entry) → IsMoneyOf history self.now
            → result ≡ option_map_or (λ row. is_open history n row t) (incoming_row history n) false }
    {
        match self.incomings.row(n) {
            Some(_) => self.incomings.is_open(n, t),
            None => false,
        }
    }

    /// Whether incoming payment `n` is there and completed: its payee completed it, or what it has received reaches its
    /// bound.
    pub fn is_completed(&self, n: u64) -> bool
        ensures { (history : List Entry) → IsMoneyOf history self.now
            → result ≡ option_map_or (is_completed history n) (incoming_row history n) false }
    {
        match self.incomings.row(n) {
            Some(_) => self.incomings.is_completed(n),
            None => false,
        }
    }

    /// How much more incoming payment `n` takes, in smallest units of its address's asset: 0 where its bound is reached or
    /// passed, and where it is not there.
    pub fn room(&self, n: u64) -> u64
        ensures value { (history : List Entry) → IsMoneyOf history self.now
            → result ≡ option_map_or (room_of history n) (incoming_row history n) 0 }
        ensures at_most { result ≤ TOP }
    {
        match self.incomings.row(n) {
            Some(_) => self.incomings.room(n),
            None => 0,
        }
    }

    /// What incoming payment `n` has received, in smallest units of its address's asset: 0 where it is not there.
    pub fn received(&self, n: u64) -> u64
        ensures { (history : List Entry) → IsMoneyOf history self.now
            → result ≡ option_map_or (λ row. received history n) (incoming_row history n) 0 }
    {
        match self.incomings.row(n) {
            Some(_) => self.incomings.received(n),
            None => 0,
        }
    }
}
