//! Incoming payments by number.
ghost use Rattle.std.specs.Prelude.{◌≡◌, ◌≢◌, ◌*◌, ◌<◌, ◌≤◌, ◌↔◌, ◌++◌, [], length, false, IsTrue, IsErr, OnOk, OnErr, IfOk, IfErr, IfSome, Some, option_map};
ghost use Rattle.std.specs.Bool.{OnTrue, OnFalse};
ghost use Rattle.std.specs.Option.{option_copied};
ghost use Rattle.op_amount.specs.declared.TheConstants.{TOP};
ghost use Rattle.op_model.specs.History.{nth, with_item};
ghost use Rattle.op_incoming.specs.Rows.{has_row, row_is, is_unclosed, is_open_at, is_due_at, is_completed, received_by, bound_in, room_in, made, completed, expired, paid, closed_as, due_tasks, IsMakingFault};
ghost use Rattle.op_incoming.specs.Within.{IsWithin};
ghost use Rattle.op_incoming.specs.declared.incoming.IncomingFault.TheVariants as faults;

use crate::incoming::{Closing, Incoming, IncomingFault};
use op_model::{IncomingRow, Task};
use op_time::Moment;
use std::alloc::{AllocError, Global};
use std::marker::Model;

/// Incoming payments by number, from 1, in the order in which they were made (Open Payments, incoming payments).
/// Contracts see the list of them, each with what an act made of it and with what it has received. Want of memory
/// leaves it as it was.
#[derive(Drop)]
pub struct Incomings {
    kept: Vec<Incoming>,
    // The numbers of those that no act closed and whose bound is not reached, so that the others are not walked.
    unfinished: Vec<u64>,
}

impl Model for Incomings {
    ghost use Rattle.std.specs.Prelude.{List};
    ghost use Rattle.op_incoming.specs.declared.incoming.Incoming.{Incoming};

    ghost Value = { List Incoming };

    ghost use Rattle.op_incoming.specs.Within.{AreKept};

    ghost view = { λ a. a.kept.items };

    ghost invariant = { λ a. AreKept a.kept.items a.unfinished.items };
}

impl Incomings {
    /// No incoming payments. Takes no memory.
    pub fn new(alloc: Global) -> Incomings
        ensures { result ≡ [] }
    {
        Incomings {
            kept: Vec::new(alloc),
            unfinished: Vec::new(alloc),
        }
    }

    /// Makes an incoming payment at a moment, and answers its number. `ZeroAmount` exactly where its amount is zero,
    /// and `ExpiresInPast` exactly where it is not and the expiry is not above the moment.
    pub fn add(&mut self, t: Moment, row: IncomingRow) -> Result<u64, IncomingFault>
        requires { IfSome row.amount (λ amount. amount ≤ TOP) }
        ensures ok { IfOk result
            (λ n. (self.new ≡ made self.old row) × (n ≡ length self.new) × (t < row.expiry)) }
        ensures zero { (result ≡ Err faults.ZeroAmount) ↔ (row.amount ≡ Some 0) }
        ensures past { (result ≡ Err faults.ExpiresInPast)
            ↔ ((row.amount ≢ Some 0) × (row.expiry ≤ t)) }
        ensures err { IfErr result (λ e. IsMakingFault e × (self.new ≡ self.old)) }
    {
        if row.amount == Some(0) {
            return Err(IncomingFault::ZeroAmount);
        }
        if row.expiry.ms() <= t.ms() {
            return Err(IncomingFault::ExpiresInPast);
        }
        self.kept.reserve(1)?;
        self.unfinished.reserve(1)?;
        let number = self.kept.len() as u64 + 1;
        self.unfinished.push_reserved(number);
        self.kept.push_reserved(Incoming {
            row,
            closing: Closing::Unclosed,
            received: 0,
        });
        Ok(number)
    }

    /// Whether payment `n` is open at a moment: no act completed or expired it, it has received less than its bound,
    /// and the moment is below the expiry.
    pub fn is_open(&self, n: u64, t: Moment) -> bool
        requires { IsTrue (has_row self.now n) }
        ensures { result ≡ row_is (is_open_at t) self.now n }
    {
        self.at(n).is_open(t)
    }

    /// Whether payment `n` is completed: an act completed it, or what it has received reaches its bound.
    pub fn is_completed(&self, n: u64) -> bool
        requires { IsTrue (has_row self.now n) }
        ensures { result ≡ row_is is_completed self.now n }
    {
        self.at(n).is_completed()
    }

    /// How much more payment `n` takes: zero where its bound is reached or passed.
    pub fn room(&self, n: u64) -> u64
        requires { IsTrue (has_row self.now n) }
        ensures value { result ≡ room_in self.now n }
        ensures at_most { result ≤ TOP }
    {
        self.at(n).room()
    }

    /// What payment `n` has received.
    pub fn received(&self, n: u64) -> u64
        requires { IsTrue (has_row self.now n) }
        ensures value { result ≡ received_by self.now n }
        ensures at_most { result < 2 * TOP }
    {
        self.at(n).received
    }

    /// Appends the expiry of the first `room` payments that are due for it at a moment, in the order of their numbers.
    /// It looks at those alone that no act closed and whose bound is not reached.
    pub fn due(
        &self,
        alloc: Global,
        t: Moment,
        room: usize,
        out: &mut Vec<Task>,
    ) -> Result<(), AllocError>
        ensures ok { OnOk result (out.new.items ≡ out.old.items ++ due_tasks self.now t room) }
        ensures err { OnErr result (out.new.items ≡ out.old.items) }
    {
        let mut due = self.first_due(alloc, t, room)?;
        out.append(&mut due)
    }

    fn first_due(&self, alloc: Global, t: Moment, room: usize) -> Result<Vec<Task>, AllocError>
        ensures { IfOk result (λ due. due.items ≡ due_tasks self.now t room) }
    {
        let mut due = Vec::new(alloc);
        for number in &self.unfinished {
            if due.len() == room {
                return Ok(due);
            }
            if self.is_due(*number, t) {
                due.push(Task::Expire { incoming: *number })?;
            }
        }
        Ok(due)
    }

    /// Completes payment `n` at a moment. `AlreadyClosed` exactly where it is not open then. Takes no memory.
    pub fn complete(&mut self, n: u64, t: Moment) -> Result<(), IncomingFault>
        requires { IsTrue (has_row self.old n) }
        ensures ok { OnOk result (self.new ≡ completed self.old n) }
        ensures closed { IsErr result ↔ (row_is (is_open_at t) self.old n ≡ false) }
        ensures err { IfErr result (λ e. (e ≡ faults.AlreadyClosed) × (self.new ≡ self.old)) }
    {
        if !self.is_open(n, t) {
            return Err(IncomingFault::AlreadyClosed);
        }
        self.close(n, Closing::Completed);
        Ok(())
    }

    /// Expires payment `n` at a moment. `true` exactly where it is due for that: no act completed or expired it, it has
    /// received less than its bound, and the moment is not below the expiry. Takes no memory.
    pub fn expire(&mut self, n: u64, t: Moment) -> bool
        requires { IsTrue (has_row self.old n) }
        ensures due { result ≡ row_is (is_due_at t) self.old n }
        ensures done { OnTrue result (self.new ≡ expired self.old n) }
        ensures same { OnFalse result (self.new ≡ self.old) }
    {
        if !self.is_due(n, t) {
            return false;
        }
        self.close(n, Closing::Expired);
        true
    }

    /// Adds a value to what payment `n` has received. The last one may pass the bound. Takes no memory.
    pub fn receive(&mut self, n: u64, value: u64)
        requires there { IsTrue (has_row self.old n) }
        requires below { received_by self.old n < bound_in self.old n }
        requires value { value ≤ TOP }
        ensures { self.new ≡ paid self.old n value }
    {
        let place = n as usize - 1;
        self.kept[place].received += value;
        if !self.kept[place].is_unfinished() {
            self.unfinished.retain(|other| *other != n);
        }
    }

    /// Payment `n` as it was made. `None` exactly where it is not there.
    pub fn row(&self, n: u64) -> Option<&IncomingRow>
        ensures { option_copied result ≡ option_map (λ i. i.row) (nth self.now n) }
    {
        let incoming = self.find(n)?;
        Some(&incoming.row)
    }

    /// How many incoming payments there are.
    pub fn count(&self) -> u64
        ensures { result ≡ length self.now }
    {
        self.kept.len() as u64
    }

    fn find(&self, n: u64) -> Option<&Incoming>
        ensures { option_copied result ≡ nth self.now n }
    {
        let place = n.checked_sub(1)?;
        self.kept.get(place as usize)
    }

    // Payment `n`, which is there.
    fn at(&self, n: u64) -> &Incoming
        requires { IsTrue (has_row self.now n) }
        ensures found { nth self.now n ≡ Some result.now }
        ensures within { IsWithin result.now }
    {
        &self.kept[n as usize - 1]
    }

    // Whether payment `n` is there and due for expiry.
    fn is_due(&self, n: u64, t: Moment) -> bool
        ensures { result ≡ row_is (is_due_at t) self.now n }
    {
        match self.find(n) {
            Some(incoming) => incoming.is_due(t),
            None => false,
        }
    }

    // Closes payment `n`.
    fn close(&mut self, n: u64, closing: Closing)
        requires there { IsTrue (has_row self.old n) }
        requires closing { is_unclosed closing ≡ false }
        ensures { self.new ≡ with_item (closed_as closing) self.old n }
    {
        self.kept[n as usize - 1].closing = closing;
        self.unfinished.retain(|number| *number != n);
    }
}
