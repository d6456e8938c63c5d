//! Quotes and outgoing payments by number.
ghost use Rattle.std.specs.Prelude.{◌≡◌, ◌<◌, ◌≤◌, ◌↔◌, ◌++◌, [], length, false, true, IsTrue, IsErr, OnOk, OnErr, IfOk, IfErr, IfSome};
ghost use Rattle.std.specs.Option.{option_copied};
ghost use Rattle.op_ledger.specs.Balances.{LedgerValue};
ghost use Rattle.op_model.specs.History.{nth, with_item};
ghost use Rattle.op_model.specs.Payments.{is_ended};
ghost use Rattle.op_model.specs.declared.act.FailReason.TheVariants.{Cancelled};
ghost use Rattle.op_outgoing.specs.Held.{are_accounts_there, is_incoming_there, is_rate_plain, IsCovered, ChangesAlike};
ghost use Rattle.op_outgoing.specs.Sound.{ArePriced, IsSoundRow};
ghost use Rattle.op_outgoing.specs.Steps.{stepped_row, ended_as, is_idle};
ghost use Rattle.op_outgoing.specs.Value.{has_quote, has_payment, payment_is, is_paid_in, quote_expiry, with_quote, with_fresh, with_direct, with_payment, answer_in, ledger_behind, incomings_behind, voided_in, IsMakingFault};
ghost use Rattle.op_outgoing.specs.Work.{due_steps, next_cursor};
ghost use Rattle.op_outgoing.specs.declared.outgoings.OutgoingFault.TheVariants as faults;

use crate::made::{Made, fresh};
use crate::payments::{Payments, has_ended};
use crate::progress::failed;
use crate::quoted::Quoted;
use crate::stepping::{take_step, void_rest};
use op_incoming::Incomings;
use op_ledger::Ledger;
use op_model::{FailReason, MetaText, OutgoingRow, QuoteRow, StepAnswer, Task, Terms};
use op_time::Moment;
use std::alloc::{AllocError, Global};
use std::marker::Model;
use thiserror::Error;

/// How long a price stands, in milliseconds.
const PRICE_LIFETIME: u64 = 300_000;

/// Why a payment is not made or not cancelled.
#[derive(Clone, Copy, Debug, PartialEq, Eq, Error)]
pub enum OutgoingFault {
    /// A payment was made from this quote before.
    #[error("a payment was made from this quote before")]
    QuoteUsed,
    /// The quote's expiry is reached.
    #[error("the expiry of the quote is reached")]
    QuoteExpired,
    /// The payment is completed or failed.
    #[error("the payment is completed or failed")]
    AlreadyEnded,
    /// There was no memory.
    #[error("memory was wanting")]
    Memory,
}

impl From<AllocError> for OutgoingFault {
    ghost from_gives = { λ _ fault. fault ≡ faults.Memory };

    fn from(_: AllocError) -> OutgoingFault {
        OutgoingFault::Memory
    }
}

/// Quotes and outgoing payments by number, from 1, in the order in which they were made (Open Payments, quotes and
/// outgoing payments). Contracts see both lists. A payment is funded from its payer's account on a ledger, sent to an
/// incoming payment piece by piece, and ends completed or failed. A refused call leaves all as it was.
#[derive(Drop)]
pub struct Outgoings {
    quotes: Vec<Quoted>,
    payments: Payments,
}

impl Model for Outgoings {
    ghost use Rattle.std.specs.Prelude.{map};
    ghost use Rattle.op_outgoing.specs.Tied.{AreTied};
    ghost use Rattle.op_outgoing.specs.Value.{OutgoingsValue};

    ghost Value = { OutgoingsValue };

    ghost view = { λ a. record { quotes = map (λ quoted. quoted.row) a.quotes.items; rows = a.payments } };

    ghost invariant = { λ a. AreTied a.quotes.items a.payments };
}

impl Outgoings {
    /// No quotes and no payments. Takes no memory.
    pub fn new(alloc: Global) -> Outgoings
        ensures { result ≡ record { quotes = []; rows = [] } }
    {
        Outgoings {
            quotes: Vec::new(alloc),
            payments: Payments::new(alloc),
        }
    }

    /// Puts a quote behind those that are there, and answers its number.
    pub fn add_quote(&mut self, row: QuoteRow) -> Result<u64, AllocError>
        requires { ArePriced row.terms }
        ensures ok { IfOk result
            (λ n. (self.new ≡ with_quote self.old row) × (n ≡ length self.new.quotes)) }
        ensures err { OnErr result (self.new ≡ self.old) }
    {
        self.quotes.push(Quoted { row, used: false })?;
        Ok(self.quotes.len() as u64)
    }

    /// Makes a payment from a quote at a moment, and answers its number. `QuoteUsed` exactly where a payment was made
    /// from this quote before, and `QuoteExpired` exactly where none was and the moment is not below the quote's
    /// expiry.
    pub fn add(
        &mut self,
        t: Moment,
        quote: u64,
        grant: u64,
        metadata: Option<MetaText>,
    ) -> Result<u64, OutgoingFault>
        requires { IsTrue (has_quote self.old quote) }
        ensures ok { IfOk result (λ n. (self.new ≡ with_fresh self.old t quote grant metadata)
            × (n ≡ length self.new.rows) × (t < quote_expiry self.old quote)) }
        ensures used { (result ≡ Err faults.QuoteUsed) ↔ IsTrue (is_paid_in self.old.rows quote) }
        ensures expired { (result ≡ Err faults.QuoteExpired)
            ↔ ((is_paid_in self.old.rows quote ≡ false) × (quote_expiry self.old quote ≤ t)) }
        ensures err { IfErr result (λ e. IsMakingFault e × (self.new ≡ self.old)) }
    {
        let place = quote as usize - 1;
        let Quoted { row, used } = self.quotes[place];
        if used {
            return Err(OutgoingFault::QuoteUsed);
        }
        if row.expiry.ms() <= t.ms() {
            return Err(OutgoingFault::QuoteExpired);
        }
        let number = self.payments.push(fresh(Made {
            grant,
            quote: Some(quote),
            made: t,
            expiry: row.expiry,
            terms: row.terms,
            metadata,
        }))?;
        self.quotes[place].used = true;
        Ok(number)
    }

    /// Makes a payment without a quote at a moment, and answers its number. Its terms stand for five minutes, as those
    /// of a quote do.
    pub fn add_direct(
        &mut self,
        t: Moment,
        terms: Terms,
        grant: u64,
        metadata: Option<MetaText>,
    ) -> Result<u64, AllocError>
        requires { ArePriced terms }
        ensures ok { IfOk result
            (λ n. (self.new ≡ with_direct self.old t terms grant metadata) × (n ≡ length self.new.rows)) }
        ensures err { OnErr result (self.new ≡ self.old) }
    {
        self.payments.push(fresh(Made {
            grant,
            quote: None,
            made: t,
            expiry: Moment::at_most_last(t.ms() + PRICE_LIFETIME),
            terms,
            metadata,
        }))
    }

    /// Takes step `k` of a payment at a moment, on a ledger and the incoming payments, by the table of steps. The
    /// answers `Stale`, `Ended` and `Waiting` change nothing, and each other one raises the payment's step number by
    /// one. Takes no memory.
    pub fn step(
        &mut self,
        ledger: &mut Ledger,
        incomings: &mut Incomings,
        payment: u64,
        k: u64,
        t: Moment,
    ) -> StepAnswer
        requires there { IsTrue (has_payment self.old payment) }
        requires accounts { IsTrue (payment_is (are_accounts_there ledger.old) self.old payment) }
        requires incoming { IsTrue (payment_is (is_incoming_there incomings.old) self.old payment) }
        requires rate { IsTrue (payment_is (is_rate_plain ledger.old) self.old payment) }
        requires covered { IsCovered self.old ledger.old }
        ensures answer { result ≡ answer_in self.old ledger.old incomings.old payment k t }
        ensures rows { self.new ≡ with_payment (stepped_row result) self.old payment }
        ensures money { ledger.new ≡ ledger_behind self.old ledger.old payment result }
        ensures paid { incomings.new ≡ incomings_behind self.old incomings.old payment result }
        ensures idle { IsTrue (is_idle result) → (self.new ≡ self.old)
            × (ledger.new ≡ ledger.old) × (incomings.new ≡ incomings.old) }
        ensures held { ChangesAlike self.old self.new ledger.old ledger.new }
        ensures covered { IsCovered self.new ledger.new }
    {
        let row = self.payments.at(payment);
        let stepped = take_step(row, ledger, incomings, k, t);
        self.payments.set(payment, stepped.after);
        stepped.answer
    }

    /// Ends a payment as failed, and frees what is held for it. `AlreadyEnded` exactly where it is completed or failed.
    /// Takes no memory.
    pub fn cancel(&mut self, ledger: &mut Ledger, payment: u64) -> Result<(), OutgoingFault>
        requires there { IsTrue (has_payment self.old payment) }
        requires accounts { IsTrue (payment_is (are_accounts_there ledger.old) self.old payment) }
        requires covered { IsCovered self.old ledger.old }
        ensures rows { OnOk result (self.new ≡ with_payment (ended_as Cancelled) self.old payment) }
        ensures money { OnOk result (ledger.new ≡ voided_in self.old ledger.old payment) }
        ensures ended { IsErr result
            ↔ IsTrue (payment_is (λ row. is_ended row.state) self.old payment) }
        ensures err { IfErr result (λ e. (e ≡ faults.AlreadyEnded)
            × (self.new ≡ self.old) × (ledger.new ≡ ledger.old)) }
        ensures held { ChangesAlike self.old self.new ledger.old ledger.new }
        ensures covered { IsCovered self.new ledger.new }
    {
        let row = self.payments.at(payment);
        if has_ended(row.state) {
            return Err(OutgoingFault::AlreadyEnded);
        }
        void_rest(row, ledger);
        let after = failed(row, FailReason::Cancelled);
        self.payments.set(payment, after);
        Ok(())
    }

    /// Appends the steps of the first `room` payments above a cursor that have not ended, in the order of their
    /// numbers, and answers the number of the last of them, or 0 where fewer than `room` were left. It looks at those
    /// alone that have not ended. Where memory is short, `out` is as it was.
    pub fn due(
        &self,
        alloc: Global,
        cursor: u64,
        room: usize,
        out: &mut Vec<Task>,
    ) -> Result<u64, AllocError>
        requires { 0 < room }
        ensures ok { OnOk result (out.new.items ≡ out.old.items ++ due_steps self.now.rows cursor room) }
        ensures cursor { IfOk result (λ next. next ≡ next_cursor self.now.rows cursor room) }
        ensures err { OnErr result (out.new.items ≡ out.old.items) }
    {
        let mut due = self.payments.due(alloc, cursor, room)?;
        out.append(&mut due.tasks)?;
        Ok(due.cursor)
    }

    /// Payment `n`, as far as it has come. `None` exactly where it is not there.
    pub fn row(&self, n: u64) -> Option<&OutgoingRow>
        ensures value { option_copied result ≡ nth self.now.rows n }
        ensures sound { IfSome result (λ row. IsSoundRow row.now) }
    {
        self.payments.find(n)
    }

    /// Quote `n`. `None` exactly where it is not there.
    pub fn quote(&self, n: u64) -> Option<&QuoteRow>
        ensures value { option_copied result ≡ nth self.now.quotes n }
        ensures priced { IfSome result (λ row. ArePriced row.now.terms) }
    {
        let place = n.checked_sub(1)?;
        let quoted = self.quotes.get(place as usize)?;
        Some(&quoted.row)
    }

    /// How many payments there are.
    pub fn count(&self) -> u64
        ensures { result ≡ length self.now.rows }
    {
        self.payments.count()
    }
}
