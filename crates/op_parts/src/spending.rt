//! Payments that are made and that fail: money changes, and what was spent under their grants.

ghost use Rattle.std.specs.Prelude.{◌≡◌, ℕ, List, true, false, Some, IsSome, IsOk, OnOk, OnErr};
ghost use Rattle.std.specs.Option.{option_map};
ghost use Rattle.op_granting.specs.Kinds.{is_on_spending};
ghost use Rattle.op_granting.specs.Spending.{paid_by, under};
ghost use Rattle.op_model.specs.Payments.{quote_row};
ghost use Rattle.op_model.specs.declared.act.Act.TheVariants.{OutgoingFailed};
ghost use Rattle.op_model.specs.declared.act.Entry.{Entry as AnyEntry};
ghost use Rattle.op_model.specs.declared.act.FailReason.{FailReason};
ghost use Rattle.op_parts.specs.Parts.{AreParts, MayGoOn, GoOn, KeepHistories};
ghost use Rattle.op_paying.specs.Money.{IsMoneyOf};
ghost use Rattle.op_paying.specs.Taking.{makes_rows};

use crate::parts::Parts;
use op_granting::{NextEntry, PaidUnder, make_room, take_failed, take_made};
use op_model::{Act, Entry};
use op_paying::Money;
use std::alloc::{AllocError, Global};

impl Parts {
    // A payment that is made, from a quote or without one, or that fails.
    pub(crate) fn take_spending(
        &mut self,
        alloc: Global,
        place: u64,
        entry: &Entry,
    ) -> Result<(), AllocError>
        requires may { MayGoOn self.old place entry.now }
        requires spends { is_on_spending entry.now.act ≡ true }
        ensures ok { OnOk result (GoOn self.old self.new place entry.now) }
        ensures err { OnErr result (KeepHistories self.old self.new) }
        ensures steady { makes_rows entry.now.act ≡ false → IsOk result }
    {
        match &entry.act {
            Act::OutgoingMade { grant, quote, .. } => {
                let paid = paid_from(&self.money, *grant, *quote);
                self.take_payment(alloc, place, entry, paid)
            }
            Act::OutgoingDirect {
                grant,
                debit,
                receive,
                ..
            } => {
                let paid = PaidUnder {
                    grant: *grant,
                    debit: *debit,
                    receive: *receive,
                };
                self.take_payment(alloc, place, entry, paid)
            }
            Act::OutgoingFailed { payment, .. } => {
                self.take_failure(alloc, place, entry, *payment);
                Ok(())
            }
            _ => unreachable!(),
        }
    }

    // A payment that is made: what it counts has its room before money changes.
    fn take_payment(
        &mut self,
        alloc: Global,
        place: u64,
        entry: &Entry,
        paid: PaidUnder,
    ) -> Result<(), AllocError>
        requires may { MayGoOn self.old place entry.now }
        requires pays { (history : List AnyEntry) → AreParts history self.old → paid_by history entry.now.act ≡ Some paid }
        ensures ok { OnOk result (GoOn self.old self.new place entry.now) }
        ensures err { OnErr result (KeepHistories self.old self.new) }
    {
        let next = NextEntry {
            at: entry.at,
            place,
        };
        make_room(&mut self.grants, paid.grant, entry.at)?;
        self.money.take(alloc, entry)?;
        match take_made(&mut self.grants, next, paid) {
            Ok(()) => Ok(()),
            Err(_) => unreachable!(),
        }
    }

    // A payment that fails, for whatever reason: what it did not use is given back.
    fn take_failure(&mut self, alloc: Global, place: u64, entry: &Entry, payment: u64)
        requires may { MayGoOn self.old place entry.now }
        requires fails { (step : ℕ) × (reason : FailReason) × (entry.now.act ≡ OutgoingFailed payment step reason) }
        ensures { GoOn self.old self.new place entry.now }
    {
        let next = NextEntry {
            at: entry.at,
            place,
        };
        let Some(row) = self.money.outgoing(payment) else {
            unreachable!()
        };
        take_failed(&mut self.grants, next, row);
        match self.money.take(alloc, entry) {
            Ok(()) => {}
            Err(_) => unreachable!(),
        }
    }
}

// What a payment from a quote pays. The quote is there.
fn paid_from(money: &Money, grant: u64, quote: u64) -> PaidUnder
    requires { (history : List AnyEntry) × IsMoneyOf history money.now × IsSome (quote_row history quote) }
    ensures { (history : List AnyEntry) → IsMoneyOf history money.now → option_map (λ row. under grant row.terms.debit row.terms.receive) (quote_row history quote) ≡ Some result }
{
    match money.quote(quote) {
        Some(row) => PaidUnder {
            grant,
            debit: row.terms.debit,
            receive: row.terms.receive,
        },
        None => unreachable!(),
    }
}
