//! Outgoing payments: their steps, and how they are cancelled.
ghost use Rattle.std.specs.Prelude.{◌≡◌, List};
ghost use Rattle.op_model.specs.Legal.{asked_by};
ghost use Rattle.op_model.specs.declared.act.Act.TheVariants as acts;
ghost use Rattle.op_model.specs.declared.act.Entry.{Entry as AnyEntry};
ghost use Rattle.op_model.specs.declared.act.FailReason.TheVariants.{Cancelled};
ghost use Rattle.op_model.specs.declared.request.Task.TheVariants.{Step};
ghost use Rattle.op_paying.specs.Taking.{CanTake, TakesEntry};

use crate::money::Money;
use op_model::Entry;

impl Money {
    /// A step that acted. Behind it the payment, the ledger and its receiver are what the entry makes of them.
    pub fn take_step(&mut self, entry: &Entry, payment: u64, step: u64)
        requires can { CanTake self.old entry.now }
        requires is { (history : List AnyEntry) → asked_by history entry.now.act ≡ Step payment step }
        ensures { TakesEntry entry.now self.old self.new }
    {
        let _sound = self.outgoings.row(payment);
        self.outgoings.step(
            &mut self.ledger,
            &mut self.incomings,
            payment,
            step,
            entry.at,
        );
    }

    /// A payment that is cancelled: what is left of its debit is held no more.
    pub fn take_cancelling(&mut self, entry: &Entry, payment: u64, step: u64)
        requires can { CanTake self.old entry.now }
        requires is { entry.now.act ≡ acts.OutgoingFailed payment step Cancelled }
        ensures { TakesEntry entry.now self.old self.new }
    {
        let _sound = self.outgoings.row(payment);
        match self.outgoings.cancel(&mut self.ledger, payment) {
            Ok(()) => {}
            Err(_) => unreachable!(),
        }
    }
}
