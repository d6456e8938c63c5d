//! Quotes and outgoing payments that are made. Each wants memory.
ghost use Rattle.std.specs.Prelude.{◌≡◌, ℕ, OnOk, OnErr};
ghost use Rattle.op_model.specs.declared.act.Act.TheVariants as acts;
ghost use Rattle.op_model.specs.declared.act.QuoteMode.{QuoteMode as AnyMode};
ghost use Rattle.op_paying.specs.Taking.{CanTake, TakesEntry, KeepsHistories};

use crate::money::Money;
use crate::terms::Parties;
use op_amount::Priced;
use op_model::{Entry, MetaText, QuoteRow};
use op_outgoing::OutgoingFault;
use op_time::Moment;
use std::alloc::AllocError;

/// How long a price stands, in milliseconds.
const PRICE_LIFETIME: u64 = 300_000;

impl Money {
    /// A quote, with the price that its act records.
    pub fn take_quote(
        &mut self,
        entry: &Entry,
        grant: u64,
        parties: Parties,
        price: Priced,
    ) -> Result<(), AllocError>
        requires can { CanTake self.old entry.now }
        requires is { (mode : AnyMode) × (asked : ℕ) × (entry.now.act ≡ acts.QuoteMade grant parties.address parties.incoming mode asked price.debit price.source price.fee price.receive price.num price.den) }
        ensures ok { OnOk result (TakesEntry entry.now self.old self.new) }
        ensures err { OnErr result (KeepsHistories self.old self.new) }
    {
        let row = QuoteRow {
            grant,
            made: entry.at,
            expiry: Moment::at_most_last(entry.at.ms() + PRICE_LIFETIME),
            terms: self.terms_at(parties, price),
        };
        self.outgoings.add_quote(row)?;
        Ok(())
    }

    /// A payment from a quote. The quote is unused and stands, since the entry may follow.
    pub fn take_payment(
        &mut self,
        entry: &Entry,
        grant: u64,
        quote: u64,
        metadata: Option<MetaText>,
    ) -> Result<(), AllocError>
        requires can { CanTake self.old entry.now }
        requires is { entry.now.act ≡ acts.OutgoingMade grant quote metadata }
        ensures ok { OnOk result (TakesEntry entry.now self.old self.new) }
        ensures err { OnErr result (KeepsHistories self.old self.new) }
    {
        match self.outgoings.add(entry.at, quote, grant, metadata) {
            Ok(_) => Ok(()),
            Err(OutgoingFault::Memory) => Err(AllocError),
            Err(OutgoingFault::QuoteUsed) => unreachable!(),
            Err(OutgoingFault::QuoteExpired) => unreachable!(),
            Err(OutgoingFault::AlreadyEnded) => unreachable!(),
        }
    }

    /// A payment without a quote, with the price that its act records.
    pub fn take_direct(
        &mut self,
        entry: &Entry,
        grant: u64,
        parties: Parties,
        price: Priced,
        metadata: Option<MetaText>,
    ) -> Result<(), AllocError>
        requires can { CanTake self.old entry.now }
        requires is { entry.now.act ≡ acts.OutgoingDirect grant parties.address parties.incoming price.debit price.source price.fee price.receive price.num price.den metadata }
        ensures ok { OnOk result (TakesEntry entry.now self.old self.new) }
        ensures err { OnErr result (KeepsHistories self.old self.new) }
    {
        let terms = self.terms_at(parties, price);
        self.outgoings.add_direct(entry.at, terms, grant, metadata)?;
        Ok(())
    }
}
