//! Each entry of a history, by its act.
ghost use Rattle.std.specs.Prelude.{◌≡◌, true, false, Some, IsSome, IsTrue, IsOk, OnOk, OnErr, IfOk};
ghost use Rattle.op_model.specs.Legal.{passes};
ghost use Rattle.op_model.specs.Metadata.{is_metadata};
ghost use Rattle.op_paying.specs.Taking.{CanTake, TakesEntry, KeepsHistories, makes_rows, makes_payment, price_in};

use crate::money::Money;
use crate::terms::Parties;
use op_amount::Priced;
use op_model::{Act, Entry, FailReason, IncomingRow, MetaFault, MetaText, Text};
use std::alloc::{AllocError, Global};

impl Money {
    /// Takes an entry that may follow: the money of each history that it may follow becomes that of the longer one. An
    /// act that leaves all money as it is changes nothing. Only an act that makes a row may want memory; where that is
    /// short, the money is still that of the same histories.
    pub fn take(&mut self, alloc: Global, entry: &Entry) -> Result<(), AllocError>
        requires { CanTake self.old entry.now }
        ensures ok { OnOk result (TakesEntry entry.now self.old self.new) }
        ensures err { OnErr result (KeepsHistories self.old self.new) }
        ensures steady { makes_rows entry.now.act ≡ false → IsOk result }
    {
        if makes_rows(&entry.act) {
            return self.take_row(alloc, entry);
        }
        self.take_change(entry);
        Ok(())
    }

    // An act that makes a row.
    fn take_row(&mut self, alloc: Global, entry: &Entry) -> Result<(), AllocError>
        requires can { CanTake self.old entry.now }
        requires makes { makes_rows entry.now.act ≡ true }
        ensures ok { OnOk result (TakesEntry entry.now self.old self.new) }
        ensures err { OnErr result (KeepsHistories self.old self.new) }
    {
        match &entry.act {
            Act::AssetAdded { pieces, .. } => self.take_asset(entry, *pieces),
            Act::AddressAdded { asset, .. } => self.take_address(entry, *asset),
            Act::IncomingMade {
                grant,
                address,
                amount,
                expiry,
                metadata,
            } => {
                let row = IncomingRow {
                    address: *address,
                    grant: *grant,
                    amount: *amount,
                    expiry: *expiry,
                    made: entry.at,
                    metadata: read_metadata(alloc, metadata)?,
                };
                self.take_incoming(entry, row)
            }
            _ => self.take_payment_row(alloc, entry),
        }
    }

    // An act that makes a quote or an outgoing payment.
    fn take_payment_row(&mut self, alloc: Global, entry: &Entry) -> Result<(), AllocError>
        requires can { CanTake self.old entry.now }
        requires makes { makes_payment entry.now.act ≡ true }
        ensures ok { OnOk result (TakesEntry entry.now self.old self.new) }
        ensures err { OnErr result (KeepsHistories self.old self.new) }
    {
        match &entry.act {
            Act::QuoteMade {
                grant,
                address,
                incoming,
                ..
            } => {
                let parties = Parties {
                    address: *address,
                    incoming: *incoming,
                };
                self.take_quote(entry, *grant, parties, price_in(&entry.act))
            }
            Act::OutgoingMade {
                grant,
                quote,
                metadata,
            } => {
                let metadata = read_metadata(alloc, metadata)?;
                self.take_payment(entry, *grant, *quote, metadata)
            }
            Act::OutgoingDirect {
                grant,
                address,
                incoming,
                metadata,
                ..
            } => {
                let metadata = read_metadata(alloc, metadata)?;
                let parties = Parties {
                    address: *address,
                    incoming: *incoming,
                };
                self.take_direct(entry, *grant, parties, price_in(&entry.act), metadata)
            }
            _ => unreachable!(),
        }
    }

    // An act that makes no row.
    fn take_change(&mut self, entry: &Entry)
        requires can { CanTake self.old entry.now }
        requires makes { makes_rows entry.now.act ≡ false }
        ensures { TakesEntry entry.now self.old self.new }
    {
        match &entry.act {
            Act::Deposited { account, value, .. } => self.take_deposit(entry, *account, *value),
            Act::Withdrawn { account, value, .. } => self.take_withdrawal(entry, *account, *value),
            Act::IncomingCompleted { incoming, .. } => self.take_completion(entry, *incoming),
            Act::IncomingExpired { incoming } => self.take_expiry(entry, *incoming),
            Act::OutgoingFunded { payment, step }
            | Act::OutgoingSent { payment, step }
            | Act::OutgoingCompleted { payment, step } => self.take_step(entry, *payment, *step),
            Act::OutgoingFailed {
                payment,
                step,
                reason,
            } => match reason {
                FailReason::Cancelled => self.take_cancelling(entry, *payment, *step),
                FailReason::QuoteExpired | FailReason::ReceiverClosed => self.take_step(
                    entry, *payment, *step,
                ),
            },
            _ => {}
        }
    }
}

// Whether an act makes a row, and so wants memory.
fn makes_rows(act: &Act) -> bool
    ensures { result ≡ makes_rows act.now }
{
    matches!(
        act,
        Act::AssetAdded { .. }
            | Act::AddressAdded { .. }
            | Act::IncomingMade { .. }
            | Act::QuoteMade { .. }
            | Act::OutgoingMade { .. }
            | Act::OutgoingDirect { .. }
    )
}

// The price that an act records.
fn price_in(act: &Act) -> Priced
    requires { IsSome (price_in act.now) }
    ensures { price_in act.now ≡ Some result }
{
    match act {
        Act::QuoteMade {
            debit,
            source,
            fee,
            receive,
            num,
            den,
            ..
        }
        | Act::OutgoingDirect {
            debit,
            source,
            fee,
            receive,
            num,
            den,
            ..
        } => Priced {
            debit: *debit,
            source: *source,
            fee: *fee,
            receive: *receive,
            num: *num,
            den: *den,
        },
        _ => unreachable!(),
    }
}

// The metadata of an act, read. It has its form.
fn read_metadata(alloc: Global, text: &Option<Text>) -> Result<Option<MetaText>, AllocError>
    requires { IsTrue (passes is_metadata text.now) }
    ensures { IfOk result (λ metadata. metadata ≡ text.now) }
{
    let Some(text) = text else {
        return Ok(None);
    };
    match MetaText::read(alloc, text.bytes()) {
        Ok(metadata) => Ok(Some(metadata)),
        Err(MetaFault::Memory) => Err(AllocError),
        Err(MetaFault::Shape) => unreachable!(),
    }
}
