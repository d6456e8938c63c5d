//! Plans of requests that read a row: an incoming payment, a quote, an outgoing payment.

ghost use Rattle.std.specs.Prelude.{◌≡◌, ℕ, List, IfOk, option_map};
ghost use Rattle.std.specs.Option.{option_and_then};
ghost use Rattle.op_granting.specs.Keeping.{IsGrantsOf};
ghost use Rattle.op_model.specs.PaymentAnswers.{incoming_place, quote_place, outgoing_place, read_row};
ghost use Rattle.op_model.specs.Payments.{incoming_row, quote_row, outgoing_row};
ghost use Rattle.op_model.specs.declared.act.Entry.{Entry};
ghost use Rattle.op_model.specs.declared.request.Request.TheVariants.{ReadIncoming, ReadQuote, ReadOutgoing};
ghost use Rattle.op_paying.specs.Money.{IsMoneyOf};
ghost use Rattle.op_plans.specs.Plans.{IsPlan};
ghost use Rattle.op_token_plans.specs.Asking.{unless_refused};
ghost use Rattle.op_token_plans.specs.Looks.{pair_of};
ghost use Rattle.op_token_plans.specs.Parts.{ArePartsOf};

use crate::actions::{INCOMING_PAYMENT, OUTGOING_PAYMENT, QUOTE, READ, READ_ALL};
use crate::asking::{Asking, admit};
use crate::looks::{Needed, Place, looks_at_row};
use crate::parts::Parts;
use crate::shown::{shown_incoming, shown_outgoing, shown_quote};
use op_grant::Grants;
use op_model::{Refusal, ReplyBody};
use op_paying::Money;
use op_plans::Plan;
use std::alloc::{AllocError, Global};

/// Where an incoming payment lies, if it is there.
pub(crate) fn incoming_place(money: &Money, incoming: Option<u64>) -> Option<Place>
    ensures { (history : List Entry) → IsMoneyOf history money.now
        → option_map pair_of result ≡ option_map incoming_place (option_and_then (incoming_row history) incoming) }
{
    let Some(number) = incoming else {
        return None;
    };
    match money.incoming(number) {
        Some(row) => Some(Place {
            address: row.address,
            grant: row.grant,
        }),
        None => None,
    }
}

// Where a quote lies, if it is there: at the address that pays.
fn quote_place(money: &Money, quote: Option<u64>) -> Option<Place>
    ensures { (history : List Entry) → IsMoneyOf history money.now
        → option_map pair_of result ≡ option_map quote_place (option_and_then (quote_row history) quote) }
{
    let Some(number) = quote else {
        return None;
    };
    match money.quote(number) {
        Some(row) => Some(Place {
            address: row.terms.payer,
            grant: row.grant,
        }),
        None => None,
    }
}

// Where an outgoing payment lies, if it is there: at the address that pays.
fn outgoing_place(money: &Money, outgoing: Option<u64>) -> Option<Place>
    ensures { (history : List Entry) → IsMoneyOf history money.now
        → option_map pair_of result ≡ option_map outgoing_place (option_and_then (outgoing_row history) outgoing) }
{
    let Some(number) = outgoing else {
        return None;
    };
    match money.outgoing(number) {
        Some(row) => Some(Place {
            address: row.terms.payer,
            grant: row.grant,
        }),
        None => None,
    }
}

// Why a client may not read a row, whether the row is there or not. `None` where it may, and then the row is there.
fn read_refusal(
    grants: &Grants,
    asking: &Asking<'_>,
    kind: u8,
    row: Option<Place>,
) -> Option<Refusal>
    ensures { (history : List Entry) → IsGrantsOf history grants.now
        → unless_refused result ≡ read_row history asking.now.at kind (option_map pair_of row) asking.now.verdict.now }
{
    let needed = Needed {
        kind,
        need: READ + READ_ALL,
        all: READ_ALL,
    };
    let looks = looks_at_row(grants, asking.client(), needed, row);
    match admit(grants, asking, &looks) {
        Err(refusal) => Some(refusal),
        Ok(_) => match row {
            Some(_) => None,
            None => Some(Refusal::NotFound),
        },
    }
}

/// Reading an incoming payment (Open Payments, incoming payments).
pub fn plan_read_incoming(
    alloc: Global,
    parts: &Parts<'_>,
    asking: &Asking<'_>,
    incoming: Option<u64>,
) -> Result<Plan, AllocError>
    ensures { IfOk result (λ plan. (history : List Entry) (word : List ℕ) (fee : ℕ) → ArePartsOf history parts.now
        → IsPlan history asking.now.at word fee (ReadIncoming incoming) asking.now.verdict.now plan) }
{
    let place = incoming_place(parts.money, incoming);
    if let Some(refusal) = read_refusal(parts.grants, asking, INCOMING_PAYMENT, place) {
        return Ok(Plan::Refused(refusal));
    }
    let shown = shown_incoming(alloc, parts.names, parts.money, incoming)?;
    match shown {
        Some(incoming) => Ok(Plan::Told(ReplyBody::IncomingRead { incoming })),
        None => Ok(Plan::Refused(Refusal::NotFound)),
    }
}

/// Reading a quote (Open Payments, quotes).
pub fn plan_read_quote(
    alloc: Global,
    parts: &Parts<'_>,
    asking: &Asking<'_>,
    quote: Option<u64>,
) -> Result<Plan, AllocError>
    ensures { IfOk result (λ plan. (history : List Entry) (word : List ℕ) (fee : ℕ) → ArePartsOf history parts.now
        → IsPlan history asking.now.at word fee (ReadQuote quote) asking.now.verdict.now plan) }
{
    let place = quote_place(parts.money, quote);
    if let Some(refusal) = read_refusal(parts.grants, asking, QUOTE, place) {
        return Ok(Plan::Refused(refusal));
    }
    let shown = shown_quote(alloc, parts.names, parts.money, quote)?;
    match shown {
        Some(quote) => Ok(Plan::Told(ReplyBody::QuoteRead { quote })),
        None => Ok(Plan::Refused(Refusal::NotFound)),
    }
}

/// Reading an outgoing payment (Open Payments, outgoing payments).
pub fn plan_read_outgoing(
    alloc: Global,
    parts: &Parts<'_>,
    asking: &Asking<'_>,
    outgoing: Option<u64>,
) -> Result<Plan, AllocError>
    ensures { IfOk result (λ plan. (history : List Entry) (word : List ℕ) (fee : ℕ) → ArePartsOf history parts.now
        → IsPlan history asking.now.at word fee (ReadOutgoing outgoing) asking.now.verdict.now plan) }
{
    let place = outgoing_place(parts.money, outgoing);
    if let Some(refusal) = read_refusal(parts.grants, asking, OUTGOING_PAYMENT, place) {
        return Ok(Plan::Refused(refusal));
    }
    let shown = shown_outgoing(alloc, parts.names, parts.money, outgoing)?;
    match shown {
        Some(outgoing) => Ok(Plan::Told(ReplyBody::OutgoingRead { outgoing })),
        None => Ok(Plan::Refused(Refusal::NotFound)),
    }
}
