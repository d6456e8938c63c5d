//! The bodies of incoming payments, quotes and outgoing payments.
ghost use Rattle.std.specs.Prelude.{◌≡◌, ◌&&◌, IfOk, IfErr, codes, option_map};
ghost use Rattle.std.specs.Option.{is_none, is_some};
ghost use Rattle.serde_json.specs.View.{view};
ghost use Rattle.op_model.specs.Json.{optional_in, with_members};
ghost use Rattle.op_model.specs.Members.{make_incoming_members, make_outgoing_members, make_quote_members, payment_asked, quote_mode};
ghost use Rattle.op_api.specs.Body.{IsMeant, IsBodyFault};

use crate::members::{Read, object_in, optional_in, optional_text, refuse_if, required, text_in};
use crate::names::{address_of, row_of};
use crate::request::ApiFault;
use crate::values::{method_in, optional_amount, optional_metadata, optional_moment};
use op_amount::Amount;
use op_model::{PaymentAsked, QuoteAsked, Request};
use op_names::Kind;
use serde_json::Value;
use std::alloc::Global;

/// The request to make an incoming payment that a body means.
pub(crate) fn read_make_incoming(alloc: Global, body: &[u8]) -> Result<Request, ApiFault>
    ensures meant { IsMeant (with_members make_incoming_members body.now) result }
    ensures forms { IfErr result IsBodyFault }
{
    let object = object_in(alloc, body)?;
    let address = required(alloc, text_in(&object, "walletAddress"), "walletAddress")?;
    let amount = required(
        alloc,
        optional_amount(&object, "incomingAmount"),
        "incomingAmount",
    )?;
    let expiry = required(alloc, optional_moment(&object, "expiresAt"), "expiresAt")?;
    let metadata = required(alloc, optional_metadata(alloc, &object)?, "metadata")?;
    Ok(Request::MakeIncoming {
        address: address_of(alloc, address)?,
        amount,
        expiry,
        metadata,
    })
}

/// How much a quote is asked for. `None` where both amounts are there.
fn quote_mode(debit: Option<Amount>, receive: Option<Amount>) -> Option<QuoteAsked>
    ensures { result ≡ quote_mode debit receive }
{
    match (debit, receive) {
        (None, None) => Some(QuoteAsked::Rest),
        (Some(debit), None) => Some(QuoteAsked::Debit(debit)),
        (None, Some(receive)) => Some(QuoteAsked::Receive(receive)),
        (Some(_), Some(_)) => None,
    }
}

/// The request to make a quote that a body means.
pub(crate) fn read_make_quote(alloc: Global, body: &[u8]) -> Result<Request, ApiFault>
    ensures meant { IsMeant (with_members make_quote_members body.now) result }
    ensures forms { IfErr result IsBodyFault }
{
    let object = object_in(alloc, body)?;
    let address = required(alloc, text_in(&object, "walletAddress"), "walletAddress")?;
    let receiver = required(alloc, text_in(&object, "receiver"), "receiver")?;
    required(alloc, method_in(&object), "method")?;
    let debit = required(
        alloc,
        optional_amount(&object, "debitAmount"),
        "debitAmount",
    )?;
    let receive = required(
        alloc,
        optional_amount(&object, "receiveAmount"),
        "receiveAmount",
    )?;
    let asked = required(alloc, quote_mode(debit, receive), "receiveAmount")?;
    Ok(Request::MakeQuote {
        address: address_of(alloc, address)?,
        receiver: row_of(alloc, receiver, Kind::Incoming)?,
        asked,
    })
}

/// Whether neither a quote nor an incoming payment is there.
fn is_unnamed(quote: Option<&str>, object: &Value) -> bool
    ensures { result ≡ (is_none (option_map (λ text. text.now) quote.entry) && is_none (optional_in (codes "incomingPayment") (view object.now))) }
{
    quote.is_none() && optional_in(object, "incomingPayment").is_none()
}

/// Whether both a quote and an incoming payment are there.
fn is_twice_named(quote: Option<&str>, incoming: Option<&str>) -> bool
    ensures { result ≡ (is_some (option_map (λ text. text.now) quote.entry) && is_some (option_map (λ text. text.now) incoming.entry)) }
{
    quote.is_some() && incoming.is_some()
}

/// What an outgoing payment is made from: a quote alone, or an incoming payment and a debit.
fn payment_asked(
    alloc: Global,
    quote: Option<&str>,
    incoming: Option<&str>,
    debit: Option<Amount>,
) -> Read<PaymentAsked>
    ensures { IfOk result (λ asked. asked ≡ payment_asked (option_map (λ text. text.now) quote.entry) (option_map (λ text. text.now) incoming.entry) debit) }
{
    match (quote, incoming, debit) {
        (Some(quote), None, None) => {
            Ok(Some(PaymentAsked::Quoted(row_of(alloc, quote, Kind::Quote)?)))
        }
        (None, Some(incoming), Some(debit)) => Ok(Some(PaymentAsked::Direct {
            receiver: row_of(alloc, incoming, Kind::Incoming)?,
            debit,
        })),
        _ => Ok(None),
    }
}

/// The request to make an outgoing payment that a body means.
pub(crate) fn read_make_outgoing(alloc: Global, body: &[u8]) -> Result<Request, ApiFault>
    ensures meant { IsMeant (with_members make_outgoing_members body.now) result }
    ensures forms { IfErr result IsBodyFault }
{
    let object = object_in(alloc, body)?;
    let address = required(alloc, text_in(&object, "walletAddress"), "walletAddress")?;
    let quote = required(alloc, optional_text(&object, "quoteId"), "quoteId")?;
    refuse_if(alloc, is_unnamed(quote, &object), "quoteId")?;
    let incoming = required(
        alloc,
        optional_text(&object, "incomingPayment"),
        "incomingPayment",
    )?;
    refuse_if(alloc, is_twice_named(quote, incoming), "incomingPayment")?;
    let debit = required(
        alloc,
        optional_amount(&object, "debitAmount"),
        "debitAmount",
    )?;
    let asked = required(
        alloc,
        payment_asked(alloc, quote, incoming, debit)?,
        "debitAmount",
    )?;
    let metadata = required(alloc, optional_metadata(alloc, &object)?, "metadata")?;
    Ok(Request::MakeOutgoing {
        address: address_of(alloc, address)?,
        asked,
        metadata,
    })
}
