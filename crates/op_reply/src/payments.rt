//! The bodies of replies on incoming payments, quotes and outgoing payments (Open Payments, resource server), their
//! lists, and feeds (Web Monetization).
ghost use Rattle.std.specs.Prelude.{◌≡◌, ℕ, List, IfOk, IfSome, map, option_map, slice_get};
ghost use Rattle.std.specs.Str.{IsUtf8};
ghost use Rattle.op_model.specs.History.{last as last_of};
ghost use Rattle.op_model.specs.Bodies.{metadata_data, incoming_data, quote_data, outgoing_data, outgoing_made_data, page_data, list_data, list, incomings_listed_data, outgoings_listed_data, event_data, feed_read_data};
ghost use Rattle.op_reply.specs.Parts.{sent_data};
ghost use Rattle.op_reply.specs.Values.{data_of};
ghost use Rattle.op_reply.specs.Printable.{AreIncomingTexts, AreOutgoingTexts, AreEventTexts};

use crate::fields::{Field, object, two_of};
use crate::values::Json;
use op_model::{FeedEvent, GrantSpent, IncomingShown, MetaText, OutgoingShown, QuoteShown};
use op_names::{Kind, Origin};
use std::alloc::{AllocError, Global};

const INCOMINGS: &str = "/incoming-payments/";

const QUOTES: &str = "/quotes/";

const OUTGOINGS: &str = "/outgoing-payments/";

fn metadata_if(alloc: Global, metadata: &Option<MetaText>) -> Result<Option<Json>, AllocError>
    ensures { IfOk result (λ json. option_map data_of json ≡ option_map metadata_data metadata.now) }
{
    match metadata {
        Some(metadata) => Ok(Some(Json::metadata(alloc, metadata)?)),
        None => Ok(None),
    }
}

pub fn incoming(alloc: Global, origin: &Origin, shown: &IncomingShown) -> Result<Json, AllocError>
    requires origin { IsUtf8 origin.now }
    requires path { IsUtf8 shown.now.path }
    ensures { IfOk result (λ json. data_of json ≡ incoming_data origin.now shown.now) }
{
    let metadata = metadata_if(alloc, &shown.metadata)?;
    incoming_with(alloc, origin, shown, &metadata)
}

/// The same, with its metadata printed.
fn incoming_with<'x>(
    alloc: Global,
    origin: &'x Origin,
    shown: &'x IncomingShown,
    metadata: &'x Option<Json>,
) -> Result<Json, AllocError>
    requires origin { IsUtf8 origin.now }
    requires path { IsUtf8 shown.now.path }
    requires metadata { option_map data_of metadata.now ≡ option_map metadata_data shown.now.metadata }
    ensures { IfOk result (λ json. data_of json ≡ incoming_data origin.now shown.now) }
{
    object(
        alloc,
        &[
            ("completed", Field::Flag(shown.completed)),
            ("createdAt", Field::Moment(shown.made)),
            ("expiresAt", Field::Moment(shown.expiry)),
            (
                "id",
                Field::RowUrl(origin, INCOMINGS, Kind::Incoming, shown.number),
            ),
            ("incomingAmount", Field::AmountIf(&shown.amount)),
            ("metadata", Field::JsonIf(metadata)),
            ("methods", Field::NoItems),
            ("receivedAmount", Field::Amount(&shown.received)),
            ("walletAddress", Field::AddressUrl(origin, &shown.path)),
        ],
    )
}

pub fn quote<'x>(
    alloc: Global,
    origin: &'x Origin,
    shown: &'x QuoteShown,
) -> Result<Json, AllocError>
    requires origin { IsUtf8 origin.now }
    requires path { IsUtf8 shown.now.path }
    ensures { IfOk result (λ json. data_of json ≡ quote_data origin.now shown.now) }
{
    object(
        alloc,
        &[
            ("createdAt", Field::Moment(shown.made)),
            ("debitAmount", Field::Amount(&shown.debit)),
            ("expiresAt", Field::Moment(shown.expiry)),
            (
                "id",
                Field::RowUrl(origin, QUOTES, Kind::Quote, shown.number),
            ),
            ("method", Field::Word("ilp")),
            ("receiveAmount", Field::Amount(&shown.receive)),
            (
                "receiver",
                Field::RowUrl(origin, INCOMINGS, Kind::Incoming, shown.incoming),
            ),
            ("walletAddress", Field::AddressUrl(origin, &shown.path)),
        ],
    )
}

pub fn outgoing(alloc: Global, origin: &Origin, shown: &OutgoingShown) -> Result<Json, AllocError>
    requires origin { IsUtf8 origin.now }
    requires path { IsUtf8 shown.now.path }
    ensures { IfOk result (λ json. data_of json ≡ outgoing_data origin.now shown.now) }
{
    outgoing_made(alloc, origin, shown, &None)
}

/// A payment right after it was made, and what its grant has spent.
pub fn outgoing_made(
    alloc: Global,
    origin: &Origin,
    shown: &OutgoingShown,
    spent: &Option<GrantSpent>,
) -> Result<Json, AllocError>
    requires origin { IsUtf8 origin.now }
    requires path { IsUtf8 shown.now.path }
    ensures { IfOk result (λ json. data_of json ≡ outgoing_made_data origin.now shown.now spent.now) }
{
    let metadata = metadata_if(alloc, &shown.metadata)?;
    outgoing_with(alloc, origin, shown, spent, &metadata)
}

/// The same, with its metadata printed.
fn outgoing_with<'x>(
    alloc: Global,
    origin: &'x Origin,
    shown: &'x OutgoingShown,
    spent: &'x Option<GrantSpent>,
    metadata: &'x Option<Json>,
) -> Result<Json, AllocError>
    requires origin { IsUtf8 origin.now }
    requires path { IsUtf8 shown.now.path }
    requires metadata { option_map data_of metadata.now ≡ option_map metadata_data shown.now.metadata }
    ensures { IfOk result (λ json. data_of json ≡ outgoing_made_data origin.now shown.now spent.now) }
{
    object(
        alloc,
        &[
            ("createdAt", Field::Moment(shown.made)),
            ("debitAmount", Field::Amount(&shown.debit)),
            ("failed", Field::Flag(shown.failed)),
            ("grantSpentDebitAmount", Field::SpentDebitIf(spent)),
            ("grantSpentReceiveAmount", Field::SpentReceiveIf(spent)),
            (
                "id",
                Field::RowUrl(origin, OUTGOINGS, Kind::Outgoing, shown.number),
            ),
            ("metadata", Field::JsonIf(metadata)),
            (
                "quoteId",
                Field::RowUrlIf(origin, QUOTES, Kind::Quote, shown.quote),
            ),
            ("receiveAmount", Field::Amount(&shown.receive)),
            (
                "receiver",
                Field::RowUrl(origin, INCOMINGS, Kind::Incoming, shown.incoming),
            ),
            ("sentAmount", Field::Amount(&shown.sent)),
            ("walletAddress", Field::AddressUrl(origin, &shown.path)),
        ],
    )
}

/// A page of a list: the identifiers of its first row and its last, and whether rows stand before it and behind it.
fn page(
    alloc: Global,
    kind: Kind,
    first: Option<u64>,
    last: Option<u64>,
    has_previous: bool,
    has_next: bool,
) -> Result<Json, AllocError>
    ensures { IfOk result (λ json. (numbers : List ℕ) → first ≡ slice_get numbers 0 → last ≡ last_of numbers
        → data_of json ≡ page_data kind numbers has_previous has_next) }
{
    object(
        alloc,
        &[
            ("endCursor", Field::IdIf(kind, last)),
            ("hasNextPage", Field::Flag(has_next)),
            ("hasPreviousPage", Field::Flag(has_previous)),
            ("startCursor", Field::IdIf(kind, first)),
        ],
    )
}

fn incomings(
    alloc: Global,
    origin: &Origin,
    rows: &[IncomingShown],
) -> Result<Vec<Json>, AllocError>
    requires origin { IsUtf8 origin.now }
    requires texts { AreIncomingTexts rows.now }
    ensures { IfOk result (λ values. map data_of values.items ≡ map (incoming_data origin.now) rows.now) }
{
    let mut values = Vec::new(alloc);
    for row in rows {
        values.push(incoming(alloc, origin, row)?)?;
    }
    Ok(values)
}

fn outgoings(
    alloc: Global,
    origin: &Origin,
    rows: &[OutgoingShown],
) -> Result<Vec<Json>, AllocError>
    requires origin { IsUtf8 origin.now }
    requires texts { AreOutgoingTexts rows.now }
    ensures { IfOk result (λ values. map data_of values.items ≡ map (outgoing_data origin.now) rows.now) }
{
    let mut values = Vec::new(alloc);
    for row in rows {
        values.push(outgoing(alloc, origin, row)?)?;
    }
    Ok(values)
}

fn first_incoming(rows: &[IncomingShown]) -> Option<u64>
    ensures { result ≡ slice_get (map (λ row. row.number) rows.now) 0 }
{
    Some(rows.first()?.number)
}

fn last_incoming(rows: &[IncomingShown]) -> Option<u64>
    ensures { result ≡ last_of (map (λ row. row.number) rows.now) }
{
    Some(rows.last()?.number)
}

pub fn incomings_listed(
    alloc: Global,
    origin: &Origin,
    rows: &[IncomingShown],
    has_previous: bool,
    has_next: bool,
) -> Result<Json, AllocError>
    requires origin { IsUtf8 origin.now }
    requires texts { AreIncomingTexts rows.now }
    ensures { IfOk result (λ json. data_of json ≡ incomings_listed_data origin.now rows.now has_previous has_next) }
{
    let (first, last) = (first_incoming(rows), last_incoming(rows));
    let page = page(alloc, Kind::Incoming, first, last, has_previous, has_next)?;
    let result = Json::list(alloc, incomings(alloc, origin, rows)?)?;
    two_of(alloc, "pagination", &page, "result", &result)
}

fn first_outgoing(rows: &[OutgoingShown]) -> Option<u64>
    ensures { result ≡ slice_get (map (λ row. row.number) rows.now) 0 }
{
    Some(rows.first()?.number)
}

fn last_outgoing(rows: &[OutgoingShown]) -> Option<u64>
    ensures { result ≡ last_of (map (λ row. row.number) rows.now) }
{
    Some(rows.last()?.number)
}

pub fn outgoings_listed(
    alloc: Global,
    origin: &Origin,
    rows: &[OutgoingShown],
    has_previous: bool,
    has_next: bool,
) -> Result<Json, AllocError>
    requires origin { IsUtf8 origin.now }
    requires texts { AreOutgoingTexts rows.now }
    ensures { IfOk result (λ json. data_of json ≡ outgoings_listed_data origin.now rows.now has_previous has_next) }
{
    let (first, last) = (first_outgoing(rows), last_outgoing(rows));
    let page = page(alloc, Kind::Outgoing, first, last, has_previous, has_next)?;
    let result = Json::list(alloc, outgoings(alloc, origin, rows)?)?;
    two_of(alloc, "pagination", &page, "result", &result)
}

/// A monetization event.
fn event(alloc: Global, origin: &Origin, event: &FeedEvent) -> Result<Json, AllocError>
    requires origin { IsUtf8 origin.now }
    requires payee { IsUtf8 event.now.payee }
    ensures { IfOk result (λ json. data_of json ≡ event_data origin.now event.now) }
{
    let asset = &event.sent.asset;
    let sent = object(
        alloc,
        &[
            ("currency", Field::Code(&asset.code)),
            ("value", Field::Scaled(event.sent.value, asset.scale)),
        ],
    )?;
    event_with(alloc, origin, event, &sent)
}

/// The same, with what was sent printed.
fn event_with<'x>(
    alloc: Global,
    origin: &'x Origin,
    event: &'x FeedEvent,
    sent: &'x Json,
) -> Result<Json, AllocError>
    requires origin { IsUtf8 origin.now }
    requires payee { IsUtf8 event.now.payee }
    requires sent { data_of sent.now ≡ sent_data event.now }
    ensures { IfOk result (λ json. data_of json ≡ event_data origin.now event.now) }
{
    object(
        alloc,
        &[
            ("amountSent", Field::Json(sent)),
            (
                "incomingPayment",
                Field::RowUrl(origin, INCOMINGS, Kind::Incoming, event.incoming),
            ),
            ("paymentPointer", Field::AddressUrl(origin, &event.payee)),
        ],
    )
}

fn events(alloc: Global, origin: &Origin, shown: &[FeedEvent]) -> Result<Vec<Json>, AllocError>
    requires origin { IsUtf8 origin.now }
    requires texts { AreEventTexts shown.now }
    ensures { IfOk result (λ values. map data_of values.items ≡ map (event_data origin.now) shown.now) }
{
    let mut values = Vec::new(alloc);
    for shown in shown {
        values.push(event(alloc, origin, shown)?)?;
    }
    Ok(values)
}

pub fn feed_read(alloc: Global, origin: &Origin, shown: &[FeedEvent]) -> Result<Json, AllocError>
    requires origin { IsUtf8 origin.now }
    requires texts { AreEventTexts shown.now }
    ensures { IfOk result (λ json. data_of json ≡ feed_read_data origin.now shown.now) }
{
    let events = Json::list(alloc, events(alloc, origin, shown)?)?;
    object(alloc, &[("events", Field::Json(&events))])
}
