//! Records written: each function puts the fields of an act behind what is there.
//!
//! Room for the whole record is made first, so that none of these calls is refused and nothing is half written.

ghost use Rattle.std.specs.Prelude.{◌≡◌, ◌≤◌, ◌+◌, ◌++◌, ◌∷◌, [], List, if◌then◌else◌, length, map, IsOk, OnOk, OnErr, IfSome, vec_len, vec_capacity};
ghost use Rattle.std.specs.List.{concat, flat_map};
ghost use Rattle.op_model.specs.declared.act.Act.TheVariants as acts;
ghost use Rattle.op_model.specs.declared.grant.Item.{Item};
ghost use Rattle.op_record.specs.Fields.{number, text, optional, account, mode_number, reason_number, cap, limits, item, items, finish};
ghost use Rattle.op_record.specs.Records.{act_of, record_of};
ghost use Rattle.op_record.specs.Recordable.{IsShort, AreLimits, IsFinish, IsItem, AreAbove, AreItems, IsWithinLimits, IsRecordable};
ghost use Rattle.op_record.specs.Writing.{Puts};

use crate::lengths::entry_length;
use op_model::{
    Account, Act, Cap, CodeText, Entry, FailReason, Finish, IntervalText, Item, Limits, QuoteMode,
    Rows, Text, Word,
};
use op_names::{AddressPath, ClientText, Origin};
use op_time::Moment;
use std::alloc::AllocError;

/// Puts bytes behind what is there.
fn put(out: &mut Vec<u8>, bytes: &[u8])
    ensures { Puts bytes.now out.old out.new }
{
    let _ = out.extend_from_slice(bytes);
}

pub(crate) fn put_u8(out: &mut Vec<u8>, n: u8)
    ensures { Puts (n ∷ []) out.old out.new }
{
    put(out, &[n]);
}

#[tactic(auto, unfolding(crate::specs::Fields::number))]
fn put_u16(out: &mut Vec<u8>, n: u16)
    ensures { Puts (number 2 n) out.old out.new }
{
    put(out, &n.to_be_bytes());
}

#[tactic(auto, unfolding(crate::specs::Fields::number))]
pub(crate) fn put_u32(out: &mut Vec<u8>, n: u32)
    ensures { Puts (number 4 n) out.old out.new }
{
    put(out, &n.to_be_bytes());
}

#[tactic(auto, unfolding(crate::specs::Fields::number))]
pub(crate) fn put_u64(out: &mut Vec<u8>, n: u64)
    ensures { Puts (number 8 n) out.old out.new }
{
    put(out, &n.to_be_bytes());
}

#[tactic(auto, unfolding(crate::specs::Fields::text))]
fn put_text(out: &mut Vec<u8>, bytes: &[u8])
    requires { length bytes.now ≤ 1024 }
    ensures { Puts (text bytes.now) out.old out.new }
{
    put_u16(out, bytes.len() as u16);
    put(out, bytes);
}

fn put_some_text(out: &mut Vec<u8>, value: &Option<Text>)
    requires { IfSome value.now (IsShort 1024) }
    ensures { Puts (optional text value.now) out.old out.new }
{
    let Some(value) = value else {
        return put_u8(out, 0);
    };
    put_u8(out, 1);
    put_text(out, value.bytes());
}

fn put_some_interval(out: &mut Vec<u8>, value: &Option<IntervalText>)
    requires { IfSome value.now (IsShort 128) }
    ensures { Puts (optional text value.now) out.old out.new }
{
    let Some(value) = value else {
        return put_u8(out, 0);
    };
    put_u8(out, 1);
    put_text(out, value.bytes());
}

fn put_some_u32(out: &mut Vec<u8>, value: Option<u32>)
    ensures { Puts (optional (number 4) value) out.old out.new }
{
    let Some(n) = value else {
        return put_u8(out, 0);
    };
    put_u8(out, 1);
    put_u32(out, n);
}

fn put_some_u64(out: &mut Vec<u8>, value: Option<u64>)
    ensures { Puts (optional (number 8) value) out.old out.new }
{
    let Some(n) = value else {
        return put_u8(out, 0);
    };
    put_u8(out, 1);
    put_u64(out, n);
}

/// An account's kind and the number of its asset or address.
fn put_numbered(out: &mut Vec<u8>, kind: u8, n: u32)
    ensures { Puts (kind ∷ number 4 n) out.old out.new }
{
    put_u8(out, kind);
    put_u32(out, n);
}

fn put_account(out: &mut Vec<u8>, value: Account)
    ensures { Puts (account value) out.old out.new }
{
    match value {
        Account::Outside(n) => put_numbered(out, 0, n),
        Account::Pool(n) => put_numbered(out, 1, n),
        Account::Fees(n) => put_numbered(out, 2, n),
        Account::Wallet(n) => put_numbered(out, 3, n),
    }
}

fn mode_number(mode: QuoteMode) -> u8
    ensures { result ≡ mode_number mode }
{
    match mode {
        QuoteMode::Debit => 1,
        QuoteMode::Receive => 2,
        QuoteMode::Rest => 3,
    }
}

fn reason_number(reason: FailReason) -> u8
    ensures { result ≡ reason_number reason }
{
    match reason {
        FailReason::QuoteExpired => 1,
        FailReason::ReceiverClosed => 2,
        FailReason::Cancelled => 3,
    }
}

/// What a cap counts: 1 what is debited, 2 what is received.
fn way_number(debit: bool) -> u8
    ensures { result ≡ (if debit then 1 else 2) }
{
    if debit { 1 } else { 2 }
}

fn put_one_cap(out: &mut Vec<u8>, value: &Cap)
    ensures { Puts ((if value.now.debit then 1 else 2) ∷ (number 4 value.now.sum.asset ++ number 8 value.now.sum.value)) out.old out.new }
{
    let way = way_number(value.debit);
    put_u8(out, way);
    put_u32(out, value.sum.asset);
    put_u64(out, value.sum.value);
}

fn put_cap(out: &mut Vec<u8>, value: &Option<Cap>)
    ensures { Puts (cap value.now) out.old out.new }
{
    match value {
        Some(value) => put_one_cap(out, value),
        None => put_u8(out, 0),
    }
}

fn put_limits(out: &mut Vec<u8>, value: &Limits)
    requires { AreLimits value.now }
    ensures { Puts (limits value.now) out.old out.new }
{
    put_some_u64(out, value.receiver);
    put_cap(out, &value.cap);
    put_some_interval(out, &value.interval);
}

fn put_some_limits(out: &mut Vec<u8>, value: &Option<Limits>)
    requires { IfSome value.now AreLimits }
    ensures { Puts (optional limits value.now) out.old out.new }
{
    let Some(value) = value else {
        return put_u8(out, 0);
    };
    put_u8(out, 1);
    put_limits(out, value);
}

fn put_item(out: &mut Vec<u8>, value: &Item)
    requires { IsItem value.now }
    ensures { Puts (item value.now) out.old out.new }
{
    put_u8(out, value.kind);
    put_u8(out, value.actions);
    put_some_u32(out, value.identifier);
    put_some_limits(out, &value.limits);
}

fn put_items(out: &mut Vec<u8>, values: &[Item])
    requires { AreItems values.now }
    ensures { Puts (items values.now) out.old out.new }
{
    put_u8(out, values.len() as u8);
    put_each_item(out, values);
}

fn put_each_item(out: &mut Vec<u8>, values: &[Item])
    requires { AreAbove 0 values.now }
    ensures { Puts (flat_map item values.now) out.old out.new }
{
    for value in values {
        put_item(out, value);
    }
}

fn put_finish(out: &mut Vec<u8>, value: &Finish)
    requires { IsFinish value.now }
    ensures { Puts (finish value.now) out.old out.new }
{
    put_text(out, value.uri.bytes());
    put_text(out, value.nonce.bytes());
}

fn put_some_finish(out: &mut Vec<u8>, value: &Option<Finish>)
    requires { IfSome value.now IsFinish }
    ensures { Puts (optional finish value.now) out.old out.new }
{
    let Some(value) = value else {
        return put_u8(out, 0);
    };
    put_u8(out, 1);
    put_finish(out, value);
}

fn put_origin_set(out: &mut Vec<u8>, origin: &Origin)
    ensures { Puts (act_of (acts.OriginSet origin.now)) out.old out.new }
{
    put_u8(out, 1);
    put_text(out, origin.as_bytes());
}

fn put_asset_added(out: &mut Vec<u8>, code: &CodeText, scale: u8, pieces: u8)
    ensures { Puts (act_of (acts.AssetAdded code.now scale pieces)) out.old out.new }
{
    put_u8(out, 2);
    put_text(out, code.as_bytes());
    put_u8(out, scale);
    put_u8(out, pieces);
}

fn put_address_added(out: &mut Vec<u8>, path: &AddressPath, asset: u32, name: &Option<Text>)
    requires path { length path.now ≤ 1024 }
    requires name { IfSome name.now (IsShort 1024) }
    ensures { Puts (act_of (acts.AddressAdded path.now asset name.now)) out.old out.new }
{
    put_u8(out, 3);
    put_text(out, path.bytes());
    put_u32(out, asset);
    put_some_text(out, name);
}

/// A deposit or a withdrawal.
fn put_moved(out: &mut Vec<u8>, kind: u8, transfer: &Text, from: Account, value: u64)
    requires { length transfer.now ≤ 1024 }
    ensures { Puts (concat ((kind ∷ []) ∷ text transfer.now ∷ account from ∷ number 8 value ∷ [])) out.old out.new }
{
    put_u8(out, kind);
    put_text(out, transfer.bytes());
    put_account(out, from);
    put_u64(out, value);
}

fn put_rate_set(out: &mut Vec<u8>, source: u32, target: u32, num: u64, den: u64)
    ensures { Puts (act_of (acts.RateSet source target num den)) out.old out.new }
{
    put_u8(out, 6);
    put_u32(out, source);
    put_u32(out, target);
    put_u64(out, num);
    put_u64(out, den);
}

fn put_one(out: &mut Vec<u8>, kind: u8, n: u64)
    ensures { Puts (concat ((kind ∷ []) ∷ number 8 n ∷ [])) out.old out.new }
{
    put_u8(out, kind);
    put_u64(out, n);
}

fn put_two(out: &mut Vec<u8>, kind: u8, m: u64, n: u64)
    ensures { Puts (concat ((kind ∷ []) ∷ number 8 m ∷ number 8 n ∷ [])) out.old out.new }
{
    put_u8(out, kind);
    put_u64(out, m);
    put_u64(out, n);
}

fn put_drawn(out: &mut Vec<u8>, kind: u8, grant: u64, word: &Word)
    ensures { Puts (concat ((kind ∷ []) ∷ number 8 grant ∷ word.now ∷ [])) out.old out.new }
{
    put_u8(out, kind);
    put_u64(out, grant);
    put(out, word);
}

fn put_incoming_made(
    out: &mut Vec<u8>,
    grant: u64,
    address: u32,
    amount: Option<u64>,
    expiry: Moment,
    metadata: &Option<Text>,
)
    requires { IfSome metadata.now (IsShort 1024) }
    ensures { Puts (act_of (acts.IncomingMade grant address amount expiry metadata.now)) out.old out.new }
{
    put_u8(out, 7);
    put_u64(out, grant);
    put_u32(out, address);
    put_some_u64(out, amount);
    put_u64(out, expiry.ms());
    put_some_text(out, metadata);
}

fn put_grant_asked(
    out: &mut Vec<u8>,
    client: &ClientText,
    items: &Rows<Item>,
    finish: &Option<Finish>,
    word: &Word,
)
    requires { IsWithinLimits (acts.GrantAsked client.now items.now finish.now word.now) }
    ensures { Puts (act_of (acts.GrantAsked client.now items.now finish.now word.now)) out.old out.new }
{
    put_u8(out, 11);
    put_text(out, client.bytes());
    put_items(out, items.as_slice());
    put_some_finish(out, finish);
    put(out, word);
}

fn put_outgoing_made(out: &mut Vec<u8>, grant: u64, quote: u64, metadata: &Option<Text>)
    requires { IfSome metadata.now (IsShort 1024) }
    ensures { Puts (act_of (acts.OutgoingMade grant quote metadata.now)) out.old out.new }
{
    put_u8(out, 19);
    put_u64(out, grant);
    put_u64(out, quote);
    put_some_text(out, metadata);
}

fn put_outgoing_failed(out: &mut Vec<u8>, payment: u64, step: u64, reason: FailReason)
    ensures { Puts (act_of (acts.OutgoingFailed payment step reason)) out.old out.new }
{
    let number = reason_number(reason);
    put_u8(out, 23);
    put_u64(out, payment);
    put_u64(out, step);
    put_u8(out, number);
}

fn put_attempted(out: &mut Vec<u8>, event: u64, outcome: u16)
    ensures { Puts (act_of (acts.Attempted event outcome)) out.old out.new }
{
    put_u8(out, 24);
    put_u64(out, event);
    put_u16(out, outcome);
}

/// Numbers of eight bytes, one after another.
fn put_numbers(out: &mut Vec<u8>, numbers: &[u64])
    ensures { Puts (flat_map (number 8) numbers.now) out.old out.new }
{
    for n in numbers {
        put_u64(out, *n);
    }
}

/// A quote, with its seven numbers in the order of its row.
fn put_quote_made(
    out: &mut Vec<u8>,
    grant: u64,
    address: u32,
    incoming: u64,
    mode: QuoteMode,
    numbers: &[u64],
)
    ensures { Puts (10 ∷ (number 8 grant ++ (number 4 address ++ (number 8 incoming ++ (mode_number mode ∷ flat_map (number 8) numbers.now))))) out.old out.new }
{
    let mode = mode_number(mode);
    put_u8(out, 10);
    put_u64(out, grant);
    put_u32(out, address);
    put_u64(out, incoming);
    put_u8(out, mode);
    put_numbers(out, numbers);
}

/// A payment without a quote, with its seven numbers in the order of its row.
fn put_outgoing_direct(
    out: &mut Vec<u8>,
    grant: u64,
    address: u32,
    numbers: &[u64],
    metadata: &Option<Text>,
)
    requires { IfSome metadata.now (IsShort 1024) }
    ensures { Puts (concat ((25 ∷ []) ∷ number 8 grant ∷ number 4 address ∷ (map (number 8) numbers.now ++ optional text metadata.now ∷ []))) out.old out.new }
{
    put_u8(out, 25);
    put_u64(out, grant);
    put_u32(out, address);
    put_numbers(out, numbers);
    put_some_text(out, metadata);
}

/// An act's kind and its fields.
pub(crate) fn put_act(out: &mut Vec<u8>, act: &Act)
    requires { IsWithinLimits act.now }
    ensures { Puts (act_of act.now) out.old out.new }
{
    match act {
        Act::OriginSet { origin } => put_origin_set(out, origin),
        Act::AssetAdded {
            code,
            scale,
            pieces,
        } => put_asset_added(out, code, *scale, *pieces),
        Act::AddressAdded { path, asset, name } => put_address_added(out, path, *asset, name),
        Act::Deposited {
            transfer,
            account,
            value,
        } => put_moved(out, 4, transfer, *account, *value),
        Act::Withdrawn {
            transfer,
            account,
            value,
        } => put_moved(out, 5, transfer, *account, *value),
        Act::RateSet {
            source,
            target,
            num,
            den,
        } => put_rate_set(out, *source, *target, *num, *den),
        Act::IncomingMade {
            grant,
            address,
            amount,
            expiry,
            metadata,
        } => put_incoming_made(out, *grant, *address, *amount, *expiry, metadata),
        Act::IncomingCompleted { grant, incoming } => put_two(out, 8, *grant, *incoming),
        Act::IncomingExpired { incoming } => put_one(out, 9, *incoming),
        Act::QuoteMade {
            grant,
            address,
            incoming,
            mode,
            asked,
            debit,
            source,
            fee,
            receive,
            num,
            den,
        } => {
            let numbers = [*asked, *debit, *source, *fee, *receive, *num, *den];
            put_quote_made(out, *grant, *address, *incoming, *mode, &numbers)
        }
        Act::GrantAsked {
            client,
            items,
            finish,
            word,
        } => put_grant_asked(out, client, items, finish, word),
        Act::GrantAccepted { grant, word } => put_drawn(out, 12, *grant, word),
        Act::GrantRejected { grant, word } => put_drawn(out, 13, *grant, word),
        Act::GrantPolled { grant } => put_one(out, 14, *grant),
        Act::GrantContinued { grant, word } => put_drawn(out, 15, *grant, word),
        Act::GrantCancelled { grant } => put_one(out, 16, *grant),
        Act::TokenRotated { grant, word } => put_drawn(out, 17, *grant, word),
        Act::TokenRevoked { grant } => put_one(out, 18, *grant),
        Act::OutgoingMade {
            grant,
            quote,
            metadata,
        } => put_outgoing_made(out, *grant, *quote, metadata),
        Act::OutgoingFunded { payment, step } => put_two(out, 20, *payment, *step),
        Act::OutgoingSent { payment, step } => put_two(out, 21, *payment, *step),
        Act::OutgoingCompleted { payment, step } => put_two(out, 22, *payment, *step),
        Act::OutgoingFailed {
            payment,
            step,
            reason,
        } => put_outgoing_failed(out, *payment, *step, *reason),
        Act::Attempted { event, outcome } => put_attempted(out, *event, *outcome),
        Act::OutgoingDirect {
            grant,
            address,
            incoming,
            debit,
            source,
            fee,
            receive,
            num,
            den,
            metadata,
        } => {
            let numbers = [*incoming, *debit, *source, *fee, *receive, *num, *den];
            put_outgoing_direct(out, *grant, *address, &numbers, metadata)
        }
    }
}

#[tactic(auto, unfolding(crate::specs::Records::record_of))]
fn put_entry(out: &mut Vec<u8>, entry: &Entry)
    requires { IsRecordable entry.now }
    ensures { Puts (record_of entry.now) out.old out.new }
{
    put_u64(out, entry.at.ms());
    put_act(out, &entry.act);
}

/// Puts the record of an entry behind what is there. The entry's texts are within their limits, and its items and its
/// outcome are those of a record. The entry is no payment without a quote, which version 1 does not have. An `Err` changes
/// nothing, and comes only where `out` lacks room of `entry_length`. No room is given back.
pub fn write_entry(entry: &Entry, out: &mut Vec<u8>) -> Result<(), AllocError>
    requires { IsRecordable entry.now }
    ensures ok { OnOk result (out.new.items ≡ out.old.items ++ record_of entry.now) }
    ensures err { OnErr result (out.new.items ≡ out.old.items) }
    ensures room { vec_len out.old + length (record_of entry.now) ≤ vec_capacity out.old → IsOk result }
    ensures kept { vec_capacity out.old ≤ vec_capacity out.new }
{
    out.reserve(entry_length(entry))?;
    put_entry(out, entry);
    Ok(())
}
