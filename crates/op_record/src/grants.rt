//! Items, limits and finishes, read from left to right.

ghost use Rattle.std.specs.Prelude.{◌≡◌, ◌≤◌, IfOk, Some};
ghost use Rattle.op_record.specs.Readers.{Gives, byte, text_at, option_at};
ghost use Rattle.op_record.specs.Rows.{u32_at, cap_at, limits_at, item_at, more_items_at, items_at, finish_at};
ghost use Rattle.op_model.specs.Legal.{has_actions};

use crate::fault::{Fault, ReadError};
use crate::fields::{byte_between, first_of, kept_at, some_u64_at, u32_at, u64_at};
use op_model::{Cap, Finish, IntervalText, Item, Limits, NonceText, Rows, Sum, UriText};
use std::alloc::Global;

#[tactic(auto, unfolding(crate::specs::Rows::cap_at, crate::specs::Readers::bind, crate::specs::Readers::done))]
fn cap_at(bytes: &[u8]) -> Result<(Option<Cap>, &[u8]), ReadError>
    ensures { Gives (λ x. (x.0, x.1.now)) result (cap_at bytes.now) }
{
    let (way, rest) = byte_between(bytes, 0, 2)?;
    if way == 0 {
        return Ok((None, rest));
    }
    let (asset, rest) = u32_at(rest)?;
    let (value, rest) = u64_at(rest)?;
    let cap = Cap {
        debit: way == 1,
        sum: Sum { asset, value },
    };
    Ok((Some(cap), rest))
}

#[tactic(auto, unfolding(crate::specs::Readers::option_at, crate::specs::Readers::bind, crate::specs::Readers::done))]
fn some_interval_at(alloc: Global, bytes: &[u8]) -> Result<(Option<IntervalText>, &[u8]), ReadError>
    ensures { Gives (λ x. (x.0, x.1.now)) result (option_at (text_at 128) bytes.now) }
{
    let (flag, rest) = byte_between(bytes, 0, 1)?;
    if flag == 0 {
        return Ok((None, rest));
    }
    let (text, rest) = kept_at(alloc, rest, 128)?;
    Ok((Some(IntervalText::new(text)), rest))
}

#[tactic(auto, unfolding(crate::specs::Rows::limits_at, crate::specs::Readers::bind, crate::specs::Readers::done))]
fn limits_at(alloc: Global, bytes: &[u8]) -> Result<(Limits, &[u8]), ReadError>
    ensures { Gives (λ x. (x.0, x.1.now)) result (limits_at bytes.now) }
{
    let (receiver, rest) = some_u64_at(bytes)?;
    let (cap, rest) = cap_at(rest)?;
    let (interval, rest) = some_interval_at(alloc, rest)?;
    let limits = Limits {
        receiver,
        cap,
        interval,
    };
    Ok((limits, rest))
}

#[tactic(auto, unfolding(crate::specs::Readers::option_at, crate::specs::Readers::bind, crate::specs::Readers::done))]
fn some_limits_at(alloc: Global, bytes: &[u8]) -> Result<(Option<Limits>, &[u8]), ReadError>
    ensures { Gives (λ x. (x.0, x.1.now)) result (option_at limits_at bytes.now) }
{
    let (flag, rest) = byte_between(bytes, 0, 1)?;
    if flag == 0 {
        return Ok((None, rest));
    }
    let (limits, rest) = limits_at(alloc, rest)?;
    Ok((Some(limits), rest))
}

#[tactic(auto, unfolding(crate::specs::Readers::option_at, crate::specs::Readers::bind, crate::specs::Readers::done))]
fn some_u32_at(bytes: &[u8]) -> Result<(Option<u32>, &[u8]), ReadError>
    ensures { Gives (λ x. (x.0, x.1.now)) result (option_at u32_at bytes.now) }
{
    let (flag, rest) = byte_between(bytes, 0, 1)?;
    if flag == 0 {
        return Ok((None, rest));
    }
    let (number, rest) = u32_at(rest)?;
    Ok((Some(number), rest))
}

/// Whether a sum of actions has at least one, and only those of a type of item (Open Payments, access types): create 1,
/// complete 2, read 4, read-all 8, list 16, list-all 32.
fn has_actions(kind: u8, actions: u8) -> bool
    ensures { result ≡ has_actions kind actions }
{
    let allowed = match kind {
        1 => 63,
        2 => 13,
        3 => 61,
        _ => 0,
    };
    0 < actions && actions & allowed == actions
}

#[tactic(auto, unfolding(crate::specs::Readers::byte))]
fn actions_at(bytes: &[u8], kind: u8) -> Result<(u8, &[u8]), ReadError>
    ensures { Gives (λ x. (x.0, x.1.now)) result (byte (has_actions kind) bytes.now) }
{
    let Some((actions, rest)) = first_of(bytes) else {
        return Err(ReadError::Fault(Fault::Short));
    };
    if has_actions(kind, actions) {
        Ok((actions, rest))
    } else {
        Err(ReadError::Fault(Fault::Bad(bytes.len())))
    }
}

/// An item of a type from `low` to `high`.
#[tactic(auto, unfolding(crate::specs::Rows::item_at, crate::specs::Readers::bind, crate::specs::Readers::done))]
fn item_at(alloc: Global, bytes: &[u8], low: u8, high: u8) -> Result<(Item, &[u8]), ReadError>
    ensures gives { Gives (λ x. (x.0, x.1.now)) result (item_at low high bytes.now) }
    ensures below { IfOk result (λ x. x.0.kind ≤ high) }
{
    let (kind, rest) = byte_between(bytes, low, high)?;
    let (actions, rest) = actions_at(rest, kind)?;
    let (identifier, rest) = some_u32_at(rest)?;
    let (limits, rest) = some_limits_at(alloc, rest)?;
    let item = Item {
        kind,
        actions,
        identifier,
        limits,
    };
    Ok((item, rest))
}

/// One to three items in ascending type.
#[tactic(auto, unfolding(crate::specs::Rows::items_at, crate::specs::Readers::bind))]
pub(crate) fn items_at(alloc: Global, bytes: &[u8]) -> Result<(Rows<Item>, &[u8]), ReadError>
    ensures { Gives (λ x. (x.0, x.1.now)) result (items_at bytes.now) }
{
    let (count, rest) = byte_between(bytes, 1, 3)?;
    let (items, rest) = more_items_at(alloc, rest, count)?;
    Ok((Rows::new(items), rest))
}

/// So many items in ascending type. Where more follow an item, its type leaves room for theirs.
fn more_items_at(alloc: Global, bytes: &[u8], count: u8) -> Result<(Vec<Item>, &[u8]), ReadError>
    requires { count ≤ 3 }
    ensures { Gives (λ x. (x.0.items, x.1.now)) result (more_items_at count 0 bytes.now) }
{
    let mut items = Vec::new(alloc);
    let mut above = 0;
    let mut rest = bytes;
    for at in 0..count {
        let (item, after) = item_at(alloc, rest, above + 1, 4 - count + at)?;
        above = item.kind;
        items.push(item)?;
        rest = after;
    }
    Ok((items, rest))
}

#[tactic(auto, unfolding(crate::specs::Rows::finish_at, crate::specs::Readers::bind, crate::specs::Readers::done))]
fn finish_at(alloc: Global, bytes: &[u8]) -> Result<(Finish, &[u8]), ReadError>
    ensures { Gives (λ x. (x.0, x.1.now)) result (finish_at bytes.now) }
{
    let (uri, rest) = kept_at(alloc, bytes, 512)?;
    let (nonce, rest) = kept_at(alloc, rest, 128)?;
    let finish = Finish {
        uri: UriText::new(uri),
        nonce: NonceText::new(nonce),
    };
    Ok((finish, rest))
}

#[tactic(auto, unfolding(crate::specs::Readers::option_at, crate::specs::Readers::bind, crate::specs::Readers::done))]
pub(crate) fn some_finish_at(
    alloc: Global,
    bytes: &[u8],
) -> Result<(Option<Finish>, &[u8]), ReadError>
    ensures { Gives (λ x. (x.0, x.1.now)) result (option_at finish_at bytes.now) }
{
    let (flag, rest) = byte_between(bytes, 0, 1)?;
    if flag == 0 {
        return Ok((None, rest));
    }
    let (finish, rest) = finish_at(alloc, rest)?;
    Ok((Some(finish), rest))
}
