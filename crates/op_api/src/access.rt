//! The items of a grant request: types, actions, identifiers and limits (RFC 9635, section 8; Open Payments, "access").
ghost use Rattle.std.specs.Prelude.{◌≡◌, ◌==◌, not, ◌&&◌, ◌||◌, IfOk, codes, bit_or, fold, is_some, option_and_then, option_map, Some, OnOk, ◌++◌, [], ◌∷◌};
ghost use Rattle.std.specs.Option.{option_or};
ghost use Rattle.serde_json.specs.Find.{as_str};
ghost use Rattle.serde_json.specs.View.{view, items_view};
ghost use Rattle.op_names.specs.declared.Kind.TheVariants.{Incoming};
ghost use Rattle.op_names.specs.Names.{row_in};
ghost use Rattle.op_model.specs.GrantMembers.{access_in, action_in, actions_in, cap_in, cap_with, identifier_in, if_distinct, interval_text, item_in, item_of_kind, kind_in, limits_in, limits_of, name_in};
ghost use Rattle.op_model.specs.Json.{each_of, if_object, items_list};
ghost use Rattle.op_model.specs.Legal.{actions_allowed, has_actions};
ghost use Rattle.op_model.specs.Members.{optional_of};
ghost use Rattle.op_api.specs.Slots.{first_of_each, in_slots};

use crate::members::{Read, list_in, optional_in, text_in};
use crate::names::{address_of, row_of};
use crate::values::optional_amount;
use op_amount::Amount;
use op_model::{AskedCap, AskedItem, AskedLimits, IntervalText, Rows};
use op_names::{AddressName, Kind, RowName};
use op_time::read_interval;
use serde_json::Value;
use std::alloc::{AllocError, Global};

/// The type of access to quotes.
const QUOTE: u8 = 2;

/// The type of access to outgoing payments.
const OUTGOING: u8 = 3;

/// The longest interval, in bytes.
const INTERVAL_LIMIT: usize = 128;

/// The type that a text names.
fn kind_of(text: &str) -> Option<u8>
    ensures { result ≡ kind_in text.now }
{
    match text {
        "incoming-payment" => Some(1),
        "quote" => Some(2),
        "outgoing-payment" => Some(3),
        _ => None,
    }
}

/// The bit of the action that a text names.
fn action_of(text: &str) -> Option<u8>
    ensures { result ≡ action_in text.now }
{
    match text {
        "create" => Some(1),
        "complete" => Some(2),
        "read" => Some(4),
        "read-all" => Some(8),
        "list" => Some(16),
        "list-all" => Some(32),
        _ => None,
    }
}

/// The sum of the actions that are named. One that is named twice counts once.
fn actions_of(names: &Vec<Value>) -> Option<u8>
    ensures { result ≡ option_map (fold bit_or 0) (each_of (λ a. option_and_then action_in (as_str a)) (items_list (items_view names.now.items))) }
{
    let mut actions = 0u8;
    for name in names {
        actions |= action_of(name.as_str()?)?;
    }
    Some(actions)
}

/// The member `actions`.
fn actions_in(object: &Value) -> Option<u8>
    ensures { result ≡ actions_in (view object.now) }
{
    actions_of(list_in(object, "actions")?)
}

/// The actions that a type may have, as a sum of bits.
fn actions_allowed(kind: u8) -> u8
    ensures { result ≡ actions_allowed kind }
{
    match kind {
        1 => 63,
        2 => 13,
        3 => 61,
        _ => 0,
    }
}

/// Whether there are actions, and all are those of the type.
fn has_actions(kind: u8, actions: u8) -> bool
    ensures { result ≡ has_actions kind actions }
{
    actions > 0 && actions & actions_allowed(kind) == actions
}

/// The optional member `identifier`, which is passed over for quotes. A text that names nothing is there.
fn identifier_in(alloc: Global, object: &Value, kind: u8) -> Read<Option<Option<AddressName>>>
    ensures { IfOk result (λ identifier. identifier ≡ identifier_in kind (view object.now)) }
{
    if kind == QUOTE {
        return Ok(Some(None));
    }
    let Some(value) = optional_in(object, "identifier") else {
        return Ok(Some(None));
    };
    match value.as_str() {
        Some(text) => Ok(Some(Some(address_of(alloc, text)?))),
        None => Ok(None),
    }
}

/// The optional member `receiver`. A text that names nothing is there.
fn receiver_in(alloc: Global, object: &Value) -> Read<Option<Option<RowName>>>
    ensures { IfOk result (λ receiver. receiver ≡ optional_of (name_in (row_in Incoming)) (codes "receiver") (view object.now)) }
{
    let Some(value) = optional_in(object, "receiver") else {
        return Ok(Some(None));
    };
    match value.as_str() {
        Some(text) => Ok(Some(Some(row_of(alloc, text, Kind::Incoming)?))),
        None => Ok(None),
    }
}

/// The cap of one of two amounts, or no cap. `None` where both are there.
fn cap_with(debit: Option<Amount>, receive: Option<Amount>) -> Option<Option<AskedCap>>
    ensures { result ≡ cap_with debit receive }
{
    match (debit, receive) {
        (None, None) => Some(None),
        (Some(amount), None) => Some(Some(AskedCap {
            debit: true,
            amount,
        })),
        (None, Some(amount)) => Some(Some(AskedCap {
            debit: false,
            amount,
        })),
        (Some(_), Some(_)) => None,
    }
}

/// The members `debitAmount` and `receiveAmount`, of which at most one may be there.
fn cap_in(object: &Value) -> Option<Option<AskedCap>>
    ensures { result ≡ cap_in (view object.now) }
{
    let debit = optional_amount(object, "debitAmount")?;
    let receive = optional_amount(object, "receiveAmount")?;
    cap_with(debit, receive)
}

/// A repeating interval, as it was sent.
fn interval_of(alloc: Global, value: &Value) -> Read<IntervalText>
    ensures { IfOk result (λ interval. interval ≡ interval_text (view value.now)) }
{
    let Some(text) = value.as_str() else {
        return Ok(None);
    };
    if text.len() > INTERVAL_LIMIT || read_interval(text).is_err() {
        return Ok(None);
    }
    let bytes = Vec::from_slice(alloc, text.as_bytes())?;
    Ok(Some(IntervalText::new(bytes)))
}

/// The optional member `interval`.
fn interval_in(alloc: Global, object: &Value) -> Read<Option<IntervalText>>
    ensures { IfOk result (λ interval. interval ≡ optional_of interval_text (codes "interval") (view object.now)) }
{
    match optional_in(object, "interval") {
        Some(value) => match interval_of(alloc, value)? {
            Some(interval) => Ok(Some(Some(interval))),
            None => Ok(None),
        },
        None => Ok(Some(None)),
    }
}

/// The limits that an object has.
fn limits_of(alloc: Global, value: &Value) -> Read<AskedLimits>
    ensures { IfOk result (λ limits. limits ≡ option_and_then limits_of (if_object (view value.now))) }
{
    if !value.is_object() {
        return Ok(None);
    }
    let Some(receiver) = receiver_in(alloc, value)? else {
        return Ok(None);
    };
    let Some(cap) = cap_in(value) else {
        return Ok(None);
    };
    match interval_in(alloc, value)? {
        Some(interval) => Ok(Some(AskedLimits {
            receiver,
            cap,
            interval,
        })),
        None => Ok(None),
    }
}

/// The optional member `limits`, which is read for outgoing payments alone.
fn limits_in(alloc: Global, object: &Value, kind: u8) -> Read<Option<AskedLimits>>
    ensures { IfOk result (λ limits. limits ≡ limits_in kind (view object.now)) }
{
    if kind != OUTGOING {
        return Ok(Some(None));
    }
    match optional_in(object, "limits") {
        Some(value) => match limits_of(alloc, value)? {
            Some(limits) => Ok(Some(Some(limits))),
            None => Ok(None),
        },
        None => Ok(Some(None)),
    }
}

/// The item of a type that an object means.
fn item_of_kind(alloc: Global, object: &Value, kind: u8) -> Read<AskedItem>
    ensures { IfOk result (λ item. item ≡ item_of_kind (view object.now) kind) }
{
    let Some(actions) = actions_in(object) else {
        return Ok(None);
    };
    let Some(identifier) = identifier_in(alloc, object, kind)? else {
        return Ok(None);
    };
    let Some(limits) = limits_in(alloc, object, kind)? else {
        return Ok(None);
    };
    if has_actions(kind, actions) && (identifier.is_some() || kind != OUTGOING) {
        Ok(Some(AskedItem {
            kind,
            actions,
            identifier,
            limits,
        }))
    } else {
        Ok(None)
    }
}

/// The item that a value means.
fn item_of(alloc: Global, value: &Value) -> Read<AskedItem>
    ensures { IfOk result (λ item. item ≡ item_in (view value.now)) }
{
    let Some(text) = text_in(value, "type") else {
        return Ok(None);
    };
    match kind_of(text) {
        Some(kind) => item_of_kind(alloc, value, kind),
        None => Ok(None),
    }
}

/// The items that values mean, in their order.
fn items_of(alloc: Global, values: &Vec<Value>) -> Read<Vec<AskedItem>>
    ensures { IfOk result (λ read. option_map (λ items. items.items) read ≡ each_of item_in (items_list (items_view values.now.items))) }
{
    let mut items = Vec::new(alloc);
    for value in values {
        match item_of(alloc, value)? {
            Some(item) => items.push(item)?,
            None => return Ok(None),
        }
    }
    Ok(Some(items))
}

/// One item of each type.
#[derive(Drop)]
struct Slots {
    incoming: Option<AskedItem>,
    quote: Option<AskedItem>,
    outgoing: Option<AskedItem>,
}

/// Puts an item into a slot that is free.
fn fill(slot: &mut Option<AskedItem>, item: AskedItem)
    ensures { slot.new ≡ option_or slot.old (Some item) }
{
    if slot.is_none() {
        *slot = Some(item);
    }
}

/// The first item of each type.
fn first_of_each(items: Vec<AskedItem>) -> Slots
    ensures { result ≡ first_of_each items.items }
{
    let mut slots = Slots {
        incoming: None,
        quote: None,
        outgoing: None,
    };
    for item in items {
        match item.kind {
            1 => fill(&mut slots.incoming, item),
            2 => fill(&mut slots.quote, item),
            3 => fill(&mut slots.outgoing, item),
            _ => {}
        }
    }
    slots
}

/// Adds the item that a slot has.
fn add(rows: &mut Vec<AskedItem>, slot: Option<AskedItem>) -> Result<(), AllocError>
    ensures { OnOk result (rows.new.items ≡ rows.old.items ++ in_slots (slot ∷ [])) }
{
    if let Some(item) = slot {
        rows.push(item)?;
    }
    Ok(())
}

/// The items of slots, in the order of their types.
fn rows_of(alloc: Global, slots: Slots) -> Result<Vec<AskedItem>, AllocError>
    ensures { IfOk result (λ rows. rows.items ≡ in_slots (slots.incoming ∷ slots.quote ∷ slots.outgoing ∷ [])) }
{
    let Slots {
        incoming,
        quote,
        outgoing,
    } = slots;
    let mut rows = Vec::new(alloc);
    add(&mut rows, incoming)?;
    add(&mut rows, quote)?;
    add(&mut rows, outgoing)?;
    Ok(rows)
}

/// The items in the order of their types. `None` where a type stands twice, or no item is there.
fn in_order(alloc: Global, items: Vec<AskedItem>) -> Read<Rows<AskedItem>>
    ensures { IfOk result (λ rows. rows ≡ if_distinct items.items) }
{
    let asked = items.len();
    let rows = rows_of(alloc, first_of_each(items))?;
    if asked >= 1 && rows.len() == asked {
        Ok(Some(Rows::new(rows)))
    } else {
        Ok(None)
    }
}

/// The items of the member `access`.
pub(crate) fn access_in(alloc: Global, object: &Value) -> Read<Rows<AskedItem>>
    ensures { IfOk result (λ items. items ≡ access_in (view object.now)) }
{
    let Some(values) = list_in(object, "access") else {
        return Ok(None);
    };
    match items_of(alloc, values)? {
        Some(items) => in_order(alloc, items),
        None => Ok(None),
    }
}
