//! What a client asks for, with its names found.

ghost use Rattle.std.specs.Prelude.{◌≡◌, ◌==◌, List, IfOk, is_some};
ghost use Rattle.std.specs.List.{list_any};
ghost use Rattle.op_grant_plans.specs.Callers.{IsCountOf};
ghost use Rattle.op_model.specs.Asking.{number_under_origin};
ghost use Rattle.op_model.specs.GrantAnswers.{address_asked, receiver_asked, receiver_there, cap_asked, limits_asked, item_asked, items_asked, is_strange, has_strange_limits, is_strange_item};
ghost use Rattle.op_model.specs.Payments.{incoming_row};
ghost use Rattle.op_model.specs.declared.act.Entry.{Entry};
ghost use Rattle.op_naming.specs.Names.{AreNames};
ghost use Rattle.op_names.specs.Ids.{kind_number};
ghost use Rattle.op_names.specs.declared.Kind.TheVariants.{Incoming};

use crate::shown::copy_interval;
use op_model::{AskedCap, AskedItem, AskedLimits, Cap, Item, Limits, Sum};
use op_names::{AddressName, Kind, RowName};
use op_naming::Names;
use std::alloc::{AllocError, Global};

// The number of an address that is named, if it is there.
fn address_asked(names: &Names, name: &Option<Option<AddressName>>) -> Option<u32>
    ensures { (history : List Entry) → AreNames history names.now → result ≡ address_asked history name.now }
{
    match name {
        Some(Some(name)) => names.find_address(name),
        _ => None,
    }
}

// The kind is that of incoming payments.
fn is_incoming(kind: Kind) -> bool
    ensures { result ≡ (kind_number kind == kind_number Incoming) }
{
    match kind {
        Kind::Incoming => true,
        Kind::Quote | Kind::Outgoing | Kind::Grant | Kind::Event | Kind::Address => false,
    }
}

// The number of an incoming payment, if one is named under the wallet's origin.
fn receiver_asked(names: &Names, name: &Option<Option<RowName>>) -> Option<u64>
    ensures { (history : List Entry) → AreNames history names.now → result ≡ receiver_asked history name.now }
{
    match name {
        Some(Some(name)) => receiver_named(names, name),
        _ => None,
    }
}

// The number of a name, where it is one of an incoming payment under the wallet's origin.
fn receiver_named(names: &Names, name: &RowName) -> Option<u64>
    ensures { (history : List Entry) → AreNames history names.now → result ≡ number_under_origin history Incoming name.now }
{
    if name.origin.as_bytes() == names.origin().as_bytes() && is_incoming(name.id.kind) {
        Some(name.id.number)
    } else {
        None
    }
}

// A cap with the number of its asset, if that is there.
fn cap_asked(names: &Names, cap: &AskedCap) -> Option<Cap>
    ensures { (history : List Entry) → AreNames history names.now → result ≡ cap_asked history cap.now }
{
    let asset = names.find_asset(&cap.amount.asset)?;
    Some(Cap {
        debit: cap.debit,
        sum: Sum {
            asset,
            value: cap.amount.value,
        },
    })
}

// Limits, with their names found.
fn limits_asked(alloc: Global, names: &Names, limits: &AskedLimits) -> Result<Limits, AllocError>
    ensures { IfOk result (λ made. (history : List Entry) → AreNames history names.now → made ≡ limits_asked history limits.now) }
{
    let cap = match &limits.cap {
        Some(cap) => cap_asked(names, cap),
        None => None,
    };
    Ok(Limits {
        receiver: receiver_asked(names, &limits.receiver),
        cap,
        interval: copy_interval(alloc, &limits.interval)?,
    })
}

// One kind of access, with its names found.
fn item_asked(alloc: Global, names: &Names, item: &AskedItem) -> Result<Item, AllocError>
    ensures { IfOk result (λ made. (history : List Entry) → AreNames history names.now → made ≡ item_asked history item.now) }
{
    let limits = match &item.limits {
        Some(limits) => Some(limits_asked(alloc, names, limits)?),
        None => None,
    };
    Ok(Item {
        kind: item.kind,
        actions: item.actions,
        identifier: address_asked(names, &item.identifier),
        limits,
    })
}

/// The items that are asked for, with their names found.
pub(crate) fn items_asked(
    alloc: Global,
    names: &Names,
    items: &[AskedItem],
) -> Result<Vec<Item>, AllocError>
    ensures { IfOk result (λ made. (history : List Entry) → AreNames history names.now → made.items ≡ items_asked history items.now) }
{
    let mut made = Vec::new(alloc);
    for item in items {
        made.push(item_asked(alloc, names, item)?)?;
    }
    Ok(made)
}

// An incoming payment has this number.
fn is_there(incomings: u64, number: u64) -> bool
    ensures { (history : List Entry) → IsCountOf history incomings → result ≡ is_some (incoming_row history number) }
{
    1 <= number && number <= incomings
}

// A receiver that is named is not there.
fn is_strange_receiver(names: &Names, incomings: u64, name: &Option<Option<RowName>>) -> bool
    ensures { (history : List Entry) → AreNames history names.now → IsCountOf history incomings → result ≡ is_strange name.now (receiver_there history name.now) }
{
    if name.is_none() {
        return false;
    }
    match receiver_asked(names, name) {
        Some(number) => !is_there(incomings, number),
        None => true,
    }
}

// A limit names what is not there.
fn has_strange_limits(names: &Names, incomings: u64, limits: &AskedLimits) -> bool
    ensures { (history : List Entry) → AreNames history names.now → IsCountOf history incomings → result ≡ has_strange_limits history limits.now }
{
    if is_strange_receiver(names, incomings, &limits.receiver) {
        return true;
    }
    match &limits.cap {
        Some(cap) => cap_asked(names, cap).is_none(),
        None => false,
    }
}

// An item names what is not there.
fn is_strange_item(names: &Names, incomings: u64, item: &AskedItem) -> bool
    ensures { (history : List Entry) → AreNames history names.now → IsCountOf history incomings → result ≡ is_strange_item history item.now }
{
    if item.identifier.is_some() && address_asked(names, &item.identifier).is_none() {
        return true;
    }
    match &item.limits {
        Some(limits) => has_strange_limits(names, incomings, limits),
        None => false,
    }
}

/// Some item names what is not there.
pub(crate) fn has_strange_item(names: &Names, incomings: u64, items: &[AskedItem]) -> bool
    ensures { (history : List Entry) → AreNames history names.now → IsCountOf history incomings → result ≡ list_any (is_strange_item history) items.now }
{
    for item in items {
        if is_strange_item(names, incomings, item) {
            return true;
        }
    }
    false
}
