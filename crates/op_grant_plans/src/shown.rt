//! What replies tell of the items of a grant.

ghost use Rattle.std.specs.Prelude.{◌≡◌, List, Some, IfOk};
ghost use Rattle.std.specs.List.{AllByRecursion};
ghost use Rattle.std.specs.Option.{option_map};
ghost use Rattle.op_legal.specs.Numbers.{HasAsset, LimitsNameMade, ItemNamesMade};
ghost use Rattle.op_model.specs.Shown.{path_of_address, cap_shown, limits_shown, item_shown, items_shown};
ghost use Rattle.op_model.specs.declared.act.Entry.{Entry};
ghost use Rattle.op_naming.specs.Names.{AreNames};

use op_amount::Amount;
use op_model::{Cap, IntervalText, Item, ItemShown, Limits, LimitsShown};
use op_names::AddressPath;
use op_naming::Names;
use std::alloc::{AllocError, Global};

/// What a token is good for.
pub(crate) fn items_shown(
    alloc: Global,
    names: &Names,
    items: &[Item],
) -> Result<Vec<ItemShown>, AllocError>
    ensures { IfOk result (λ shown. (history : List Entry) → AreNames history names.now → AllByRecursion (ItemNamesMade history) items.now → shown.items ≡ items_shown history items.now) }
{
    let mut shown = Vec::new(alloc);
    for item in items {
        shown.push(item_shown(alloc, names, item)?)?;
    }
    Ok(shown)
}

// One kind of access.
fn item_shown(alloc: Global, names: &Names, item: &Item) -> Result<ItemShown, AllocError>
    ensures { IfOk result (λ shown. (history : List Entry) → AreNames history names.now → ItemNamesMade history item.now → shown ≡ item_shown history item.now) }
{
    let limits = match &item.limits {
        Some(limits) => Some(limits_shown(alloc, names, limits)?),
        None => None,
    };
    Ok(ItemShown {
        kind: item.kind,
        actions: item.actions,
        identifier: path_if(alloc, names, item.identifier)?,
        limits,
    })
}

// The path of an address, where one is named.
fn path_if(
    alloc: Global,
    names: &Names,
    address: Option<u32>,
) -> Result<Option<AddressPath>, AllocError>
    ensures { IfOk result (λ path. (history : List Entry) → AreNames history names.now → path ≡ option_map (path_of_address history) address) }
{
    match address {
        Some(number) => Ok(Some(path_of(alloc, names, number)?)),
        None => Ok(None),
    }
}

// The path of an address. No address has the empty path.
fn path_of(alloc: Global, names: &Names, number: u32) -> Result<AddressPath, AllocError>
    ensures { IfOk result (λ path. (history : List Entry) → AreNames history names.now → path ≡ path_of_address history number) }
{
    match names.address(number) {
        Some(row) => row.path.clone(alloc),
        None => Ok(AddressPath::new(Vec::new(alloc))),
    }
}

// Limits of payments.
fn limits_shown(alloc: Global, names: &Names, limits: &Limits) -> Result<LimitsShown, AllocError>
    ensures { IfOk result (λ shown. (history : List Entry) → AreNames history names.now → LimitsNameMade history limits.now → shown ≡ limits_shown history limits.now) }
{
    let (debit, receive) = match limits.cap {
        Some(cap) if cap.debit => (cap_shown(names, cap), None),
        Some(cap) => (None, cap_shown(names, cap)),
        None => (None, None),
    };
    Ok(LimitsShown {
        receiver: limits.receiver,
        debit,
        receive,
        interval: copy_interval(alloc, &limits.interval)?,
    })
}

// The amount of a cap, whose asset is there.
fn cap_shown(names: &Names, cap: Cap) -> Option<Amount>
    ensures { (history : List Entry) → AreNames history names.now → HasAsset history cap.sum.asset → result ≡ Some (cap_shown history cap) }
{
    let kept = names.asset(cap.sum.asset)?;
    Some(Amount {
        value: cap.sum.value,
        asset: kept.asset,
    })
}

// An equal text.
pub(crate) fn copy_interval(
    alloc: Global,
    interval: &Option<IntervalText>,
) -> Result<Option<IntervalText>, AllocError>
    ensures { IfOk result (λ copy. copy ≡ interval.now) }
{
    match interval {
        Some(text) => Ok(Some(text.clone(alloc)?)),
        None => Ok(None),
    }
}
