//! Plans of the provider's requests: origin, assets, addresses and rates.

ghost use Rattle.std.specs.Prelude.{◌≡◌, ◌+◌, List, IfOk};
ghost use Rattle.std.specs.Option.{option_map};
ghost use Rattle.op_model.specs.History.{nth, addresses};
ghost use Rattle.op_model.specs.Shown.{address_shown};
ghost use Rattle.op_model.specs.declared.act.Entry.{Entry};
ghost use Rattle.op_model.specs.declared.request.Request.TheVariants.{SetOrigin, AddAsset, AddAddress, SetRate, ReadAddress};
ghost use Rattle.op_plans.specs.Plans.{IsPlanned, AreBased};
ghost use Rattle.op_naming.specs.Names.{AreNames};
ghost use Rattle.op_plans.specs.Plans.{address_plan};

use crate::plan::Plan;
use op_amount::{Asset, Rate};
use op_model::{Act, AddressShown, CodeText, Refusal, ReplyBody, Text};
use op_names::{AddressPath, Origin};
use op_naming::Names;
use std::alloc::{AllocError, Global};

/// An equal name.
fn copy_name(name: &Option<Text>, alloc: Global) -> Result<Option<Text>, AllocError>
    ensures { IfOk result (λ copy. copy ≡ name.now) }
{
    match name {
        Some(text) => Ok(Some(text.clone(alloc)?)),
        None => Ok(None),
    }
}

/// Setting the origin.
pub(crate) fn plan_set_origin(names: &Names, origin: &Origin) -> Plan
    ensures { (history : List Entry) → AreNames history names.now → IsPlanned history (SetOrigin origin.now) result }
{
    if names.is_fixed() {
        return Plan::Refused(Refusal::OriginFixed);
    }
    Plan::Acts {
        act: Act::OriginSet { origin: *origin },
        body: ReplyBody::OriginSet { origin: *origin },
    }
}

/// Adding an asset.
pub(crate) fn plan_add_asset(names: &Names, asset: &Asset, pieces: u8) -> Plan
    ensures { (history : List Entry) → AreNames history names.now → IsPlanned history (AddAsset asset.now pieces) result }
{
    if names.find_asset(asset).is_some() {
        return Plan::Refused(Refusal::AlreadyExists);
    }
    Plan::Acts {
        act: Act::AssetAdded {
            code: CodeText::of_code(asset.code),
            scale: asset.scale,
            pieces,
        },
        body: ReplyBody::AssetAdded {
            asset: *asset,
            pieces,
        },
    }
}

/// Setting the rate between two assets.
pub(crate) fn plan_set_rate(names: &Names, source: &Asset, target: &Asset, rate: Rate) -> Plan
    ensures { (history : List Entry) → AreNames history names.now → IsPlanned history (SetRate source.now target.now rate) result }
{
    let Some(from) = names.find_asset(source) else {
        return Plan::Refused(Refusal::NotFound);
    };
    let Some(to) = names.find_asset(target) else {
        return Plan::Refused(Refusal::NotFound);
    };
    if from == to {
        return Plan::Refused(Refusal::SameAsset);
    }
    Plan::Acts {
        act: Act::RateSet {
            source: from,
            target: to,
            num: rate.num,
            den: rate.den,
        },
        body: ReplyBody::RateSet {
            source: *source,
            target: *target,
            rate,
        },
    }
}

/// Adding a wallet address.
pub(crate) fn plan_add_address(
    alloc: Global,
    names: &Names,
    path: &AddressPath,
    asset: &Asset,
    name: &Option<Text>,
) -> Result<Plan, AllocError>
    ensures { IfOk result (λ plan. (history : List Entry) → AreNames history names.now → IsPlanned history (AddAddress path.now asset.now name.now) plan) }
{
    let Some(number) = names.find_asset(asset) else {
        return Ok(Plan::Refused(Refusal::NotFound));
    };
    if names.find_path(path).is_some() {
        return Ok(Plan::Refused(Refusal::AlreadyExists));
    }
    new_address(alloc, path, asset, name, number, names.address_count())
}

// The plan of a new address, behind so many others.
fn new_address(
    alloc: Global,
    path: &AddressPath,
    asset: &Asset,
    name: &Option<Text>,
    number: u32,
    count: u32,
) -> Result<Plan, AllocError>
    ensures { IfOk result (λ plan. plan ≡ address_plan path.now asset.now name.now number count) }
{
    Ok(Plan::Acts {
        act: Act::AddressAdded {
            path: path.clone(alloc)?,
            asset: number,
            name: copy_name(name, alloc)?,
        },
        body: ReplyBody::AddressAdded {
            number: u64::from(count) + 1,
            address: AddressShown {
                path: path.clone(alloc)?,
                asset: *asset,
                name: copy_name(name, alloc)?,
            },
        },
    })
}

/// What is told of a wallet address, if it is there.
fn shown_address(
    alloc: Global,
    names: &Names,
    number: u32,
) -> Result<Option<AddressShown>, AllocError>
    ensures { IfOk result (λ shown. (history : List Entry) → AreNames history names.now → AreBased history → shown ≡ option_map (λ row. address_shown history number) (nth (addresses history) number)) }
{
    let Some(row) = names.address(number) else {
        return Ok(None);
    };
    let Some(kept) = names.asset(row.asset) else {
        return Ok(None);
    };
    Ok(Some(AddressShown {
        path: row.path.clone(alloc)?,
        asset: kept.asset,
        name: copy_name(&row.name, alloc)?,
    }))
}

/// Reading a wallet address (Open Payments, wallet address).
pub(crate) fn plan_read_address(
    alloc: Global,
    names: &Names,
    path: &AddressPath,
) -> Result<Plan, AllocError>
    ensures { IfOk result (λ plan. (history : List Entry) → AreNames history names.now → AreBased history → IsPlanned history (ReadAddress path.now) plan) }
{
    let Some(number) = names.find_path(path) else {
        return Ok(Plan::Refused(Refusal::NotFound));
    };
    let Some(address) = shown_address(alloc, names, number)? else {
        return Ok(Plan::Refused(Refusal::NotFound));
    };
    Ok(Plan::Told(ReplyBody::AddressRead { address }))
}
