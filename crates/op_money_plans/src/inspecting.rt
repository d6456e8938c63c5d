//! Plans of what is told of an asset and of a wallet address.

ghost use Rattle.std.specs.Prelude.{◌≡◌, List, None, IfOk, MatchOption};
ghost use Rattle.op_model.specs.History.{nth, addresses};
ghost use Rattle.op_model.specs.declared.act.Entry.{Entry};
ghost use Rattle.op_model.specs.declared.request.Request.TheVariants.{InspectAsset, InspectAddress};
ghost use Rattle.op_naming.specs.Names.{AreNames};
ghost use Rattle.op_paying.specs.Money.{IsMoneyOf};
ghost use Rattle.op_plans.specs.Plans.{IsPlanned};

use op_amount::Asset;
use op_model::{Account, Refusal, ReplyBody};
use op_naming::Names;
use op_paying::Money;
use op_plans::Plan;
use std::alloc::{AllocError, Global};

/// What is to come of a look at an asset (`GET /admin/assets/{code}/{scale}`): its pieces, what stands in its pool and
/// its fees, and its total. `None` is what is no asset.
pub fn plan_inspect_asset(names: &Names, money: &Money, asset: Option<Asset>) -> Plan
    ensures { (history : List Entry) → AreNames history names.now → IsMoneyOf history money.now → IsPlanned history (InspectAsset asset) result }
{
    let Some(asset) = asset else {
        return Plan::Refused(Refusal::NotFound);
    };
    let Some(number) = names.find_asset(&asset) else {
        return Plan::Refused(Refusal::NotFound);
    };
    Plan::Told(ReplyBody::AssetInspected {
        asset,
        pieces: money.pieces(number),
        pool: money.posted(Account::Pool(number)),
        fees: money.posted(Account::Fees(number)),
        total: money.total(number),
    })
}

/// What is to come of a look at a wallet address (`GET /admin/wallet-addresses/{id}`): its path, what is available on its
/// account, and what is posted there. `None` is what is no number.
pub fn plan_inspect_address(
    alloc: Global,
    names: &Names,
    money: &Money,
    address: Option<u64>,
) -> Result<Plan, AllocError>
    ensures { IfOk result (λ plan. (history : List Entry) → AreNames history names.now → IsMoneyOf history money.now → IsPlanned history (InspectAddress address) plan) }
{
    let Some(number) = address else {
        return Ok(Plan::Refused(Refusal::NotFound));
    };
    let Some(place) = address_place(names, number) else {
        return Ok(Plan::Refused(Refusal::NotFound));
    };
    let Some(row) = names.address(place) else {
        return Ok(Plan::Refused(Refusal::NotFound));
    };
    let account = Account::Wallet(place);
    Ok(Plan::Told(ReplyBody::AddressInspected {
        number,
        path: row.path.clone(alloc)?,
        available: money.available(account),
        posted: money.posted(account),
    }))
}

// The number of an address, where at least so many are there.
fn address_place(names: &Names, number: u64) -> Option<u32>
    ensures { (history : List Entry) → AreNames history names.now → MatchOption result (nth (addresses history) number ≡ None) (λ place. place ≡ number) }
{
    if number > u64::from(names.address_count()) {
        return None;
    }
    Some(number as u32)
}
