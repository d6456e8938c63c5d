//! The bodies of replies to the provider's own requests, and of a wallet address (Open Payments, wallet address).
ghost use Rattle.std.specs.Prelude.{◌≡◌, IfOk, IfSome, ℕ};
ghost use Rattle.std.specs.Str.{IsUtf8};
ghost use Rattle.op_model.specs.Bodies.{origin_data, asset_added_data, asset_inspected_data, address_added_data, address_inspected_data, address_read_data, transferred_data, rate_data, outgoing_inspected_data};
ghost use Rattle.op_reply.specs.Fields.{members_data, IsAccountText};
ghost use Rattle.op_reply.specs.Values.{data_of};

use crate::fields::{Field, object};
use crate::values::Json;
use op_amount::{Amount, Asset, Rate};
use op_model::{AccountShown, AddressShown, ProgressShown, Text};
use op_names::{AddressPath, Kind, Origin};
use std::alloc::{AllocError, Global};

pub fn origin(alloc: Global, origin: &Origin) -> Result<Json, AllocError>
    requires { IsUtf8 origin.now }
    ensures { IfOk result (λ json. data_of json ≡ origin_data origin.now) }
{
    object(alloc, &[("origin", Field::Origin(origin))])
}

pub fn asset_added(alloc: Global, asset: &Asset, pieces: u8) -> Result<Json, AllocError>
    ensures { IfOk result (λ json. data_of json ≡ asset_added_data asset.now pieces) }
{
    object(
        alloc,
        &[
            ("assetCode", Field::Code(&asset.code)),
            ("assetScale", Field::Small(asset.scale)),
            ("pieces", Field::Small(pieces)),
        ],
    )
}

/// An asset, and what stands on its pool and its fee account and in all.
pub fn asset_inspected(
    alloc: Global,
    asset: &Asset,
    pieces: u8,
    pool: u64,
    fees: u64,
    total: u64,
) -> Result<Json, AllocError>
    ensures { IfOk result (λ json. data_of json ≡ asset_inspected_data asset.now pieces pool fees total) }
{
    object(
        alloc,
        &[
            ("assetCode", Field::Code(&asset.code)),
            ("assetScale", Field::Small(asset.scale)),
            ("fees", Field::Digits(fees)),
            ("pieces", Field::Small(pieces)),
            ("pool", Field::Digits(pool)),
            ("total", Field::Digits(total)),
        ],
    )
}

pub fn address_added<'x>(
    alloc: Global,
    origin: &'x Origin,
    number: u64,
    address: &'x AddressShown,
) -> Result<Json, AllocError>
    requires origin { IsUtf8 origin.now }
    requires path { IsUtf8 address.now.path }
    requires name { IfSome address.now.name IsUtf8 }
    ensures { IfOk result (λ json. data_of json ≡ address_added_data origin.now number address.now) }
{
    object(
        alloc,
        &[
            ("assetCode", Field::Code(&address.asset.code)),
            ("assetScale", Field::Small(address.asset.scale)),
            ("id", Field::Id(Kind::Address, number)),
            ("publicName", Field::ToldIf(&address.name)),
            ("url", Field::AddressUrl(origin, &address.path)),
        ],
    )
}

pub fn address_inspected<'x>(
    alloc: Global,
    origin: &'x Origin,
    number: u64,
    path: &'x AddressPath,
    available: u64,
    posted: u64,
) -> Result<Json, AllocError>
    requires origin { IsUtf8 origin.now }
    requires path { IsUtf8 path.now }
    ensures { IfOk result (λ json. data_of json ≡ address_inspected_data origin.now number path.now available posted) }
{
    object(
        alloc,
        &[
            ("available", Field::Digits(available)),
            ("id", Field::Id(Kind::Address, number)),
            ("posted", Field::Digits(posted)),
            ("url", Field::AddressUrl(origin, path)),
        ],
    )
}

/// A wallet address as anybody may see it, with the servers that its payments are asked from.
pub fn address_read<'x>(
    alloc: Global,
    origin: &'x Origin,
    address: &'x AddressShown,
) -> Result<Json, AllocError>
    requires origin { IsUtf8 origin.now }
    requires path { IsUtf8 address.now.path }
    requires name { IfSome address.now.name IsUtf8 }
    ensures { IfOk result (λ json. data_of json ≡ address_read_data origin.now address.now) }
{
    object(
        alloc,
        &[
            ("assetCode", Field::Code(&address.asset.code)),
            ("assetScale", Field::Small(address.asset.scale)),
            ("authServer", Field::GrantUrl(origin)),
            ("id", Field::AddressUrl(origin, &address.path)),
            ("publicName", Field::ToldIf(&address.name)),
            ("resourceServer", Field::Origin(origin)),
        ],
    )
}

/// A deposit or a withdrawal.
pub fn transferred<'x>(
    alloc: Global,
    origin: &'x Origin,
    transfer: &'x Text,
    account: &'x AccountShown,
    amount: &'x Amount,
) -> Result<Json, AllocError>
    requires account { IsAccountText origin.now account.now }
    requires transfer { IsUtf8 transfer.now }
    ensures { IfOk result (λ json. data_of json ≡ transferred_data origin.now transfer.now account.now amount.now) }
{
    object(
        alloc,
        &[
            ("account", Field::Account(origin, account)),
            ("amount", Field::Amount(amount)),
            ("transferId", Field::Told(transfer)),
        ],
    )
}

pub fn rate<'x>(
    alloc: Global,
    source: &'x Asset,
    target: &'x Asset,
    rate: &'x Rate,
) -> Result<Json, AllocError>
    ensures { IfOk result (λ json. data_of json ≡ rate_data source.now target.now rate.now.num rate.now.den) }
{
    object(
        alloc,
        &[
            ("den", Field::Digits(rate.den)),
            ("from", Field::Asset(source)),
            ("num", Field::Digits(rate.num)),
            ("to", Field::Asset(target)),
        ],
    )
}

/// How far an outgoing payment has come.
pub fn outgoing_inspected(
    alloc: Global,
    number: u64,
    payment: &ProgressShown,
) -> Result<Json, AllocError>
    ensures { IfOk result (λ json. data_of json ≡ outgoing_inspected_data number payment.now) }
{
    object(
        alloc,
        &[
            ("delivered", Field::Digits(payment.delivered)),
            ("fee", Field::Digits(payment.fee)),
            ("id", Field::Id(Kind::Outgoing, number)),
            ("reason", Field::Reason(payment.reason)),
            ("sent", Field::Digits(payment.sent)),
            ("state", Field::State(payment.state)),
            ("step", Field::Number(payment.step)),
        ],
    )
}
