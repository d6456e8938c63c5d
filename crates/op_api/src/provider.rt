//! The bodies of the provider's routes.
ghost use Rattle.std.specs.Prelude.{◌≡◌, IfErr};
ghost use Rattle.op_model.specs.Json.{with_members};
ghost use Rattle.op_model.specs.Members.{account_of, add_address_members, add_asset_members, set_origin_members, set_rate_members, transfer_members};
ghost use Rattle.op_api.specs.Body.{IsMeant, IsBodyFault};
ghost use Rattle.op_api.specs.Readers.{IsTransfer};

use crate::members::{object_in, required, text_in, text_of};
use crate::names::{account_of, optional_public_name, origin_in, path_in, word_in};
use crate::request::ApiFault;
use crate::values::{amount_in, asset_in, code_in, pieces_in, rate_number_in, scale_in};
use op_amount::{Amount, Asset, Rate};
use op_model::{AccountName, Request, Text};
use std::alloc::Global;

/// The longest transfer id, in bytes.
const TRANSFER_LIMIT: usize = 64;

/// The request to set the origin that a body means.
pub(crate) fn read_set_origin(alloc: Global, body: &[u8]) -> Result<Request, ApiFault>
    ensures meant { IsMeant (with_members set_origin_members body.now) result }
    ensures forms { IfErr result IsBodyFault }
{
    let object = object_in(alloc, body)?;
    let origin = required(alloc, origin_in(alloc, &object)?, "origin")?;
    Ok(Request::SetOrigin { origin })
}

/// The request to add an asset that a body means.
pub(crate) fn read_add_asset(alloc: Global, body: &[u8]) -> Result<Request, ApiFault>
    ensures meant { IsMeant (with_members add_asset_members body.now) result }
    ensures forms { IfErr result IsBodyFault }
{
    let object = object_in(alloc, body)?;
    let code = required(alloc, code_in(&object), "assetCode")?;
    let scale = required(alloc, scale_in(&object), "assetScale")?;
    let pieces = required(alloc, pieces_in(&object), "pieces")?;
    Ok(Request::AddAsset {
        asset: Asset { code, scale },
        pieces,
    })
}

/// The request to add an address that a body means.
pub(crate) fn read_add_address(alloc: Global, body: &[u8]) -> Result<Request, ApiFault>
    ensures meant { IsMeant (with_members add_address_members body.now) result }
    ensures forms { IfErr result IsBodyFault }
{
    let object = object_in(alloc, body)?;
    let path = required(alloc, path_in(alloc, &object)?, "path")?;
    let code = required(alloc, code_in(&object), "assetCode")?;
    let scale = required(alloc, scale_in(&object), "assetScale")?;
    let name = required(alloc, optional_public_name(alloc, &object)?, "publicName")?;
    Ok(Request::AddAddress {
        path,
        asset: Asset { code, scale },
        name,
    })
}

/// What a deposit or a withdrawal moves.
#[derive(Drop)]
struct Transfer {
    transfer: Text,
    account: AccountName,
    amount: Amount,
}

/// The transfer that a body means.
fn read_transfer(alloc: Global, body: &[u8]) -> Result<Transfer, ApiFault>
    ensures meant { IsTransfer body.now result }
    ensures forms { IfErr result IsBodyFault }
{
    let object = object_in(alloc, body)?;
    let transfer = required(
        alloc,
        word_in(&object, "transferId", TRANSFER_LIMIT),
        "transferId",
    )?;
    let account = required(alloc, text_in(&object, "account"), "account")?;
    let amount = required(alloc, amount_in(&object, "amount"), "amount")?;
    Ok(Transfer {
        transfer: text_of(alloc, transfer.as_bytes())?,
        account: account_of(alloc, account)?,
        amount,
    })
}

/// The request to deposit that a body means.
pub(crate) fn read_deposit(alloc: Global, body: &[u8]) -> Result<Request, ApiFault>
    ensures meant { IsMeant (with_members (transfer_members Request.Deposit) body.now) result }
    ensures forms { IfErr result IsBodyFault }
{
    match read_transfer(alloc, body) {
        Ok(
            Transfer {
                transfer,
                account,
                amount,
            },
        ) => Ok(Request::Deposit {
            transfer,
            account,
            amount,
        }),
        Err(fault) => Err(fault),
    }
}

/// The request to withdraw that a body means.
pub(crate) fn read_withdraw(alloc: Global, body: &[u8]) -> Result<Request, ApiFault>
    ensures meant { IsMeant (with_members (transfer_members Request.Withdraw) body.now) result }
    ensures forms { IfErr result IsBodyFault }
{
    match read_transfer(alloc, body) {
        Ok(
            Transfer {
                transfer,
                account,
                amount,
            },
        ) => Ok(Request::Withdraw {
            transfer,
            account,
            amount,
        }),
        Err(fault) => Err(fault),
    }
}

/// The request to set a rate that a body means.
pub(crate) fn read_set_rate(alloc: Global, body: &[u8]) -> Result<Request, ApiFault>
    ensures meant { IsMeant (with_members set_rate_members body.now) result }
    ensures forms { IfErr result IsBodyFault }
{
    let object = object_in(alloc, body)?;
    let source = required(alloc, asset_in(&object, "from"), "from")?;
    let target = required(alloc, asset_in(&object, "to"), "to")?;
    let num = required(alloc, rate_number_in(&object, "num"), "num")?;
    let den = required(alloc, rate_number_in(&object, "den"), "den")?;
    Ok(Request::SetRate {
        source,
        target,
        rate: Rate { num, den },
    })
}
