//! What replies tell of rows.

ghost use Rattle.std.specs.Prelude.{◌≡◌, List, IfOk, Some, option_map, true};
ghost use Rattle.op_model.specs.History.{nth, addresses, asset_of_address};
ghost use Rattle.op_model.specs.Payments.{incoming_row, quote_row, outgoing_row};
ghost use Rattle.op_model.specs.Shown.{path_of_address, incoming_shown, quote_shown, outgoing_shown};
ghost use Rattle.op_model.specs.Grants.{is_failed};
ghost use Rattle.op_model.specs.declared.act.Entry.{Entry};
ghost use Rattle.op_naming.specs.Names.{AreNames};
ghost use Rattle.op_paying.specs.Money.{IsMoneyOf};
ghost use Rattle.op_plans.specs.Plans.{AreBased};
ghost use Rattle.op_token_plans.specs.Shown.{row_beside};

use op_amount::{Amount, Asset};
use op_model::{IncomingShown, MetaText, OutgoingShown, PaymentState, QuoteShown};
use op_names::AddressPath;
use op_naming::Names;
use op_paying::Money;
use std::alloc::{AllocError, Global};

/// The asset of an address, where that is there.
pub(crate) fn asset_of(names: &Names, address: u32) -> Option<Asset>
    ensures { (history : List Entry) → AreNames history names.now → AreBased history
        → result ≡ option_map (λ row. asset_of_address history address) (nth (addresses history) address) }
{
    let Some(row) = names.address(address) else {
        return None;
    };
    match names.asset(row.asset) {
        Some(kept) => Some(kept.asset),
        None => None,
    }
}

/// The path of an address, where that is there.
pub(crate) fn path_of(
    alloc: Global,
    names: &Names,
    address: u32,
) -> Result<Option<AddressPath>, AllocError>
    ensures { IfOk result (λ path. (history : List Entry) → AreNames history names.now
        → path ≡ option_map (λ row. path_of_address history address) (nth (addresses history) address)) }
{
    match names.address(address) {
        Some(row) => Ok(Some(row.path.clone(alloc)?)),
        None => Ok(None),
    }
}

/// Equal metadata.
pub(crate) fn copy_metadata(
    metadata: &Option<MetaText>,
    alloc: Global,
) -> Result<Option<MetaText>, AllocError>
    ensures { IfOk result (λ copy. copy ≡ metadata.now) }
{
    match metadata {
        Some(text) => Ok(Some(text.clone(alloc)?)),
        None => Ok(None),
    }
}

/// An amount of an asset, where there is a value.
pub(crate) fn amount_in(asset: Asset, value: Option<u64>) -> Option<Amount>
    ensures { result ≡ option_map (λ v. record { value = v; asset = asset }) value }
{
    match value {
        Some(value) => Some(Amount { value, asset }),
        None => None,
    }
}

fn is_failed(state: PaymentState) -> bool
    ensures { result ≡ is_failed state }
{
    match state {
        PaymentState::Failed => true,
        _ => false,
    }
}

/// What is told of an incoming payment, where it is there.
pub(crate) fn shown_incoming(
    alloc: Global,
    names: &Names,
    money: &Money,
    incoming: Option<u64>,
) -> Result<Option<IncomingShown>, AllocError>
    ensures { IfOk result (λ shown. (history : List Entry) → AreNames history names.now → IsMoneyOf history money.now
        → shown ≡ option_map (incoming_shown history) (row_beside (incoming_row history) incoming)) }
{
    let Some(number) = incoming else {
        return Ok(None);
    };
    let Some(row) = money.incoming(number) else {
        return Ok(None);
    };
    let Some(asset) = asset_of(names, row.address) else {
        return Ok(None);
    };
    let Some(path) = path_of(alloc, names, row.address)? else {
        return Ok(None);
    };
    Ok(Some(IncomingShown {
        number,
        path,
        amount: amount_in(asset, row.amount),
        received: Amount {
            value: money.received(number),
            asset,
        },
        completed: money.is_completed(number),
        made: row.made,
        expiry: row.expiry,
        metadata: copy_metadata(&row.metadata, alloc)?,
    }))
}

/// What is told of a quote, where it is there.
pub(crate) fn shown_quote(
    alloc: Global,
    names: &Names,
    money: &Money,
    quote: Option<u64>,
) -> Result<Option<QuoteShown>, AllocError>
    ensures { IfOk result (λ shown. (history : List Entry) → AreNames history names.now → IsMoneyOf history money.now
        → shown ≡ option_map (quote_shown history) (row_beside (quote_row history) quote)) }
{
    let Some(number) = quote else {
        return Ok(None);
    };
    let Some(row) = money.quote(number) else {
        return Ok(None);
    };
    let terms = row.terms;
    let Some(source) = asset_of(names, terms.payer) else {
        return Ok(None);
    };
    let Some(target) = asset_of(names, terms.payee) else {
        return Ok(None);
    };
    let Some(path) = path_of(alloc, names, terms.payer)? else {
        return Ok(None);
    };
    Ok(Some(QuoteShown {
        number,
        path,
        incoming: terms.incoming,
        debit: Amount {
            value: terms.debit,
            asset: source,
        },
        receive: Amount {
            value: terms.receive,
            asset: target,
        },
        made: row.made,
        expiry: row.expiry,
    }))
}

/// What is told of an outgoing payment, where it is there.
pub(crate) fn shown_outgoing(
    alloc: Global,
    names: &Names,
    money: &Money,
    outgoing: Option<u64>,
) -> Result<Option<OutgoingShown>, AllocError>
    ensures { IfOk result (λ shown. (history : List Entry) → AreNames history names.now → IsMoneyOf history money.now
        → shown ≡ option_map (outgoing_shown history) (row_beside (outgoing_row history) outgoing)) }
{
    let Some(number) = outgoing else {
        return Ok(None);
    };
    let Some(row) = money.outgoing(number) else {
        return Ok(None);
    };
    let terms = row.terms;
    let Some(source) = asset_of(names, terms.payer) else {
        return Ok(None);
    };
    let Some(target) = asset_of(names, terms.payee) else {
        return Ok(None);
    };
    let Some(path) = path_of(alloc, names, terms.payer)? else {
        return Ok(None);
    };
    Ok(Some(OutgoingShown {
        number,
        path,
        quote: row.quote,
        incoming: terms.incoming,
        debit: Amount {
            value: terms.debit,
            asset: source,
        },
        receive: Amount {
            value: terms.receive,
            asset: target,
        },
        sent: Amount {
            value: row.sent,
            asset: source,
        },
        failed: is_failed(row.state),
        made: row.made,
        metadata: copy_metadata(&row.metadata, alloc)?,
    }))
}
