//! Values in bodies: numbers, assets, amounts, rates, moments and metadata.
ghost use Rattle.std.specs.Prelude.{◌≡◌, ◌≤◌, IfOk, codes, option_and_then, option_map};
ghost use Rattle.std.specs.Str.{bytes_eq};
ghost use Rattle.serde_json.specs.Data.{depth};
ghost use Rattle.serde_json.specs.Read.{max_depth};
ghost use Rattle.serde_json.specs.View.{view};
ghost use Rattle.op_model.specs.Json.{number_of, text_in};
ghost use Rattle.op_model.specs.Members.{amount_of, asset_of, code_in, member_of, metadata_of, moment_text_of, optional_of, pieces_in, rate_number, scale_in, text_if};

use crate::members::{Read, optional_in, text_in};
use op_amount::{Amount, Asset, AssetCode, RATE_TOP, read_value};
use op_model::{MetaFault, MetaText};
use op_time::{Moment, read_moment};
use serde_json::Value;
use std::alloc::{AllocError, Global};

/// The largest scale of an asset.
const SCALE_LIMIT: u64 = 18;

/// The member `assetCode`.
pub(crate) fn code_in(object: &Value) -> Option<AssetCode>
    ensures { result ≡ code_in (view object.now) }
{
    AssetCode::read(text_in(object, "assetCode")?)
}

/// The member `assetScale`.
pub(crate) fn scale_in(object: &Value) -> Option<u8>
    ensures { result ≡ scale_in (view object.now) }
{
    let scale = object.get("assetScale")?.as_u64()?;
    if scale <= SCALE_LIMIT {
        Some(scale as u8)
    } else {
        None
    }
}

/// The asset of an object.
pub(crate) fn asset_of(object: &Value) -> Option<Asset>
    ensures { result ≡ asset_of (view object.now) }
{
    Some(Asset {
        code: code_in(object)?,
        scale: scale_in(object)?,
    })
}

/// A member that is an asset.
pub(crate) fn asset_in(object: &Value, name: &str) -> Option<Asset>
    ensures { result ≡ member_of asset_of name.now (view object.now) }
{
    asset_of(object.get(name)?)
}

/// The amount of an object.
fn amount_of(object: &Value) -> Option<Amount>
    ensures { result ≡ amount_of (view object.now) }
{
    let asset = asset_of(object)?;
    let value = read_value(text_in(object, "value")?).ok()?;
    Some(Amount { value, asset })
}

/// A member that is an amount.
pub(crate) fn amount_in(object: &Value, name: &str) -> Option<Amount>
    ensures { result ≡ member_of amount_of name.now (view object.now) }
{
    amount_of(object.get(name)?)
}

/// An optional member that is an amount.
pub(crate) fn optional_amount(object: &Value, name: &str) -> Option<Option<Amount>>
    ensures { result ≡ optional_of amount_of name.now (view object.now) }
{
    match optional_in(object, name) {
        Some(value) => Some(Some(amount_of(value)?)),
        None => Some(None),
    }
}

/// A number of pieces.
fn pieces_of(value: &Value) -> Option<u8>
    ensures { result ≡ number_of 1 64 (view value.now) }
{
    let pieces = value.as_u64()?;
    if pieces >= 1 && pieces <= 64 {
        Some(pieces as u8)
    } else {
        None
    }
}

/// The member `pieces`, 1 where it is absent.
pub(crate) fn pieces_in(object: &Value) -> Option<u8>
    ensures { result ≡ pieces_in (view object.now) }
{
    match optional_in(object, "pieces") {
        Some(value) => pieces_of(value),
        None => Some(1),
    }
}

/// A number of a rate, by its digits.
fn rate_number(text: &str) -> Option<u64>
    ensures { result ≡ rate_number text.now }
{
    let number = read_value(text).ok()?;
    if number >= 1 && number <= RATE_TOP {
        Some(number)
    } else {
        None
    }
}

/// A member that is a number of a rate.
pub(crate) fn rate_number_in(object: &Value, name: &str) -> Option<u64>
    ensures { result ≡ option_and_then rate_number (text_in name.now (view object.now)) }
{
    rate_number(text_in(object, name)?)
}

/// A moment, by its text.
fn moment_of(value: &Value) -> Option<Moment>
    ensures { result ≡ moment_text_of (view value.now) }
{
    read_moment(value.as_str()?).ok()
}

/// An optional member that is a moment.
pub(crate) fn optional_moment(object: &Value, name: &str) -> Option<Option<Moment>>
    ensures { result ≡ optional_of moment_text_of name.now (view object.now) }
{
    match optional_in(object, name) {
        Some(value) => Some(Some(moment_of(value)?)),
        None => Some(None),
    }
}

/// Metadata, by its printed form.
fn metadata_of(alloc: Global, value: &Value) -> Read<MetaText>
    requires { depth (view value.now) ≤ max_depth }
    ensures { IfOk result (λ metadata. metadata ≡ metadata_of (view value.now)) }
{
    let printed = value.to_vec(alloc)?;
    match MetaText::read(alloc, &printed) {
        Ok(metadata) => Ok(Some(metadata)),
        Err(MetaFault::Shape) => Ok(None),
        Err(MetaFault::Memory) => Err(AllocError),
    }
}

/// The optional member `metadata`.
pub(crate) fn optional_metadata(alloc: Global, object: &Value) -> Read<Option<MetaText>>
    requires { depth (view object.now) ≤ max_depth }
    ensures { IfOk result (λ metadata. metadata ≡ optional_of metadata_of (codes "metadata") (view object.now)) }
{
    match optional_in(object, "metadata") {
        Some(value) => match metadata_of(alloc, value)? {
            Some(metadata) => Ok(Some(Some(metadata))),
            None => Ok(None),
        },
        None => Ok(Some(None)),
    }
}

/// The member `method`, which is `ilp`.
pub(crate) fn method_in<'a>(object: &'a Value) -> Option<&'a str>
    ensures { option_map (λ text. text.now) result ≡ text_if (bytes_eq (codes "ilp")) (codes "method") (view object.now) }
{
    let method = text_in(object, "method")?;
    if method == "ilp" { Some(method) } else { None }
}
