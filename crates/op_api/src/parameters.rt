//! The parameters of paths and of queries (RFC 3986, sections 3.3 and 3.4). A query is read as a form is (URL Standard,
//! section 5.1), by its bytes.
ghost use Rattle.std.specs.Prelude.{◌≡◌, ◌≤◌, IfOk, IfErr, codes, length, map, option_and_then, option_map};
ghost use Rattle.std.specs.List.{position_or_len};
ghost use Rattle.std.specs.String.{string_bytes};
ghost use Rattle.form_urlencoded.specs.Form.{decode, plus_to_space};
ghost use Rattle.op_model.specs.Parameters.{asset_named, digits_within, if_page, list_parameters, number_named, optional_parameter, parameter, query_of, read_feed_parameters, text_parameter};
ghost use Rattle.op_model.specs.RouteTable.{is_question};
ghost use Rattle.op_names.specs.declared.Kind.TheVariants.{Incoming, Outgoing};
ghost use Rattle.op_api.specs.Body.{IsBodyFault, IsMeant};
ghost use Rattle.op_api.specs.Readers.{IsList};

use crate::members::{Read, required};
use crate::names::address_of;
use crate::request::ApiFault;
use form_urlencoded::raw_pairs;
use op_amount::{Asset, AssetCode, read_value};
use op_model::{PageText, Request};
use op_names::{AddressName, Kind, read_id};
use percent_encoding::percent_decode;
use std::alloc::{AllocError, Global};
use std::str;

/// The largest scale of an asset.
const SCALE_LIMIT: u64 = 18;

/// How many rows a page of a list has where that is not said.
const FIRST_DEFAULT: u8 = 20;

/// The most rows that a page of a list may have.
const FIRST_LIMIT: u64 = 100;

/// The number of the row of a kind that a text names.
pub(crate) fn number_named(kind: Kind, text: &[u8]) -> Option<u64>
    ensures { result ≡ number_named kind text.now }
{
    let Ok(text) = str::from_utf8(text) else {
        return None;
    };
    let id = read_id(text)?;
    if id.kind.number() == kind.number() {
        Some(id.number)
    } else {
        None
    }
}

/// A number without a leading zero, within bounds.
fn digits_within(low: u64, high: u64, text: &[u8]) -> Option<u64>
    ensures { result ≡ digits_within low high text.now }
{
    let Ok(text) = str::from_utf8(text) else {
        return None;
    };
    let number = read_value(text).ok()?;
    if low <= number && number <= high {
        Some(number)
    } else {
        None
    }
}

/// The asset that a code and a scale name.
pub(crate) fn asset_named(code: &[u8], scale: &[u8]) -> Option<Asset>
    ensures { result ≡ asset_named code.now scale.now }
{
    let scale = digits_within(0, SCALE_LIMIT, scale)? as u8;
    let Ok(code) = str::from_utf8(code) else {
        return None;
    };
    let code = AssetCode::read(code)?;
    Some(Asset { code, scale })
}

/// How many bytes stand before the first `?`.
fn question_at(target: &[u8]) -> usize
    ensures value { result ≡ position_or_len is_question target.now }
    ensures within { result ≤ length target.now }
{
    for (i, b) in target.iter().enumerate() {
        if *b == b'?' {
            return i;
        }
    }
    target.len()
}

/// The query of a target: what stands behind its first `?`.
fn query_of(target: &[u8]) -> &[u8]
    ensures { result.now ≡ query_of target.now }
{
    let question = question_at(target);
    if question < target.len() {
        &target[question + 1..]
    } else {
        b""
    }
}

/// A space for each `+`.
fn spaced(alloc: Global, bytes: &[u8]) -> Result<Vec<u8>, AllocError>
    ensures { IfOk result (λ spaced. spaced.items ≡ map plus_to_space bytes.now) }
{
    let mut spaced = Vec::with_capacity(alloc, bytes.len())?;
    for byte in bytes {
        spaced.push(if *byte == b'+' { b' ' } else { *byte })?;
    }
    Ok(spaced)
}

/// The bytes that a name or a value of a form stands for.
fn decode(alloc: Global, bytes: &[u8]) -> Result<Vec<u8>, AllocError>
    ensures { IfOk result (λ decoded. decoded.items ≡ decode bytes.now) }
{
    let spaced = spaced(alloc, bytes)?;
    let mut decoded = Vec::new(alloc);
    percent_decode(&spaced).append_to(&mut decoded)?;
    Ok(decoded)
}

/// The first parameter of a name.
fn parameter(alloc: Global, target: &[u8], name: &str) -> Read<Vec<u8>>
    ensures { IfOk result (λ read. option_map (λ value. value.items) read ≡ parameter name.now target.now) }
{
    for (key, value) in raw_pairs(query_of(target)) {
        let key = decode(alloc, key)?;
        if key.as_slice() == name.as_bytes() {
            return Ok(Some(decode(alloc, value)?));
        }
    }
    Ok(None)
}

/// The first parameter of a name, where it is a text.
fn text_parameter(alloc: Global, target: &[u8], name: &str) -> Read<String>
    ensures { IfOk result (λ read. option_map (λ text. string_bytes text) read ≡ text_parameter name.now target.now) }
{
    match parameter(alloc, target, name)? {
        Some(value) => match String::from_utf8(value) {
            Ok(text) => Ok(Some(text)),
            Err(_) => Ok(None),
        },
        None => Ok(None),
    }
}

/// The optional parameter `first`.
fn first_in(alloc: Global, target: &[u8]) -> Read<Option<u8>>
    ensures { IfOk result (λ first. first ≡ optional_parameter (digits_within 1 100) (codes "first") target.now) }
{
    match parameter(alloc, target, "first")? {
        Some(value) => match digits_within(1, FIRST_LIMIT, &value) {
            Some(first) => Ok(Some(Some(first as u8))),
            None => Ok(None),
        },
        None => Ok(Some(None)),
    }
}

/// The optional parameter `cursor`, which names a row of the list's kind.
fn cursor_in(alloc: Global, target: &[u8], kind: Kind) -> Read<Option<u64>>
    ensures { IfOk result (λ cursor. cursor ≡ optional_parameter (number_named kind) (codes "cursor") target.now) }
{
    match parameter(alloc, target, "cursor")? {
        Some(value) => match number_named(kind, &value) {
            Some(number) => Ok(Some(Some(number))),
            None => Ok(None),
        },
        None => Ok(Some(None)),
    }
}

/// The page of a list that is asked for.
#[derive(Drop)]
struct ListAsked {
    address: Option<AddressName>,
    first: u8,
    cursor: Option<u64>,
}

/// The page of a list that a target means.
fn read_list(alloc: Global, target: &[u8], kind: Kind) -> Result<ListAsked, ApiFault>
    ensures meant { IsList kind target.now result }
    ensures forms { IfErr result IsBodyFault }
{
    let address = text_parameter(alloc, target, "wallet-address")?;
    let address = required(alloc, address, "wallet-address")?;
    let first = required(alloc, first_in(alloc, target)?, "first")?;
    let cursor = required(alloc, cursor_in(alloc, target, kind)?, "cursor")?;
    Ok(ListAsked {
        address: address_of(alloc, address.as_str())?,
        first: first.unwrap_or(FIRST_DEFAULT),
        cursor,
    })
}

/// The request to list incoming payments that a target means.
pub(crate) fn read_list_incomings(alloc: Global, target: &[u8]) -> Result<Request, ApiFault>
    ensures meant { IsMeant (list_parameters Incoming Request.ListIncomings target.now) result }
    ensures forms { IfErr result IsBodyFault }
{
    match read_list(alloc, target, Kind::Incoming) {
        Ok(
            ListAsked {
                address,
                first,
                cursor,
            },
        ) => Ok(Request::ListIncomings {
            address,
            first,
            cursor,
        }),
        Err(fault) => Err(fault),
    }
}

/// The request to list outgoing payments that a target means.
pub(crate) fn read_list_outgoings(alloc: Global, target: &[u8]) -> Result<Request, ApiFault>
    ensures meant { IsMeant (list_parameters Outgoing Request.ListOutgoings target.now) result }
    ensures forms { IfErr result IsBodyFault }
{
    match read_list(alloc, target, Kind::Outgoing) {
        Ok(
            ListAsked {
                address,
                first,
                cursor,
            },
        ) => Ok(Request::ListOutgoings {
            address,
            first,
            cursor,
        }),
        Err(fault) => Err(fault),
    }
}

/// The page of a feed that a target names.
fn page_in(alloc: Global, target: &[u8]) -> Read<PageText>
    ensures { IfOk result (λ page. page ≡ option_and_then if_page (text_parameter (codes "page") target.now)) }
{
    match text_parameter(alloc, target, "page")? {
        Some(text) => Ok(PageText::from_bytes(text.as_str().as_bytes())),
        None => Ok(None),
    }
}

/// The request to read a feed that a target means.
pub(crate) fn read_feed(alloc: Global, target: &[u8]) -> Result<Request, ApiFault>
    ensures meant { IsMeant (read_feed_parameters target.now) result }
    ensures forms { IfErr result IsBodyFault }
{
    let address = text_parameter(alloc, target, "wallet-address")?;
    let address = required(alloc, address, "wallet-address")?;
    let page = required(alloc, page_in(alloc, target)?, "page")?;
    Ok(Request::ReadFeed {
        address: address_of(alloc, address.as_str())?,
        page,
    })
}
