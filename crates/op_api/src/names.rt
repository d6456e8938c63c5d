//! Names in bodies and parameters: origins, paths, addresses, rows, accounts and words.
ghost use Rattle.std.specs.Prelude.{◌≡◌, IfOk, codes, option_map};
ghost use Rattle.serde_json.specs.View.{view};
ghost use Rattle.op_names.specs.Forms.{is_origin, is_path, is_word};
ghost use Rattle.op_names.specs.Names.{address_in, row_in};
ghost use Rattle.op_model.specs.Members.{account_of, optional_of, text_if};
ghost use Rattle.op_api.specs.Readers.{IsShaped, public_name_of};

use crate::members::{Read, optional_in, text_in, text_of};
use op_model::{AccountName, Text};
use op_names::{
    AddressName, AddressPath, Kind, NameFault, Origin, RowName, is_word, read_address, read_origin,
    read_path, read_row,
};
use serde_json::Value;
use std::alloc::{AllocError, Global};

/// The longest public name of an address, in bytes.
const PUBLIC_NAME_LIMIT: usize = 128;

/// What was read of a text: `None` where the text does not have the form.
pub(crate) fn if_shaped<T>(read: Result<T, NameFault>) -> Read<T>
    ensures { IsShaped read result }
{
    match read {
        Ok(value) => Ok(Some(value)),
        Err(NameFault::Shape) => Ok(None),
        Err(NameFault::Memory) => Err(AllocError),
    }
}

/// The member `origin`.
pub(crate) fn origin_in(alloc: Global, object: &Value) -> Read<Origin>
    ensures { IfOk result (λ origin. origin ≡ text_if is_origin (codes "origin") (view object.now)) }
{
    match text_in(object, "origin") {
        Some(text) => if_shaped(read_origin(alloc, text)),
        None => Ok(None),
    }
}

/// The member `path`.
pub(crate) fn path_in(alloc: Global, object: &Value) -> Read<AddressPath>
    ensures { IfOk result (λ path. path ≡ text_if is_path (codes "path") (view object.now)) }
{
    match text_in(object, "path") {
        Some(text) => if_shaped(read_path(alloc, text)),
        None => Ok(None),
    }
}

/// The address that a text names, where it names one.
pub(crate) fn address_of(alloc: Global, text: &str) -> Read<AddressName>
    ensures { IfOk result (λ address. address ≡ address_in text.now) }
{
    if_shaped(read_address(alloc, text))
}

/// The row of a kind that a text names, where it names one.
pub(crate) fn row_of(alloc: Global, text: &str, kind: Kind) -> Read<RowName>
    ensures { IfOk result (λ row. row ≡ row_in kind text.now) }
{
    if_shaped(read_row(alloc, text, kind))
}

/// The account that a text names.
pub(crate) fn account_of(alloc: Global, text: &str) -> Result<AccountName, AllocError>
    ensures { IfOk result (λ account. account ≡ account_of text.now) }
{
    match text {
        "pool" => Ok(AccountName::Pool),
        "fees" => Ok(AccountName::Fees),
        _ => Ok(AccountName::Address(address_of(alloc, text)?)),
    }
}

/// A member that is a word of at most so many bytes.
pub(crate) fn word_in<'a>(object: &'a Value, name: &str, limit: usize) -> Option<&'a str>
    ensures { option_map (λ word. word.now) result ≡ text_if (is_word limit) name.now (view object.now) }
{
    let text = text_in(object, name)?;
    if is_word(limit, text.as_bytes()) {
        Some(text)
    } else {
        None
    }
}

/// The public name of an address, where it is a text within the limit.
fn public_name_of(alloc: Global, value: &Value) -> Read<Text>
    ensures { IfOk result (λ name. name ≡ public_name_of (view value.now)) }
{
    match value.as_str() {
        Some(text) => {
            if text.len() <= PUBLIC_NAME_LIMIT {
                Ok(Some(text_of(alloc, text.as_bytes())?))
            } else {
                Ok(None)
            }
        }
        None => Ok(None),
    }
}

/// The optional member `publicName`.
pub(crate) fn optional_public_name(alloc: Global, object: &Value) -> Read<Option<Text>>
    ensures { IfOk result (λ name. name ≡ optional_of public_name_of (codes "publicName") (view object.now)) }
{
    match optional_in(object, "publicName") {
        Some(value) => match public_name_of(alloc, value)? {
            Some(name) => Ok(Some(Some(name))),
            None => Ok(None),
        },
        None => Ok(Some(None)),
    }
}
