//! Readers of the names of addresses and rows.

ghost use Rattle.std.specs.Prelude.{◌≡◌, ◌≤◌, ◌+◌, length, take, drop, Some, None, codes};
ghost use Rattle.std.specs.List.{position_or_len};
ghost use Rattle.std.specs.Option.{option_copied};
ghost use Rattle.op_names.specs.Forms.{is_slash};
ghost use Rattle.op_names.specs.Names.{address_at, portless_at, address_in, address_in_pointer, pointer_path, row_in, row_id, row_folder};
ghost use Rattle.op_names.specs.Readers.{Reads};

use crate::forms::{scheme_length, slash_at};
use crate::ids::id_of;
use crate::readers::{names_no_port, path_of};
use crate::{AddressName, Id, Kind, NameFault, RowName, read_origin};
use std::alloc::Global;

/// A text cut before the first slash behind a place.
fn cut(text: &str, start: usize) -> (&str, &[u8])
    requires { start ≤ length text.now }
    ensures origin { result.0.now ≡ take (start + position_or_len is_slash (drop start text.now)) text.now }
    ensures path { result.1.now ≡ drop (start + position_or_len is_slash (drop start text.now)) text.now }
{
    let end = start + slash_at(&text.as_bytes()[start..]);
    (&text[..end], &text.as_bytes()[end..])
}

fn address_at(alloc: Global, origin: &str, path: &[u8]) -> Result<AddressName, NameFault>
    ensures { Reads (address_at origin.now path.now) result }
{
    let path = path_of(alloc, path)?;
    Ok(AddressName {
        origin: read_origin(alloc, origin)?,
        path,
    })
}

/// The path that a pointer's path stands for.
fn pointer_path(path: &[u8]) -> &[u8]
    ensures { result.now ≡ pointer_path path.now }
{
    if path.is_empty() || path == b"/".as_slice() {
        b"/.well-known/pay"
    } else {
        path
    }
}

/// The address at an origin that names no port.
fn portless_at(alloc: Global, origin: &str, path: &[u8]) -> Result<AddressName, NameFault>
    ensures { Reads (portless_at origin.now path.now) result }
{
    let name = address_at(alloc, origin, path)?;
    if names_no_port(alloc, origin)? {
        Ok(name)
    } else {
        Err(NameFault::Shape)
    }
}

/// The address of a payment pointer, behind its `$`.
fn read_pointer(alloc: Global, pointer: &str) -> Result<AddressName, NameFault>
    ensures { Reads (address_in_pointer pointer.now) result }
{
    let (host, path) = cut(pointer, 0);
    let origin = format!(in alloc; "https://{host}")?;
    portless_at(alloc, origin.as_str(), pointer_path(path))
}

/// The address that a text names: an address URL, which is an origin and an address path, or a
/// payment pointer, `$`, a host without a port and an optional path. A pointer's empty path or `/`
/// stands for `/.well-known/pay`.
///
/// # Errors
///
/// `Shape` exactly where the text names no address; `Memory`.
pub fn read_address(alloc: Global, text: &str) -> Result<AddressName, NameFault>
    ensures { Reads (address_in text.now) result }
{
    match text.as_bytes().first() {
        None => Err(NameFault::Shape),
        Some(b'$') => read_pointer(alloc, &text[1..]),
        Some(_) => {
            let (origin, path) = cut(text, scheme_length(text.as_bytes()));
            address_at(alloc, origin, path)
        }
    }
}

/// What stands between the origin and the identifier of a row.
fn row_folder(kind: Kind) -> Option<&'static [u8]>
    ensures { option_copied result ≡ row_folder kind }
{
    match kind {
        Kind::Incoming => Some(b"/incoming-payments/"),
        Kind::Quote => Some(b"/quotes/"),
        Kind::Outgoing => Some(b"/outgoing-payments/"),
        Kind::Grant | Kind::Event | Kind::Address => None,
    }
}

fn row_id(kind: Kind, path: &[u8]) -> Option<Id>
    ensures { result ≡ row_id kind path.now }
{
    let folder = row_folder(kind)?;
    if !path.starts_with(folder) {
        return None;
    }
    let id = id_of(&path[folder.len()..])?;
    (id.kind.number() == kind.number()).then_some(id)
}

/// The row of a kind that a text names: an origin, `/incoming-payments/`, `/quotes/` or
/// `/outgoing-payments/`, and the identifier. No other kind has rows with names.
///
/// # Errors
///
/// `Shape` exactly where the text names no row of the kind; `Memory`.
pub fn read_row(alloc: Global, text: &str, kind: Kind) -> Result<RowName, NameFault>
    ensures { Reads (row_in kind text.now) result }
{
    let (origin, path) = cut(text, scheme_length(text.as_bytes()));
    let Some(id) = row_id(kind, path) else {
        return Err(NameFault::Shape);
    };
    Ok(RowName {
        origin: read_origin(alloc, origin)?,
        id,
    })
}
