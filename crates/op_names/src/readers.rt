//! Readers of origins, paths, clients and finish addresses.

ghost use Rattle.std.specs.Prelude.{◌≡◌, ◌<◌, ◌==◌, false, None, Ok, Err, IfOk, [], ◌∷◌, ◌++◌, length};
ghost use Rattle.std.specs.Str.{bytes_eq};
ghost use Rattle.url.specs.Parser.{parse_url};
ghost use Rattle.op_names.specs.Forms.{is_origin, is_path, is_client, is_finish_uri, prints_back, names_no_port, is_bare, origin_length};
ghost use Rattle.op_names.specs.Names.{text_if};
ghost use Rattle.op_names.specs.Readers.{Reads};

use crate::forms::{is_ascii, is_client, is_path, is_web, is_word, scheme_length, slash_at};
use crate::{AddressPath, ClientText, NameFault, Origin};
use std::alloc::{AllocError, Global};
use url::{ParseError, Url};

/// Whether a printed URL is the text and one slash.
fn is_slashed(printed: &[u8], text: &[u8]) -> bool
    ensures { result ≡ bytes_eq printed.now (text.now ++ 47 ∷ []) }
{
    match printed.split_last() {
        Some((last, front)) => *last == b'/' && front == text,
        None => false,
    }
}

/// Whether `url` prints a text back with one slash behind it.
fn prints_back(alloc: Global, text: &str) -> Result<bool, AllocError>
    ensures { IfOk result (λ back. back ≡ prints_back text.now (parse_url None text.now)) }
{
    match Url::parse(alloc, text) {
        Ok(url) => Ok(
            url.username().is_empty()
                && url.password().is_none()
                && is_slashed(url.as_str().as_bytes(), text.as_bytes()),
        ),
        Err(ParseError::OutOfMemory | ParseError::Overflow) => Err(AllocError),
        Err(_) => Ok(false),
    }
}

/// Whether `url` finds no port in a text.
pub(crate) fn names_no_port(alloc: Global, text: &str) -> Result<bool, AllocError>
    ensures { IfOk result (λ absent. absent ≡ names_no_port (parse_url None text.now)) }
{
    match Url::parse(alloc, text) {
        Ok(url) => Ok(url.port().is_none()),
        Err(ParseError::OutOfMemory | ParseError::Overflow) => Err(AllocError),
        Err(_) => Ok(false),
    }
}

/// Whether nothing stands behind a web address's host and port.
fn ends_with_authority(text: &[u8]) -> bool
    ensures { result ≡ (origin_length text.now == length text.now) }
{
    let start = scheme_length(text);
    start + slash_at(&text[start..]) == text.len()
}

/// Whether a text is an origin. Its length is looked at before `url` reads it.
fn is_origin(alloc: Global, text: &str) -> Result<bool, AllocError>
    ensures value { IfOk result (λ is. is ≡ is_origin text.now) }
    ensures limit { 200 < length text.now → result ≡ Ok false }
{
    let bytes = text.as_bytes();
    if !is_word(Origin::LIMIT, bytes) || !is_web(bytes) || !ends_with_authority(bytes) {
        return Ok(false);
    }
    prints_back(alloc, text)
}

/// An origin (RFC 6454): `https://` or `http://`, a host and an optional port, which `url` prints
/// back as the same text and one `/`; at most 200 bytes.
///
/// # Errors
///
/// `Shape` exactly where the text is no origin, and without memory where it is longer than the
/// limit; `Memory`.
pub fn read_origin(alloc: Global, text: &str) -> Result<Origin, NameFault>
    ensures reads { Reads (text_if is_origin text.now) result }
    ensures limit { 200 < length text.now → result ≡ Err NameFault.Shape }
{
    if !is_origin(alloc, text)? {
        return Err(NameFault::Shape);
    }
    Origin::from_bytes(text.as_bytes()).ok_or(NameFault::Shape)
}

/// An address path: one to eight segments, each `/` and 1 to 64 letters, digits, `-`, `_`, `.` or
/// `~`, none of them `.` or `..`, and the first of them not reserved; at most 128 bytes.
///
/// # Errors
///
/// `Shape` exactly where the text is no path; `Memory`, only where it is one.
pub fn read_path(alloc: Global, text: &str) -> Result<AddressPath, NameFault>
    ensures reads { Reads (text_if is_path text.now) result }
    ensures shape { is_path text.now ≡ false → result ≡ Err NameFault.Shape }
{
    path_of(alloc, text.as_bytes())
}

pub(crate) fn path_of(alloc: Global, text: &[u8]) -> Result<AddressPath, NameFault>
    ensures reads { Reads (text_if is_path text.now) result }
    ensures shape { is_path text.now ≡ false → result ≡ Err NameFault.Shape }
{
    if !is_path(text) {
        return Err(NameFault::Shape);
    }
    Ok(AddressPath::new(Vec::from_slice(alloc, text)?))
}

/// A client: 1 to 256 bytes of visible ASCII that begin with `https://` or `http://`.
///
/// # Errors
///
/// `Shape` exactly where the text is no client; `Memory`, only where it is one.
pub fn read_client(alloc: Global, text: &str) -> Result<ClientText, NameFault>
    ensures reads { Reads (text_if is_client text.now) result }
    ensures shape { is_client text.now ≡ false → result ≡ Err NameFault.Shape }
{
    if !is_client(text.as_bytes()) {
        return Err(NameFault::Shape);
    }
    Ok(ClientText::new(Vec::from_slice(alloc, text.as_bytes())?))
}

/// Whether a client may be sent back to a text (RFC 9635, section 2.5.2): at most 512 bytes of ASCII
/// that `url` reads as an http or https URL without a fragment, even an empty one. The text is kept
/// as it was sent.
///
/// # Errors
///
/// There was no memory. None is taken where the text is longer than the limit.
pub fn is_finish_uri(alloc: Global, text: &str) -> Result<bool, AllocError>
    ensures value { IfOk result (λ is. is ≡ is_finish_uri text.now) }
    ensures limit { 512 < length text.now → result ≡ Ok false }
{
    if text.len() > 512 || !is_ascii(text.as_bytes()) {
        return Ok(false);
    }
    is_bare(alloc, text)
}

/// Whether `url` reads a text as a web address without a fragment.
fn is_bare(alloc: Global, text: &str) -> Result<bool, AllocError>
    ensures { IfOk result (λ bare. bare ≡ is_bare (parse_url None text.now)) }
{
    match Url::parse(alloc, text) {
        Ok(url) => Ok(
            (url.scheme() == "https" || url.scheme() == "http") && url.fragment().is_none(),
        ),
        Err(ParseError::OutOfMemory | ParseError::Overflow) => Err(AllocError),
        Err(_) => Ok(false),
    }
}
