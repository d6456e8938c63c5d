//! Metadata of payments: JSON objects in their printed form (RFC 8259), and the page that they name.
ghost use Rattle.std.specs.Prelude.{◌≡◌, ◌⊎◌, IsTrue, IfOk, IfErr, Some, None, false, if◌then◌else◌};
ghost use Rattle.op_model.specs.Metadata.{is_metadata, is_page, page_of, page_in as page_named, printed_object};
ghost use Rattle.serde_json.specs.View.{view, items_view, members_view};
ghost use Rattle.serde_json.specs.Written.{has_float as has_float_of, items_have_float as items_have, members_have_float as members_have};

use serde_json::{Map, Value};
use std::alloc::{AllocError, Global};
use std::marker::Model;
use thiserror::Error;

/// The longest metadata, in bytes of its printed form.
const METADATA_LIMIT: usize = 1024;

/// The longest name of a page, in bytes.
const PAGE_LIMIT: usize = 64;

/// The name of a page, of 1 to 64 bytes, kept in place. Contracts see it as the list of its bytes.
#[derive(Clone, Copy)]
pub struct PageText {
    kept: [u8; 64],
    len: usize,
}

impl Model for PageText {
    ghost use Rattle.std.specs.Prelude.{◌≡◌, ◌-◌, ◌≤◌, ℕ, List, ◌++◌, length, take, replicate, IsTrue};
    ghost use Rattle.op_model.specs.Metadata.{is_page};

    ghost Value = { List ℕ };

    ghost view = { λ a. take a.len a.kept };

    ghost invariant = { λ a. (length a.kept ≡ 64) × (a.len ≤ 64) × (a.kept ≡ take a.len a.kept ++ replicate (64 - a.len) 0) × IsTrue (is_page (take a.len a.kept)) };

    ghost inverse = { λ xs. record { kept = xs ++ replicate (64 - length xs) 0; len = length xs } };
}

impl PageText {
    /// The name of these bytes. `None` exactly where there is no byte or more than 64.
    pub fn from_bytes(name: &[u8]) -> Option<PageText>
        ensures { result ≡ (if is_page name.now then Some name.now else None) }
    {
        if name.is_empty() || name.len() > PAGE_LIMIT {
            return None;
        }
        let mut kept = [0u8; 64];
        kept[..name.len()].copy_from_slice(name);
        Some(PageText {
            kept,
            len: name.len(),
        })
    }

    /// Its bytes.
    pub fn as_bytes(&self) -> &[u8]
        ensures value { result.now ≡ self.now }
        ensures form { IsTrue (is_page self.now) }
    {
        &self.kept[..self.len]
    }
}

/// Why bytes are no metadata.
#[derive(Clone, Copy, Debug, Drop, PartialEq, Eq, Error)]
pub enum MetaFault {
    /// They are not the printed form of metadata.
    #[error("the bytes are not the printed form of metadata")]
    Shape,
    /// Want of memory.
    #[error("memory was wanting")]
    Memory,
}

/// Metadata in its printed form, with its page beside it. Contracts see it as the list of its bytes.
#[derive(Drop)]
pub struct MetaText {
    kept: Vec<u8>,
    page: Option<PageText>,
}

impl Model for MetaText {
    ghost use Rattle.std.specs.Prelude.{◌≡◌, List, ℕ, IsTrue};
    ghost use Rattle.op_model.specs.Metadata.{is_metadata, page_of};

    ghost Value = { List ℕ };

    ghost view = { λ a. a.kept.items };

    ghost invariant = { λ a. IsTrue (is_metadata a.kept.items) × (a.page ≡ page_of a.kept.items) };
}

impl MetaText {
    /// Reads metadata: at most 1024 bytes that are the printed form of a JSON object, whose numbers are whole ones of
    /// 64 bits. `Shape` exactly where they are not.
    pub fn read(alloc: Global, bytes: &[u8]) -> Result<MetaText, MetaFault>
        ensures ok { IfOk result (λ text. (text ≡ bytes.now) × IsTrue (is_metadata bytes.now)) }
        ensures err { IfErr result (λ f. (f ≡ MetaFault.Memory) ⊎ ((f ≡ MetaFault.Shape) × (is_metadata bytes.now ≡ false))) }
    {
        if bytes.len() > METADATA_LIMIT {
            return Err(MetaFault::Shape);
        }
        let value = read_object(alloc, bytes)?;
        let page = page_in(&value);
        match Vec::from_slice(alloc, bytes) {
            Ok(kept) => Ok(MetaText { kept, page }),
            Err(_) => Err(MetaFault::Memory),
        }
    }

    /// Its bytes.
    pub fn bytes(&self) -> &[u8]
        ensures value { result.now ≡ self.now }
        ensures form { IsTrue (is_metadata self.now) }
    {
        &self.kept
    }

    /// The page that it names: a member `page` whose value is a text of 1 to 64 bytes.
    pub fn page(&self) -> Option<PageText>
        ensures { result ≡ page_of self.now }
    {
        self.page
    }

    /// An equal value.
    pub fn clone(&self, alloc: Global) -> Result<MetaText, AllocError>
        ensures { IfOk result (λ text. text ≡ self.now) }
    {
        Ok(MetaText {
            kept: Vec::from_slice(alloc, &self.kept)?,
            page: self.page,
        })
    }
}

fn page_in(value: &Value) -> Option<PageText>
    ensures { result ≡ page_named (view value.now) }
{
    let name = value.get("page").and_then(Value::as_str)?;
    PageText::from_bytes(name.as_bytes())
}

// The object that these bytes print.
fn read_object(alloc: Global, bytes: &[u8]) -> Result<Value, MetaFault>
    ensures ok { IfOk result (λ v. printed_object bytes.now ≡ Some (view v)) }
    ensures err { IfErr result (λ f. (f ≡ MetaFault.Memory) ⊎ ((f ≡ MetaFault.Shape) × (printed_object bytes.now ≡ None))) }
{
    let value = match Value::from_slice(alloc, bytes) {
        Ok(value) => value,
        Err(error) => {
            return Err(if error.is_memory() {
                MetaFault::Memory
            } else {
                MetaFault::Shape
            });
        }
    };
    if !value.is_object() || has_float(&value) {
        return Err(MetaFault::Shape);
    }
    let Ok(printed) = value.to_vec(alloc) else {
        return Err(MetaFault::Memory);
    };
    if printed.as_slice() == bytes {
        Ok(value)
    } else {
        Err(MetaFault::Shape)
    }
}

// Whether a number in it is no whole one of 64 bits.
#[cycle(floats)]
fn has_float(value: &Value) -> bool
    ensures { result ≡ has_float_of (view value.now) }
{
    match value {
        Value::Number(number) => number.is_f64(),
        Value::Array(items) => items_have_float(items),
        Value::Object(members) => members_have_float(members),
        _ => false,
    }
}

#[cycle(floats)]
fn items_have_float(items: &Vec<Value>) -> bool
    ensures { result ≡ items_have (items_view items.now.items) }
{
    for item in items {
        if has_float(item) {
            return true;
        }
    }
    false
}

#[cycle(floats)]
fn members_have_float(members: &Map<String, Value>) -> bool
    ensures { result ≡ members_have (members_view members.now.entries) }
{
    for (_key, member) in members.iter() {
        if has_float(member) {
            return true;
        }
    }
    false
}
