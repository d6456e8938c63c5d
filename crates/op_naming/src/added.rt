//! The names that an act adds.

ghost use Rattle.std.specs.Prelude.{◌≡◌, ◌∷◌, ◌++◌, [], ℕ, List, IsTrue, IfOk, OnOk, Some, None, true, if◌then◌else◌};
ghost use Rattle.op_amount.specs.Code.{is_asset_code};
ghost use Rattle.op_model.specs.AdminAnswers.{transfer_act};
ghost use Rattle.op_model.specs.declared.act.Act.TheVariants.{AssetAdded, AddressAdded};
ghost use Rattle.op_model.specs.declared.act.Entry.{Entry};
ghost use Rattle.op_naming.specs.Added.{adds_name, IsCoded, IsAddedBy, HasRoom, IsFresh, AreFew, IsKeyed};
ghost use Rattle.op_naming.specs.Names.{AreNames, AreAlike};

use crate::kept::{AddressKept, TransferKept};
use crate::keys::AssetKey;
use crate::names::Names;
use op_amount::{Asset, AssetCode, Rate};
use op_model::{Account, Act, CodeText, Text};
use op_names::{AddressPath, Origin};
use std::alloc::{AllocError, Global};

/// The name that an act adds, if it adds one, ready to be put where it belongs.
#[derive(Drop)]
pub enum Added {
    Nothing,
    OfOrigin(Origin),
    OfAsset {
        key: Vec<u8>,
        asset: Asset,
        pieces: u8,
    },
    OfAddress {
        key: Vec<u8>,
        row: AddressKept,
    },
    OfTransfer {
        id: Vec<u8>,
        made: TransferKept,
    },
    OfRate {
        source: u32,
        target: u32,
        rate: Rate,
    },
}

/// Whether an act adds a name.
fn adds_name(act: &Act) -> bool
    ensures { result ≡ adds_name act.now }
{
    matches!(
        act,
        Act::OriginSet { .. }
            | Act::AssetAdded { .. }
            | Act::AddressAdded { .. }
            | Act::Deposited { .. }
            | Act::Withdrawn { .. }
            | Act::RateSet { .. }
    )
}

/// The code that bytes are. `None` exactly where they are no code.
fn code_of(bytes: &[u8]) -> Option<AssetCode>
    ensures { result ≡ (if is_asset_code bytes.now then Some bytes.now else None) }
{
    match str::from_utf8(bytes) {
        Ok(text) => AssetCode::read(text),
        Err(_) => None,
    }
}

/// The asset of a code and a scale.
fn asset_of(code: CodeText, scale: u8) -> Asset
    requires { IsTrue (is_asset_code code) }
    ensures { result ≡ record { code = code; scale = scale } }
{
    match code_of(code.as_bytes()) {
        Some(code) => Asset { code, scale },
        None => unreachable!(),
    }
}

/// An equal name.
fn copy_name(name: &Option<Text>, alloc: Global) -> Result<Option<Text>, AllocError>
    ensures { IfOk result (λ copy. copy ≡ name.now) }
{
    match name {
        Some(text) => Ok(Some(text.clone(alloc)?)),
        None => Ok(None),
    }
}

fn asset_added(alloc: Global, code: CodeText, scale: u8, pieces: u8) -> Result<Added, AllocError>
    requires { IsTrue (is_asset_code code) }
    ensures { IfOk result (IsAddedBy (AssetAdded code scale pieces)) }
{
    Ok(Added::OfAsset {
        key: AssetKey::new(scale, code).to_vec(alloc)?,
        asset: asset_of(code, scale),
        pieces,
    })
}

fn address_added(
    alloc: Global,
    path: &AddressPath,
    asset: u32,
    name: &Option<Text>,
) -> Result<Added, AllocError>
    ensures { IfOk result (IsAddedBy (AddressAdded path.now asset name.now)) }
{
    Ok(Added::OfAddress {
        key: Vec::from_slice(alloc, path.bytes())?,
        row: AddressKept {
            path: path.clone(alloc)?,
            asset,
            name: copy_name(name, alloc)?,
        },
    })
}

fn transfer_added(
    alloc: Global,
    deposit: bool,
    id: &Text,
    account: Account,
    value: u64,
) -> Result<Added, AllocError>
    ensures { IfOk result (IsAddedBy (transfer_act deposit id.now account value)) }
{
    Ok(Added::OfTransfer {
        id: Vec::from_slice(alloc, id.bytes())?,
        made: TransferKept {
            deposit,
            account,
            value,
        },
    })
}

impl Names {
    /// Makes the name that an act adds ready, and the room for it. Where memory is short, the names are as they were.
    pub fn prepare(&mut self, alloc: Global, act: &Act) -> Result<Added, AllocError>
        requires { IsCoded act.now }
        ensures alike { AreAlike self.old self.new }
        ensures added { IfOk result (IsAddedBy act.now) }
        ensures room { IfOk result (HasRoom self.new) }
    {
        let added = prepared(alloc, act)?;
        self.reserve(&added)?;
        Ok(added)
    }

    // Makes room for a name.
    fn reserve(&mut self, added: &Added) -> Result<(), AllocError>
        ensures alike { AreAlike self.old self.new }
        ensures room { OnOk result (HasRoom self.new added.now) }
    {
        match added {
            Added::Nothing | Added::OfOrigin(_) => Ok(()),
            Added::OfAsset { .. } => self.reserve_asset(),
            Added::OfAddress { .. } => self.reserve_address(),
            Added::OfTransfer { .. } => self.reserve_transfer(),
            Added::OfRate { .. } => self.reserve_rate(),
        }
    }

    /// Takes the name of an act that was made ready.
    pub fn add(&mut self, added: Added)
        requires room { HasRoom self.old added }
        requires few { AreFew self.old }
        requires act { IsKeyed added }
        ensures { (history : List Entry) (e : Entry) → AreNames history self.old → IsAddedBy e.act added → IsFresh history added → AreNames (history ++ e ∷ []) self.new }
    {
        match added {
            Added::Nothing => {}
            Added::OfOrigin(origin) => self.set_origin(origin),
            Added::OfAsset { key, asset, pieces } => self.add_asset(key, asset, pieces),
            Added::OfAddress { key, row } => self.add_address(key, row),
            Added::OfTransfer { id, made } => self.add_transfer(id, made),
            Added::OfRate {
                source,
                target,
                rate,
            } => self.set_rate(source, target, rate),
        }
    }
}

/// The name that an act adds.
fn prepared(alloc: Global, act: &Act) -> Result<Added, AllocError>
    requires { IsCoded act.now }
    ensures { IfOk result (IsAddedBy act.now) }
{
    if !adds_name(act) {
        return Ok(Added::Nothing);
    }
    match act {
        Act::OriginSet { origin } => Ok(Added::OfOrigin(*origin)),
        Act::AssetAdded {
            code,
            scale,
            pieces,
        } => asset_added(alloc, *code, *scale, *pieces),
        Act::AddressAdded { path, asset, name } => address_added(alloc, path, *asset, name),
        Act::Deposited {
            transfer,
            account,
            value,
        } => transfer_added(alloc, true, transfer, *account, *value),
        Act::Withdrawn {
            transfer,
            account,
            value,
        } => transfer_added(alloc, false, transfer, *account, *value),
        Act::RateSet {
            source,
            target,
            num,
            den,
        } => Ok(Added::OfRate {
            source: *source,
            target: *target,
            rate: Rate {
                num: *num,
                den: *den,
            },
        }),
        _ => unreachable!(),
    }
}
