//! The names of a wallet: its origin, assets, addresses, transfers and rates, each found without a walk.

ghost use Rattle.std.specs.Prelude.{◌≡◌, ◌+◌, ◌<◌, ◌^◌, ◌∷◌, ◌++◌, ◌||◌, ◌==◌, [], codes, ℕ, List, length, not, map, OnOk, Some, None, vec_len, vec_capacity};
ghost use Rattle.std.specs.Option.{option_map, is_none};
ghost use Rattle.op_model.specs.Asking.{address_named};
ghost use Rattle.op_model.specs.AdminAnswers.{transfer_named, transfer_act};
ghost use Rattle.op_model.specs.History.{nth, origins, origin_of, assets, addresses, asset_number, path_number, rate_between};
ghost use Rattle.op_model.specs.declared.act.Entry.{Entry};
ghost use Rattle.op_model.specs.declared.act.Act.TheVariants.{OriginSet, AssetAdded, AddressAdded, RateSet, Deposited, Withdrawn};
ghost use Rattle.op_naming.specs.Kept.{asset_kept, address_kept, transfer_kept, asset_text};
ghost use Rattle.op_naming.specs.Names.{AreNames, AreAlike, HasAssetRoom, HasAddressRoom, HasTransferRoom};
ghost use Rattle.op_naming.specs.Indexes.{room_in};
ghost use Rattle.op_naming.specs.Rates.{rates_room};

use crate::index::Index;
use crate::kept::{AddressKept, AssetKept, TransferKept};
use crate::keys::AssetKey;
use crate::rates::Rates;
use op_amount::{Asset, Rate};
use op_model::CodeText;
use op_names::{AddressName, AddressPath, Origin};
use std::alloc::{AllocError, Global};

/// The origin of a wallet, and its assets, addresses, transfers and rates. Assets, addresses and transfers have numbers
/// from 1, in the order in which they were added.
#[derive(Drop)]
pub struct Names {
    origin: Origin,
    is_set: bool,
    assets: Vec<AssetKept>,
    codes: Index,
    addresses: Vec<AddressKept>,
    paths: Index,
    transfers: Vec<TransferKept>,
    ids: Index,
    rates: Rates,
}

/// The origin of a wallet for which none was set.
fn unset_origin() -> Origin
    ensures { result ≡ codes "https://wallet.example" }
{
    match Origin::from_bytes(b"https://wallet.example") {
        Some(origin) => origin,
        None => unreachable!(),
    }
}

/// The asset of a number, counted from 1.
#[tactic(auto, using(crate::proofs::Lists::nth_less, crate::proofs::Lists::nth_zero))]
fn asset_at(rows: &[AssetKept], number: u32) -> Option<AssetKept>
    ensures { result ≡ nth rows.now number }
{
    if number == 0 {
        return None;
    }
    rows.get(number as usize - 1).copied()
}

/// The address of a number, counted from 1.
#[tactic(auto, using(crate::proofs::Lists::nth_less, crate::proofs::Lists::nth_zero))]
fn address_at(rows: &[AddressKept], number: u32) -> Option<&AddressKept>
    ensures { option_map (λ row. row.now) result ≡ nth rows.now number }
{
    if number == 0 {
        return None;
    }
    rows.get(number as usize - 1)
}

/// The transfer of a number, counted from 1.
#[tactic(auto, using(crate::proofs::Lists::nth_less, crate::proofs::Lists::nth_zero))]
fn transfer_at(rows: &[TransferKept], number: u32) -> Option<TransferKept>
    ensures { result ≡ nth rows.now number }
{
    if number == 0 {
        return None;
    }
    rows.get(number as usize - 1).copied()
}

impl Names {
    /// No names. Takes no memory.
    pub fn new(alloc: Global) -> Names
        ensures { AreNames [] result }
    {
        Names {
            origin: unset_origin(),
            is_set: false,
            assets: Vec::new(alloc),
            codes: Index::new(alloc),
            addresses: Vec::new(alloc),
            paths: Index::new(alloc),
            transfers: Vec::new(alloc),
            ids: Index::new(alloc),
            rates: Rates::new(alloc),
        }
    }

    /// The origin under which names are printed.
    pub fn origin(&self) -> &Origin
        ensures { (history : List Entry) → AreNames history self.now → result.now ≡ origin_of history }
    {
        &self.origin
    }

    /// Whether the origin is fixed: one was set, or an address is there.
    pub fn is_fixed(&self) -> bool
        ensures { (history : List Entry) → AreNames history self.now → result ≡ (not (length (origins history) == 0) || not (length (addresses history) == 0)) }
    {
        self.is_set || self.paths.count() != 0
    }

    /// How many assets there are.
    pub fn asset_count(&self) -> u32
        ensures { (history : List Entry) → AreNames history self.now → result ≡ length (assets history) }
    {
        self.codes.count()
    }

    /// How many addresses there are.
    pub fn address_count(&self) -> u32
        ensures { (history : List Entry) → AreNames history self.now → result ≡ length (addresses history) }
    {
        self.paths.count()
    }

    /// The number of an asset.
    pub fn find_asset(&self, asset: &Asset) -> Option<u32>
        ensures { (history : List Entry) → AreNames history self.now → result ≡ asset_number history asset.now }
    {
        let key = AssetKey::new(asset.scale, CodeText::of_code(asset.code));
        self.codes.find(key.as_bytes())
    }

    /// The number of the address at a path.
    pub fn find_path(&self, path: &AddressPath) -> Option<u32>
        ensures { (history : List Entry) → AreNames history self.now → result ≡ path_number history path.now }
    {
        self.paths.find(path.bytes())
    }

    /// The number of the address of a name, if it is there under the wallet's origin.
    pub fn find_address(&self, name: &AddressName) -> Option<u32>
        ensures { (history : List Entry) → AreNames history self.now → result ≡ address_named history (Some name.now) }
    {
        if name.origin.as_bytes() != self.origin.as_bytes() {
            return None;
        }
        self.find_path(&name.path)
    }

    /// The asset of this number.
    pub fn asset(&self, number: u32) -> Option<AssetKept>
        ensures { (history : List Entry) → AreNames history self.now → result ≡ option_map asset_kept (nth (assets history) number) }
    {
        asset_at(&self.assets, number)
    }

    /// The address of this number.
    pub fn address(&self, number: u32) -> Option<&AddressKept>
        ensures { (history : List Entry) → AreNames history self.now → option_map (λ row. row.now) result ≡ option_map address_kept (nth (addresses history) number) }
    {
        address_at(&self.addresses, number)
    }

    /// The deposit or withdrawal of this id.
    pub fn transfer(&self, id: &[u8]) -> Option<TransferKept>
        ensures { (history : List Entry) → AreNames history self.now → result ≡ option_map transfer_kept (transfer_named history id.now) }
    {
        match self.ids.find(id) {
            Some(number) => transfer_at(&self.transfers, number),
            None => None,
        }
    }

    /// The rate between two assets: one to one within an asset, else the last that was set.
    pub fn rate(&self, source: u32, target: u32) -> Option<Rate>
        ensures { (history : List Entry) → AreNames history self.now → result ≡ rate_between history source target }
    {
        if source == target {
            return Some(Rate { num: 1, den: 1 });
        }
        self.rates.find(source, target)
    }
}

impl Names {
    /// Makes room for one asset more.
    pub fn reserve_asset(&mut self) -> Result<(), AllocError>
        ensures same { AreAlike self.old self.new }
        ensures room { OnOk result (HasAssetRoom self.new) }
    {
        self.assets.reserve(1)?;
        self.codes.reserve()
    }

    /// Makes room for one address more.
    pub fn reserve_address(&mut self) -> Result<(), AllocError>
        ensures same { AreAlike self.old self.new }
        ensures room { OnOk result (HasAddressRoom self.new) }
    {
        self.addresses.reserve(1)?;
        self.paths.reserve()
    }

    /// Makes room for one transfer more.
    pub fn reserve_transfer(&mut self) -> Result<(), AllocError>
        ensures same { AreAlike self.old self.new }
        ensures room { OnOk result (HasTransferRoom self.new) }
    {
        self.transfers.reserve(1)?;
        self.ids.reserve()
    }

    /// Makes room for one rate more.
    pub fn reserve_rate(&mut self) -> Result<(), AllocError>
        ensures same { AreAlike self.old self.new }
        ensures room { OnOk result (0 < rates_room self.new.rates) }
    {
        self.rates.reserve()
    }

    /// Takes the origin that was set.
    pub fn set_origin(&mut self, origin: Origin)
        ensures { (history : List Entry) (t : ℕ) → AreNames history self.old → AreNames (history ++ record { at = t; act = OriginSet origin } ∷ []) self.new }
    {
        self.origin = origin;
        self.is_set = true;
    }

    /// Takes a new asset, with the text that it is found by. There is room for it.
    pub fn add_asset(&mut self, key: Vec<u8>, asset: Asset, pieces: u8)
        requires room { HasAssetRoom self.old }
        requires small { self.old.codes.count + 1 < 2 ^ 32 }
        requires key { key.items ≡ asset_text asset }
        ensures { (history : List Entry) (t : ℕ) → AreNames history self.old → asset_number history asset ≡ None → AreNames (history ++ record { at = t; act = AssetAdded asset.code asset.scale pieces } ∷ []) self.new }
    {
        self.codes.add(key);
        self.assets.push_reserved(AssetKept { asset, pieces });
    }

    /// Takes a new address, with its path as the text that it is found by. There is room for it.
    pub fn add_address(&mut self, key: Vec<u8>, address: AddressKept)
        requires room { HasAddressRoom self.old }
        requires small { self.old.paths.count + 1 < 2 ^ 32 }
        requires key { key.items ≡ address.path }
        ensures { (history : List Entry) (t : ℕ) → AreNames history self.old → path_number history address.path ≡ None → AreNames (history ++ record { at = t; act = AddressAdded address.path address.asset address.name } ∷ []) self.new }
    {
        self.paths.add(key);
        self.addresses.push_reserved(address);
    }

    /// Takes a deposit or a withdrawal, with its id as the text that it is found by. There is room for it.
    pub fn add_transfer(&mut self, id: Vec<u8>, transfer: TransferKept)
        requires room { HasTransferRoom self.old }
        requires small { self.old.ids.count + 1 < 2 ^ 32 }
        ensures { (history : List Entry) (t : ℕ) → AreNames history self.old → transfer_named history id.items ≡ None → AreNames (history ++ record { at = t; act = transfer_act transfer.deposit id.items transfer.account transfer.value } ∷ []) self.new }
    {
        self.ids.add(id);
        self.transfers.push_reserved(transfer);
    }

    /// Takes a rate that was set. There is room for it.
    pub fn set_rate(&mut self, source: u32, target: u32, rate: Rate)
        requires room { 0 < rates_room self.old.rates }
        ensures { (history : List Entry) (t : ℕ) → AreNames history self.old → AreNames (history ++ record { at = t; act = RateSet source target rate.num rate.den } ∷ []) self.new }
    {
        self.rates.set(source, target, rate);
    }
}
