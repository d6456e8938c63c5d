//! What a wallet keeps of assets, addresses and transfers.

use op_amount::Asset;
use op_model::{Account, Text};
use op_names::AddressPath;

/// An asset, and in how many pieces payments in it are sent.
#[derive(Clone, Copy)]
pub struct AssetKept {
    pub asset: Asset,
    pub pieces: u8,
}

/// A wallet address: its path, the number of its asset, and its public name.
#[derive(Drop)]
pub struct AddressKept {
    pub path: AddressPath,
    pub asset: u32,
    pub name: Option<Text>,
}

/// A deposit or a withdrawal that was made; it is found by its id.
#[derive(Clone, Copy)]
pub struct TransferKept {
    pub deposit: bool,
    pub account: Account,
    pub value: u64,
}
