//! The names of a wallet: its origin, and its assets, addresses, transfers and rates, each found without a walk over the
//! others.
#![tactic(auto)]

mod added;
mod index;
mod kept;
mod keys;
mod names;
mod rates;

pub use added::Added;
pub use index::Index;
pub use kept::{AddressKept, AssetKept, TransferKept};
pub use keys::AssetKey;
pub use names::Names;
pub use rates::Rates;
