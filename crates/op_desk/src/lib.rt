//! The desk: a journal on a disk and the wallet whose history it spells, and rounds on them.
//!
//! A history stands on the disk as its rounds, each in a frame of the journal. `Desk::recover` reads all of them, of
//! version 1 or 2. A round begins with `Desk::begin`, which gives out a `Batch` that has the wallet; its tasks act on
//! that, and `Desk::close_round` commits their entries as one frame, in version 2. A crash at any moment leaves the old
//! history, or that with the whole round.
//!
//! The wallet is a part of this crate so far. It has the one act that is built, `AssetAdded`.
#![tactic(auto)]

mod batch;
mod desk;
mod fault;
mod laws;
mod payload;
#[cfg(test)]
mod tests;
mod wallet;

pub use batch::{Batch, Committed};
pub use desk::Desk;
pub use fault::{DeskFault, LoadFault, RoundFault};
pub use laws::disks_spell_one_history;
pub use wallet::{Outcome, Wallet};

/// The most tasks of one round.
pub const TASK_LIMIT: u64 = 272;
