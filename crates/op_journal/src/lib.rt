//! A journal of frames on a disk, each of which is durable before it counts.
//!
//! The disk holds a header and then frames. Each frame stands behind a gate, one byte that is 1 where the frame counts;
//! the first gate that is not 1 ends the journal, and nothing is meant from there on. A commit writes the frame behind the
//! closed gate, syncs, opens the gate and syncs again, so that a crash at any moment leaves the frames that there were,
//! or these and the new one.
//!
//! `Recovery` opens a journal and reads its frames; `Journal` commits new ones. Neither holds the disk: each call is given
//! it, and its contract says how the disk has to stand.
#![tactic(auto)]

mod commits;
mod recovery;
#[cfg(test)]
mod tests;

pub use commits::{CommitFault, Journal};
pub use recovery::{JournalFault, Recovery};

/// The longest journal, in bytes.
pub const LIMIT: u64 = 268_435_456;
