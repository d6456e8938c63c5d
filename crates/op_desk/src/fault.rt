//! Why a call is refused.

ghost use Rattle.std.specs.Prelude.{◌≡◌};
ghost use Rattle.op_desk.specs.Faults.{of_journal, of_wallet};

use op_journal::JournalFault;
use thiserror::Error;

/// Why no desk was made of a disk: the first thing that reading from the front met. Payloads are looked at in order, and
/// of each payload first whether it is a round and then the legality of its entries.
#[derive(Clone, Copy, Debug, PartialEq, Eq, Error)]
pub enum DeskFault {
    /// A call on the disk failed.
    #[error("a call on the disk failed")]
    DiskFault,
    /// The disk has more than 9 bytes and does not begin with the journal's header.
    #[error("the disk does not begin with a journal's header")]
    BadHeader,
    /// The gate at this place of the disk is open, and no whole frame stands behind it.
    #[error("no whole frame stands behind the open gate at byte {at}")]
    BadFrame { at: u64 },
    /// The byte at this place of the disk is the first with which no round of either version can begin or go on. For a round
    /// that its payload's end cuts, it is the first place behind the payload.
    #[error("no record goes on at byte {at}")]
    BadRecord { at: u64 },
    /// The entry of this number, from 1, may not follow those before it.
    #[error("the entry of number {place} may not follow those before it")]
    Illegal { place: u64 },
    /// Memory was wanting.
    #[error("memory was wanting")]
    Memory,
}

/// Why a wallet does not take an entry.
#[derive(Clone, Copy, Debug, PartialEq, Eq, Error)]
pub enum LoadFault {
    /// The history with the entry is not legal. The place is the entry's number, from 1.
    #[error("the entry of number {place} may not follow those before it")]
    Illegal { place: u64 },
    /// Memory was wanting.
    #[error("memory was wanting")]
    Memory,
}

/// Why a round does not stand.
#[derive(Clone, Copy, Debug, PartialEq, Eq, Error)]
pub enum RoundFault {
    /// A call on the disk failed. The round may or may not stand on the disk.
    #[error("a call on the disk failed: the round may stand or not")]
    DiskFault,
    /// The round's frame and the gate behind it do not fit. Nothing was written.
    #[error("the round needs {need} bytes behind byte {tail}, past the journal's limit")]
    Full {
        /// The place of the closed gate.
        tail: u64,
        /// The bytes that the frame and the gate behind it take.
        need: u64,
    },
}

impl From<JournalFault> for DeskFault {
    ghost from_gives = { λ fault e. e ≡ of_journal fault };

    fn from(fault: JournalFault) -> Self {
        match fault {
            JournalFault::DiskFault => DeskFault::DiskFault,
            JournalFault::BadHeader => DeskFault::BadHeader,
            JournalFault::BadFrame { at } => DeskFault::BadFrame { at },
            JournalFault::Memory => DeskFault::Memory,
        }
    }
}

impl From<LoadFault> for DeskFault {
    ghost from_gives = { λ fault e. e ≡ of_wallet fault };

    fn from(fault: LoadFault) -> Self {
        match fault {
            LoadFault::Illegal { place } => DeskFault::Illegal { place },
            LoadFault::Memory => DeskFault::Memory,
        }
    }
}
