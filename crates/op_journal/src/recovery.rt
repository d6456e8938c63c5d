// Opening a journal on any disk, and reading its frames.
ghost use Rattle.std.specs.Prelude.{◌≡◌, ◌≢◌, ◌⊎◌, ◌+◌, ◌<◌, ◌≤◌, ◌∷◌, ◌++◌, [], ℕ, List, length, take, drop, IsTrue, IfOk, IfErr, OnOk, OnErr, IsErrOf, Ok, true, false, nat_le, if◌then◌else◌};
ghost use Rattle.std.specs.Int.{w32, to_be_bytes, from_be_bytes};
ghost use Rattle.op_causes.specs.Causes.{NamesFault};
ghost use Rattle.op_disk.specs.Calls.{NoMore, Only};
ghost use Rattle.op_disk.specs.Moments.{LeavesOnly};
ghost use Rattle.op_journal.specs.declared.recovery.JournalFault.TheVariants.{DiskFault as Faulty, Memory as NoMemory};
ghost use Rattle.op_journal.specs.Commits.{IsSettled};
ghost use Rattle.op_journal.specs.Frames.{Holds, SpellsUpTo, IsClosed, IsFrameAt, IsBadFrame, header, limit};
ghost use Rattle.op_journal.specs.Recovered.{Opened, IsFound, IsOldOrShort};

use crate::{Journal, LIMIT};
use op_disk::{Disk, DiskFault};
use std::alloc::{AllocError, Global};
use thiserror::Error;

/// `OPWJ` and the version.
const HEADER: [u8; 8] = *b"OPWJ\x00\x00\x00\x01";

/// A fresh journal: the header and a closed gate.
const FRESH: [u8; 9] = *b"OPWJ\x00\x00\x00\x01\x00";

/// Why a journal was refused.
#[derive(Clone, Copy, Debug, PartialEq, Eq, Error)]
pub enum JournalFault {
    /// A call on the disk failed.
    #[error("a call on the disk failed")]
    DiskFault,
    /// The disk has more than 9 bytes and does not begin with the journal's header.
    #[error("the disk does not begin with a journal's header")]
    BadHeader,
    /// The gate at this place is open, and no whole frame stands behind it.
    #[error("no whole frame stands behind the open gate at byte {at}")]
    BadFrame {
        /// The gate's place.
        at: u64,
    },
    /// There was no memory for the payload.
    #[error("memory was wanting for a frame's payload")]
    Memory,
}

impl From<DiskFault> for JournalFault {
    ghost from_gives = { λ _ e. e ≡ Faulty };

    fn from(_: DiskFault) -> Self {
        JournalFault::DiskFault
    }
}

impl From<AllocError> for JournalFault {
    ghost from_gives = { λ _ e. e ≡ NoMemory };

    fn from(_: AllocError) -> Self {
        JournalFault::Memory
    }
}

/// A journal while its frames are read: the place of the next gate, the disk's length, and whether that gate was found
/// closed.
#[derive(Drop)]
pub struct Recovery {
    at: u64,
    length: u64,
    ended: bool,
    ghost within: { at < limit },
    ghost inside: { at < length },
}

impl Recovery {
    /// Opens the journal on any disk. A disk of at most 9 bytes is a fresh journal, whatever it holds, and gets its header
    /// and a closed gate in one write.
    ///
    /// Nothing is repaired and nothing is lost: at every moment a crash leaves a disk that there was, or where the disk
    /// was that short, another that is.
    pub fn begin<D: Disk>(disk: &mut D) -> Result<Recovery, JournalFault>
        ensures start { IfOk result (λ r. (r.at ≡ 8) × (r.ended ≡ false)) }
        ensures opened { IfOk result (λ r. IsTrue D.tells → Opened (D.seen disk.old) (D.seen disk.new)) }
        ensures found { IfOk result (λ r. IsTrue D.tells → IsFound r.length (D.seen disk.new) (D.images disk.new)) }
        ensures holds { IfOk result (λ r. IsTrue D.tells → Holds [] r.at (D.seen disk.new)) }
        ensures bad_header { IsErrOf result JournalFault.BadHeader → IsTrue D.tells → (9 < length (D.seen disk.old)) × (take 8 (D.seen disk.old) ≢ header) × (D.seen disk.new ≡ D.seen disk.old) × Only (D.seen disk.new) (D.images disk.new) }
        ensures any_moment { IsTrue D.tells → LeavesOnly D.Disk disk.old disk.new (IsOldOrShort (D.images disk.old) (D.seen disk.old)) }
        ensures synced { IsTrue D.tells → D.moment disk.old + 1 < D.moment disk.new → (c : List ℕ) → D.since disk.new (D.moment disk.old + 1) c → IsOldOrShort (λ d. d ≡ D.seen disk.old) (D.seen disk.old) c }
        ensures calls { IfOk result (λ r. IsTrue D.tells → D.moment disk.new ≡ (if nat_le (length (D.seen disk.old)) 9 then D.moment disk.old + 4 else D.moment disk.old + 3)) }
        ensures past_sync { (IsErrOf result JournalFault.DiskFault → ⊥) → D.moment disk.old + 1 < D.moment disk.new }
        ensures cause { NamesFault (D.faults disk.old) (D.faults disk.new) (IsErrOf result JournalFault.DiskFault) }
        ensures refusals { IfErr result (λ e. (e ≡ JournalFault.DiskFault) ⊎ (e ≡ JournalFault.BadHeader)) }
    {
        disk.sync()?;
        let length = disk.length()?;
        if length <= 9 {
            disk.write_at(0, &FRESH)?;
            disk.sync()?;
            return Ok(Recovery {
                at: 8,
                length: 9,
                ended: false,
            });
        }
        let mut found = [0; 8];
        disk.read(0, &mut found)?;
        if found != HEADER {
            return Err(JournalFault::BadHeader);
        }
        Ok(Recovery {
            at: 8,
            length,
            ended: false,
        })
    }

    /// Puts the next payload in place of the old one, or answers false at the first gate that is not open.
    ///
    /// No length in a frame is trusted before it is compared with the disk's and with the limit. A refused call leaves the
    /// recovery and the payload as they were.
    pub fn next_frame<D: Disk>(
        &mut self,
        alloc: Global,
        disk: &mut D,
        payload: &mut Vec<u8>,
    ) -> Result<bool, JournalFault>
        requires { IsTrue D.tells → IsFound self.old.length (D.seen disk.old) (D.images disk.old) }

        ensures frame { result ≡ Ok true → IsTrue D.tells → IsFrameAt self.old.at payload.new.items (D.seen disk.old) }
        ensures next { result ≡ Ok true → (self.new.at ≡ self.old.at + 5 + length payload.new.items) × (self.new.ended ≡ false) }
        ensures holds { result ≡ Ok true → IsTrue D.tells → (payloads : List (List ℕ)) → Holds payloads self.old.at (D.seen disk.old) → Holds (payloads ++ payload.new.items ∷ []) self.new.at (D.seen disk.new) }
        ensures end { result ≡ Ok false → (self.new.at ≡ self.old.at) × (self.new.ended ≡ true) × (payload.new ≡ payload.old) × (IsTrue D.tells → IsClosed self.old.at (D.seen disk.old)) }
        ensures settled { result ≡ Ok false → IsTrue D.tells → IsSettled self.new.at (D.seen disk.new) (D.images disk.new) }
        ensures spells { result ≡ Ok false → IsTrue D.tells → (payloads : List (List ℕ)) → Holds payloads self.old.at (D.seen disk.old) → SpellsUpTo payloads self.new.at (D.seen disk.new) }
        ensures bad_frame { (at : ℕ) → IsErrOf result (JournalFault.BadFrame at) → (at ≡ self.old.at) × (IsTrue D.tells → IsBadFrame at (D.seen disk.old)) }
        ensures memory { IsErrOf result JournalFault.Memory → IsTrue D.tells → (whole : List ℕ) × IsFrameAt self.old.at whole (D.seen disk.old) }
        ensures refused { OnErr result ((self.new ≡ self.old) × (payload.new ≡ payload.old)) }
        ensures length { self.new.length ≡ self.old.length }
        ensures seen { D.seen disk.new ≡ D.seen disk.old }
        ensures found { IsTrue D.tells → IsFound self.new.length (D.seen disk.new) (D.images disk.new) }
        ensures any_moment { IsTrue D.tells → LeavesOnly D.Disk disk.old disk.new (λ c. c ≡ D.seen disk.old) }
        // A frame is read by three calls, and a gate that is not open by one.
        ensures calls { result ≡ Ok true → D.moment disk.new ≡ D.moment disk.old + 3 }
        ensures last_call { result ≡ Ok false → D.moment disk.new ≡ D.moment disk.old + 1 }
        ensures cause { NamesFault (D.faults disk.old) (D.faults disk.new) (IsErrOf result JournalFault.DiskFault) }
        ensures refusals { IfErr result (λ e. e ≢ JournalFault.BadHeader) }
    {
        let mut gate = [0; 1];
        disk.read(self.at, &mut gate)?;
        if gate[0] != 1 {
            self.ended = true;
            return Ok(false);
        }
        let room = self.length.min(LIMIT) - self.at;
        if room < 6 {
            return Err(JournalFault::BadFrame { at: self.at });
        }
        let mut size = [0; 4];
        disk.read(self.at + 1, &mut size)?;
        let size = payload_size(size);
        if size == 0 || u64::from(size) > room - 6 {
            return Err(JournalFault::BadFrame { at: self.at });
        }
        *payload = read_range(alloc, disk, self.at + 5, size as usize)?;
        self.at += 5 + u64::from(size);
        self.ended = false;
        Ok(true)
    }

    /// The journal, once the first gate that is not open was found.
    pub fn finish(self) -> Journal
        requires { self.ended ≡ true }
        ensures { (result.tail ≡ self.at) × (result.closed ≡ false) }
    {
        Journal {
            tail: self.at,
            closed: false,
        }
    }
}

// Reads a range into a new list.
fn read_range<D: Disk>(
    alloc: Global,
    disk: &mut D,
    at: u64,
    count: usize,
) -> Result<Vec<u8>, JournalFault>
    requires { IsTrue D.tells → at + count ≤ length (D.seen disk.old) }
    ensures length { IfOk result (λ v. length v.items ≡ count) }
    ensures bytes { IfOk result (λ v. IsTrue D.tells → v.items ≡ take count (drop at (D.seen disk.old))) }
    ensures seen { D.seen disk.new ≡ D.seen disk.old }
    ensures crash { NoMore (D.images disk.old) (D.images disk.new) }
    ensures any_moment { LeavesOnly D.Disk disk.old disk.new (D.images disk.old) }
    ensures calls { OnOk result (D.moment disk.new ≡ D.moment disk.old + 1) }
    ensures cause { NamesFault (D.faults disk.old) (D.faults disk.new) (IsErrOf result JournalFault.DiskFault) }
    ensures refusals { IfErr result (λ e. (e ≡ JournalFault.DiskFault) ⊎ (e ≡ JournalFault.Memory)) }
{
    let mut found = vec![in alloc; 0; count]?;
    disk.read(at, &mut found)?;
    Ok(found)
}

// The length that a frame's four bytes give.
fn payload_size(stored: [u8; 4]) -> u32
    ensures value { result ≡ from_be_bytes w32 stored }
    ensures stored { to_be_bytes w32 result ≡ stored }
{
    u32::from_be_bytes(stored)
}
