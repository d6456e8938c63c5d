// Commits to a journal.
ghost use Rattle.std.specs.Prelude.{◌≡◌, ◌+◌, ◌*◌, ◌<◌, ◌≤◌, ◌∷◌, ◌++◌, [], ℕ, List, length, slice_index_or, IsTrue, OnOk, OnErr, IsErrOf, true, false};
ghost use Rattle.op_causes.specs.Causes.{HasCause, NamesFault};
ghost use Rattle.op_disk.specs.Moments.{LeavesOnly};
ghost use Rattle.op_journal.specs.declared.commits.CommitFault.TheVariants.{DiskFault as Faulty};
ghost use Rattle.op_journal.specs.Commits.{IsBody, IsSettled, SpellsEither, payload_of};
ghost use Rattle.op_journal.specs.Frames.{Holds, SpellsUpTo, limit};

use crate::LIMIT;
use op_disk::{Disk, DiskFault};
use thiserror::Error;

/// An open gate.
const OPEN: [u8; 1] = [1];

/// Why a commit was refused.
#[derive(Clone, Copy, Debug, PartialEq, Eq, Error)]
pub enum CommitFault {
    /// A call on the disk failed. The frame may or may not be there; the journal is closed.
    #[error("a call on the disk failed in a commit")]
    DiskFault,
    /// The frame and the gate behind it do not fit. Nothing was written.
    #[error("the frame needs {need} bytes behind byte {tail}, past the journal's limit")]
    Full {
        /// The place of the closed gate.
        tail: u64,
        /// The bytes that the frame and the gate behind it take.
        need: u64,
    },
    /// An earlier commit of this journal met a disk fault.
    #[error("the journal is closed since a commit failed on the disk")]
    Closed,
}

impl From<DiskFault> for CommitFault {
    ghost from_gives = { λ _ e. e ≡ Faulty };

    fn from(_: DiskFault) -> Self {
        CommitFault::DiskFault
    }
}

/// A journal whose frames were all read: the place of its closed gate, and whether a commit met a disk fault.
#[derive(Drop)]
pub struct Journal {
    pub(crate) tail: u64,
    pub(crate) closed: bool,
    ghost within: { tail < limit },
}

impl Journal {
    /// The place of the closed gate, at which the next frame begins.
    pub fn tail(&self) -> u64
        ensures { result ≡ self.now.tail }
    {
        self.tail
    }

    /// Adds a frame, by four calls on the disk. `body` is the payload's length in four bytes, the payload, and a byte 0.
    ///
    /// At every moment since its start a crash leaves the frames that there were, or these and the new one; after `Ok`,
    /// the new one is among them. A journal that met a disk fault is closed: what the disk holds is then learned by
    /// opening the journal again.
    pub fn commit<D: Disk>(&mut self, disk: &mut D, body: &[u8]) -> Result<(), CommitFault>
        requires settled { IsTrue D.tells → self.old.closed ≡ false → IsSettled self.old.tail (D.seen disk.old) (D.images disk.old) }
        requires body { IsBody body.now }

        ensures spells { OnOk result (IsTrue D.tells → (payloads : List (List ℕ)) → Holds payloads self.old.tail (D.seen disk.old)
            → SpellsUpTo (payloads ++ payload_of body.now ∷ []) self.new.tail (D.seen disk.new)) }
        ensures settled { OnOk result (IsTrue D.tells → IsSettled self.new.tail (D.seen disk.new) (D.images disk.new)) }
        ensures any_moment { IsTrue D.tells → self.old.closed ≡ false → (payloads : List (List ℕ)) → Holds payloads self.old.tail (D.seen disk.old)
            → LeavesOnly D.Disk disk.old disk.new (SpellsEither payloads self.old.tail body.now) }
        ensures committed { OnOk result ((self.old.closed ≡ false) × (self.new.closed ≡ false) × (self.new.tail ≡ self.old.tail + length body.now)) }
        ensures calls { OnOk result (D.moment disk.new ≡ D.moment disk.old + 4) }
        ensures at_most { D.moment disk.new ≤ D.moment disk.old + 4 }
        ensures cause { NamesFault (D.faults disk.old) (D.faults disk.new) (IsErrOf result CommitFault.DiskFault) }
        ensures fault { IsErrOf result CommitFault.DiskFault → (self.old.closed ≡ false) × (self.new.closed ≡ true) × (self.new.tail ≡ self.old.tail) }
        ensures full { (tail need : ℕ) → IsErrOf result (CommitFault.Full tail need) → (self.old.closed ≡ false) × (tail ≡ self.old.tail) × (need ≡ length body.now + 1) × (limit < tail + need) × (disk.new ≡ disk.old) × (self.new ≡ self.old) }
        ensures full_where { self.old.closed ≡ false → limit < self.old.tail + (length body.now + 1) → IsErrOf result (CommitFault.Full self.old.tail (length body.now + 1)) }
        ensures closed { IsErrOf result CommitFault.Closed → (self.old.closed ≡ true) × (disk.new ≡ disk.old) × (self.new ≡ self.old) }
        ensures closed_where { self.old.closed ≡ true → IsErrOf result CommitFault.Closed }
    {
        if self.closed {
            return Err(CommitFault::Closed);
        }
        let need = body.len() as u64 + 1;
        if need > LIMIT - self.tail {
            return Err(CommitFault::Full {
                tail: self.tail,
                need,
            });
        }
        self.closed = true;
        write_frame(disk, self.tail, body)?;
        self.closed = false;
        self.tail += body.len() as u64;
        Ok(())
    }
}

// Writes the frame behind the closed gate, and opens the gate once the frame is durable.
fn write_frame<D: Disk>(disk: &mut D, tail: u64, body: &[u8]) -> Result<(), DiskFault>
    requires settled { IsTrue D.tells → IsSettled tail (D.seen disk.old) (D.images disk.old) }
    requires body { IsBody body.now }
    requires room { tail + length body.now + 1 ≤ limit }

    ensures spells { OnOk result (IsTrue D.tells → (payloads : List (List ℕ)) → Holds payloads tail (D.seen disk.old)
        → SpellsUpTo (payloads ++ payload_of body.now ∷ []) (tail + length body.now) (D.seen disk.new)) }
    ensures settled { OnOk result (IsTrue D.tells → IsSettled (tail + length body.now) (D.seen disk.new) (D.images disk.new)) }
    ensures any_moment { IsTrue D.tells → (payloads : List (List ℕ)) → Holds payloads tail (D.seen disk.old)
        → LeavesOnly D.Disk disk.old disk.new (SpellsEither payloads tail body.now) }
    ensures calls { OnOk result (D.moment disk.new ≡ D.moment disk.old + 4) }
    ensures at_most { D.moment disk.new ≤ D.moment disk.old + 4 }
    ensures cause { HasCause (D.faults disk.old) (D.faults disk.new) result }
{
    disk.write_at(tail + 1, body)?;
    disk.sync()?;
    disk.write_at(tail, &OPEN)?;
    disk.sync()?;
    Ok(())
}
