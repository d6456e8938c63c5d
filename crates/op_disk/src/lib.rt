//! A disk: what a read gives, and what a crash may leave at each moment.
//!
//! `Disk` states the disk model as contracts. `MemoryDisk` keeps its bytes in memory, can fail a call that it is told to
//! fail, and makes any image that a crash may leave of it. `FileDisk` is a file of the system.
#![tactic(auto)]

ghost use Rattle.std.specs.Prelude.{◌≡◌, ◌+◌, ◌^◌, ◌≤◌, ℕ, Bool, List, length, take, drop, IsTrue, IfOk, OnOk};
ghost use Rattle.op_causes.specs.Causes.{HasCause};
ghost use Rattle.op_disk.specs.Calls.{overlaid, Torn, Follows, NoMore, Only, Ticks, Elapses};

mod file;
mod image;
mod memory;

pub use file::FileDisk;
pub use memory::{Call, MemoryDisk};
use thiserror::Error;

/// A call on the disk failed.
#[derive(Clone, Copy, Debug, PartialEq, Eq, Error)]
#[error("a call on the disk failed")]
pub struct DiskFault;

/// A disk and what a crash may leave of it.
///
/// Its images are the contents that a crash may leave. Between two syncs each written range, and everything past the
/// length at the last sync, may hold any bytes after a crash; the length lies between that length and the greatest end
/// written since; all other bytes stay. After a sync that succeeds, a crash leaves what a read gives. A write that fails
/// may have written any part of its range, and a later read gives one of the images. A sync that fails adds no image.
///
/// Its clock counts its calls, so that a contract can speak of every image since a call's start. Its count of faults
/// never falls, and each call that fails raises it.
pub trait Disk {
    /// Whether it tells its bytes. Clauses on contents hold where it does.
    ghost tells: { Bool };

    /// What a read gives.
    ghost seen: { Self → List ℕ };

    /// What a crash at this moment may leave.
    ghost images: { Self → List ℕ → Type 0 };

    /// This moment: how many calls there were.
    ghost moment: { Self → ℕ };

    /// What a crash at some moment from this one on may leave.
    ghost since: { Self → ℕ → List ℕ → Type 0 };

    /// How many calls failed.
    ghost faults: { Self → ℕ };

    /// Its length in bytes.
    fn length(&mut self) -> Result<u64, DiskFault>
        ensures value { IfOk result (λ n. IsTrue tells → n ≡ length (seen self.old)) }
        ensures seen { seen self.new ≡ seen self.old }
        ensures crash { NoMore (images self.old) (images self.new) }
        ensures clock { Ticks (moment self.old) (moment self.new) result }
        ensures time { Elapses (moment self.old) (moment self.new) (since self.old) (since self.new) (images self.new) }
        ensures cause { HasCause (faults self.old) (faults self.new) result };

    /// Fills `into` with the bytes from `at` on, all of which lie below the length.
    fn read(&mut self, at: u64, into: &mut [u8]) -> Result<(), DiskFault>
        requires { IsTrue tells → at + length into.old ≤ length (seen self.old) }
        ensures bytes { OnOk result (IsTrue tells → into.new ≡ take (length into.old) (drop at (seen self.old))) }
        ensures seen { seen self.new ≡ seen self.old }
        ensures crash { NoMore (images self.old) (images self.new) }
        ensures clock { Ticks (moment self.old) (moment self.new) result }
        ensures time { Elapses (moment self.old) (moment self.new) (since self.old) (since self.new) (images self.new) }
        ensures cause { HasCause (faults self.old) (faults self.new) result };

    /// Writes over what is there, and past the end. Until a sync, a crash may leave any bytes in the range.
    fn write_at(&mut self, at: u64, from: &[u8]) -> Result<(), DiskFault>
        requires place { IsTrue tells → at ≤ length (seen self.old) }
        requires end { at + length from.now ≤ 2 ^ 40 }
        ensures written { OnOk result (IsTrue tells → seen self.new ≡ overlaid (seen self.old) at from.now) }
        ensures crash { Follows (Torn at (length from.now)) (images self.old) (images self.new) }
        ensures clock { Ticks (moment self.old) (moment self.new) result }
        ensures time { Elapses (moment self.old) (moment self.new) (since self.old) (since self.new) (images self.new) }
        ensures cause { HasCause (faults self.old) (faults self.new) result };

    /// After it, a crash leaves what a read gives.
    fn sync(&mut self) -> Result<(), DiskFault>
        ensures durable { OnOk result (Only (seen self.new) (images self.new)) }
        ensures seen { OnOk result (seen self.new ≡ seen self.old) }
        ensures crash { NoMore (images self.old) (images self.new) }
        ensures clock { Ticks (moment self.old) (moment self.new) result }
        ensures time { Elapses (moment self.old) (moment self.new) (since self.old) (since self.new) (images self.new) }
        ensures cause { HasCause (faults self.old) (faults self.new) result };

    /// A disk as it reads is one of its own images.
    ghost reads_an_image: { (disk : Self) → IsTrue tells → images disk (seen disk) };

    /// This moment is one of those since an earlier one.
    ghost counts_now: { (disk : Self) (t : ℕ) (c : List ℕ) → t ≤ moment disk → images disk c → since disk t c };

    /// Since this moment there is no other.
    ghost only_now: { (disk : Self) (c : List ℕ) → since disk (moment disk) c → images disk c };
}
