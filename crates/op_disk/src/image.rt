// What a disk in memory says of itself, and the images that a crash may leave of it.
ghost use Rattle.std.specs.Prelude.{◌≡◌, ◌⊎◌, ◌↔◌, ◌+◌, ◌-◌, ◌^◌, ◌<◌, ◌≤◌, ◌∷◌, [], ℕ, List, min, length, take, drop, true, false, slice_index, IfOk, OnOk};
ghost use Rattle.op_disk.specs.Calls.{Only};
ghost use Rattle.op_disk.specs.Crash.{MayLeave, MayReach, is_written, greatest_end};
ghost use Rattle.op_disk.specs.Memory.{contents, synced, written, newest};
ghost use Rattle.op_disk.specs.MemoryView.{contents_of, synced_of, written_of, images_of};
ghost use Rattle.op_disk.specs.declared.memory.Call.{Call as CallOf};

use crate::memory::{Call, MemoryDisk, overlay};
use std::alloc::{AllocError, Global};

impl MemoryDisk {
    /// A disk with these contents, all of them synced. The calls with these numbers, counted from 0, fail.
    pub fn new(alloc: Global, contents: Vec<u8>, fails: Vec<u64>) -> Result<MemoryDisk, AllocError>
        ensures contents { IfOk result (λ disk. contents_of disk ≡ contents.items) }
        ensures images { IfOk result (λ disk. Only contents.items (images_of disk)) }
        ensures calls { IfOk result (λ disk. disk.calls.items ≡ []) }
        ensures fails { IfOk result (λ disk. disk.fails ≡ fails) }
        ensures faults { IfOk result (λ disk. disk.faults ≡ 0) }
    {
        MemoryDisk::with_record(alloc, contents, fails)
    }

    /// What a read gives.
    pub fn contents(&self) -> &[u8]
        ensures { result.now ≡ contents_of self.now }
    {
        &self.bytes
    }

    /// The record of its calls, the oldest first.
    pub fn calls(&self) -> &[Call]
        ensures { result.now ≡ self.now.calls.items }
    {
        &self.calls
    }

    /// How many of its calls failed.
    pub fn faults(&self) -> u64
        ensures { result ≡ self.now.faults }
    {
        self.faults
    }

    /// What a crash at this moment may leave: the wanted bytes wherever it may leave any, and the wanted length where it
    /// may. Each image that a crash may leave is made where it is wanted.
    pub fn image(&self, wanted: &[u8]) -> Result<Vec<u8>, AllocError>
        ensures allowed { IfOk result (λ image. images_of self.now image.items) }
        ensures wanted { images_of self.now wanted.now → IfOk result (λ image. image.items ≡ wanted.now) }
        ensures by_steps { (c : List ℕ) → images_of self.now c ↔ MayReach (synced_of self.now) (written_of self.now) c }
    {
        let start = last_sync(&self.calls);
        let synced = replay(self.alloc, &self.first, &self.calls[..start])?;
        let image = crash_image(self.alloc, &synced, &self.calls[start..], wanted)?;
        Ok(image)
    }
}

// How many calls there were up to the last sync that did not fail.
fn last_sync(calls: &[Call]) -> usize
    ensures bound { result ≤ length calls.now }
    ensures synced { (first : List ℕ) → synced first (newest calls.now) ≡ contents first (newest (take result calls.now)) }
    ensures written { written (newest calls.now) ≡ written (newest (drop result calls.now)) }
{
    let mut last = 0;
    for (index, call) in calls.iter().enumerate() {
        if let Call::Sync { failed: false } = call {
            last = index + 1;
        }
    }
    last
}

fn replay(alloc: Global, first: &[u8], calls: &[Call]) -> Result<Vec<u8>, AllocError>
    ensures { IfOk result (λ v. v.items ≡ contents first.now (newest calls.now)) }
{
    let mut bytes = first.to_vec(alloc)?;
    for call in calls {
        replay_call(&mut bytes, call)?;
    }
    Ok(bytes)
}

fn replay_call(bytes: &mut Vec<u8>, call: &Call) -> Result<(), AllocError>
    ensures { OnOk result ((first : List ℕ) (earlier : List CallOf) → bytes.old.items ≡ contents first earlier → bytes.new.items ≡ contents first (call.now ∷ earlier)) }
{
    if let Call::Write {
        at,
        bytes: from,
        failed: false,
    } = call
    {
        bytes.reserve(from.len())?;
        overlay(bytes, *at as usize, from);
    }
    Ok(())
}

fn crash_image(
    alloc: Global,
    synced: &[u8],
    calls: &[Call],
    wanted: &[u8],
) -> Result<Vec<u8>, AllocError>
    ensures allowed { IfOk result (λ image. MayLeave synced.now (written (newest calls.now)) image.items) }
    ensures wanted { MayLeave synced.now (written (newest calls.now)) wanted.now → IfOk result (λ image. image.items ≡ wanted.now) }
{
    let longest = synced.len().max(written_end(calls) as usize);
    let length = wanted.len().max(synced.len()).min(longest);
    let mut image = Vec::new(alloc);
    for place in 0..length {
        image.push(byte_at(synced, calls, wanted, place))?;
    }
    Ok(image)
}

// The wanted byte where a crash may leave any, and otherwise the one that was synced.
fn byte_at(synced: &[u8], calls: &[Call], wanted: &[u8], place: usize) -> u8
    requires { (place < length synced.now) ⊎ (place < length wanted.now) }
    ensures stays { place < length synced.now → is_written (written (newest calls.now)) place ≡ false → result ≡ slice_index synced.now place }
    ensures free { place < length wanted.now → (length synced.now ≤ place) ⊎ (is_written (written (newest calls.now)) place ≡ true) → result ≡ slice_index wanted.now place }
{
    let free = place >= synced.len() || was_written(calls, place as u64);
    if free && place < wanted.len() {
        wanted[place]
    } else {
        synced[place]
    }
}

fn was_written(calls: &[Call], place: u64) -> bool
    ensures { result ≡ is_written (written (newest calls.now)) place }
{
    let mut found = false;
    for call in calls {
        found = was_written_by(call, place, found);
    }
    found
}

fn was_written_by(call: &Call, place: u64, found: bool) -> bool
    ensures { (earlier : List CallOf) → found ≡ is_written (written earlier) place → result ≡ is_written (written (call.now ∷ earlier)) place }
{
    match call {
        Call::Write { at, bytes, .. } => {
            (*at <= place && place - *at < bytes.len() as u64) || found
        }
        Call::Sync { failed } => *failed && found,
        Call::Length { .. } | Call::Read { .. } => found,
    }
}

fn written_end(calls: &[Call]) -> u64
    ensures { result ≡ min (greatest_end (written (newest calls.now))) (2 ^ 64 - 1) }
{
    let mut end = 0;
    for call in calls {
        end = written_end_by(call, end);
    }
    end
}

fn written_end_by(call: &Call, end: u64) -> u64
    ensures { (earlier : List CallOf) → end ≡ min (greatest_end (written earlier)) (2 ^ 64 - 1) → result ≡ min (greatest_end (written (call.now ∷ earlier))) (2 ^ 64 - 1) }
{
    match call {
        Call::Write { at, bytes, .. } => at.saturating_add(bytes.len() as u64).max(end),
        Call::Sync { failed: false } => 0,
        Call::Sync { .. } | Call::Length { .. } | Call::Read { .. } => end,
    }
}

#[cfg(test)]
mod tests {
    use super::*;
    use crate::Disk;

    // What stands, and what a crash may leave, by the disk model and by hand.
    #[test]
    fn a_sync_that_fails_leaves_the_written_range_free(rt: HostRuntime) -> Result<(), AllocError> {
        let alloc = rt.alloc();
        let mut disk = MemoryDisk::new(alloc, b"abc".to_vec(alloc)?, [1].to_vec(alloc)?)?;
        assert!(rt; disk.write_at(1, b"XYZ").is_ok() && disk.sync().is_err());
        assert!(rt; disk.contents() == b"aXYZ".as_slice() && disk.faults() == 1);
        let torn = (
            disk.image(b"zz")?,
            disk.image(b"azcd")?,
            disk.image(b"zzzzz")?,
        );
        assert!(rt;
            torn.0.as_slice() == b"azc".as_slice() && torn.1.as_slice() == b"azcd".as_slice()
        );
        assert!(rt; torn.2.as_slice() == b"azzz".as_slice());
        assert!(rt; disk.sync().is_ok() && disk.calls().len() == 3);
        let kept = disk.image(b"zzzzz")?;
        assert!(rt; kept.as_slice() == b"aXYZ".as_slice());
        Ok(())
    }
}
