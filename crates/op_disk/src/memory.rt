// A disk in memory. It keeps a record of its calls, and its images are those that the record allows.
ghost use Rattle.std.specs.Prelude.{◌≡◌, ◌⊎◌, ◌+◌, ◌≤◌, ◌∷◌, ◌++◌, [], true, false, length, if◌then◌else◌, vec_len, vec_capacity, OnOk, OnErr, IfOk, ◌==◌, take, drop};
ghost use Rattle.std.specs.List.{list_any};
ghost use Rattle.op_causes.specs.Causes.{HasCause};
ghost use Rattle.op_disk.specs.Calls.{overlaid, Torn, Follows, NoMore, Only, Ticks, Elapses};
ghost use Rattle.op_disk.specs.Memory.{contents, IsImage, Since, newest, counts_now, only_now};

use crate::{Disk, DiskFault};
use op_causes::count_fault;
use std::alloc::{AllocError, Global};

/// One call on a disk in memory, and whether it failed.
#[derive(Drop)]
pub enum Call {
    /// The length was asked for.
    Length {
        /// Whether it failed.
        failed: bool,
    },
    /// Bytes were read.
    Read {
        /// The first byte's place.
        at: u64,
        /// The number of bytes.
        length: u64,
        /// Whether it failed.
        failed: bool,
    },
    /// Bytes were written. A write that failed may have written any part of its range.
    Write {
        /// The first byte's place.
        at: u64,
        /// What was written.
        bytes: Vec<u8>,
        /// Whether it failed.
        failed: bool,
    },
    /// What was written became durable.
    Sync {
        /// Whether it failed.
        failed: bool,
    },
}

/// A disk in memory, for tests of what stands on a disk.
///
/// It keeps a record of all its calls, fails those that it was told to fail, and makes any image that a crash may leave
/// of it. Where it is refused memory, the call fails and is a fault like any other; what was refused before it could be
/// recorded is not counted by the clock.
#[derive(Drop)]
pub struct MemoryDisk {
    pub(crate) alloc: Global,
    pub(crate) bytes: Vec<u8>,
    pub(crate) first: Vec<u8>,
    pub(crate) calls: Vec<Call>,
    pub(crate) fails: Vec<u64>,
    pub(crate) faults: u64,
    ghost replayed: { bytes.items ≡ contents first.items (newest calls.items) },
    ghost reads: { IsImage first.items (newest calls.items) (contents first.items (newest calls.items)) },
}

impl MemoryDisk {
    // A disk with no calls so far.
    pub(crate) fn with_record(
        alloc: Global,
        contents: Vec<u8>,
        fails: Vec<u64>,
    ) -> Result<MemoryDisk, AllocError>
        ensures first { IfOk result (λ disk. disk.first.items ≡ contents.items) }
        ensures calls { IfOk result (λ disk. disk.calls.items ≡ []) }
        ensures fails { IfOk result (λ disk. disk.fails ≡ fails) }
        ensures faults { IfOk result (λ disk. disk.faults ≡ 0) }
    {
        let first = contents.to_vec(alloc)?;
        Ok(MemoryDisk {
            alloc,
            bytes: contents,
            first,
            calls: Vec::new(alloc),
            fails,
            faults: 0,
        })
    }

    fn next_fails(&self) -> bool
        ensures { result ≡ list_any (λ number. number == length self.now.calls.items) self.now.fails.items }
    {
        self.fails.contains(&(self.calls.len() as u64))
    }
}

impl Disk for MemoryDisk {
    ghost use Rattle.op_disk.specs.MemoryView.{contents_of, images_of, since_of, FailsAsTold};

    ghost tells = { true };

    ghost seen = { λ m. contents m.first.items (newest m.calls.items) };

    ghost images = { λ m. IsImage m.first.items (newest m.calls.items) };

    ghost moment = { λ m. length m.calls.items };

    ghost since = { λ m. Since m.first.items (newest m.calls.items) };

    ghost faults = { λ m. m.faults };

    ghost reads_an_image = { λ m _. m.reads };

    ghost counts_now = { λ m t c le now. counts_now m.first.items m.calls.items t c le now };

    ghost only_now = { λ m c left. only_now m.first.items m.calls.items c left };

    fn length(&mut self) -> Result<u64, DiskFault>
        ensures value { IfOk result (λ n. n ≡ length (contents_of self.old)) }
        ensures seen { contents_of self.new ≡ contents_of self.old }
        ensures crash { NoMore (images_of self.old) (images_of self.new) }
        ensures clock { Ticks (length self.old.calls.items) (length self.new.calls.items) result }
        ensures time { Elapses (length self.old.calls.items) (length self.new.calls.items) (since_of self.old) (since_of self.new) (images_of self.new) }
        ensures cause { HasCause self.old.faults self.new.faults result }
        ensures fails { FailsAsTold self.old self.new result }
        ensures recorded { OnOk result (self.new.calls.items ≡ self.old.calls.items ++ Call.Length false ∷ []) }
    {
        let failed = self.next_fails();
        record(
            &mut self.calls,
            &mut self.faults,
            failed,
            Call::Length { failed },
        )?;
        Ok(self.bytes.len() as u64)
    }

    fn read(&mut self, at: u64, into: &mut [u8]) -> Result<(), DiskFault>
        requires { at + length into.old ≤ length (contents_of self.old) }
        ensures bytes { OnOk result (into.new ≡ take (length into.old) (drop at (contents_of self.old))) }
        ensures seen { contents_of self.new ≡ contents_of self.old }
        ensures crash { NoMore (images_of self.old) (images_of self.new) }
        ensures clock { Ticks (length self.old.calls.items) (length self.new.calls.items) result }
        ensures time { Elapses (length self.old.calls.items) (length self.new.calls.items) (since_of self.old) (since_of self.new) (images_of self.new) }
        ensures cause { HasCause self.old.faults self.new.faults result }
        ensures fails { FailsAsTold self.old self.new result }
        ensures recorded { OnOk result (self.new.calls.items ≡ self.old.calls.items ++ Call.Read at (length into.old) false ∷ []) }
    {
        let failed = self.next_fails();
        let length = into.len() as u64;
        record(
            &mut self.calls,
            &mut self.faults,
            failed,
            Call::Read { at, length, failed },
        )?;
        let start = at as usize;
        into.copy_from_slice(&self.bytes[start..start + into.len()]);
        Ok(())
    }

    fn write_at(&mut self, at: u64, from: &[u8]) -> Result<(), DiskFault>
        requires { at ≤ length (contents_of self.old) }
        ensures written { OnOk result (contents_of self.new ≡ overlaid (contents_of self.old) at from.now) }
        ensures crash { Follows (Torn at (length from.now)) (images_of self.old) (images_of self.new) }
        ensures clock { Ticks (length self.old.calls.items) (length self.new.calls.items) result }
        ensures time { Elapses (length self.old.calls.items) (length self.new.calls.items) (since_of self.old) (since_of self.new) (images_of self.new) }
        ensures cause { HasCause self.old.faults self.new.faults result }
        ensures fails { FailsAsTold self.old self.new result }
        ensures recorded { OnOk result ((bytes : _) × (bytes.items ≡ from.now) × (self.new.calls.items ≡ self.old.calls.items ++ Call.Write at bytes false ∷ [])) }
    {
        let failed = self.next_fails();
        let written = record_write(
            self.alloc,
            &mut self.bytes,
            &mut self.calls,
            failed,
            at,
            from,
        );
        if failed || written.is_err() {
            count_fault(&mut self.faults);
            return Err(DiskFault);
        }
        Ok(())
    }

    fn sync(&mut self) -> Result<(), DiskFault>
        ensures durable { OnOk result (Only (contents_of self.new) (images_of self.new)) }
        ensures seen { OnOk result (contents_of self.new ≡ contents_of self.old) }
        ensures crash { NoMore (images_of self.old) (images_of self.new) }
        ensures clock { Ticks (length self.old.calls.items) (length self.new.calls.items) result }
        ensures time { Elapses (length self.old.calls.items) (length self.new.calls.items) (since_of self.old) (since_of self.new) (images_of self.new) }
        ensures cause { HasCause self.old.faults self.new.faults result }
        ensures fails { FailsAsTold self.old self.new result }
        ensures recorded { OnOk result (self.new.calls.items ≡ self.old.calls.items ++ Call.Sync false ∷ []) }
    {
        let failed = self.next_fails();
        record(
            &mut self.calls,
            &mut self.faults,
            failed,
            Call::Sync { failed },
        )?;
        Ok(())
    }
}

// Adds a call to the record. It is a fault where it is one that fails, or where the record cannot grow.
fn record(
    calls: &mut Vec<Call>,
    faults: &mut u64,
    failed: bool,
    call: Call,
) -> Result<(), DiskFault>
    ensures ok { OnOk result ((failed ≡ false) × (calls.new.items ≡ calls.old.items ++ call ∷ [])) }
    ensures err { OnErr result ((calls.new.items ≡ calls.old.items) ⊎ ((failed ≡ true) × (calls.new.items ≡ calls.old.items ++ call ∷ []))) }
    ensures cause { HasCause faults.old faults.new result }
{
    let recorded = calls.push(call);
    if failed || recorded.is_err() {
        count_fault(faults);
        return Err(DiskFault);
    }
    Ok(())
}

// Adds a write to the record, and makes it unless it fails.
fn record_write(
    alloc: Global,
    bytes: &mut Vec<u8>,
    calls: &mut Vec<Call>,
    failed: bool,
    at: u64,
    from: &[u8],
) -> Result<(), AllocError>
    requires { at ≤ length bytes.old.items }
    ensures recorded { OnOk result ((v : _) × (v.items ≡ from.now) × (calls.new.items ≡ calls.old.items ++ Call.Write at v failed ∷ [])) }
    ensures kept { ((v : _) × (v.items ≡ from.now) × (calls.new.items ≡ calls.old.items ++ Call.Write at v failed ∷ [])) ⊎ (calls.new.items ≡ calls.old.items) }
    ensures bytes { OnOk result (bytes.new.items ≡ (if failed then bytes.old.items else overlaid bytes.old.items at from.now)) }
    ensures err { OnErr result ((calls.new.items ≡ calls.old.items) × (bytes.new.items ≡ bytes.old.items)) }
{
    bytes.reserve(from.len())?;
    let copy = from.to_vec(alloc)?;
    calls.push(Call::Write {
        at,
        bytes: copy,
        failed,
    })?;
    if !failed {
        overlay(bytes, at as usize, from);
    }
    Ok(())
}

// Writes over what is there and past the end, for which there is room.
pub(crate) fn overlay(bytes: &mut Vec<u8>, at: usize, from: &[u8])
    requires { vec_len bytes.old + length from.now ≤ vec_capacity bytes.old }
    ensures { bytes.new.items ≡ overlaid bytes.old.items at from.now }
{
    let end = at.saturating_add(from.len());
    if end <= bytes.len() {
        bytes[at..end].copy_from_slice(from);
    } else {
        bytes.truncate(at);
        let _ = bytes.extend_from_slice(from);
    }
}
