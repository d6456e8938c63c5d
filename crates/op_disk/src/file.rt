// A disk on a file of the system. It tells no bytes: nothing is claimed of what a real file holds.
ghost use Rattle.std.specs.Prelude.{false, [], None, ◌≡◌};
ghost use Rattle.std.proofs.lemmas.Bool.{false≢true};
ghost use Rattle.op_causes.specs.Causes.{HasCause};
ghost use Rattle.op_disk.specs.Calls.{Ticks};

use crate::{Disk, DiskFault};
use op_causes::count_fault;
use std::fs::{self, File, Files, OpenOptions};
use std::io;
use std::os::unix::fs::FileExt;

/// A disk on a file of the system, which it opens and locks at its first call.
///
/// A missing file is created. Before anything of the file is read, asked or written, its exclusive lock is taken (`flock`),
/// and it is kept as long as the disk lives. While another open of the file holds the lock, here or in another process,
/// each call fails, and each one tries again. The lock is advisory: it keeps away only those who ask for it.
///
/// Before the first call goes on, the directory that the file stands in is synced, so that the name of a new file is as
/// durable as its bytes. That holds for the last directory of the path alone: std offers no way to learn whether
/// directories above it were made just now, and nothing at all of what the device under the system keeps.
///
/// It tells no bytes. Each error of the system, a lock that is refused, and a part of the file that cannot be read whole,
/// is a fault and counted.
#[derive(Drop)]
pub struct FileDisk<R: Files<File = File> + Drop> {
    files: R,
    path: String,
    file: Option<File>,
    calls: u64,
    faults: u64,
}

impl<R: Files<File = File> + Drop> FileDisk<R> {
    /// A disk on the file at this path, which is not opened yet: no call was made, and no fault counted.
    pub fn new(files: R, path: String) -> FileDisk<R>
        ensures place { (result.files ≡ files) × (result.path ≡ path) }
        ensures fresh { (result.file ≡ None) × (result.calls ≡ 0) × (result.faults ≡ 0) }
    {
        FileDisk {
            files,
            path,
            file: None,
            calls: 0,
            faults: 0,
        }
    }
}

impl<R: Files<File = File> + Drop> Disk for FileDisk<R> {
    ghost tells = { false };

    ghost seen = { λ _. [] };

    ghost images = { λ _ _. ⊥ };

    ghost moment = { λ s. s.calls };

    ghost since = { λ _ _ _. ⊥ };

    ghost faults = { λ s. s.faults };

    ghost reads_an_image = { λ _ told. absurd (false≢true told) };

    ghost counts_now = { λ _ _ _ _ now. now };

    ghost only_now = { λ _ _ left. left };

    fn length(&mut self) -> Result<u64, DiskFault> {
        let answer = length(&self.files, self.path.as_str(), &mut self.file);
        count(answer, &mut self.calls, &mut self.faults)
    }

    fn read(&mut self, at: u64, into: &mut [u8]) -> Result<(), DiskFault> {
        let answer = read(&self.files, self.path.as_str(), &mut self.file, at, into);
        count(answer, &mut self.calls, &mut self.faults)
    }

    fn write_at(&mut self, at: u64, from: &[u8]) -> Result<(), DiskFault> {
        let answer = write_at(&self.files, self.path.as_str(), &mut self.file, at, from);
        count(answer, &mut self.calls, &mut self.faults)
    }

    fn sync(&mut self) -> Result<(), DiskFault> {
        let answer = sync(&self.files, self.path.as_str(), &mut self.file);
        count(answer, &mut self.calls, &mut self.faults)
    }
}

// Counts a call, and a fault where it failed. The clock's end is a fault too.
fn count<T: Drop>(answer: io::Result<T>, calls: &mut u64, faults: &mut u64) -> Result<T, DiskFault>
    ensures clock { Ticks calls.old calls.new result }
    ensures cause { HasCause faults.old faults.new result }
{
    if let (Ok(value), Some(number)) = (answer, calls.checked_add(1)) {
        *calls = number;
        return Ok(value);
    }
    count_fault(faults);
    Err(DiskFault)
}

fn length<R: Files<File = File>>(
    files: &R,
    path: &str,
    slot: &mut Option<File>,
) -> io::Result<u64> {
    let file = opened(files, path, slot)?;
    Ok(file.metadata()?.len())
}

fn read<R: Files<File = File>>(
    files: &R,
    path: &str,
    slot: &mut Option<File>,
    at: u64,
    into: &mut [u8],
) -> io::Result<()> {
    let file = opened(files, path, slot)?;
    file.read_exact_at(into, at)
}

fn write_at<R: Files<File = File>>(
    files: &R,
    path: &str,
    slot: &mut Option<File>,
    at: u64,
    from: &[u8],
) -> io::Result<()> {
    let file = opened(files, path, slot)?;
    file.write_all_at(from, at)
}

fn sync<R: Files<File = File>>(files: &R, path: &str, slot: &mut Option<File>) -> io::Result<()> {
    let file = opened(files, path, slot)?;
    file.sync_data()
}

// The file, opened and locked where it is not open yet. It is kept only once it is locked: an error closes it again. The
// directory is synced even where the file was there: an earlier run may have created it and stopped before its name was
// durable.
fn opened<'a, R: Files<File = File>>(
    files: &R,
    path: &str,
    slot: &'a mut Option<File>,
) -> io::Result<&'a File> {
    if slot.is_none() {
        let file = OpenOptions::new()
            .read(true)
            .write(true)
            .create(true)
            .open(files, path)?;
        file.try_lock()?;
        File::open(files, directory_of(path))?.sync_all()?;
        *slot = Some(file);
    }
    match slot {
        Some(file) => Ok(file),
        None => Err(io::ErrorKind::NotFound.into()),
    }
}

// The directory in which the path's last name stands.
fn directory_of(path: &str) -> &str {
    match path.rsplit_once('/') {
        Some(("", _)) => "/",
        Some((directory, _)) => directory,
        None => ".",
    }
}

#[cfg(test)]
mod tests {
    use super::*;
    use std::fs;

    // The bytes were written down by hand from the four calls.
    #[test]
    fn keeps_its_bytes_in_a_file(rt: HostRuntime) -> io::Result<()> {
        let path = String::from_str(rt.alloc(), "file_disk_test")?;
        let mut disk = FileDisk::new(rt.clone()?, path);
        let lengths = (disk.length(), disk.write_at(0, b"wallet"), disk.length());
        assert!(rt; lengths == (Ok(0), Ok(()), Ok(6)));
        assert!(rt; disk.write_at(2, b"ter").is_ok() && disk.sync().is_ok());
        let mut found = [0; 4];
        assert!(rt; disk.read(1, &mut found).is_ok() && found == *b"ater");
        assert!(rt; disk.read(5, &mut found) == Err(DiskFault) && disk.faults == 1);
        let kept = fs::read(&rt, "file_disk_test")?;
        assert!(rt; kept.as_slice() == b"watert".as_slice());
        fs::remove_file(&rt, "file_disk_test")
    }

    fn disk_on(rt: &HostRuntime, path: &str) -> io::Result<FileDisk<HostRuntime>> {
        let path = String::from_str(rt.alloc(), path)?;
        Ok(FileDisk::new(rt.clone()?, path))
    }

    #[test]
    fn has_its_file_alone(rt: HostRuntime) -> io::Result<()> {
        let mut first = disk_on(&rt, "file_disk_lock_test")?;
        assert!(rt; first.write_at(0, b"wallet").is_ok());
        let mut second = disk_on(&rt, "file_disk_lock_test")?;
        let mut found = [0; 6];
        assert!(rt; second.length() == Err(DiskFault) && second.faults == 1);
        assert!(rt; second.read(0, &mut found) == Err(DiskFault) && second.faults == 2);
        assert!(rt; second.write_at(0, b"ledger") == Err(DiskFault) && second.faults == 3);
        assert!(rt; second.sync() == Err(DiskFault) && second.faults == 4);
        assert!(rt; second.calls == 0 && found == [0; 6]);
        assert!(rt; first.read(0, &mut found).is_ok() && found == *b"wallet" && first.faults == 0);
        drop(first);
        let mut third = disk_on(&rt, "file_disk_lock_test")?;
        assert!(rt; third.sync().is_ok() && third.length() == Ok(6) && third.faults == 0);
        assert!(rt; second.length() == Err(DiskFault) && second.faults == 5);
        drop(third);
        assert!(rt; second.length() == Ok(6) && second.calls == 1 && second.faults == 5);
        fs::remove_file(&rt, "file_disk_lock_test")
    }
}
