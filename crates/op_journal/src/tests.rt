use super::*;
use op_disk::{Disk, MemoryDisk};
use std::alloc::Global;

// The frames that a disk of these bytes gives, joined by `/`, and its bytes after that.
fn opened(alloc: Global, bytes: &[u8]) -> Result<(Vec<u8>, Vec<u8>), JournalFault> {
    let mut disk = MemoryDisk::new(alloc, bytes.to_vec(alloc)?, Vec::new(alloc))?;
    let mut recovery = Recovery::begin(&mut disk)?;
    let mut payload = Vec::new(alloc);
    let mut frames = Vec::new(alloc);
    for _ in 0..9 {
        if !recovery.next_frame(alloc, &mut disk, &mut payload)? {
            break;
        }
        frames.extend_from_slice(&payload)?;
        frames.extend_from_slice(b"/")?;
    }
    Ok((frames, disk.contents().to_vec(alloc)?))
}

// The bytes are written down by hand from the layout: header, gate, length, payload.
#[test]
fn reads_whole_frames_and_refuses_others(rt: HostRuntime) {
    let alloc = rt.alloc();
    let fresh = b"OPWJ\x00\x00\x00\x01\x00";
    let two = b"OPWJ\x00\x00\x00\x01\x01\x00\x00\x00\x02ab\x01\x00\x00\x00\x01c\x00rest";
    let good: [(&[u8], &[u8], &[u8]); 4] = [
        (b"\x00\x00\x00\x00\x00", b"", fresh),
        (b"OPWJ\x00\x00\x00\x02\x01", b"", fresh),
        (
            b"OPWJ\x00\x00\x00\x01\x07\xaa\xbb\xcc",
            b"",
            b"OPWJ\x00\x00\x00\x01\x07\xaa\xbb\xcc",
        ),
        (two, b"ab/c/", two),
    ];
    for (bytes, frames, after) in good {
        let answer = opened(alloc, bytes);
        assert!(rt;
            matches!(&answer, Ok((found, left)) if found.as_slice() == frames && left.as_slice() == after)
        );
    }
    let bad: [(&[u8], JournalFault); 5] = [
        (b"OPWJ\x00\x00\x00\x02\x00\x00", JournalFault::BadHeader),
        (
            b"OPWJ\x00\x00\x00\x01\x01\x00\x00\x00\x00\x00",
            JournalFault::BadFrame { at: 8 },
        ),
        (
            b"OPWJ\x00\x00\x00\x01\x01\xff\xff\xff\xff\x00",
            JournalFault::BadFrame { at: 8 },
        ),
        (
            b"OPWJ\x00\x00\x00\x01\x01\x00\x00\x00\x01a",
            JournalFault::BadFrame { at: 8 },
        ),
        (
            b"OPWJ\x00\x00\x00\x01\x01\x00\x00\x00\x01a\x01\x00",
            JournalFault::BadFrame { at: 14 },
        ),
    ];
    for (bytes, fault) in bad {
        assert!(rt; matches!(opened(alloc, bytes), Err(found) if found == fault));
    }
}

// A fresh disk on which the call of this number fails, after one commit of the payload `a`.
fn committed(
    alloc: Global,
    fails: u64,
) -> Result<(MemoryDisk, Result<(), CommitFault>), JournalFault> {
    let mut disk = MemoryDisk::new(alloc, Vec::new(alloc), [fails].to_vec(alloc)?)?;
    let mut recovery = Recovery::begin(&mut disk)?;
    let mut payload = Vec::new(alloc);
    if recovery.next_frame(alloc, &mut disk, &mut payload)? {
        return Err(JournalFault::Memory);
    }
    let mut journal = recovery.finish();
    let answer = journal.commit(&mut disk, b"\x00\x00\x00\x01a\x00");
    Ok((disk, answer))
}

// A fresh journal takes five calls, and the commit's four are those from 5 to 8; 9 fails none of them.
#[test]
fn a_stop_within_a_commit_leaves_the_old_frames_or_one_more(rt: HostRuntime) {
    let alloc = rt.alloc();
    let done = b"OPWJ\x00\x00\x00\x01\x01\x00\x00\x00\x01a\x00";
    let none = [0; 15];
    let ones = [1; 15];
    let rows: [(u64, &[u8], &[u8]); 9] = [
        (5, done, b""),
        (5, &ones, b""),
        (6, done, b""),
        (6, &ones, b""),
        (7, &none, b""),
        (7, done, b"a/"),
        (8, &none, b""),
        (8, done, b"a/"),
        (9, &none, b"a/"),
    ];
    for (fails, wanted, frames) in rows {
        let Ok((disk, answer)) = committed(alloc, fails) else {
            assert!(rt; false);
            return;
        };
        assert!(rt; answer.is_ok() == (fails == 9));
        let Ok(image) = disk.image(wanted) else {
            assert!(rt; false);
            return;
        };
        let answer = opened(alloc, &image);
        assert!(rt; matches!(&answer, Ok((found, _)) if found.as_slice() == frames));
    }
}
