//! The desk over a disk in memory. Expected bytes are written down by hand from the layout of the journal and of records.
ghost use Rattle.std.specs.Prelude.{List, IsTrue};
ghost use Rattle.op_model.specs.Legal.{is_proper};
ghost use Rattle.op_model.specs.declared.act.Entry.{Entry};
ghost use Rattle.op_desk.specs.Built.{is_built_task};

use crate::{Committed, Desk, DeskFault, RoundFault};
use op_amount::{Asset, AssetCode};
use op_disk::MemoryDisk;
use op_model::{Request, Task, Verdict};
use op_pricing::{OnePercent, PriceHook};
use op_time::Moment;
use std::alloc::{AllocError, Global};

/// 2024-03-01T12:00:00.000Z
const NOON: u64 = 1_709_294_400_000;

const FRESH: &[u8] = b"OPWJ\x00\x00\x00\x01\x00";

/// The journal after USD with scale 2 was added at noon.
const ADDED: &[u8] =
    b"OPWJ\x00\x00\x00\x01\x01\x00\x00\x00\x11\x02\x00\x00\x01\x8d\xf9\xe2\xb2\x00\x02\x00\x03USD\x02\x01\x00";

/// And EUR behind it.
const BOTH: &[u8] =
    b"OPWJ\x00\x00\x00\x01\x01\x00\x00\x00\x11\x02\x00\x00\x01\x8d\xf9\xe2\xb2\x00\x02\x00\x03USD\x02\x01\x01\x00\x00\x00\x11\x02\x00\x00\x01\x8d\xf9\xe2\xb2\x00\x02\x00\x03EUR\x02\x01\x00";

/// The journal with USD in a round of version 1.
const OLD: &[u8] =
    b"OPWJ\x00\x00\x00\x01\x01\x00\x00\x00\x10\x00\x00\x01\x8d\xf9\xe2\xb2\x00\x02\x00\x03USD\x02\x01\x00";

/// And EUR behind it, in a round of version 2.
const CONTINUED: &[u8] =
    b"OPWJ\x00\x00\x00\x01\x01\x00\x00\x00\x10\x00\x00\x01\x8d\xf9\xe2\xb2\x00\x02\x00\x03USD\x02\x01\x01\x00\x00\x00\x11\x02\x00\x00\x01\x8d\xf9\xe2\xb2\x00\x02\x00\x03EUR\x02\x01\x00";

/// A disk of these bytes on which the call of this number fails.
fn disk(alloc: Global, bytes: &[u8], fails: u64) -> Result<MemoryDisk, AllocError> {
    let contents = Vec::from_slice(alloc, bytes)?;
    let numbers = Vec::from_slice(alloc, &[fails])?;
    MemoryDisk::new(alloc, contents, numbers)
}

/// The request that adds an asset with scale 2.
fn request(code: AssetCode) -> Task
    ensures built { IsTrue (is_built_task result) }
    ensures proper { (history : List Entry) → IsTrue (is_proper history result) }
{
    let _is_code = code.as_bytes();
    Task::Ask {
        request: Request::AddAsset {
            asset: Asset { code, scale: 2 },
            pieces: 1,
        },
        verdict: Verdict {
            client: None,
            proved: false,
            token: None,
        },
    }
}

/// Opens the journal, and adds an asset in a round of one task at noon.
fn add(
    alloc: Global,
    disk: &mut MemoryDisk,
    code: AssetCode,
) -> Result<Result<Committed, RoundFault>, DeskFault> {
    let mut desk = Desk::recover(alloc, disk)?;
    let t = desk.wallet().last().later(Moment::at_most_last(NOON));
    let Ok(mut batch) = desk.begin(alloc, t, 1) else {
        return Err(DeskFault::Memory);
    };
    let _reply = batch.act(&[0; 16], &PriceHook::keep(OnePercent), 0, &request(code));
    Ok(desk.close_round(disk, batch))
}

/// How many entries a disk of these bytes spells.
fn count(alloc: Global, bytes: &[u8]) -> Result<u64, DeskFault> {
    let Ok(mut disk) = disk(alloc, bytes, 1000) else {
        return Err(DeskFault::Memory);
    };
    let desk = Desk::recover(alloc, &mut disk)?;
    Ok(desk.wallet().count())
}

#[test]
fn assets_are_added_round_by_round(rt: HostRuntime) {
    let alloc = rt.alloc();
    let (Some(usd), Some(eur)) = (AssetCode::read("USD"), AssetCode::read("EUR")) else {
        assert!(rt; false);
        return;
    };
    let Ok(mut disk) = disk(alloc, b"", 1000) else {
        assert!(rt; false);
        return;
    };
    let first = add(alloc, &mut disk, usd);
    assert!(rt;
        matches!(&first, Ok(Ok(made)) if made.count == 1 && made.places.as_slice() == [0].as_slice())
    );
    assert!(rt; disk.contents() == ADDED);
    let second = add(alloc, &mut disk, eur);
    assert!(rt;
        matches!(&second, Ok(Ok(made)) if made.count == 2 && made.places.as_slice() == [0].as_slice())
    );
    assert!(rt; disk.contents() == BOTH);
    // It is there: a round without entries makes no call but those of the opening, one length, three reads a frame.
    let calls = disk.calls().len();
    let third = add(alloc, &mut disk, eur);
    assert!(rt; matches!(&third, Ok(Ok(made)) if made.count == 2));
    assert!(rt; disk.contents() == BOTH);
    assert!(rt; disk.calls().len() == calls + 3 + 3 + 3 + 1);
}

#[test]
fn a_journal_of_version_1_is_continued_in_place(rt: HostRuntime) {
    let alloc = rt.alloc();
    let Some(eur) = AssetCode::read("EUR") else {
        assert!(rt; false);
        return;
    };
    let Ok(mut disk) = disk(alloc, OLD, 1000) else {
        assert!(rt; false);
        return;
    };
    let answer = add(alloc, &mut disk, eur);
    assert!(rt; matches!(&answer, Ok(Ok(made)) if made.count == 2));
    assert!(rt; OLD.len() == 30 && disk.contents().len() == 52);
    assert!(rt; disk.contents() == CONTINUED);
}

#[test]
fn reading_stops_where_it_first_fails(rt: HostRuntime) {
    let alloc = rt.alloc();
    let good: [(&[u8], u64); 5] = [
        (b"\x00\x00\x00\x00\x00", 0),
        (b"OPWJ\x00\x00\x00\x01\x07\xaa\xbb\xcc", 0),
        (ADDED, 1),
        (BOTH, 2),
        (CONTINUED, 2),
    ];
    for (bytes, entries) in good {
        assert!(rt; matches!(count(alloc, bytes), Ok(found) if found == entries));
    }
    let bad: [(&[u8], DeskFault); 12] = [
        (b"OPWJ\x00\x00\x00\x02\x00\x00", DeskFault::BadHeader),
        (
            b"OPWJ\x00\x00\x00\x01\x01\x00\x00\x00\x00\x00",
            DeskFault::BadFrame { at: 8 },
        ),
        // an act of kind 99, in version 1 and in version 2
        (
            b"OPWJ\x00\x00\x00\x01\x01\x00\x00\x00\x10\x00\x00\x01\x8d\xf9\xe2\xb2\x00\x63\x00\x03USD\x02\x01\x00",
            DeskFault::BadRecord { at: 21 },
        ),
        (
            b"OPWJ\x00\x00\x00\x01\x01\x00\x00\x00\x11\x02\x00\x00\x01\x8d\xf9\xe2\xb2\x00\x63\x00\x03USD\x02\x01\x00",
            DeskFault::BadRecord { at: 22 },
        ),
        // a round without its last byte, in both versions
        (
            b"OPWJ\x00\x00\x00\x01\x01\x00\x00\x00\x0f\x00\x00\x01\x8d\xf9\xe2\xb2\x00\x02\x00\x03USD\x02\x00",
            DeskFault::BadRecord { at: 28 },
        ),
        (
            b"OPWJ\x00\x00\x00\x01\x01\x00\x00\x00\x10\x02\x00\x00\x01\x8d\xf9\xe2\xb2\x00\x02\x00\x03USD\x02\x00",
            DeskFault::BadRecord { at: 29 },
        ),
        // a payload of a version that there is not
        (
            b"OPWJ\x00\x00\x00\x01\x01\x00\x00\x00\x11\x03\x00\x00\x01\x8d\xf9\xe2\xb2\x00\x02\x00\x03USD\x02\x01\x00",
            DeskFault::BadRecord { at: 13 },
        ),
        // USD twice, in two rounds and in one
        (
            b"OPWJ\x00\x00\x00\x01\x01\x00\x00\x00\x10\x00\x00\x01\x8d\xf9\xe2\xb2\x00\x02\x00\x03USD\x02\x01\x01\x00\x00\x00\x10\x00\x00\x01\x8d\xf9\xe2\xb2\x00\x02\x00\x03USD\x02\x01\x00",
            DeskFault::Illegal { place: 2 },
        ),
        (
            b"OPWJ\x00\x00\x00\x01\x01\x00\x00\x00\x19\x02\x00\x00\x01\x8d\xf9\xe2\xb2\x00\x02\x00\x03USD\x02\x01\x02\x00\x03USD\x02\x01\x00",
            DeskFault::Illegal { place: 2 },
        ),
        // USD twice in one round, and kind 99 behind it: a payload is read before its entries are looked at
        (
            b"OPWJ\x00\x00\x00\x01\x01\x00\x00\x00\x1a\x02\x00\x00\x01\x8d\xf9\xe2\xb2\x00\x02\x00\x03USD\x02\x01\x02\x00\x03USD\x02\x01\x63\x00",
            DeskFault::BadRecord { at: 38 },
        ),
        // EUR a millisecond before USD
        (
            b"OPWJ\x00\x00\x00\x01\x01\x00\x00\x00\x11\x02\x00\x00\x01\x8d\xf9\xe2\xb2\x00\x02\x00\x03USD\x02\x01\x01\x00\x00\x00\x11\x02\x00\x00\x01\x8d\xf9\xe2\xb1\xff\x02\x00\x03EUR\x02\x01\x00",
            DeskFault::Illegal { place: 2 },
        ),
        // 65 pieces
        (
            b"OPWJ\x00\x00\x00\x01\x01\x00\x00\x00\x11\x02\x00\x00\x01\x8d\xf9\xe2\xb2\x00\x02\x00\x03USD\x02\x41\x00",
            DeskFault::Illegal { place: 1 },
        ),
    ];
    for (bytes, fault) in bad {
        assert!(rt; matches!(count(alloc, bytes), Err(found) if found == fault));
    }
}

// A fresh journal takes five calls, and the commit's four are those from 5 to 8; 9 fails none of them. Of what was not
// synced an image has the old bytes, the new ones, or 255.
#[test]
fn a_stop_within_a_round_leaves_the_old_history_or_the_whole_round(rt: HostRuntime) {
    let alloc = rt.alloc();
    let ones = [255; 31];
    let rows: [(u64, &[u8], u64); 12] = [
        (5, FRESH, 0),
        (5, ADDED, 0),
        (5, &ones, 0),
        (6, FRESH, 0),
        (6, ADDED, 0),
        (6, &ones, 0),
        (7, FRESH, 0),
        (7, ADDED, 1),
        (7, &ones, 0),
        (8, FRESH, 0),
        (8, ADDED, 1),
        (9, &ones, 1),
    ];
    let Some(usd) = AssetCode::read("USD") else {
        assert!(rt; false);
        return;
    };
    for (fails, wanted, entries) in rows {
        let Ok(mut disk) = disk(alloc, b"", fails) else {
            assert!(rt; false);
            return;
        };
        let answer = add(alloc, &mut disk, usd);
        assert!(rt; matches!(&answer, Ok(Ok(_))) == (fails == 9));
        assert!(rt; matches!(&answer, Ok(Err(RoundFault::DiskFault))) == (fails < 9));
        let Ok(image) = disk.image(wanted) else {
            assert!(rt; false);
            return;
        };
        assert!(rt; matches!(count(alloc, &image), Ok(found) if found == entries));
    }
}
