//! Records whose bytes come from outside: the tables are those that scripts/records.py prints.

ghost use Rattle.std.specs.Prelude.{◌<◌};

use crate::{RecordFault, entry_length, read_entry, write_entry};
use op_model::{Act, CodeText, Entry};
use op_time::Moment;
use std::alloc::{AllocError, Global};
use std::process::Abort;
use std::test::Fail;

/// Every kind in its smallest form, and then in its largest: bytes in hexadecimal, `*` before how often they stand.
const ROWS: [&str; 48] = [
    "00*8 01 0000",
    "00*8 02 0000 00 00",
    "00*8 03 0000 00*4 00",
    "00*8 04 0000 01 00*4 00*8",
    "00*8 05 0000 01 00*4 00*8",
    "00*8 06 00*4 00*4 00*8 00*8",
    "00*8 07 00*8 00*4 00 00*8 00",
    "00*8 08 00*8 00*8",
    "00*8 09 00*8",
    "00*8 0a 00*8 00*4 00*8 01 00*8 00*8 00*8 00*8 00*8 00*8 00*8",
    "00*8 0b 0000 01 01 01 00 00 00 a5*16",
    "00*8 0c 00*8 a5*16",
    "00*8 0d 00*8 a5*16",
    "00*8 0e 00*8",
    "00*8 0f 00*8 a5*16",
    "00*8 10 00*8",
    "00*8 11 00*8 a5*16",
    "00*8 12 00*8",
    "00*8 13 00*8 00*8 00",
    "00*8 14 00*8 00*8",
    "00*8 15 00*8 00*8",
    "00*8 16 00*8 00*8",
    "00*8 17 00*8 00*8 01",
    "00*8 18 00*8 0000",
    "0000e677d21fdbff 01 00c8 68*200",
    "0000e677d21fdbff 02 0008 ff*8 ff ff",
    "0000e677d21fdbff 03 0080 2f*128 ff*4 01 0080 c3*128",
    "0000e677d21fdbff 04 0040 7e*64 03 ff*4 ff*8",
    "0000e677d21fdbff 05 0040 7e*64 03 ff*4 ff*8",
    "0000e677d21fdbff 06 ff*4 ff*4 ff*8 ff*8",
    "0000e677d21fdbff 07 ff*8 ff*4 01 ff*8 0000e677d21fdbff 01 0400 7b*1024",
    "0000e677d21fdbff 08 ff*8 ff*8",
    "0000e677d21fdbff 09 ff*8",
    "0000e677d21fdbff 0a ff*8 ff*4 ff*8 03 ff*8 ff*8 ff*8 ff*8 ff*8 ff*8 ff*8",
    "0000e677d21fdbff 0b 0100 63*256 03 01 3f 01 ff*4 01 01 ff*8 02 ff*4 ff*8 01 0080 50*128 02 0d 01 ff*4 01 01 ff*8 02 ff*4 ff*8 01 0080 50*128 03 3d 01 ff*4 01 01 ff*8 02 ff*4 ff*8 01 0080 50*128 01 0200 75*512 0080 6e*128 a5*16",
    "0000e677d21fdbff 0c ff*8 a5*16",
    "0000e677d21fdbff 0d ff*8 a5*16",
    "0000e677d21fdbff 0e ff*8",
    "0000e677d21fdbff 0f ff*8 a5*16",
    "0000e677d21fdbff 10 ff*8",
    "0000e677d21fdbff 11 ff*8 a5*16",
    "0000e677d21fdbff 12 ff*8",
    "0000e677d21fdbff 13 ff*8 ff*8 01 0400 7b*1024",
    "0000e677d21fdbff 14 ff*8 ff*8",
    "0000e677d21fdbff 15 ff*8 ff*8",
    "0000e677d21fdbff 16 ff*8 ff*8",
    "0000e677d21fdbff 17 ff*8 ff*8 03",
    "0000e677d21fdbff 18 ff*8 03e7",
];

/// Records, and for each place where some byte is wrong the least and the greatest such byte.
const WRONG: [(&str, &[(usize, u8)]); 11] = [
    (
        "0000e677d21fdbff 01 00c8 68*200",
        &[
            (0, 1),
            (0, 255),
            (1, 1),
            (1, 255),
            (2, 231),
            (2, 255),
            (3, 120),
            (3, 255),
            (4, 211),
            (4, 255),
            (5, 32),
            (5, 255),
            (6, 220),
            (6, 255),
            (8, 0),
            (8, 255),
            (9, 1),
            (9, 255),
            (10, 201),
            (10, 255),
        ],
    ),
    (
        "0000e677d21fdbff 02 0008 ff*8 ff ff",
        &[(9, 1), (9, 255), (10, 9), (10, 255)],
    ),
    (
        "0000e677d21fdbff 03 0080 2f*128 ff*4 01 0080 c3*128",
        &[
            (9, 1),
            (9, 255),
            (10, 129),
            (10, 255),
            (143, 2),
            (143, 255),
            (144, 1),
            (144, 255),
            (145, 129),
            (145, 255),
        ],
    ),
    (
        "0000e677d21fdbff 04 0040 7e*64 03 ff*4 ff*8",
        &[(9, 1), (9, 255), (10, 65), (10, 255), (75, 0), (75, 255)],
    ),
    (
        "0000e677d21fdbff 05 0040 7e*64 03 ff*4 ff*8",
        &[(9, 1), (9, 255), (10, 65), (10, 255), (75, 0), (75, 255)],
    ),
    (
        "0000e677d21fdbff 07 ff*8 ff*4 01 ff*8 0000e677d21fdbff 01 0400 7b*1024",
        &[
            (21, 2),
            (21, 255),
            (30, 1),
            (30, 255),
            (31, 1),
            (31, 255),
            (32, 231),
            (32, 255),
            (33, 120),
            (33, 255),
            (34, 211),
            (34, 255),
            (35, 32),
            (35, 255),
            (36, 220),
            (36, 255),
            (38, 2),
            (38, 255),
            (39, 5),
            (39, 255),
            (40, 1),
            (40, 255),
        ],
    ),
    (
        "0000e677d21fdbff 0a ff*8 ff*4 ff*8 03 ff*8 ff*8 ff*8 ff*8 ff*8 ff*8 ff*8",
        &[(29, 0), (29, 255)],
    ),
    (
        "0000e677d21fdbff 0b 0100 63*256 03 01 3f 01 ff*4 01 01 ff*8 02 ff*4 ff*8 01 0080 50*128 02 0d 01 ff*4 01 01 ff*8 02 ff*4 ff*8 01 0080 50*128 03 3d 01 ff*4 01 01 ff*8 02 ff*4 ff*8 01 0080 50*128 01 0200 75*512 0080 6e*128 a5*16",
        &[
            (9, 2),
            (9, 255),
            (10, 1),
            (10, 255),
            (267, 0),
            (267, 255),
            (268, 0),
            (268, 255),
            (269, 0),
            (269, 255),
            (270, 2),
            (270, 255),
            (275, 2),
            (275, 255),
            (276, 2),
            (276, 255),
            (285, 3),
            (285, 255),
            (298, 2),
            (298, 255),
            (299, 1),
            (299, 255),
            (300, 129),
            (300, 255),
            (429, 0),
            (429, 255),
            (430, 0),
            (430, 255),
            (431, 2),
            (431, 255),
            (436, 2),
            (436, 255),
            (437, 2),
            (437, 255),
            (446, 3),
            (446, 255),
            (459, 2),
            (459, 255),
            (460, 1),
            (460, 255),
            (461, 129),
            (461, 255),
            (590, 0),
            (590, 255),
            (591, 0),
            (591, 255),
            (592, 2),
            (592, 255),
            (597, 2),
            (597, 255),
            (598, 2),
            (598, 255),
            (607, 3),
            (607, 255),
            (620, 2),
            (620, 255),
            (621, 1),
            (621, 255),
            (622, 129),
            (622, 255),
            (751, 2),
            (751, 255),
            (752, 3),
            (752, 255),
            (753, 1),
            (753, 255),
            (1266, 1),
            (1266, 255),
            (1267, 129),
            (1267, 255),
        ],
    ),
    (
        "0000e677d21fdbff 13 ff*8 ff*8 01 0400 7b*1024",
        &[(25, 2), (25, 255), (26, 5), (26, 255), (27, 1), (27, 255)],
    ),
    ("0000e677d21fdbff 17 ff*8 ff*8 03", &[(25, 0), (25, 255)]),
    (
        "0000e677d21fdbff 18 ff*8 03e7",
        &[(17, 4), (17, 255), (18, 232), (18, 255)],
    ),
];

fn digit(letter: u8) -> u8
    ensures { result < 16 }
{
    match letter {
        b'0'..=b'9' => letter - b'0',
        b'a'..=b'f' => letter - b'a' + 10,
        _ => 0,
    }
}

fn push_pairs(out: &mut Vec<u8>, digits: &[u8]) -> Result<(), AllocError> {
    for pair in digits.chunks(2) {
        if let [high, low] = pair {
            out.push(digit(*high) * 16 + digit(*low))?;
        }
    }
    Ok(())
}

pub(crate) fn spelled(alloc: Global, pieces: &str) -> Result<Vec<u8>, AllocError> {
    let mut out = Vec::new(alloc);
    for piece in pieces.split(' ') {
        let (digits, times) = match piece.split_once('*') {
            Some((digits, times)) => (digits, times.parse::<u16>().unwrap_or(0)),
            None => (piece, 1),
        };
        for _ in 0..times {
            push_pairs(&mut out, digits.as_bytes())?;
        }
    }
    Ok(out)
}

/// The record is read whole whatever follows, is written again as it was, and each part of it is too short.
fn expect_record(rt: &impl Abort, alloc: Global, record: &[u8]) -> Result<(), Fail> {
    for end in 0..record.len() {
        let cut = read_entry(alloc, &record[..end]).map(|found| found.1);
        assert!(rt; cut == Err(RecordFault::Short), "up to {end}");
    }
    let mut more = Vec::from_slice(alloc, record)?;
    more.push(0)?;
    match read_entry(alloc, &more) {
        Ok((entry, taken)) => {
            assert!(rt; taken == record.len());
            assert!(rt; entry_length(&entry) == record.len());
            let mut out = Vec::new(alloc);
            write_entry(&entry, &mut out)?;
            assert!(rt; out.as_slice() == record);
        }
        Err(_) => assert!(rt; false),
    }
    Ok(())
}

#[test]
fn every_kind_and_every_cut(rt: HostRuntime) -> Result<(), Fail> {
    for pieces in ROWS {
        let record = spelled(rt.alloc(), pieces)?;
        expect_record(&rt, rt.alloc(), &record)?;
    }
    Ok(())
}

#[test]
fn wrong_bytes_at_their_places(rt: HostRuntime) -> Result<(), Fail> {
    for (pieces, places) in WRONG {
        for (place, byte) in places {
            let mut record = spelled(rt.alloc(), pieces)?;
            assert!(rt; *place < record.len());
            record[*place] = *byte;
            let found = read_entry(rt.alloc(), &record).map(|found| found.1);
            let at = *place as u64;
            assert!(rt;
                found == Err(RecordFault::Bad { at }),
                "{pieces} at {place}"
            );
        }
    }
    Ok(())
}

#[test]
fn a_dollar_asset_in_hexadecimal(rt: HostRuntime) -> Result<(), Fail> {
    let code = CodeText::from_bytes(b"USD").ok_or("a code")?;
    let act = Act::AssetAdded {
        code,
        scale: 2,
        pieces: 1,
    };
    let entry = Entry {
        at: Moment::at_most_last(1_709_294_400_000),
        act,
    };
    let mut out = Vec::new(rt.alloc());
    write_entry(&entry, &mut out)?;
    let wanted = spelled(rt.alloc(), "0000018df9e2b200 02 0003 555344 02 01")?;
    assert!(rt; out.as_slice() == wanted.as_slice());
    Ok(())
}
