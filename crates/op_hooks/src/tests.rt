//! When events are due, and the bytes that tell them. The signatures are those of python's hmac.

use crate::{EventBody, EventRow, EventWord, Events, message};
use op_amount::{Amount, Asset, AssetCode};
use op_names::{AddressPath, Origin};
use op_time::Moment;
use std::alloc::{AllocError, Global};
use std::process::Abort;
use std::str;
use std::test::Fail;

/// 2024-03-01T12:00:00Z.
const START: u64 = 1_709_294_400_000;

fn after(ms: u64) -> Moment {
    Moment::at_most_last(START.saturating_add(ms))
}

fn cents(value: u64) -> Option<Amount> {
    let code = AssetCode::read("USD")?;
    Some(Amount {
        value,
        asset: Asset { code, scale: 2 },
    })
}

fn completed() -> Option<EventRow> {
    Some(EventRow {
        at: after(0),
        word: EventWord::IncomingCompleted,
        row: 1,
        address: 1,
        body: EventBody::Incoming {
            received: cents(1000)?,
        },
    })
}

fn failed() -> Option<EventRow> {
    Some(EventRow {
        at: after(0),
        word: EventWord::OutgoingFailed,
        row: 17,
        address: 1,
        body: EventBody::Outgoing {
            debit: cents(1010)?,
            receive: cents(900)?,
            sent: cents(45)?,
        },
    })
}

fn noted(alloc: Global, count: u8) -> Result<Events, Fail> {
    let mut events = Events::new(alloc);
    for _ in 0..count {
        events.reserve(1)?;
        events.note(completed().ok_or("no event")?);
    }
    Ok(events)
}

/// An attempt of event 1, so many milliseconds after it was made.
fn attempt(events: &mut Events, ms: u64, outcome: u16) -> bool {
    if events.row(1).is_none() {
        return false;
    }
    events.attempted(1, after(ms), outcome)
}

fn due(alloc: Global, events: &Events, ms: u64, room: usize) -> Result<Vec<u64>, AllocError> {
    let mut out = Vec::new(alloc);
    out.push(7)?;
    events.due(alloc, after(ms), room, &mut out)?;
    Ok(out)
}

#[test]
fn webhook_retry(rt: HostRuntime) -> Result<(), Fail> {
    let mut events = noted(rt.alloc(), 1)?;
    assert!(rt; attempt(&mut events, 0, 0));
    assert!(rt; due(rt.alloc(), &events, 9_999, 16)?.as_slice() == [7].as_slice());
    assert!(rt; due(rt.alloc(), &events, 10_000, 16)?.as_slice() == [7, 1].as_slice());
    assert!(rt; attempt(&mut events, 10_000, 200));
    assert!(rt; due(rt.alloc(), &events, 1_000_000_000, 16)?.as_slice() == [7].as_slice());
    Ok(())
}

#[test]
fn ten_attempts(rt: HostRuntime) -> Result<(), Fail> {
    let mut events = noted(rt.alloc(), 1)?;
    assert!(rt; attempt(&mut events, 0, 500));
    for ms in [
        10_000u64, 30_000, 70_000, 150_000, 310_000, 630_000, 1_270_000, 2_550_000, 5_110_000,
    ] {
        assert!(rt;
            !attempt(&mut events, ms.saturating_sub(1), 500),
            "before {ms}"
        );
        assert!(rt; attempt(&mut events, ms, 500), "at {ms}");
    }
    assert!(rt; !attempt(&mut events, 1_000_000_000_000, 500));
    Ok(())
}

#[test]
fn outcomes(rt: HostRuntime) -> Result<(), Fail> {
    for (outcome, again) in [
        (0, true),
        (100, true),
        (199, true),
        (200, false),
        (204, false),
        (299, false),
        (300, true),
        (503, true),
    ] {
        let mut events = noted(rt.alloc(), 1)?;
        assert!(rt; attempt(&mut events, 0, outcome), "{outcome}");
        assert_eq!(rt; attempt(&mut events, 10_000, 500), again, "{outcome}");
    }
    Ok(())
}

#[test]
fn first_ones_in_order(rt: HostRuntime) -> Result<(), Fail> {
    let mut events = noted(rt.alloc(), 4)?;
    assert_eq!(rt; events.count(), 4);
    assert!(rt; attempt(&mut events, 0, 204));
    assert!(rt; due(rt.alloc(), &events, 0, 2)?.as_slice() == [7, 2, 3].as_slice());
    assert!(rt; due(rt.alloc(), &events, 0, 16)?.as_slice() == [7, 2, 3, 4].as_slice());
    Ok(())
}

fn expect_message(
    rt: &impl Abort,
    alloc: Global,
    number: u64,
    event: &EventRow,
    text: &str,
) -> Result<(), Fail> {
    let origin = Origin::from_bytes(b"https://wallet.example").ok_or("no origin")?;
    let path = AddressPath::new(Vec::from_slice(alloc, b"/alice")?);
    let secret: [u8; 32] = [
        1, 2, 3, 4, 5, 6, 7, 8, 9, 10, 11, 12, 13, 14, 15, 16, 17, 18, 19, 20, 21, 22, 23, 24, 25,
        26, 27, 28, 29, 30, 31, 32,
    ];
    str::from_utf8(origin.as_bytes())?;
    str::from_utf8(path.bytes())?;
    let bytes = message(alloc, &origin, &path, number, event, after(0), &secret)?;
    assert!(rt; bytes.as_slice() == text.as_bytes(), "event {number}");
    Ok(())
}

#[test]
fn messages(rt: HostRuntime) -> Result<(), Fail> {
    expect_message(
        &rt,
        rt.alloc(),
        2,
        &completed().ok_or("no event")?,
        "POST / HTTP/1.1\r\nconnection: close\r\ncontent-length: 289\r\ncontent-type: application/json\r\nhost: 127.0.0.1\r\nwallet-signature: t=1709294400000, v1=32007583304b9938e2359da077f21c006fc6ffe13ed52e3767a805df0e740b78\r\n\r\n{\"data\":{\"id\":\"https://wallet.example/incoming-payments/00000001-0000-8000-8000-000000000001\",\"receivedAmount\":{\"assetCode\":\"USD\",\"assetScale\":2,\"value\":\"1000\"},\"walletAddress\":\"https://wallet.example/alice\"},\"id\":\"00000005-0000-8000-8000-000000000002\",\"type\":\"incoming_payment.completed\"}",
    )?;
    expect_message(
        &rt,
        rt.alloc(),
        31,
        &failed().ok_or("no event")?,
        "POST / HTTP/1.1\r\nconnection: close\r\ncontent-length: 409\r\ncontent-type: application/json\r\nhost: 127.0.0.1\r\nwallet-signature: t=1709294400000, v1=556b9f473785dbe070c483dbe26a31ffda98cd61da81c8c76cdc62684dff4c36\r\n\r\n{\"data\":{\"debitAmount\":{\"assetCode\":\"USD\",\"assetScale\":2,\"value\":\"1010\"},\"id\":\"https://wallet.example/outgoing-payments/00000003-0000-8000-8000-000000000011\",\"receiveAmount\":{\"assetCode\":\"USD\",\"assetScale\":2,\"value\":\"900\"},\"sentAmount\":{\"assetCode\":\"USD\",\"assetScale\":2,\"value\":\"45\"},\"walletAddress\":\"https://wallet.example/alice\"},\"id\":\"00000005-0000-8000-8000-00000000001f\",\"type\":\"outgoing_payment.failed\"}",
    )
}
