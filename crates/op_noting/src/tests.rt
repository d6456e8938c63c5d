//! What acts make of events and feeds.

use crate::{IncomingNow, OutgoingNow, Touched, due_hooks, note_act, note_ended};
use op_amount::{Amount, Asset, AssetCode};
use op_hooks::Events;
use op_model::{Act, MetaText, OutgoingRow, PaymentState, Terms};
use op_pages::Feeds;
use op_time::Moment;
use std::process::Abort;
use std::test::Fail;

fn cents(value: u64) -> Option<Amount> {
    let code = AssetCode::read("USD")?;
    Some(Amount {
        value,
        asset: Asset { code, scale: 2 },
    })
}

// Payment 4, of 10.10 for 10.00, which fills incoming payment 7.
fn both() -> Option<Touched> {
    Some(Touched {
        incoming: Some(IncomingNow {
            number: 7,
            address: 2,
            received: cents(1000)?,
        }),
        outgoing: Some(OutgoingNow {
            number: 4,
            payer: 1,
            debit: cents(1010)?,
            receive: cents(1000)?,
            sent: cents(1000)?,
        }),
    })
}

fn expect_event(rt: &impl Abort, events: &Events, n: u64, row: u64, address: u32) {
    match events.row(n) {
        Some(event) => {
            assert_eq!(rt; event.row, row);
            assert_eq!(rt; event.address, address);
        }
        None => assert!(rt; false),
    }
}

#[test]
fn last_piece_tells_its_payment_and_then_the_filled_one(rt: HostRuntime) -> Result<(), Fail> {
    let mut events = Events::new(rt.alloc());
    events.reserve(4)?;
    let t = Moment::at_most_last(1000);
    let completed = Act::OutgoingCompleted {
        payment: 4,
        step: 2,
    };
    note_act(&mut events, t, &completed, &both().ok_or("no amounts")?);
    assert_eq!(rt; events.count(), 2);
    expect_event(&rt, &events, 1, 4, 1);
    expect_event(&rt, &events, 2, 7, 2);
    let taken = Act::Attempted {
        event: 1,
        outcome: 200,
    };
    let none = Touched {
        incoming: None,
        outgoing: None,
    };
    note_act(&mut events, t, &taken, &none);
    let mut due = Vec::new(rt.alloc());
    due_hooks(rt.alloc(), &events, t, &mut due)?;
    assert!(rt; due.as_slice() == [2].as_slice());
    Ok(())
}

// A payment of 10.00 from address 1 that failed when so many cents were sent, with a page.
fn failed(sent: u64, metadata: MetaText) -> OutgoingRow {
    OutgoingRow {
        grant: 3,
        quote: Some(1),
        made: Moment::at_most_last(0),
        expiry: Moment::at_most_last(300_000),
        terms: Terms {
            payer: 1,
            payee: 2,
            incoming: 7,
            debit: 1010,
            source: 1000,
            fee: 10,
            receive: 1000,
            num: 1,
            den: 1,
            piece: 500,
        },
        metadata: Some(metadata),
        state: PaymentState::Failed,
        step: 2,
        sent,
        fee: 5,
        delivered: sent,
        reason: 3,
    }
}

#[test]
fn feed_tells_what_was_sent_of_a_failed_payment(rt: HostRuntime) -> Result<(), Fail> {
    let mut feeds = Feeds::new(rt.alloc());
    let asset = cents(0).ok_or("no amount")?.asset;
    for sent in [0, 500] {
        let Ok(metadata) = MetaText::read(rt.alloc(), b"{\"page\":\"news\"}") else {
            return Err(Fail::from("no metadata"));
        };
        feeds.reserve(1)?;
        note_ended(&mut feeds, &failed(sent, metadata), asset);
    }
    let rows = feeds.feed(rt.alloc(), 1, b"news")?;
    assert_eq!(rt; rows.len(), 1);
    assert_eq!(rt; rows[0].sent.value, 500);
    Ok(())
}
