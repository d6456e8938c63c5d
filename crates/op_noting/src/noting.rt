//! What an act makes of events.
ghost use Rattle.std.specs.Prelude.{◌≡◌, ◌+◌, ◌<◌, ◌≤◌};
ghost use Rattle.op_noting.specs.Touched.{incoming_told, incoming_word as word_of_incoming, outgoing_told, outgoing_word as word_of_outgoing, told_of, events_limit};
ghost use Rattle.op_noting.specs.Kept.{after_act, noted_all, tried_if_due};
ghost use Rattle.op_noting.specs.Laws.{GoesOn};

use crate::touched::{IncomingNow, OutgoingNow, Touched};
use op_hooks::Events;
use op_model::{Act, EventBody, EventRow, EventWord};
use op_time::Moment;

/// Notes the events that an act tells of the payments that it touches, or records its attempt. Where the events are those
/// of a legal history that the act may follow, they are those of the longer one behind it. Takes no memory: an act makes
/// two events at most, and there has to be room for them.
pub fn note_act(events: &mut Events, at: Moment, act: &Act, touched: &Touched)
    requires room { events_limit ≤ events.old.spare }
    ensures value { events.new ≡ after_act events.old at act.now touched.now }
    ensures follows { GoesOn events.old events.new (record { at = at; act = act.now }) touched.now }
    ensures room { events.old.spare ≤ events.new.spare + events_limit }
{
    if let Act::Attempted { event, outcome } = act {
        attempt(events, *event, at, *outcome);
        return;
    }
    note_outgoing(events, at, outgoing_word(act), touched.outgoing);
    note_incoming(events, at, incoming_word(act), touched.incoming);
}

// Records an attempt that is due.
fn attempt(events: &mut Events, event: u64, at: Moment, outcome: u16)
    ensures { events.new ≡ tried_if_due events.old event at outcome }
{
    if events.row(event).is_some() {
        events.attempted(event, at, outcome);
    }
}

fn note_outgoing(
    events: &mut Events,
    at: Moment,
    word: Option<EventWord>,
    payment: Option<OutgoingNow>,
)
    requires { 0 < events.old.spare }
    ensures { events.new ≡ noted_all events.old (told_of (outgoing_told at) word payment) }
{
    if let (Some(word), Some(payment)) = (word, payment) {
        events.note(EventRow {
            at,
            word,
            row: payment.number,
            address: payment.payer,
            body: EventBody::Outgoing {
                debit: payment.debit,
                receive: payment.receive,
                sent: payment.sent,
            },
        });
    }
}

fn note_incoming(
    events: &mut Events,
    at: Moment,
    word: Option<EventWord>,
    payment: Option<IncomingNow>,
)
    requires { 0 < events.old.spare }
    ensures { events.new ≡ noted_all events.old (told_of (incoming_told at) word payment) }
{
    if let (Some(word), Some(payment)) = (word, payment) {
        events.note(EventRow {
            at,
            word,
            row: payment.number,
            address: payment.address,
            body: EventBody::Incoming {
                received: payment.received,
            },
        });
    }
}

// What an act tells of the outgoing payment that it touches.
fn outgoing_word(act: &Act) -> Option<EventWord>
    ensures { result ≡ word_of_outgoing act.now }
{
    match act {
        Act::OutgoingMade { .. } | Act::OutgoingDirect { .. } => Some(EventWord::OutgoingCreated),
        Act::OutgoingCompleted { .. } => Some(EventWord::OutgoingCompleted),
        Act::OutgoingFailed { .. } => Some(EventWord::OutgoingFailed),
        _ => None,
    }
}

// What an act tells of the incoming payment that it touches. A piece tells of it only where it brings it to the bound.
fn incoming_word(act: &Act) -> Option<EventWord>
    ensures { result ≡ word_of_incoming act.now }
{
    match act {
        Act::IncomingMade { .. } => Some(EventWord::IncomingCreated),
        Act::IncomingExpired { .. } => Some(EventWord::IncomingExpired),
        Act::IncomingCompleted { .. } | Act::OutgoingSent { .. } | Act::OutgoingCompleted { .. } =>
            Some(EventWord::IncomingCompleted),
        _ => None,
    }
}
