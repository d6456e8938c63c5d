//! A history that is kept as the bytes of its rounds.

ghost use Rattle.std.specs.Prelude.{◌≡◌, ◌≤◌, ◌<◌, ◌+◌, ◌-◌, ◌*◌, ◌/◌, ◌%◌, ◌^◌, ◌==◌, ◌++◌, ◌∷◌, [], max, length, if◌then◌else◌, Some, None, is_some, IsSome, IfOk, OnOk, OnErr, IsOk, slice_index_or, vec_len, vec_capacity};
ghost use Rattle.op_record.specs.Recordable.{IsWritable, FitsTypes};
ghost use Rattle.op_record.specs.Rounds.{act_in};
ghost use Rattle.op_record.specs.Packing.{PackedValue, payload_of, body_of};
ghost use Rattle.op_record.specs.declared.packed.TheConstants.{STRIDE};
ghost use Rattle.op_record.specs.declared.TheConstants.{ACT_LIMIT};

use crate::lengths::act_length;
use crate::packed_bytes::{CLOSED, put_empty_round, put_in_round};
use crate::packed_reading::entry_in;
use op_model::Entry;
use op_time::Moment;
use std::alloc::{AllocError, Global};
use std::marker::Model;

/// One point for so many entries.
const STRIDE: usize = 16;

/// What a round has beside its entries: a length, the byte 2, a moment and a closed gate.
const FRAME: usize = 14;

/// Where an entry begins, and the moment of its round.
#[derive(Clone, Copy)]
pub(crate) struct Point {
    pub(crate) place: usize,
    pub(crate) moment: u64,
}

/// A history that is kept as the bytes of its rounds, as they stand in a journal. Contracts see the list of its entries,
/// the moment and the entries of the open round, and the spare room.
///
/// An entry is found by a point: there is one for sixteen entries, and the entries behind it are passed one by one.
#[derive(Drop)]
pub struct Packed {
    // A closed gate, and behind it each round: its length, its payload in version 2, and a closed gate.
    bytes: Vec<u8>,
    // The first entry's point, the seventeenth's, and so on.
    points: Vec<Point>,
    count: usize,
    // How many entries there were when the round was opened, and where the length of its payload stands.
    before: usize,
    start: usize,
    moment: Option<Moment>,
    room: usize,
}

impl Model for Packed {
    ghost use Rattle.op_record.specs.Packing.{PackedValue};

    ghost Value = { PackedValue };

    ghost use Rattle.op_record.specs.PackedInside.{IsKept, packed_of};

    ghost view = { packed_of };

    ghost invariant = { IsKept };
}

/// Makes room for so many bytes more, and for the points of as many entries. What there is grows by an eighth at least, so
/// that a long history is not copied at each round.
fn make_room(bytes: &mut Vec<u8>, points: &mut Vec<Point>, space: usize) -> Result<(), AllocError>
    ensures bytes { bytes.new.items ≡ bytes.old.items }
    ensures points { points.new.items ≡ points.old.items }
    ensures room { OnOk result ((vec_len bytes.new + space ≤ vec_capacity bytes.new) × (vec_len points.new + space / STRIDE + 1 ≤ vec_capacity points.new)) }
    ensures kept { vec_capacity bytes.old ≤ vec_capacity bytes.new }
    ensures points_kept { vec_capacity points.old ≤ vec_capacity points.new }
{
    if bytes.capacity() - bytes.len() < space {
        bytes.reserve_exact(space.max(bytes.len() / 8))?;
    }
    points.reserve(space / STRIDE + 1)
}

/// Adds the point of an entry, if it is one that has a point.
fn add_point(points: &mut Vec<Point>, count: usize, place: usize, at: Moment)
    requires { count % STRIDE ≡ 0 → vec_len points.old < vec_capacity points.old }
    ensures added { points.new.items ≡ (if count % STRIDE == 0 then points.old.items ++ record { place = place; moment = at } ∷ [] else points.old.items) }
    ensures kept { vec_capacity points.new ≡ vec_capacity points.old }
{
    if count % STRIDE == 0 {
        points.push_reserved(Point {
            place,
            moment: at.ms(),
        });
    }
}

impl Packed {
    /// A history without entries.
    pub fn new(alloc: Global) -> Result<Packed, AllocError>
        ensures { IfOk result (λ p. p ≡ record { entries = []; moment = None; round = []; room = 0 }) }
    {
        let mut bytes = Vec::new(alloc);
        bytes.push(CLOSED)?;
        Ok(Packed {
            bytes,
            points: Vec::new(alloc),
            count: 0,
            before: 0,
            start: 0,
            moment: None,
            room: 0,
        })
    }

    /// Whether a round is open.
    pub fn is_open(&self) -> bool
        ensures { result ≡ is_some self.now.moment }
    {
        self.moment.is_some()
    }

    /// How many entries there are: fewer than 2^63, since each takes a byte at least.
    pub fn count(&self) -> u64
        ensures value { result ≡ length self.now.entries }
        ensures few { result < 2 ^ 63 }
    {
        self.count as u64
    }

    /// Opens a round without entries at this moment, with room for so many bytes of entries without their moments. No round
    /// is open. An `Err` changes nothing, and comes only where memory is refused.
    pub fn open_round(&mut self, t: Moment, room: usize) -> Result<(), AllocError>
        requires { self.old.moment ≡ None }
        ensures ok { OnOk result (self.new ≡ record { entries = self.old.entries; moment = Some t; round = []; room = room }) }
        ensures err { OnErr result (self.new ≡ self.old) }
    {
        make_room(
            &mut self.bytes,
            &mut self.points,
            room.saturating_add(FRAME),
        )?;
        self.start = self.bytes.len();
        put_empty_round(&mut self.bytes, t);
        self.before = self.count;
        self.moment = Some(t);
        self.room = room;
        Ok(())
    }

    /// Makes the spare room at least so many bytes of entries without their moments. A round is open. An `Err` changes
    /// nothing, and comes only where memory is refused.
    pub fn reserve(&mut self, room: usize) -> Result<(), AllocError>
        requires { IsSome self.old.moment }
        ensures ok { OnOk result (self.new ≡ record { entries = self.old.entries; moment = self.old.moment; round = self.old.round; room = max self.old.room room }) }
        ensures err { OnErr result (self.new ≡ self.old) }
        ensures enough { room ≤ self.old.room → IsOk result }
    {
        if room > self.room {
            make_room(&mut self.bytes, &mut self.points, room)?;
            self.room = room;
        }
        Ok(())
    }

    /// Puts an entry behind the others. A round is open, and the entry has its moment; the entry's texts are within their
    /// limits, and its items, numbers and outcome are those of a record. It takes no memory where the spare room covers
    /// `entry_length` less 8, at most `ACT_LIMIT`, and lowers the room by that. An `Err` changes nothing, and comes only where memory is refused.
    pub fn push(&mut self, entry: &Entry) -> Result<(), AllocError>
        requires round { self.old.moment ≡ Some entry.now.at }
        requires writable { IsWritable entry.now }
        requires fits { FitsTypes entry.now }
        ensures ok { OnOk result (self.new ≡ record { entries = self.old.entries ++ entry.now ∷ []; moment = self.old.moment; round = self.old.round ++ entry.now ∷ []; room = self.old.room - length (act_in entry.now) }) }
        ensures err { OnErr result (self.new ≡ self.old) }
        ensures room { length (act_in entry.now) ≤ self.old.room → IsOk result }
        ensures short { length (act_in entry.now) ≤ ACT_LIMIT }
    {
        let taken = act_length(&entry.act);
        self.reserve(taken)?;
        self.put(entry, taken);
        Ok(())
    }

    // Puts an entry where there is room for it.
    fn put(&mut self, entry: &Entry, taken: usize)
        requires round { self.old.moment ≡ Some entry.now.at }
        requires writable { IsWritable entry.now }
        requires fits { FitsTypes entry.now }
        requires taken { taken ≡ length (act_in entry.now) }
        requires room { taken ≤ self.old.room }
        ensures { self.new ≡ record { entries = self.old.entries ++ entry.now ∷ []; moment = self.old.moment; round = self.old.round ++ entry.now ∷ []; room = self.old.room - taken } }
    {
        let place = self.bytes.len() - 1;
        put_in_round(&mut self.bytes, self.start, &entry.act);
        add_point(&mut self.points, self.count, place, entry.at);
        self.count += 1;
        self.room -= taken;
    }

    /// What a commit asks for: the length of the open round's payload in four bytes, the payload in version 2, and a closed
    /// gate. The open round has an entry, and its payload has fewer than 2^32 bytes.
    pub fn body(&self) -> &[u8]
        requires some { 0 < length self.now.round }
        requires small { length (payload_of self.now) < 2 ^ 32 }
        ensures { result.now ≡ body_of (payload_of self.now) }
    {
        &self.bytes[self.start..]
    }

    /// Closes the open round. One without entries leaves nothing.
    pub fn close(&mut self)
        requires { IsSome self.old.moment }
        ensures { self.new ≡ record { entries = self.old.entries; moment = None; round = []; room = self.old.room } }
    {
        self.moment = None;
        if self.before < self.count {
            return;
        }
        self.bytes.truncate(self.start);
    }

    /// The entry at this place, the first being 1. At most fifteen entries before it are passed, wherever it stands. Its
    /// texts are kept on the heap.
    pub fn entry_at(&self, alloc: Global, place: u64) -> Result<Entry, AllocError>
        requires low { 1 ≤ place }
        requires high { place ≤ length self.now.entries }
        ensures { IfOk result (λ entry. entry ≡ slice_index_or self.now.entries (place - 1) entry) }
    {
        let index = (place - 1) as usize;
        let point = self.points[index / STRIDE];
        let (_, rest) = self.bytes.as_slice().split_at(point.place);
        entry_in(alloc, rest, point.moment, index % STRIDE)
    }
}
