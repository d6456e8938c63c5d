//! The entries of a wallet.

ghost use Rattle.std.specs.Prelude.{◌≡◌, ◌+◌, ◌<◌, ◌≤◌, ◌^◌, ◌*◌, ◌-◌, [], ◌∷◌, ◌++◌, length, IsSome, Some, None, IfOk, OnOk, OnErr, IfSome, slice_index_or};
ghost use Rattle.op_model.specs.History.{last_moment};
ghost use Rattle.op_record.specs.Packing.{payload_of, body_of};
ghost use Rattle.op_record.specs.Recordable.{IsWritable, FitsTypes};
ghost use Rattle.op_record.specs.Rounds.{act_in};
ghost use Rattle.op_wallet.specs.Histories.{HasRoomFor, IsRoomier, with_one, short_entry};

use op_model::Entry;
use op_record::{Packed, entry_length};
use op_time::Moment;
use std::alloc::{AllocError, Global};
use std::marker::Model;

/// The most bytes of an entry of a step, an expiry or an attempt, without its moment.
const SHORT_ENTRY: usize = 26;

/// What the moment of an entry takes in its record.
const MOMENT_LENGTH: usize = 8;

/// A history: its entries, kept as the bytes of their rounds, with the last moment at hand. Contracts see the entries, the
/// open round, and for how many steps, expiries and attempts more there is room.
#[derive(Drop)]
pub struct History {
    packed: Packed,
    last: Moment,
    opened: Option<Moment>,
    spare: usize,
}

impl Model for History {
    ghost use Rattle.op_wallet.specs.Histories.{HistoryValue, history_of, IsKept};

    ghost Value = { HistoryValue };

    ghost view = { history_of };

    ghost invariant = { IsKept };
}

/// The room for so many short entries, and so many bytes beside them. `None` where that is no number of bytes.
fn room_for(spare: usize, taken: usize) -> Option<usize>
    ensures { IfSome result (λ room. room ≡ short_entry * spare + taken) }
{
    SHORT_ENTRY.checked_mul(spare)?.checked_add(taken)
}

impl History {
    /// A history without entries. No round is open.
    pub fn new(alloc: Global) -> Result<History, AllocError>
        ensures { IfOk result (λ h. (h.packed.entries ≡ []) × (h.packed.moment ≡ None) × (h.spare ≡ 0)) }
    {
        Ok(History {
            packed: Packed::new(alloc)?,
            last: Moment::at_most_last(0),
            opened: None,
            spare: 0,
        })
    }

    /// How many entries there are.
    pub fn count(&self) -> u64
        ensures { result ≡ length self.now.packed.entries }
    {
        self.packed.count()
    }

    /// The moment of the last entry, or the first of all.
    pub fn last(&self) -> Moment
        ensures value { result ≡ last_moment self.now.packed.entries }
        ensures later { IfSome self.now.packed.moment (λ t. last_moment self.now.packed.entries ≤ t) }
    {
        self.last
    }

    /// The entry at this place, the first being 1.
    pub fn entry(&self, alloc: Global, place: u64) -> Result<Entry, AllocError>
        requires low { 1 ≤ place }
        requires high { place ≤ length self.now.packed.entries }
        ensures { IfOk result (λ entry. entry ≡ slice_index_or self.now.packed.entries (place - 1) entry) }
    {
        self.packed.entry_at(alloc, place)
    }

    /// Closes the round that is open, if one is, and opens one at this moment. Where memory is short, no round is open, and
    /// the entries are as they were.
    pub fn open_round(&mut self, t: Moment) -> Result<(), AllocError>
        requires later { last_moment self.old.packed.entries ≤ t }
        ensures entries { self.new.packed.entries ≡ self.old.packed.entries }
        ensures ok { OnOk result ((self.new.packed.moment ≡ Some t) × (self.new.packed.round ≡ [])) }
        ensures err { OnErr result (self.new.packed.moment ≡ None) }
        ensures spare { self.new.spare ≡ self.old.spare }
    {
        self.close_round();
        let Some(room) = room_for(self.spare, 0) else {
            return Err(AllocError);
        };
        self.packed.open_round(t, room)?;
        self.opened = Some(t);
        Ok(())
    }

    /// Closes the round that is open, if one is.
    pub fn close_round(&mut self)
        ensures entries { self.new.packed.entries ≡ self.old.packed.entries }
        ensures closed { self.new.packed.moment ≡ None }
        ensures spare { self.new.spare ≡ self.old.spare }
        ensures room { self.new.packed.room ≡ self.old.packed.room }
    {
        if self.opened.is_some() {
            self.packed.close();
            self.opened = None;
        }
    }

    /// What a commit of the open round asks for (`Packed::body`).
    pub fn round_body(&self) -> &[u8]
        requires some { 0 < length self.now.packed.round }
        requires small { length (payload_of self.now.packed) < 2 ^ 32 }
        ensures { result.now ≡ body_of (payload_of self.now.packed) }
    {
        self.packed.body()
    }

    /// Makes room for at least so many steps, expiries and attempts more. A round is open. Where memory is short, nothing
    /// has changed.
    pub fn reserve(&mut self, tasks: usize) -> Result<(), AllocError>
        requires round { IsSome self.old.packed.moment }
        ensures roomier { IsRoomier self.old self.new }
        ensures ok { OnOk result (tasks ≤ self.new.spare) }
        ensures err { OnErr result (self.new ≡ self.old) }
    {
        if tasks <= self.spare {
            return Ok(());
        }
        let Some(room) = room_for(tasks, 0) else {
            return Err(AllocError);
        };
        self.packed.reserve(room)?;
        self.spare = tasks;
        Ok(())
    }

    /// Makes room for this entry, beside the spare ones. A round is open. Where memory is short, nothing has changed.
    #[tactic(auto, using(crate::proofs::Histories::record_length))]
    pub fn reserve_for(&mut self, entry: &Entry) -> Result<(), AllocError>
        requires round { IsSome self.old.packed.moment }
        requires writable { IsWritable entry.now }
        ensures roomier { IsRoomier self.old self.new }
        ensures spare { self.new.spare ≡ self.old.spare }
        ensures ok { OnOk result (HasRoomFor self.new entry.now) }
        ensures err { OnErr result (self.new ≡ self.old) }
    {
        let Some(room) = room_for(self.spare, entry_length(entry) - MOMENT_LENGTH) else {
            return Err(AllocError);
        };
        self.packed.reserve(room)
    }

    /// Puts an entry behind the others. There is room for it.
    #[tactic(auto, using(crate::proofs::Histories::next_last))]
    pub fn push(&mut self, entry: &Entry)
        requires round { self.old.packed.moment ≡ Some entry.now.at }
        requires writable { IsWritable entry.now }
        requires fits { FitsTypes entry.now }
        requires room { HasRoomFor self.old entry.now }
        ensures packed { self.new.packed ≡ with_one self.old.packed entry.now }
        ensures spare { self.new.spare ≡ self.old.spare }
    {
        match self.packed.push(entry) {
            Ok(()) => {}
            Err(_) => unreachable!(),
        }
        self.last = entry.at;
    }
}
