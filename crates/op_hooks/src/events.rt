//! Events by number, and how often each was tried.
ghost use Rattle.std.specs.Prelude.{◌≡◌, ◌<◌, ◌≤◌, ◌++◌, [], length, IsTrue, OnOk, OnErr, IfOk, option_map};
ghost use Rattle.std.specs.Bool.{OnTrue, OnFalse};
ghost use Rattle.std.specs.Option.{option_copied};
ghost use Rattle.op_model.specs.History.{nth};
ghost use Rattle.op_hooks.specs.Value.{noted, due_events, has_event, is_event_due_in, attempted};

use crate::event::Event;
use op_model::EventRow;
use op_time::Moment;
use std::alloc::{AllocError, Global};
use std::marker::Model;

/// Events by number, from 1, in the order in which they were noted, and the room for more.
#[derive(Drop)]
pub struct Events {
    kept: Vec<Event>,
    // The numbers of the events of which another attempt may follow, so that those that are done are not walked.
    unfinished: Vec<u64>,
}

impl Model for Events {
    ghost use Rattle.std.specs.Prelude.{◌≡◌, ◌≤◌, ◌-◌, vec_len, vec_capacity};
    ghost use Rattle.op_hooks.specs.Due.{is_open};
    ghost use Rattle.op_model.specs.Numbers.{numbers_where};
    ghost use Rattle.op_hooks.specs.Value.{EventsValue};

    ghost Value = { EventsValue };

    ghost view = { λ a. record { events = a.kept.items; spare = vec_capacity a.kept - vec_len a.kept } };

    ghost invariant = { λ a. (a.unfinished.items ≡ numbers_where is_open a.kept.items) × (vec_capacity a.kept ≤ vec_capacity a.unfinished) };
}

impl Events {
    /// No events, and no room. Takes no memory.
    pub fn new(alloc: Global) -> Events
        ensures { result ≡ record { events = []; spare = 0 } }
    {
        Events {
            kept: Vec::new(alloc),
            unfinished: Vec::new(alloc),
        }
    }

    /// Makes room for at least so many more events. Where memory is short, nothing has changed.
    pub fn reserve(&mut self, events: u64) -> Result<(), AllocError>
        ensures same { self.new.events ≡ self.old.events }
        ensures room { OnOk result (events ≤ self.new.spare) }
        ensures kept { self.old.spare ≤ self.new.spare }
        ensures err { OnErr result (self.new ≡ self.old) }
    {
        let room = events as usize;
        if room <= self.kept.capacity() - self.kept.len() {
            return Ok(());
        }
        let Some(more) = room.checked_add(self.kept.len() - self.unfinished.len()) else {
            return Err(AllocError);
        };
        self.unfinished.reserve(more)?;
        self.kept
            .reserve_exact(self.unfinished.capacity() - self.kept.len())
    }

    /// Puts an event behind those that are there, and answers its number. Takes no memory: there has to be room, and
    /// one place of it is used.
    pub fn note(&mut self, event: EventRow) -> u64
        requires { 0 < self.old.spare }
        ensures noted { self.new ≡ noted self.old event }
        ensures number { result ≡ length self.new.events }
    {
        let number = self.kept.len() as u64 + 1;
        self.unfinished.push_reserved(number);
        // The body is named, so that the checker knows the type of what a row holds.
        self.kept.push_reserved(Event {
            row: EventRow {
                body: event.body,
                ..event
            },
            tries: 0,
            last: None,
        });
        number
    }

    /// Appends the numbers of the first `room` events that are due at a moment, in their order. It looks at those alone
    /// of which another attempt may follow. Where memory is short, `out` is as it was.
    pub fn due(
        &self,
        alloc: Global,
        t: Moment,
        room: usize,
        out: &mut Vec<u64>,
    ) -> Result<(), AllocError>
        ensures ok { OnOk result (out.new.items ≡ out.old.items ++ due_events self.now t room) }
        ensures err { OnErr result (out.new.items ≡ out.old.items) }
    {
        let due = self.first_due(alloc, t, room)?;
        out.extend_from_slice(&due)
    }

    fn first_due(&self, alloc: Global, t: Moment, room: usize) -> Result<Vec<u64>, AllocError>
        ensures { IfOk result (λ due. due.items ≡ due_events self.now t room) }
    {
        let mut due = Vec::new(alloc);
        for number in &self.unfinished {
            if due.len() == room {
                return Ok(due);
            }
            if self.is_due(*number, t) {
                due.push(*number)?;
            }
        }
        Ok(due)
    }

    // Whether an attempt of an event is due.
    fn is_due(&self, number: u64, t: Moment) -> bool
        ensures { result ≡ is_event_due_in self.now number t }
    {
        match self.event(number) {
            Some(event) => event.is_due_at(t),
            None => false,
        }
    }

    fn event(&self, number: u64) -> Option<&Event>
        ensures { option_copied result ≡ nth self.now.events number }
    {
        let place = number.checked_sub(1)?;
        self.kept.get(place as usize)
    }

    /// Records an attempt of an event, made at a moment, and the status of its answer, or 0 where it was not answered.
    /// `false` exactly where no attempt was due, and then nothing has changed. Takes no memory.
    pub fn attempted(&mut self, event: u64, t: Moment, outcome: u16) -> bool
        requires { IsTrue (has_event self.old event) }
        ensures due { result ≡ is_event_due_in self.old event t }
        ensures done { OnTrue result (self.new ≡ attempted self.old event t outcome) }
        ensures same { OnFalse result (self.new ≡ self.old) }
    {
        if !self.is_due(event, t) {
            return false;
        }
        let place = event as usize - 1;
        let tried = self.kept[place].tried_once(t, outcome);
        self.kept[place] = tried;
        if !tried.is_open() {
            self.unfinished.retain(|number| *number != event);
        }
        true
    }

    /// What event `n` tells. `None` exactly where it is not there.
    pub fn row(&self, n: u64) -> Option<&EventRow>
        ensures { option_copied result ≡ option_map (λ e. e.row) (nth self.now.events n) }
    {
        let event = self.event(n)?;
        Some(&event.row)
    }

    /// How many events there are.
    pub fn count(&self) -> u64
        ensures { result ≡ length self.now.events }
    {
        self.kept.len() as u64
    }
}
