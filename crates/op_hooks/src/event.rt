//! An event, and how often it was tried.
ghost use Rattle.std.specs.Prelude.{◌≡◌, ◌<◌, ◌^◌, IsTrue};
ghost use Rattle.op_model.specs.Events.{is_taken, attempt_limit};
ghost use Rattle.op_hooks.specs.Due.{is_due_at, is_open, delay, tried_once};

use op_model::EventRow;
use op_time::Moment;

/// How often an event is tried at most.
const ATTEMPT_LIMIT: u8 = 10;

/// The milliseconds between the first attempt and the second.
const FIRST_DELAY: u64 = 10_000;

/// An attempt: when it was made, and the status of its answer, or 0 where it was not answered.
#[derive(Clone, Copy)]
pub struct Tried {
    pub at: Moment,
    pub outcome: u16,
}

/// An event, the number of its attempts, and the last of them.
#[derive(Clone, Copy)]
pub struct Event {
    pub row: EventRow,
    pub tries: u8,
    pub last: Option<Tried>,
}

impl Tried {
    // Whether the receiver took the message (RFC 9110, section 15.3).
    fn is_taken(&self) -> bool
        ensures { result ≡ is_taken self.now.outcome }
    {
        (200..=299).contains(&self.outcome)
    }
}

// How long to wait after so many attempts, in milliseconds: twice as long each time.
fn delay(tries: u8) -> u64
    requires { tries < attempt_limit }
    ensures value { result ≡ delay tries }
    ensures bound { result < 2 ^ 32 }
{
    FIRST_DELAY * 2u64.pow(u32::from(tries.saturating_sub(1)))
}

impl Event {
    // With one more attempt.
    pub(crate) fn tried_once(&self, t: Moment, outcome: u16) -> Event
        requires { self.now.tries < attempt_limit }
        ensures { result ≡ tried_once t outcome self.now }
    {
        Event {
            row: self.row,
            tries: self.tries + 1,
            last: Some(Tried { at: t, outcome }),
        }
    }

    // Whether another attempt may follow.
    pub(crate) fn is_open(&self) -> bool
        ensures { result ≡ is_open self.now }
    {
        if self.tries >= ATTEMPT_LIMIT {
            return false;
        }
        match &self.last {
            Some(tried) => !tried.is_taken(),
            None => true,
        }
    }

    /// Whether another attempt is due at a moment: the first from the event's own moment on; behind a failed one after
    /// 10 seconds, and then after twice as long each time; none behind one that was taken, and none behind ten.
    pub fn is_due_at(&self, t: Moment) -> bool
        ensures value { result ≡ is_due_at t self.now }
        ensures only_open { IsTrue result → IsTrue (is_open self.now) }
    {
        if self.tries >= ATTEMPT_LIMIT {
            return false;
        }
        match &self.last {
            Some(tried) => !tried.is_taken() && tried.at.ms() + delay(self.tries) <= t.ms(),
            None => self.row.at.ms() <= t.ms(),
        }
    }
}
