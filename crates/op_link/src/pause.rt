//! How long a link rests after posts that ran out of time.
use std::time::{Duration, Instant};

/// The longest pause, in seconds.
const LONGEST: u64 = 60;

/// A pause in which nothing is posted. Each post that runs out of time makes the next pause twice as long, from one second
/// to sixty; an answer in time ends them.
#[derive(Drop)]
pub(crate) struct Pause {
    since: Option<Instant>,
    seconds: u64,
}

impl Pause {
    pub(crate) fn new() -> Pause {
        Pause {
            since: None,
            seconds: 0,
        }
    }

    /// Whether nothing is to be posted now.
    pub(crate) fn holds(&self, now: Instant) -> bool {
        match self.since {
            Some(since) => now.duration_since(since) < Duration::from_secs(self.seconds),
            None => false,
        }
    }

    /// A post ran out of time.
    pub(crate) fn lengthen(&mut self, now: Instant) {
        self.seconds = self.seconds.saturating_mul(2).clamp(1, LONGEST);
        self.since = Some(now);
    }

    /// A post was answered in time.
    pub(crate) fn end(&mut self) {
        self.seconds = 0;
        self.since = None;
    }
}
