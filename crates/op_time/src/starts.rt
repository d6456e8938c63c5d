//! Where repeating intervals start, and where a moment lies.

ghost use Rattle.std.specs.Prelude.{◌≡◌, ◌+◌, ◌<◌, ◌≤◌, true, false};
ghost use Rattle.op_time.specs.Interval.{IsInterval};
ghost use Rattle.op_time.specs.Starts.{start_of, has_begun, is_counted, place_of, StartsRise, LiesOnce};

use crate::calendar::{self, DAY, EPOCH_DAY};
use crate::{Interval, LAST, Moment, Place};

/// No interval has this number: a duration has at least a second, and fewer seconds lie before
/// the last moment.
const NONE_HAS: u64 = 1 << 38;

impl Interval {
    /// The start of interval `j`, counted from 0: the first start plus `j` times the duration, in
    /// UTC. Months are added first, and keep the day of the month or take the last day of a shorter
    /// one. `None` exactly where that lies past the last moment.
    pub fn start_of(&self, j: u64) -> Option<Moment>
        ensures value { result ≡ start_of self.now j }
        ensures rises { StartsRise self.now }
    {
        let seconds = u128::from(j) * u128::from(self.seconds);
        if seconds > u128::from(LAST) {
            return None;
        }
        let start = self.start.ms();
        let first = calendar::date_of((start / DAY) as u32);
        match calendar::months_later(first, u128::from(j) * u128::from(self.months)) {
            Some(day) => {
                Moment::checked((day - EPOCH_DAY) * DAY + start % DAY + seconds as u64 * 1000)
            }
            None => None,
        }
    }

    /// Where a moment lies. The search halves between two numbers, and asks for the start of fewer
    /// than forty intervals.
    pub fn index_at(&self, t: Moment) -> Place
        ensures value { result ≡ place_of self.now t }
        ensures once { LiesOnce self.now t }
    {
        if t.ms() < self.start.ms() {
            return Place::Before;
        }
        let j = self.last_begun(t);
        if self.has(j) {
            Place::Inside(j)
        } else {
            Place::After
        }
    }

    /// The last interval that has begun, counted or not, at a moment that is not before the start.
    fn last_begun(&self, t: Moment) -> u64
        requires proper { IsInterval self.now }
        requires from_start { self.now.start ≤ t }
        ensures begun { has_begun self.now result t ≡ true }
        ensures last { has_begun self.now (result + 1) t ≡ false }
    {
        let mut low = 0;
        let mut high = NONE_HAS;
        while high - low > 1 {
            let middle = low + (high - low) / 2;
            if self.has_begun(middle, t) {
                low = middle;
            } else {
                high = middle;
            }
        }
        low
    }

    fn has_begun(&self, j: u64, t: Moment) -> bool
        ensures { result ≡ has_begun self.now j t }
    {
        match self.start_of(j) {
            Some(start) => start.ms() <= t.ms(),
            None => false,
        }
    }

    fn has(&self, j: u64) -> bool
        ensures { result ≡ is_counted self.now j }
    {
        match self.count {
            Some(count) => j < count,
            None => true,
        }
    }
}
