//! What time it is.
ghost use Rattle.std.specs.Prelude.{◌≡◌, ◌≤◌, ℕ, List, [], ◌∷◌, Some, None, length};
ghost use Rattle.std.specs.declared.option.Option.{Option};
ghost use Rattle.op_ports.specs.Clock.{AsksKnown};

use std::time::{Duration, SystemTime};

/// A clock. It never fails.
pub trait Clock {
    /// The answers to come, where it tells them. An answer past their end is not told.
    ghost answers: { Self → Option (List ℕ) };

    /// Milliseconds since 1970.
    fn now(&mut self) -> u64
        ensures { AsksKnown (answers self.old) (answers self.new) (result ∷ []) };
}

/// A clock in memory. It answers from a table, and past its end the last answer again.
#[derive(Drop)]
pub struct TableClock {
    table: Vec<u64>,
    place: usize,
    last: u64,
    ghost in_range: { place ≤ length table.items },
}

impl TableClock {
    ghost use Rattle.op_ports.specs.TableClock.{clock_answers, clock_last, Gives};

    /// A clock that will give these answers.
    pub fn new(table: Vec<u64>) -> TableClock
        ensures answers { clock_answers result ≡ table.items }
        ensures last { clock_last result ≡ 0 }
    {
        TableClock {
            table,
            place: 0,
            last: 0,
        }
    }

    /// One call: the next answer of the table, or the last one again.
    pub fn answer(&mut self) -> u64
        ensures { Gives (clock_answers self.old) (clock_answers self.new) (clock_last self.old) (clock_last self.new) result }
    {
        if self.place < self.table.len() {
            self.last = self.table[self.place];
            self.place += 1;
        }
        self.last
    }
}

impl Clock for TableClock {
    ghost use Rattle.op_ports.specs.TableClock.{clock_answers};

    ghost answers = { λ c. Some (clock_answers c) };

    fn now(&mut self) -> u64 {
        self.answer()
    }
}

/// The edge: the system's clock. It tells nothing beforehand. A clock that cannot be read, or that stands before
/// 1970, answers 0.
#[derive(Drop)]
pub struct SystemClock<R: std::rt::Clock + Drop> {
    rt: R,
}

impl<R: std::rt::Clock + Drop> SystemClock<R> {
    ghost use Rattle.op_ports.specs.Edges.{clock_runtime};

    /// The clock of this runtime.
    pub fn new(rt: R) -> SystemClock<R>
        ensures runtime { clock_runtime result ≡ rt }
    {
        SystemClock { rt }
    }
}

impl<R: std::rt::Clock + Drop> Clock for SystemClock<R> {
    ghost answers = { λ _. None };

    fn now(&mut self) -> u64 {
        match SystemTime::now(&self.rt) {
            Ok(now) => since_1970(now),
            Err(_) => 0,
        }
    }
}

/// Milliseconds since 1970, or 0 before it.
fn since_1970(now: SystemTime) -> u64 {
    match now.duration_since(SystemTime::UNIX_EPOCH) {
        Ok(passed) => milliseconds(passed),
        Err(_) => 0,
    }
}

fn milliseconds(passed: Duration) -> u64 {
    passed
        .as_secs()
        .saturating_mul(1000)
        .saturating_add(u64::from(passed.subsec_millis()))
}
