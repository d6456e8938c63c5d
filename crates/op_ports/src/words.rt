//! Where unguessable bytes come from.
ghost use Rattle.std.specs.Prelude.{◌≡◌, ◌≤◌, ℕ, List, [], Some, None, length, replicate};
ghost use Rattle.std.specs.declared.option.Option.{Option};
ghost use Rattle.op_causes.specs.Causes.{HasCause};
ghost use Rattle.op_ports.specs.Words.{DrawsOne};

use op_causes::count_fault;
use std::random::RandomSource;
use thiserror::Error;

/// No word could be drawn.
#[derive(Clone, Copy, Debug, PartialEq, Eq, Error)]
#[error("no word could be drawn")]
pub struct WordsFault;

/// Words of sixteen bytes, from which the secrets are made. Each is drawn once.
pub trait Words {
    /// The words to come, where it tells them. A word past their end is not told.
    ghost words: { Self → Option (List (List ℕ)) };

    /// How often it has failed.
    ghost faults: { Self → ℕ };

    /// Draws the next word. A draw that fails takes none: the next draw gives the word that this one did not.
    fn draw(&mut self) -> Result<[u8; 16], WordsFault>
        ensures drawn { DrawsOne (words self.old) (words self.new) result }
        ensures cause { HasCause (faults self.old) (faults self.new) result };
}

/// Words in memory. Past the end of its table it gives the last word again. It fails at the draws whose numbers,
/// counted from 0, are listed.
#[derive(Drop)]
pub struct TableWords {
    table: Vec<[u8; 16]>,
    place: usize,
    last: [u8; 16],
    failing: Vec<u64>,
    calls: u64,
    faults: u64,
    ghost in_range: { place ≤ length table.items },
}

impl TableWords {
    ghost use Rattle.op_ports.specs.TableWords.{words_left, words_last, words_failing, words_calls, words_faults, words_fails, Calls};

    /// Words that will be drawn in this order, and no draw so far.
    pub fn new(table: Vec<[u8; 16]>, failing: Vec<u64>) -> TableWords
        ensures left { words_left result ≡ table.items }
        ensures last { words_last result ≡ replicate 16 0 }
        ensures failing { words_failing result ≡ failing.items }
        ensures calls { words_calls result ≡ 0 }
        ensures faults { words_faults result ≡ 0 }
    {
        TableWords {
            table,
            place: 0,
            last: [0; 16],
            failing,
            calls: 0,
            faults: 0,
        }
    }

    /// How many draws there were.
    pub fn calls(&self) -> u64
        ensures { result ≡ words_calls self.now }
    {
        self.calls
    }

    /// How often it has failed.
    pub fn faults(&self) -> u64
        ensures { result ≡ words_faults self.now }
    {
        self.faults
    }

    /// Whether the next draw is one of those that fail.
    fn fails(&self) -> bool
        ensures { result ≡ words_fails self.now }
    {
        self.failing.iter().any(|n| *n == self.calls)
    }

    /// One draw: the next word, or, exactly where the draw's number is listed, a fault.
    pub fn give(&mut self) -> Result<[u8; 16], WordsFault>
        ensures called { Calls self.old self.new result }
        ensures cause { HasCause (words_faults self.old) (words_faults self.new) result }
    {
        let fails = self.fails();
        self.calls = self.calls.saturating_add(1);
        if fails {
            count_fault(&mut self.faults);
            return Err(WordsFault);
        }
        if self.place < self.table.len() {
            self.last = self.table[self.place];
            self.place += 1;
        }
        Ok(self.last)
    }
}

impl Words for TableWords {
    ghost use Rattle.op_ports.specs.TableWords.{words_left, words_faults};

    ghost words = { λ w. Some (words_left w) };

    ghost faults = { words_faults };

    fn draw(&mut self) -> Result<[u8; 16], WordsFault> {
        self.give()
    }
}

/// The edge: the system's random bytes. It tells no word beforehand.
#[derive(Drop)]
pub struct SystemWords<R: RandomSource + Drop> {
    rt: R,
    faults: u64,
}

impl<R: RandomSource + Drop> SystemWords<R> {
    ghost use Rattle.op_ports.specs.Edges.{words_runtime, system_faults};

    /// Words of this runtime, without a fault so far.
    pub fn new(rt: R) -> SystemWords<R>
        ensures runtime { words_runtime result ≡ rt }
        ensures faults { system_faults result ≡ 0 }
    {
        SystemWords { rt, faults: 0 }
    }
}

impl<R: RandomSource + Drop> Words for SystemWords<R> {
    ghost use Rattle.op_ports.specs.Edges.{system_faults};

    ghost words = { λ _. None };

    ghost faults = { system_faults };

    fn draw(&mut self) -> Result<[u8; 16], WordsFault> {
        let mut word = [0; 16];
        match self.rt.fill_bytes(&mut word) {
            Ok(()) => Ok(word),
            Err(_) => {
                count_fault(&mut self.faults);
                Err(WordsFault)
            }
        }
    }
}
