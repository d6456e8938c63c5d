//! Numbers that are found by a text.

ghost use Rattle.std.specs.Prelude.{◌≡◌, ◌+◌, ◌<◌, ◌≤◌, ◌^◌, ℕ, List, [], ◌∷◌, ◌++◌, OnOk, OnErr, Some, None};
ghost use Rattle.op_naming.specs.Indexes.{number_in, room_in, IsIndexOf, IsSameIndex};

use std::alloc::{AllocError, Global};
use std::collections::HashMap;

/// Texts by number, from 1, in the order in which they were added, each found without a walk over the others.
#[derive(Drop)]
pub struct Index {
    numbers: HashMap<Vec<u8>, u32>,
    count: u32,
}

impl Index {
    /// No texts. Takes no memory.
    pub fn new(alloc: Global) -> Index
        ensures { IsIndexOf result [] }
    {
        Index {
            numbers: HashMap::new(alloc),
            count: 0,
        }
    }

    /// How many texts there are.
    pub fn count(&self) -> u32
        ensures { result ≡ self.now.count }
    {
        self.count
    }

    /// The number of a text.
    pub fn find(&self, key: &[u8]) -> Option<u32>
        ensures { result ≡ number_in self.now key.now }
    {
        self.numbers.get(key).copied()
    }

    /// Makes room for one text more.
    pub fn reserve(&mut self) -> Result<(), AllocError>
        ensures same { IsSameIndex self.old self.new }
        ensures room { OnOk result (0 < room_in self.new) }
    {
        self.numbers.reserve(1)
    }

    /// Puts a text behind those that are there. There has to be room for it.
    pub fn add(&mut self, key: Vec<u8>)
        requires room { 0 < room_in self.old }
        requires small { self.old.count + 1 < 2 ^ 32 }
        ensures { (keys : List (List ℕ)) → IsIndexOf self.old keys → number_in self.old key.items ≡ None → IsIndexOf self.new (keys ++ key.items ∷ []) }
    {
        self.count += 1;
        match self.numbers.insert(key, self.count) {
            Ok(_) => {}
            Err(_) => unreachable!(),
        }
    }
}
