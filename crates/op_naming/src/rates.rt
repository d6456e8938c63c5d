//! Rates by their pair of assets.

ghost use Rattle.std.specs.Prelude.{◌≡◌, ◌<◌, ◌==◌, ◌&&◌, ℕ, if◌then◌else◌, OnOk, Some, None};
ghost use Rattle.op_naming.specs.Rates.{rate_in, rates_room};

use op_amount::Rate;
use std::alloc::{AllocError, Global};
use std::collections::HashMap;

/// The last rate that was set of each pair of assets, by the assets' numbers.
#[derive(Drop)]
pub struct Rates {
    kept: HashMap<(u32, u32), Rate>,
}

impl Rates {
    /// No rates. Takes no memory.
    pub fn new(alloc: Global) -> Rates
        ensures { (source target : ℕ) → rate_in result source target ≡ None }
    {
        Rates {
            kept: HashMap::new(alloc),
        }
    }

    /// The rate of a pair that was set.
    pub fn find(&self, source: u32, target: u32) -> Option<Rate>
        ensures { result ≡ rate_in self.now source target }
    {
        self.kept.get(&(source, target)).copied()
    }

    /// Makes room for one rate more.
    pub fn reserve(&mut self) -> Result<(), AllocError>
        ensures same { (source target : ℕ) → rate_in self.new source target ≡ rate_in self.old source target }
        ensures room { OnOk result (0 < rates_room self.new) }
    {
        self.kept.reserve(1)
    }

    /// Sets the rate of a pair. There has to be room for it.
    pub fn set(&mut self, source: u32, target: u32, rate: Rate)
        requires room { 0 < rates_room self.old }
        ensures { (s t : ℕ) → rate_in self.new s t ≡ (if (source == s) && (target == t) then Some rate else rate_in self.old s t) }
    {
        match self.kept.insert((source, target), rate) {
            Ok(_) => {}
            Err(_) => unreachable!(),
        }
    }
}
