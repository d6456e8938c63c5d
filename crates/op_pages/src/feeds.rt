//! Ended payments that have a page.
ghost use Rattle.std.specs.Prelude.{◌≡◌, ◌<◌, ◌≤◌, [], OnOk, OnErr, IfOk};
ghost use Rattle.op_model.specs.Events.{page_rows};
ghost use Rattle.op_pages.specs.Value.{noted};

use op_model::PageRow;
use std::alloc::{AllocError, Global};
use std::marker::Model;

/// Ended payments that have a page, in the order in which they were noted, and the room for more.
#[derive(Drop)]
pub struct Feeds {
    kept: Vec<PageRow>,
}

impl Model for Feeds {
    ghost use Rattle.std.specs.Prelude.{◌-◌, vec_len, vec_capacity};
    ghost use Rattle.op_pages.specs.Value.{FeedsValue};

    ghost Value = { FeedsValue };

    ghost view = { λ a. record { rows = a.kept.items; spare = vec_capacity a.kept - vec_len a.kept } };
}

impl Feeds {
    /// No payments, and no room. Takes no memory.
    pub fn new(alloc: Global) -> Feeds
        ensures { result ≡ record { rows = []; spare = 0 } }
    {
        Feeds {
            kept: Vec::new(alloc),
        }
    }

    /// Makes room for at least so many more payments. Where memory is short, nothing has changed.
    pub fn reserve(&mut self, rows: u64) -> Result<(), AllocError>
        ensures same { self.new.rows ≡ self.old.rows }
        ensures room { OnOk result (rows ≤ self.new.spare) }
        ensures kept { self.old.spare ≤ self.new.spare }
        ensures err { OnErr result (self.new ≡ self.old) }
    {
        self.kept.reserve(rows as usize)
    }

    /// Puts an ended payment behind those that are there. Takes no memory: there has to be room, and one place of it
    /// is used.
    pub fn note(&mut self, sent: PageRow)
        requires { 0 < self.old.spare }
        ensures { self.new ≡ noted self.old sent }
    {
        self.kept.push_reserved(sent);
    }

    /// The payments from an address with this page, in the order in which they were noted.
    pub fn feed(&self, alloc: Global, address: u32, page: &[u8]) -> Result<Vec<PageRow>, AllocError>
        ensures { IfOk result (λ rows. rows.items ≡ page_rows self.now.rows address page.now) }
    {
        self.kept
            .iter()
            .copied()
            .filter(|row| row.address == address && row.page.as_bytes() == page)
            .collect(alloc)
    }
}
