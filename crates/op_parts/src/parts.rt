//! The parts of a wallet, and an entry that is taken.

ghost use Rattle.std.specs.Prelude.{◌≡◌, [], true, false, IsOk, OnOk, OnErr};
ghost use Rattle.op_granting.specs.Kinds.{is_on_grants, is_on_spending};
ghost use Rattle.op_naming.specs.Added.{adds_name};
ghost use Rattle.op_parts.specs.Parts.{AreParts, MayGoOn, GoOn, KeepHistories, may_want_memory};
ghost use Rattle.op_paying.specs.Taking.{makes_rows};

use crate::kinds::{adds_name, is_on_grants, is_on_spending};
use op_grant::Grants;
use op_granting::{NextEntry, no_grants, take_grants};
use op_model::Entry;
use op_naming::Names;
use op_paying::Money;
use std::alloc::{AllocError, Global};

/// The parts of a wallet. Contracts speak of the legal history whose parts they are (`AreParts`).
///
/// To read, ask a part. `take` alone changes them.
#[derive(Drop)]
pub struct Parts {
    /// The origin, assets, addresses, transfers and rates.
    pub names: Names,
    /// The ledger, incoming payments, quotes and outgoing payments.
    pub money: Money,
    /// Grants, and what was spent under them.
    pub grants: Grants,
}

impl Parts {
    /// Of a history without entries. Takes no memory.
    pub fn new(alloc: Global) -> Parts
        ensures { AreParts [] result }
    {
        Parts {
            names: Names::new(alloc),
            money: Money::new(alloc),
            grants: no_grants(alloc),
        }
    }

    /// Takes the next entry of a history, which stands at this place, counted from 1. Where memory is short, the parts are
    /// still those of the same history. Only an act that makes a row, adds a name or is on a grant may want memory.
    pub fn take(&mut self, alloc: Global, place: u64, entry: &Entry) -> Result<(), AllocError>
        requires { MayGoOn self.old place entry.now }
        ensures ok { OnOk result (GoOn self.old self.new place entry.now) }
        ensures err { OnErr result (KeepHistories self.old self.new) }
        ensures steady { may_want_memory entry.now.act ≡ false → IsOk result }
    {
        if adds_name(&entry.act) {
            return self.take_name(alloc, place, entry);
        }
        if is_on_grants(&entry.act) {
            return self.take_grant(alloc, place, entry);
        }
        if is_on_spending(&entry.act) {
            return self.take_spending(alloc, place, entry);
        }
        self.take_money(alloc, place, entry)
    }

    // An act that adds a name: its money changes too where it opens accounts or moves value.
    fn take_name(&mut self, alloc: Global, place: u64, entry: &Entry) -> Result<(), AllocError>
        requires may { MayGoOn self.old place entry.now }
        requires adds { adds_name entry.now.act ≡ true }
        ensures ok { OnOk result (GoOn self.old self.new place entry.now) }
        ensures err { OnErr result (KeepHistories self.old self.new) }
    {
        let added = self.names.prepare(alloc, &entry.act)?;
        self.money.take(alloc, entry)?;
        self.names.add(added);
        Ok(())
    }

    // An act on a grant: names and money stay.
    fn take_grant(&mut self, alloc: Global, place: u64, entry: &Entry) -> Result<(), AllocError>
        requires may { MayGoOn self.old place entry.now }
        requires on { is_on_grants entry.now.act ≡ true }
        ensures ok { OnOk result (GoOn self.old self.new place entry.now) }
        ensures err { OnErr result (KeepHistories self.old self.new) }
    {
        let next = NextEntry {
            at: entry.at,
            place,
        };
        take_grants(&mut self.grants, alloc, next, &entry.act)
    }

    // Any other act: names and grants stay.
    fn take_money(&mut self, alloc: Global, place: u64, entry: &Entry) -> Result<(), AllocError>
        requires may { MayGoOn self.old place entry.now }
        requires adds { adds_name entry.now.act ≡ false }
        requires on { is_on_grants entry.now.act ≡ false }
        requires quiet { is_on_spending entry.now.act ≡ false }
        ensures ok { OnOk result (GoOn self.old self.new place entry.now) }
        ensures err { OnErr result (KeepHistories self.old self.new) }
        ensures steady { makes_rows entry.now.act ≡ false → IsOk result }
    {
        self.money.take(alloc, entry)
    }
}
