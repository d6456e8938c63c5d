//! A round while it runs.
ghost use Rattle.std.specs.Prelude.{◌≡◌, ◌+◌, ◌<◌, ◌≤◌, ◌^◌, ◌↔◌, [], ℕ, true, false, length, slice_set, IsTrue, Some, slice_get};
ghost use Rattle.op_journal.specs.Commits.{IsBody, payload_of};
ghost use Rattle.op_model.specs.History.{last_moment, origin_of};
ghost use Rattle.op_model.specs.Legal.{is_proper};
ghost use Rattle.op_record.specs.Rounds.{IsRound, round_of};
ghost use Rattle.op_desk.specs.Batches.{BatchValue, history_in};
ghost use Rattle.op_desk.specs.Built.{is_built_reply, is_built_task};
ghost use Rattle.op_desk.specs.Wallets.{IsSound, Handles, round_payload, with_entry};
ghost use Rattle.op_desk.specs.declared.TheConstants.{TASK_LIMIT};

use crate::Wallet;
use op_model::{Reply, Task, Word};
use op_names::Origin;
use op_pricing::{FeeRule, PriceHook};
use op_time::Moment;
use std::marker::Model;

/// What a round that stands has made.
#[derive(Drop)]
pub struct Committed {
    /// For each index the place of its task in the round: the number of the round's entries before it. 0 where the index
    /// was not used.
    pub places: Vec<u64>,
    /// The number of entries of the history with the round.
    pub count: u64,
}

/// A round while it runs: the wallet, which keeps the round's entries, and the place of each task. Contracts see the history
/// at which it began, its moment, its entries, and of each index its place and whether it was used.
#[derive(Drop)]
pub struct Batch {
    pub(crate) wallet: Wallet,
    // How many entries the history had when the round began.
    pub(crate) begun: u64,
    pub(crate) moment: Moment,
    pub(crate) places: Vec<u64>,
    pub(crate) used: Vec<bool>,
}

impl Model for Batch {
    ghost use Rattle.std.specs.Prelude.{take, drop};
    ghost use Rattle.op_desk.specs.Batches.{BatchValue};

    ghost Value = { BatchValue };

    ghost use Rattle.op_desk.specs.Inside.{IsKept, batch_of};

    ghost view = { batch_of };

    ghost invariant = { IsKept };
}

/// A round that has ended: its wallet, whose open round it is, and the places of its tasks.
#[derive(Drop)]
pub(crate) struct Round {
    pub(crate) wallet: Wallet,
    pub(crate) places: Vec<u64>,
    pub(crate) has_entries: bool,
}

impl Batch {
    /// A round of so many tasks at a moment, on a wallet that has opened it.
    pub(crate) fn new(places: Vec<u64>, used: Vec<bool>, wallet: Wallet, t: Moment) -> Batch
        requires later { last_moment wallet.history ≤ t }
        requires opened { (wallet.moment ≡ Some t) × (wallet.round ≡ []) }
        requires tasks { length places.items ≤ TASK_LIMIT }
        requires same { length used.items ≡ length places.items }
        ensures { result ≡ record { begun = wallet.history; moment = t; entries = []; places = places.items; used = used.items } }
    {
        let begun = wallet.count();
        Batch {
            wallet,
            begun,
            moment: t,
            places,
            used,
        }
    }

    /// The origin of the history with the round's entries so far.
    pub fn origin(&self) -> &Origin
        ensures { result.now ≡ origin_of (history_in self.now) }
    {
        self.wallet.origin()
    }

    /// Answers the task of this index as the plain wallet does, at the round's moment, on the history with the round's
    /// entries so far, with a fee of the hook's rule where one is asked. The number of these entries is the task's place.
    /// Only a request takes memory, and it is refused where memory is short, which adds nothing.
    pub fn act<F: FeeRule>(
        &mut self,
        word: &Word,
        hook: &PriceHook<F>,
        index: u64,
        task: &Task,
    ) -> Reply
        requires index { slice_get self.old.used index ≡ Some false }
        requires built { IsTrue (is_built_task task.now) }
        requires proper { IsTrue (is_proper (history_in self.old) task.now) }

        ensures handled { Handles F.FeeTerms.allows (history_in self.old) self.old.moment (length self.old.entries) task.now word.now result (history_in self.new) }
        ensures sound { IsSound (history_in self.new) }
        ensures entries { (entry : _) × (self.new.entries ≡ with_entry self.old.entries entry) }
        ensures places { self.new.places ≡ slice_set self.old.places index (length self.old.entries) }
        ensures used { self.new.used ≡ slice_set self.old.used index true }
        ensures begun { (self.new.begun ≡ self.old.begun) × (self.new.moment ≡ self.old.moment) }
        ensures origin { result.origin ≡ origin_of (history_in self.new) }
        ensures printed { IsTrue (is_built_reply result.body) }
    {
        self.places[index as usize] = self.wallet.count() - self.begun;
        self.used[index as usize] = true;
        self.wallet.answer(self.moment, word, hook, task).reply
    }

    /// Ends the round. Takes no memory.
    pub(crate) fn into_round(self) -> Round
        ensures wallet { result.wallet.history ≡ history_in self }
        ensures sound { IsSound result.wallet.history }
        ensures places { result.places.items ≡ self.places }
        ensures empty { result.has_entries ≡ false ↔ (self.entries ≡ []) }
        ensures payload { round_payload result.wallet ≡ round_of self.moment self.entries }
        ensures round { result.has_entries ≡ true → IsRound (round_payload result.wallet) self.entries }
        ensures some { result.has_entries ≡ true → 0 < length result.wallet.round }
        ensures small { length (round_payload result.wallet) < 2 ^ 32 }
    {
        let Batch {
            wallet,
            begun,
            places,
            ..
        } = self;
        let has_entries = wallet.count() > begun;
        Round {
            wallet,
            places,
            has_entries,
        }
    }
}

impl Round {
    /// What a commit writes of a round with entries: the bytes of its frame behind the gate, and a closed gate.
    pub(crate) fn body(&self) -> &[u8]
        requires some { 0 < length self.now.wallet.round }
        requires small { length (round_payload self.now.wallet) < 2 ^ 32 }
        ensures whole { IsBody result.now }
        ensures payload { payload_of result.now ≡ round_payload self.now.wallet }
        ensures length { length result.now ≡ length (round_payload self.now.wallet) + 5 }
    {
        self.wallet.round_body()
    }
}
