//! The wallet.

ghost use Rattle.std.specs.Prelude.{◌≡◌, ◌+◌, ◌-◌, ◌<◌, ◌≤◌, ◌^◌, ◌∷◌, ◌++◌, [], ℕ, List, length, IsTrue, IsSome, Some, None, OnOk, OnErr, IfOk, IfSome, IfNone, slice_index_or, if◌then◌else◌};
ghost use Rattle.op_model.specs.History.{last_moment, origin_of, asset_number, assets};
ghost use Rattle.op_model.specs.Asking.{address_named};
ghost use Rattle.op_model.specs.Legal.{IsLegal, IsNext, is_proper};
ghost use Rattle.op_model.specs.Round.{refusal_reply};
ghost use Rattle.op_model.specs.declared.reply.Refusal.TheVariants.{Memory};
ghost use Rattle.op_granting.specs.Models.{next_place};
ghost use Rattle.op_legal.specs.Records.{DrawsWord};
ghost use Rattle.op_plans.specs.Plans.{IsPlan};
ghost use Rattle.op_wallet.specs.Answers.{is_built_request, is_built_task, reply_with, with_entry, Handles};
ghost use Rattle.op_wallet.specs.Wallets.{with_taken};

use crate::history::History;
use crate::planning::plan;
use op_amount::Asset;
use op_grant_plans::Context;
use op_granting::NextEntry;
use op_model::{Act, Entry, Refusal, Reply, ReplyBody, Request, Task, Verdict, Word};
use op_names::{AddressName, Origin};
use op_parts::Parts;
use op_plans::Plan;
use op_pricing::{FeeRule, PriceHook};
use op_time::Moment;
use std::alloc::{AllocError, Global};
use std::marker::Model;

/// What a task is answered: the reply, and the entry that it adds to the history, if it adds one.
#[derive(Drop)]
pub struct Outcome {
    pub reply: Reply,
    pub entry: Option<Entry>,
}

/// A wallet. Contracts see its history, the open round, and for how many steps, expiries and attempts more it has room.
///
/// Its history is legal; each call that only reads says so.
#[derive(Drop)]
pub struct Wallet {
    history: History,
    parts: Parts,
}

impl Model for Wallet {
    ghost use Rattle.op_wallet.specs.Wallets.{WalletValue, wallet_of, IsWhole};

    ghost Value = { WalletValue };

    ghost view = { wallet_of };

    ghost invariant = { IsWhole };
}

impl Wallet {
    /// A wallet to which nothing has happened. No round is open.
    pub fn new(alloc: Global) -> Result<Wallet, AllocError>
        ensures { IfOk result (λ w. (w.history ≡ []) × (w.moment ≡ None) × (w.spare ≡ 0)) }
    {
        Ok(Wallet {
            history: History::new(alloc)?,
            parts: Parts::new(alloc),
        })
    }

    /// Makes room for at least so many steps, expiries and attempts more. A round is open. Where memory is short, nothing
    /// has changed.
    pub fn reserve(&mut self, tasks: usize) -> Result<(), AllocError>
        requires { IsSome self.old.moment }
        ensures history { self.new.history ≡ self.old.history }
        ensures round { (self.new.moment ≡ self.old.moment) × (self.new.round ≡ self.old.round) }
        ensures room { OnOk result (tasks ≤ self.new.spare) }
        ensures kept { self.old.spare ≤ self.new.spare }
        ensures err { OnErr result (self.new ≡ self.old) }
    {
        self.history.reserve(tasks)
    }

    /// Closes the round that is open, if one is, and opens one at this moment. Where memory is short, no round is open, and
    /// the history is as it was.
    pub fn open_round(&mut self, t: Moment) -> Result<(), AllocError>
        requires { last_moment self.old.history ≤ t }
        ensures history { self.new.history ≡ self.old.history }
        ensures ok { OnOk result ((self.new.moment ≡ Some t) × (self.new.round ≡ [])) }
        ensures err { OnErr result (self.new.moment ≡ None) }
        ensures spare { self.new.spare ≡ self.old.spare }
    {
        self.history.open_round(t)
    }

    /// The moment of the last entry, or the first of all.
    pub fn last(&self) -> Moment
        ensures value { result ≡ last_moment self.now.history }
        ensures legal { IsLegal self.now.history }
        ensures later { IfSome self.now.moment (λ t. last_moment self.now.history ≤ t) }
    {
        let _legal = &self.parts;
        self.history.last()
    }

    /// How many entries there are.
    pub fn count(&self) -> u64
        ensures value { result ≡ length self.now.history }
        ensures legal { IsLegal self.now.history }
    {
        let _legal = &self.parts;
        self.history.count()
    }

    /// The entry at this place, the first being 1.
    pub fn entry(&self, alloc: Global, place: u64) -> Result<Entry, AllocError>
        requires low { 1 ≤ place }
        requires high { place ≤ length self.now.history }
        ensures { IfOk result (λ entry. entry ≡ slice_index_or self.now.history (place - 1) entry) }
    {
        self.history.entry(alloc, place)
    }

    /// The origin under which names are printed.
    pub fn origin(&self) -> &Origin
        ensures { result.now ≡ origin_of self.now.history }
    {
        self.parts.names.origin()
    }

    /// How many assets there are.
    pub fn assets(&self) -> u32
        ensures { result ≡ length (assets self.now.history) }
    {
        self.parts.names.asset_count()
    }

    /// The number of an asset, if it is there.
    pub fn find_asset(&self, asset: &Asset) -> Option<u32>
        ensures { result ≡ asset_number self.now.history asset.now }
    {
        self.parts.names.find_asset(asset)
    }

    /// The number of a wallet address, if it is there under the wallet's origin.
    pub fn find_address(&self, name: &AddressName) -> Option<u32>
        ensures { result ≡ address_named self.now.history (Some name.now) }
    {
        self.parts.names.find_address(name)
    }

    /// The reply that refuses.
    pub fn refusal(&self, refusal: Refusal) -> Reply
        ensures { result ≡ refusal_reply self.now.history refusal }
    {
        self.reply(ReplyBody::Refused(refusal))
    }

    fn reply(&self, body: ReplyBody) -> Reply
        ensures { result ≡ reply_with self.now.history body }
    {
        Reply {
            origin: *self.origin(),
            body,
        }
    }

    fn refused(&self, refusal: Refusal) -> Outcome
        ensures reply { result.reply ≡ refusal_reply self.now.history refusal }
        ensures entry { result.entry ≡ None }
    {
        Outcome {
            reply: self.refusal(refusal),
            entry: None,
        }
    }

    // The place of the next entry, counted from 1.
    fn next_place(&self) -> u64
        requires { length self.now.history < 2 ^ 31 }
        ensures { result ≡ next_place self.now.history }
    {
        self.history.count() + 1
    }

    // What is to come of a request at a moment, with its task's word.
    fn plan(
        &self,
        alloc: Global,
        t: Moment,
        word: &Word,
        request: &Request,
        verdict: &Verdict,
    ) -> Result<Plan, AllocError>
        requires built { IsTrue (is_built_request request.now) }
        requires small { length self.now.history < 2 ^ 31 }
        ensures { IfOk result (λ plan. (fee : ℕ) → IsPlan self.now.history t word.now fee request.now verdict.now plan) }
    {
        let next = NextEntry {
            at: t,
            place: self.next_place(),
        };
        let context = Context {
            next,
            word,
            verdict,
        };
        plan(alloc, &self.parts, &context, request)
    }

    // Takes an entry. Where memory is short, nothing has changed.
    fn take(&mut self, alloc: Global, entry: &Entry) -> Result<(), AllocError>
        requires next { IsNext self.old.history entry.now }
        requires word { DrawsWord entry.now.act }
        requires round { self.old.moment ≡ Some entry.now.at }
        requires small { length self.old.history < 2 ^ 31 }
        ensures ok { OnOk result (self.new ≡ with_taken self.old entry.now) }
        ensures err { OnErr result (self.new ≡ self.old) }
    {
        let place = self.next_place();
        self.history.reserve_for(entry)?;
        self.parts.take(alloc, place, entry)?;
        self.history.push(entry);
        Ok(())
    }

    // Takes an act, and replies.
    fn act(&mut self, alloc: Global, t: Moment, act: Act, body: ReplyBody) -> Outcome
        requires next { IsNext self.old.history (record { at = t; act = act }) }
        requires word { DrawsWord act }
        requires round { self.old.moment ≡ Some t }
        requires small { length self.old.history < 2 ^ 31 }
        ensures some { IfSome result.entry (λ e. (e ≡ record { at = t; act = act }) × (self.new ≡ with_taken self.old e) × (result.reply ≡ reply_with self.new.history body)) }
        ensures none { IfNone result.entry ((self.new ≡ self.old) × (result.reply ≡ refusal_reply self.old.history Memory)) }
        ensures legal { IsLegal self.new.history }
    {
        let _legal = self.last();
        let entry = Entry { at: t, act };
        match self.take(alloc, &entry) {
            Ok(()) => Outcome {
                reply: self.reply(body),
                entry: Some(entry),
            },
            Err(_) => self.refused(Refusal::Memory),
        }
    }

    /// Answers a task at the moment of the open round as the plain wallet does: its reply, and its act at the end of the
    /// history and of the round. A request may be refused for want of memory instead, which changes nothing. `word` are the
    /// task's sixteen drawn bytes. The task is one that is built; no such task has a price, so the hook is not asked yet.
    pub fn answer<F: FeeRule>(
        &mut self,
        alloc: Global,
        t: Moment,
        word: &Word,
        _hook: &PriceHook<F>,
        task: &Task,
    ) -> Outcome
        requires round { self.old.moment ≡ Some t }
        requires small { length self.old.history < 2 ^ 31 }
        requires proper { IsTrue (is_proper self.old.history task.now) }
        requires built { IsTrue (is_built_task task.now) }
        ensures handled { (place : ℕ) → Handles F.FeeTerms.allows self.old.history t place task.now word.now result.reply self.new.history }
        ensures entry { self.new.history ≡ with_entry self.old.history result.entry }
        ensures round { (self.new.moment ≡ Some t) × (self.new.round ≡ with_entry self.old.round result.entry) }
        ensures spare { self.old.spare ≤ self.new.spare + 1 }
        ensures legal { IsLegal self.new.history }
    {
        let _at_most_last = t.ms();
        let _later = self.last();
        let Task::Ask { request, verdict } = task else {
            unreachable!()
        };
        match self.plan(alloc, t, word, request, verdict) {
            Ok(Plan::Refused(refusal)) => self.refused(refusal),
            Ok(Plan::Told(body)) => Outcome {
                reply: self.reply(body),
                entry: None,
            },
            Ok(Plan::Acts { act, body }) => self.act(alloc, t, act, body),
            Err(_) => self.refused(Refusal::Memory),
        }
    }
}
