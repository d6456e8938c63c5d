//! The wallet: a legal history, kept as the bytes of its rounds, and the plain wallet's answers on it.
ghost use Rattle.std.specs.Prelude.{◌≡◌, ◌+◌, ◌-◌, ◌*◌, ◌<◌, ◌≤◌, ◌^◌, ◌∷◌, ◌++◌, [], ℕ, List, length, max, IsTrue, IsSome, Some, None, IfOk, OnOk, OnErr, IfSome, IsErrOf, IfNone, if◌then◌else◌, codes, slice_index_or};
ghost use Rattle.std.specs.List.{list_any};
ghost use Rattle.op_amount.specs.Asset.{is_same_asset};
ghost use Rattle.op_amount.specs.Code.{is_asset_code};
ghost use Rattle.op_amount.specs.declared.Asset.{Asset};
ghost use Rattle.op_model.specs.History.{last_moment, origin_of};
ghost use Rattle.op_model.specs.Legal.{is_proper, keeps_forms};
ghost use Rattle.op_model.specs.Round.{refusal_reply};
ghost use Rattle.op_model.specs.declared.act.Act.TheVariants.{AssetAdded};
ghost use Rattle.op_model.specs.declared.request.Request.TheVariants.{AddAsset};
ghost use Rattle.op_model.specs.declared.request.Task.TheVariants.{Ask};
ghost use Rattle.op_model.specs.declared.request.Verdict.{Verdict};
ghost use Rattle.op_record.specs.Packing.{body_of};
ghost use Rattle.op_record.specs.Rounds.{IsInRound, act_in};
ghost use Rattle.op_record.specs.declared.TheConstants.{ACT_LIMIT};
ghost use Rattle.op_time.specs.declared.TheConstants.{LAST};
ghost use Rattle.op_desk.specs.Answers.{adds, may_add, reply_with};
ghost use Rattle.op_desk.specs.Built.{is_built_reply, is_built_task};
ghost use Rattle.op_desk.specs.WalletInside.{IsAddedBy};
ghost use Rattle.op_desk.specs.declared.wallet.TheConstants.{STEP_LENGTH};
ghost use Rattle.op_desk.specs.Wallets.{WalletState, FitsRound, IsSound, IsTaken, Handles, round_payload, with_entry};

use crate::LoadFault;
use op_amount::{Asset, AssetCode, FeeTerms};
use op_model::{Act, CodeText, Entry, Refusal, Reply, ReplyBody, Request, Task, Word};
use op_names::Origin;
use op_pricing::{FeeRule, PriceHook};
use op_record::{Packed, entry_length};
use op_time::Moment;
use std::alloc::{AllocError, Global};
use std::marker::Model;

/// The most bytes that a step, an expiry or an attempt takes in a round: those of a payment that fails.
const STEP_LENGTH: usize = 18;

/// What a task is answered: the reply, and the entry that it adds to the history, if it adds one.
#[derive(Drop)]
pub struct Outcome {
    pub reply: Reply,
    pub entry: Option<Entry>,
}

/// A wallet. Contracts see its history, the round that is open, and for how many steps, expiries and attempts more it has
/// room.
///
/// Its history is legal, and made of acts that are built (`IsSound`); each call that only reads says so.
#[derive(Drop)]
pub struct Wallet {
    history: Packed,
    // Each asset that the history adds.
    assets: Vec<Asset>,
    last: Moment,
    origin: Origin,
    spare: usize,
}

impl Model for Wallet {
    ghost use Rattle.op_desk.specs.Wallets.{WalletState};

    ghost Value = { WalletState };

    ghost use Rattle.op_desk.specs.WalletInside.{IsKept, wallet_of};

    ghost view = { wallet_of };

    ghost invariant = { IsKept };
}

/// Whether an asset is listed.
fn has_asset(assets: &[Asset], asset: &Asset) -> bool
    ensures { result ≡ list_any (λ listed. is_same_asset listed asset.now) assets.now }
{
    assets.iter().any(|listed| listed.is_same(asset))
}

/// The origin of a wallet for which none was set.
fn unset_origin() -> Origin
    ensures { result ≡ codes "https://wallet.example" }
{
    match Origin::from_bytes(b"https://wallet.example") {
        Some(origin) => origin,
        None => unreachable!(),
    }
}

/// The code that bytes are. `None` exactly where they are no code.
fn code_of(bytes: &[u8]) -> Option<AssetCode>
    ensures { result ≡ (if is_asset_code bytes.now then Some bytes.now else None) }
{
    match str::from_utf8(bytes) {
        Ok(text) => AssetCode::read(text),
        Err(_) => None,
    }
}

/// The entry that adds an asset.
fn added(t: Moment, asset: &Asset, pieces: u8) -> Entry
    requires { IsTrue (keeps_forms (AddAsset asset.now pieces)) }
    ensures is { result ≡ record { at = t; act = AssetAdded asset.now.code asset.now.scale pieces } }
    ensures limit { t ≤ LAST }
    ensures fits { IsInRound t result }
{
    let _at_most_last = t.ms();
    Entry {
        at: t,
        act: Act::AssetAdded {
            code: CodeText::of_code(asset.code),
            scale: asset.scale,
            pieces,
        },
    }
}

/// Closes the round that is open, if one is.
fn close_open(history: &mut Packed)
    ensures entries { history.new.entries ≡ history.old.entries }
    ensures closed { history.new.moment ≡ None }
{
    if history.is_open() {
        history.close();
    }
}

/// The room for so many steps, expiries and attempts, and for so many bytes beside them. `None` where that is no number of
/// bytes.
fn room_for(spare: usize, taken: usize) -> Option<usize>
    ensures { IfSome result (λ room. room ≡ STEP_LENGTH * spare + taken) }
{
    STEP_LENGTH.checked_mul(spare)?.checked_add(taken)
}

impl Wallet {
    /// A wallet to which nothing has happened. No round is open.
    pub fn new(alloc: Global) -> Result<Wallet, AllocError>
        ensures value { IfOk result (λ wallet. wallet ≡ record { history = []; moment = None; round = []; spare = 0 }) }
        ensures sound { IfOk result (λ wallet. IsSound wallet.history) }
    {
        Ok(Wallet {
            history: Packed::new(alloc)?,
            assets: Vec::new(alloc),
            last: Moment::at_most_last(0),
            origin: unset_origin(),
            spare: 0,
        })
    }

    /// Opens a round at a moment that is not below the last entry's. The round that was open is closed. Where memory is
    /// short, no round is open.
    pub fn open_round(&mut self, t: Moment) -> Result<(), AllocError>
        requires { last_moment self.old.history ≤ t }
        ensures same { self.new.history ≡ self.old.history }
        ensures opened { OnOk result ((self.new.moment ≡ Some t) × (self.new.round ≡ [])) }
    {
        close_open(&mut self.history);
        self.spare = 0;
        self.history.open_round(t, 0)
    }

    /// Makes room for at least so many steps, expiries and attempts in the open round. Where memory is short, nothing has
    /// changed.
    pub fn reserve(&mut self, tasks: u64) -> Result<(), AllocError>
        requires { IsSome self.old.moment }
        ensures ok { OnOk result (self.new ≡ record { history = self.old.history; moment = self.old.moment; round = self.old.round; spare = max self.old.spare tasks }) }
        ensures err { OnErr result (self.new ≡ self.old) }
    {
        let tasks = tasks as usize;
        if tasks > self.spare {
            let Some(room) = room_for(tasks, 0) else {
                return Err(AllocError);
            };
            self.history.reserve(room)?;
            self.spare = tasks;
        }
        Ok(())
    }

    /// What a commit asks for of the open round: its payload's length, its payload in version 2, and a closed gate. The round
    /// has an entry, and its payload has fewer than 2^32 bytes.
    pub fn round_body(&self) -> &[u8]
        requires some { 0 < length self.now.round }
        requires small { length (round_payload self.now) < 2 ^ 32 }
        ensures { result.now ≡ body_of (round_payload self.now) }
    {
        self.history.body()
    }

    /// The entry at this place, the first being 1.
    pub fn entry(&self, alloc: Global, place: u64) -> Result<Entry, AllocError>
        requires low { 1 ≤ place }
        requires high { place ≤ length self.now.history }
        ensures { IfOk result (λ entry. entry ≡ slice_index_or self.now.history (place - 1) entry) }
    {
        self.history.entry_at(alloc, place)
    }

    /// The moment of the last entry, or the first of all.
    pub fn last(&self) -> Moment
        ensures value { result ≡ last_moment self.now.history }
        ensures sound { IsSound self.now.history }
    {
        self.last
    }

    /// How many entries there are: fewer than 2^63.
    pub fn count(&self) -> u64
        ensures value { result ≡ length self.now.history }
        ensures few { result < 2 ^ 63 }
        ensures sound { IsSound self.now.history }
    {
        self.history.count()
    }

    /// The origin under which names are printed.
    pub fn origin(&self) -> &Origin
        ensures value { result.now ≡ origin_of self.now.history }
        ensures sound { IsSound self.now.history }
    {
        &self.origin
    }

    /// The reply that refuses.
    pub fn refusal(&self, refusal: Refusal) -> Reply
        ensures { result ≡ refusal_reply self.now.history refusal }
    {
        self.reply(ReplyBody::Refused(refusal))
    }

    fn reply(&self, body: ReplyBody) -> Reply
        ensures { result ≡ reply_with self.now.history body }
    {
        Reply {
            origin: self.origin,
            body,
        }
    }

    fn refused(&self, refusal: Refusal) -> Outcome
        ensures reply { result.reply ≡ refusal_reply self.now.history refusal }
        ensures entry { result.entry ≡ None }
    {
        Outcome {
            reply: self.refusal(refusal),
            entry: None,
        }
    }

    /// Whether an asset may be added at a moment: its members have their forms, the moment is not below the last one, and
    /// the asset is not there.
    fn may_add(&self, at: Moment, asset: &Asset, pieces: u8) -> bool
        ensures { result ≡ may_add self.now.history at asset.now pieces }
    {
        let in_form = asset.scale <= Asset::SCALE_LIMIT && (1..=64).contains(&pieces);
        let in_order = self.last.ms() <= at.ms();
        in_form && in_order && !has_asset(&self.assets, asset)
    }

    /// The asset that an entry adds, where it may follow the history and its act is built.
    fn taken(&self, entry: &Entry) -> Option<Asset>
        ensures yes { IfSome result (λ asset. IsTaken self.now.history entry.now × IsAddedBy entry.now asset) }
        ensures no { IfNone result (IsTaken self.now.history entry.now → ⊥) }
    {
        let Act::AssetAdded {
            code,
            scale,
            pieces,
        } = &entry.act
        else {
            return None;
        };
        let Some(code) = code_of(code.as_bytes()) else {
            return None;
        };
        let asset = Asset {
            code,
            scale: *scale,
        };
        let _at_most_last = entry.at.ms();
        if !self.may_add(entry.at, &asset, *pieces) {
            return None;
        }
        Some(asset)
    }

    /// Puts an entry that adds this asset at the end of the history. Where memory is short, nothing has changed.
    fn put(&mut self, entry: &Entry, asset: Asset) -> Result<(), AllocError>
        requires moment { self.old.moment ≡ Some entry.now.at }
        requires fits { IsInRound entry.now.at entry.now }
        requires taken { IsTaken self.old.history entry.now }
        requires adds { IsAddedBy entry.now asset }
        ensures ok { OnOk result (self.new ≡ record { history = self.old.history ++ entry.now ∷ []; moment = self.old.moment; round = self.old.round ++ entry.now ∷ []; spare = self.old.spare }) }
        ensures sound { IsSound self.new.history }
        ensures short { OnOk result (length (act_in entry.now) ≤ ACT_LIMIT) }
        ensures err { OnErr result (self.new ≡ self.old) }
    {
        let Some(room) = room_for(self.spare, entry_length(entry)) else {
            return Err(AllocError);
        };
        self.assets.reserve(1)?;
        self.history.reserve(room)?;
        self.history.push(entry)?;
        self.assets.push_reserved(asset);
        self.last = entry.at;
        Ok(())
    }

    /// Takes an entry into the history and into the open round, which has its moment. `Illegal` exactly where the history
    /// with it is not legal or its act is not built, with the entry's number. A refused call changes nothing.
    pub fn load(&mut self, entry: &Entry) -> Result<(), LoadFault>
        requires moment { self.old.moment ≡ Some entry.now.at }
        requires fits { IsInRound entry.now.at entry.now }
        ensures ok { OnOk result (IsTaken self.old.history entry.now × (self.new.history ≡ self.old.history ++ entry.now ∷ []) × (self.new.moment ≡ self.old.moment)) }
        ensures illegal { (place : ℕ) → IsErrOf result (LoadFault.Illegal place) → (place ≡ length self.old.history + 1) × (IsTaken self.old.history entry.now → ⊥) }
        ensures spare { self.old.spare ≤ self.new.spare + 1 }
        ensures refused { OnErr result (self.new ≡ self.old) }
        ensures sound { IsSound self.new.history }
    {
        let Some(asset) = self.taken(entry) else {
            return Err(LoadFault::Illegal {
                place: self.history.count() + 1,
            });
        };
        match self.put(entry, asset) {
            Ok(()) => Ok(()),
            Err(_) => Err(LoadFault::Memory),
        }
    }

    fn add_asset<F: FeeTerms>(&mut self, t: Moment, asset: &Asset, pieces: u8) -> Outcome
        requires moment { self.old.moment ≡ Some t }
        requires later { last_moment self.old.history ≤ t }
        requires proper { IsTrue (keeps_forms (AddAsset asset.now pieces)) }
        ensures handled { (place : ℕ) (verdict : Verdict) (word : List ℕ) → Handles F.allows self.old.history t place (Ask (AddAsset asset.now pieces) verdict) word result.reply self.new.history }
        ensures entry { self.new.history ≡ with_entry self.old.history result.entry }
        ensures round { (self.new.round ≡ with_entry self.old.round result.entry) × (self.new.moment ≡ self.old.moment) }
        ensures fits { IfSome result.entry (FitsRound t) }
        ensures origin { result.reply.origin ≡ origin_of self.new.history }
        ensures printed { IsTrue (is_built_reply result.reply.body) }
        ensures sound { IsSound self.new.history }
        ensures spare { self.old.spare ≤ self.new.spare + 1 }
    {
        if has_asset(&self.assets, asset) {
            return self.refused(Refusal::AlreadyExists);
        }
        let entry = added(t, asset, pieces);
        match self.put(&entry, *asset) {
            Ok(()) => {}
            Err(_) => return self.refused(Refusal::Memory),
        }
        Outcome {
            reply: self.reply(ReplyBody::AssetAdded {
                asset: *asset,
                pieces,
            }),
            entry: Some(entry),
        }
    }

    /// Answers a task at a moment as the plain wallet does: its reply, and its act at the end of the history and of the open
    /// round, which has that moment. A request may be refused for want of memory instead, which changes nothing. The task's
    /// act has to be built; `word` are its sixteen drawn bytes. No task that is built has a price, so the hook is not asked
    /// yet.
    pub fn answer<F: FeeRule>(
        &mut self,
        t: Moment,
        word: &Word,
        _hook: &PriceHook<F>,
        task: &Task,
    ) -> Outcome
        requires moment { self.old.moment ≡ Some t }
        requires later { last_moment self.old.history ≤ t }
        requires built { IsTrue (is_built_task task.now) }
        requires proper { IsTrue (is_proper self.old.history task.now) }

        ensures handled { (place : ℕ) → Handles F.FeeTerms.allows self.old.history t place task.now word.now result.reply self.new.history }
        ensures entry { self.new.history ≡ with_entry self.old.history result.entry }
        ensures round { (self.new.round ≡ with_entry self.old.round result.entry) × (self.new.moment ≡ self.old.moment) }
        ensures fits { IfSome result.entry (FitsRound t) }
        ensures origin { result.reply.origin ≡ origin_of self.new.history }
        ensures printed { IsTrue (is_built_reply result.reply.body) }
        ensures spare { self.old.spare ≤ self.new.spare + 1 }
        ensures sound { IsSound self.new.history }
    {
        let Task::Ask { request, .. } = task else {
            unreachable!()
        };
        let Request::AddAsset { asset, pieces } = request else {
            unreachable!()
        };
        self.add_asset::<F>(t, asset, *pieces)
    }
}
