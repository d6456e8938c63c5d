//! The desk: opening it on any disk, beginning rounds, and committing them.
ghost use Rattle.std.specs.Prelude.{◌≡◌, ◌≢◌, ◌⊎◌, ◌+◌, ◌<◌, ◌≤◌, ◌∷◌, ◌++◌, [], ℕ, List, length, replicate, false, IsTrue, IsSome, IsNone, IfSome, IfOk, OnOk, IfErr, OnErr, IsErrOf, IsErrAnd, IsOk, Ok, None};
ghost use Rattle.op_causes.specs.Causes.{NamesFault};
ghost use Rattle.op_disk.specs.Moments.{LeavesOnly};
ghost use Rattle.op_journal.specs.Commits as journal_spells;
ghost use Rattle.op_journal.specs.Commits.{IsBody, IsSettled, payload_of};
ghost use Rattle.op_journal.specs.Frames.{Holds, SpellsUpTo, limit};
ghost use Rattle.op_journal.specs.Recovered.{IsOldOrShort};
ghost use Rattle.op_model.specs.History.{last_moment};
ghost use Rattle.op_model.specs.declared.act.Entry.{Entry};
ghost use Rattle.op_desk.specs.Batches.{DeskValue, IsWhole, history_in};
ghost use Rattle.op_desk.specs.Reading.{Fails, IsFree};
ghost use Rattle.op_record.specs.Rounds.{round_of};
ghost use Rattle.op_desk.specs.Spelling.{Spells, SpellsSound, SpellsRounds, SpellsEither, LacksRoom, Stands, with_round, history_of, opening_calls};
ghost use Rattle.op_desk.specs.Wallets.{WalletValue, IsSound, shown};
ghost use Rattle.op_desk.specs.declared.TheConstants.{TASK_LIMIT};

use crate::batch::{Batch, Committed, Round};
use crate::payload::load_payload;
use crate::{DeskFault, RoundFault, Wallet};
use op_disk::Disk;
use op_journal::{CommitFault, Journal, LIMIT, Recovery};
use op_time::Moment;
use std::alloc::{AllocError, Global};
use std::marker::Model;

/// A journal and the wallet whose history it spells. It does not hold the disk: each call that touches it is given it.
///
/// While a round runs, its batch has the wallet. After a round was refused the desk is not whole any more, and only
/// `recover` goes on.
#[derive(Drop)]
pub struct Desk {
    journal: Journal,
    wallet: Option<Wallet>,
}

impl Model for Desk {
    ghost use Rattle.op_desk.specs.Batches.{DeskValue};

    ghost Value = { DeskValue };

    ghost use Rattle.op_desk.specs.DeskInside.{desk_of, IsOpen};

    ghost view = { desk_of };

    ghost invariant = { IsOpen };
}

impl Desk {
    /// Opens the journal on any disk, and reads the history that it spells. A disk of at most 9 bytes is a fresh journal,
    /// and gets its header.
    ///
    /// Nothing is repaired and nothing is lost: at every moment a crash leaves a disk that there was, or where the disk was
    /// that short, another that is.
    pub fn recover<D: Disk>(alloc: Global, disk: &mut D) -> Result<Desk, DeskFault>
        // The history is legal, all that the disk spells, and the only one that it spells.
        ensures whole { IfOk result (λ desk. (history : List Entry) × IsWhole desk.wallet history × IsSound history × (IsTrue D.tells → Spells history (D.seen disk.old))) }
        ensures alone { IfOk result (λ desk. IsTrue D.tells → (history : List Entry) → Spells history (D.seen disk.old) → IsWhole desk.wallet history) }
        ensures stands { IfOk result (λ desk. IsTrue D.tells → (rounds : List (List Entry)) × IsWhole desk.wallet (history_of rounds) × Stands rounds desk.tail (D.seen disk.new) (D.images disk.new)) }
        ensures images { IfOk result (λ desk. IsTrue D.tells → (c : List ℕ) → D.images disk.new c → (rounds : List (List Entry)) × IsWhole desk.wallet (history_of rounds) × SpellsRounds rounds c) }
        // A refusal comes where reading from the front first fails, and no such disk is opened; a legal history is.
        ensures refused { IfErr result (λ e. IsTrue D.tells → IsFree e ⊎ Fails e (D.seen disk.old)) }
        ensures refused_where { (fault : _) → IsTrue D.tells → Fails fault (D.seen disk.old) → IsErrAnd result (λ e. (e ≡ fault) ⊎ IsFree e) }
        ensures opened_where { (history : List Entry) → IsTrue D.tells → SpellsSound history (D.seen disk.old) → IfErr result IsFree }
        // The calls on the disk, by the frames that it had.
        ensures calls { IfOk result (λ desk. IsTrue D.tells → (rounds : List (List Entry)) × SpellsRounds rounds (D.seen disk.old) × (D.moment disk.new ≡ D.moment disk.old + opening_calls (length rounds) (D.seen disk.old))) }
        // At every moment.
        ensures any_moment { IsTrue D.tells → LeavesOnly D.Disk disk.old disk.new (IsOldOrShort (D.images disk.old) (D.seen disk.old)) }
        ensures synced { IsTrue D.tells → D.moment disk.old + 1 < D.moment disk.new → (c : List ℕ) → D.since disk.new (D.moment disk.old + 1) c → IsOldOrShort (λ d. d ≡ D.seen disk.old) (D.seen disk.old) c }
        ensures past_sync { IsTrue D.tells → (IsErrOf result DeskFault.DiskFault → ⊥) → D.moment disk.old + 1 < D.moment disk.new }
        ensures cause { NamesFault (D.faults disk.old) (D.faults disk.new) (IsErrOf result DeskFault.DiskFault) }
    {
        let mut recovery = match Recovery::begin(disk) {
            Ok(recovery) => recovery,
            Err(fault) => return Err(DeskFault::from(fault)),
        };
        let Ok(mut wallet) = Wallet::new(alloc) else {
            return Err(DeskFault::Memory);
        };
        let mut payload = Vec::new(alloc);
        let mut gate = 8;
        for _frame in 0..LIMIT {
            let more = match recovery.next_frame(alloc, disk, &mut payload) {
                Ok(more) => more,
                Err(fault) => return Err(DeskFault::from(fault)),
            };
            if !more {
                return Ok(Desk {
                    journal: recovery.finish(),
                    wallet: Some(wallet),
                });
            }
            match load_payload(alloc, &mut wallet, &payload, gate + 5) {
                Ok(()) => {}
                Err(fault) => return Err(fault),
            }
            gate += 5 + payload.len() as u64;
        }
        unreachable!()
    }

    /// The wallet. The desk is whole: no round runs, and none was refused.
    pub fn wallet(&self) -> &Wallet
        requires whole { IsSome self.now.wallet }
        ensures value { (w : WalletValue) × (self.now.wallet ≡ Some w) × (shown result.now ≡ w) }
        ensures sound { IsSound result.now.history }
    {
        match &self.wallet {
            Some(wallet) => wallet,
            None => unreachable!(),
        }
    }

    /// Begins a round of so many tasks at a moment, and makes all room that its steps, expiries and attempts need. Where
    /// memory is short, nothing has changed.
    pub fn begin(&mut self, alloc: Global, t: Moment, tasks: u64) -> Result<Batch, AllocError>
        requires whole { IsSome self.old.wallet }
        requires later { IfSome self.old.wallet (λ w. last_moment w.history ≤ t) }
        requires tasks { tasks ≤ TASK_LIMIT }
        ensures begun { IfOk result (λ batch. IsWhole self.old.wallet batch.begun × IsSound batch.begun) }
        ensures fresh { IfOk result (λ batch. (batch.moment ≡ t) × (batch.entries ≡ []) × (batch.places ≡ replicate tasks 0) × (batch.used ≡ replicate tasks false)) }
        ensures running { OnOk result ((self.new.wallet ≡ None) × (self.new.tail ≡ self.old.tail) × (self.new.closed ≡ false)) }
        ensures refused { OnErr result (self.new ≡ self.old) }
    {
        let places = vec![in alloc; 0; tasks as usize]?;
        let used = vec![in alloc; false; tasks as usize]?;
        match &mut self.wallet {
            Some(wallet) => open_round(wallet, t, tasks)?,
            None => unreachable!(),
        }
        match self.wallet.take() {
            Some(wallet) => Ok(Batch::new(places, used, wallet, t)),
            None => unreachable!(),
        }
    }

    /// Ends a round: commits its entries as one frame, by four calls on the disk, and takes the wallet back. A round without
    /// entries makes no call on the disk. The batch began at the history that the disk spells, which is the desk's.
    ///
    /// At every moment since its start a crash leaves the old history, or that with the whole round; after `Ok` it leaves
    /// the new one. After a refusal the desk is not whole. Takes no memory.
    pub fn close_round<D: Disk>(
        &mut self,
        disk: &mut D,
        batch: Batch,
    ) -> Result<Committed, RoundFault>
        requires running { self.old.closed ≡ false }
        requires stands { IsTrue D.tells → (rounds : List (List Entry)) × (history_of rounds ≡ batch.begun) × Stands rounds self.old.tail (D.seen disk.old) (D.images disk.old) }

        ensures whole { OnOk result (IsWhole self.new.wallet (history_in batch)) }
        ensures sound { IsSound (history_in batch) }
        ensures committed { IfOk result (λ c. (c.places.items ≡ batch.places) × (c.count ≡ length (history_in batch))) }
        ensures stands { OnOk result (IsTrue D.tells → (rounds : List (List Entry)) → Stands rounds self.old.tail (D.seen disk.old) (D.images disk.old)
            → Stands (with_round rounds batch.entries) self.new.tail (D.seen disk.new) (D.images disk.new)) }
        ensures images { OnOk result (IsTrue D.tells → (rounds : List (List Entry)) → Stands rounds self.old.tail (D.seen disk.old) (D.images disk.old)
            → (c : List ℕ) → D.images disk.new c → SpellsRounds (with_round rounds batch.entries) c) }
        ensures any_moment { IsTrue D.tells → (rounds : List (List Entry)) → Stands rounds self.old.tail (D.seen disk.old) (D.images disk.old)
            → LeavesOnly D.Disk disk.old disk.new (SpellsEither rounds batch.entries) }
        ensures calls { OnOk result (batch.entries ≢ [] → D.moment disk.new ≡ D.moment disk.old + 4) }
        ensures at_most { D.moment disk.new ≤ D.moment disk.old + 4 }
        ensures empty { batch.entries ≡ [] → IsOk result × (disk.new ≡ disk.old) × (self.new.tail ≡ self.old.tail) }
        ensures refused { OnErr result (IsNone self.new.wallet) }
        ensures cause { NamesFault (D.faults disk.old) (D.faults disk.new) (IsErrOf result RoundFault.DiskFault) }
        ensures full { (tail need : ℕ) → IsErrOf result (RoundFault.Full tail need) → (batch.entries ≢ []) × (tail ≡ self.old.tail) × (need ≡ length (round_of batch.moment batch.entries) + 6) × (limit < tail + need) × (disk.new ≡ disk.old) }
        ensures no_room { (tail need : ℕ) → IsErrOf result (RoundFault.Full tail need) → IsTrue D.tells → LacksRoom batch.begun (history_in batch) (D.seen disk.new) }
        ensures full_where { batch.entries ≢ [] → limit < self.old.tail + (length (round_of batch.moment batch.entries) + 6) → IsErrOf result (RoundFault.Full self.old.tail (length (round_of batch.moment batch.entries) + 6)) }
    {
        self.wallet = None;
        let round = batch.into_round();
        if !round.has_entries {
            return Ok(self.take_back(round));
        }
        commit(&mut self.journal, disk, round.body())?;
        Ok(self.take_back(round))
    }

    /// Takes the wallet of a round that stands.
    fn take_back(&mut self, round: Round) -> Committed
        requires sound { IsSound round.wallet.history }
        requires is_open { self.old.closed ≡ false }
        ensures whole { IsWhole self.new.wallet round.wallet.history }
        ensures committed { (result.places ≡ round.places) × (result.count ≡ length round.wallet.history) }
        ensures same { (self.new.tail ≡ self.old.tail) × (self.new.closed ≡ self.old.closed) }
    {
        let count = round.wallet.count();
        self.wallet = Some(round.wallet);
        Committed {
            places: round.places,
            count,
        }
    }
}

/// Opens a round at a moment, with room for so many steps, expiries and attempts.
fn open_round(wallet: &mut Wallet, t: Moment, tasks: u64) -> Result<(), AllocError>
    requires { last_moment wallet.old.history ≤ t }
    ensures same { wallet.new.history ≡ wallet.old.history }
    ensures opened { OnOk result ((wallet.new.moment ≡ Some t) × (wallet.new.round ≡ []) × (tasks ≤ wallet.new.spare)) }
{
    wallet.open_round(t)?;
    wallet.reserve(tasks)
}

/// Commits a frame to a journal that no fault has closed.
fn commit<D: Disk>(journal: &mut Journal, disk: &mut D, body: &[u8]) -> Result<(), RoundFault>
    requires is_open { journal.old.closed ≡ false }
    requires settled { IsTrue D.tells → IsSettled journal.old.tail (D.seen disk.old) (D.images disk.old) }
    requires body { IsBody body.now }
    ensures spells { OnOk result (IsTrue D.tells → (payloads : List (List ℕ)) → Holds payloads journal.old.tail (D.seen disk.old)
        → SpellsUpTo (payloads ++ payload_of body.now ∷ []) journal.new.tail (D.seen disk.new)) }
    ensures settled { OnOk result (IsTrue D.tells → IsSettled journal.new.tail (D.seen disk.new) (D.images disk.new)) }
    ensures any_moment { IsTrue D.tells → (payloads : List (List ℕ)) → Holds payloads journal.old.tail (D.seen disk.old)
        → LeavesOnly D.Disk disk.old disk.new (journal_spells.SpellsEither payloads journal.old.tail body.now) }
    ensures committed { OnOk result (journal.new.closed ≡ false) }
    ensures calls { OnOk result (D.moment disk.new ≡ D.moment disk.old + 4) }
    ensures at_most { D.moment disk.new ≤ D.moment disk.old + 4 }
    ensures cause { NamesFault (D.faults disk.old) (D.faults disk.new) (IsErrOf result RoundFault.DiskFault) }
    ensures full { (tail need : ℕ) → IsErrOf result (RoundFault.Full tail need) → (tail ≡ journal.old.tail) × (need ≡ length body.now + 1) × (limit < tail + need) × (disk.new ≡ disk.old) }
    ensures full_where { limit < journal.old.tail + (length body.now + 1) → IsErrOf result (RoundFault.Full journal.old.tail (length body.now + 1)) }
{
    match journal.commit(disk, body) {
        Ok(()) => Ok(()),
        Err(CommitFault::Full { tail, need }) => Err(RoundFault::Full { tail, need }),
        Err(CommitFault::DiskFault) => Err(RoundFault::DiskFault),
        Err(CommitFault::Closed) => unreachable!(),
    }
}
