//! The payload of a frame: its round, and the legality of its entries.
ghost use Rattle.std.specs.Prelude.{◌≡◌, ◌⊎◌, ◌+◌, ◌<◌, ◌^◌, ◌++◌, ◌∷◌, [], ℕ, List, length, OnOk, IfOk, IfErr, IsErrOf};
ghost use Rattle.std.specs.List.{AllByRecursion};
ghost use Rattle.op_model.specs.declared.act.Entry.{Entry};
ghost use Rattle.op_record.specs.Rounds.{IsRound, IsInRound};
ghost use Rattle.op_desk.specs.Payloads.{IsLoaded, IsOfPayload, CanBePut};
ghost use Rattle.op_desk.specs.Reading.{IsBrokenAt, StopsAtEntry};
ghost use Rattle.op_desk.specs.Wallets.{IsSound, IsTaken, IsAtLast};
ghost use Rattle.op_desk.specs.declared.fault.LoadFault.TheVariants as load_faults;

use crate::{DeskFault, LoadFault, Wallet};
use op_model::Entry;
use op_record::{RecordFault, read_round};
use std::alloc::Global;

/// The entries of a payload, of either version. Its first byte stands at `place` of the disk.
fn read_entries(alloc: Global, payload: &[u8], place: u64) -> Result<Vec<Entry>, DeskFault>
    requires { place + length payload.now < 2 ^ 64 }
    ensures read { IfOk result (λ entries. IsRound payload.now entries.items) }
    ensures broken { (at : ℕ) → IsErrOf result (DeskFault.BadRecord at) → (within : ℕ) × IsBrokenAt payload.now within × (at ≡ place + within) }
    ensures refusals { IfErr result (λ e. (e ≡ DeskFault.Memory) ⊎ ((at : ℕ) × (e ≡ DeskFault.BadRecord at))) }
{
    let mut entries = Vec::new(alloc);
    match read_round(alloc, payload, &mut entries) {
        Ok(()) => Ok(entries),
        Err(RecordFault::Short) => Err(DeskFault::BadRecord {
            at: place + payload.len() as u64,
        }),
        Err(RecordFault::Bad { at }) => Err(DeskFault::BadRecord { at: place + at }),
        Err(RecordFault::Memory) => Err(DeskFault::Memory),
    }
}

/// Opens a round for an entry, unless the last entry's has its moment. `Illegal` exactly where the entry's moment is below
/// the last one, with the entry's number.
fn open_for(wallet: &mut Wallet, entry: &Entry) -> Result<(), LoadFault>
    requires { IsAtLast wallet.old }
    ensures same { wallet.new.history ≡ wallet.old.history }
    ensures opened { OnOk result (wallet.new.moment ≡ Some entry.now.at) }
    ensures illegal { (place : ℕ) → IsErrOf result (LoadFault.Illegal place) → (place ≡ length wallet.old.history + 1) × (IsTaken wallet.old.history entry.now → ⊥) }
{
    let last = wallet.last().ms();
    if entry.at.ms() < last {
        return Err(LoadFault::Illegal {
            place: wallet.count() + 1,
        });
    }
    if last < entry.at.ms() || wallet.count() == 0 {
        match wallet.open_round(entry.at) {
            Ok(()) => {}
            Err(_) => return Err(LoadFault::Memory),
        }
    }
    Ok(())
}

/// Takes an entry into a wallet, in a round at its moment.
fn load_entry(wallet: &mut Wallet, entry: &Entry) -> Result<(), LoadFault>
    requires last { IsAtLast wallet.old }
    requires fits { CanBePut entry.now }
    ensures ok { OnOk result (wallet.new.history ≡ wallet.old.history ++ entry.now ∷ []) }
    ensures last { OnOk result (IsAtLast wallet.new) }
    ensures sound { OnOk result (IsSound wallet.new.history) }
    ensures illegal { (place : ℕ) → IsErrOf result (LoadFault.Illegal place) → (place ≡ length wallet.old.history + 1) × (IsTaken wallet.old.history entry.now → ⊥) }
{
    open_for(wallet, entry)?;
    wallet.load(entry)
}

/// Takes these entries into a wallet, up to the first that it does not take.
fn load_entries(wallet: &mut Wallet, entries: &[Entry]) -> Result<(), DeskFault>
    requires sound { IsSound wallet.old.history }
    requires last { IsAtLast wallet.old }
    requires fit { AllByRecursion CanBePut entries.now }
    ensures ok { OnOk result (wallet.new.history ≡ wallet.old.history ++ entries.now) }
    ensures last { OnOk result (IsAtLast wallet.new) }
    ensures sound { OnOk result (IsSound wallet.new.history) }
    ensures illegal { (place : ℕ) → IsErrOf result (DeskFault.Illegal place) → StopsAtEntry wallet.old.history entries.now place }
    ensures refusals { IfErr result (λ e. (e ≡ DeskFault.Memory) ⊎ ((place : ℕ) × (e ≡ DeskFault.Illegal place))) }
{
    for entry in entries {
        match load_entry(wallet, entry) {
            Ok(()) => {}
            Err(fault) => return Err(DeskFault::from(fault)),
        }
    }
    Ok(())
}

/// Takes the entries of a payload into a wallet: first all of it is read, and then its entries are taken. The payload's
/// first byte stands at `place` of the disk.
pub fn load_payload(
    alloc: Global,
    wallet: &mut Wallet,
    payload: &[u8],
    place: u64,
) -> Result<(), DeskFault>
    requires sound { IsSound wallet.old.history }
    requires last { IsAtLast wallet.old }
    requires place { place + length payload.now < 2 ^ 64 }
    ensures ok { OnOk result (IsLoaded payload.now wallet.old.history wallet.new.history) }
    ensures last { OnOk result (IsAtLast wallet.new) }
    ensures broken { (at : ℕ) → IsErrOf result (DeskFault.BadRecord at) → (within : ℕ) × IsBrokenAt payload.now within × (at ≡ place + within) }
    ensures illegal { (number : ℕ) → IsErrOf result (DeskFault.Illegal number) → (round : List Entry) × IsRound payload.now round × StopsAtEntry wallet.old.history round number }
    ensures refusals { IfErr result IsOfPayload }
{
    let entries = match read_entries(alloc, payload, place) {
        Ok(entries) => entries,
        Err(fault) => return Err(fault),
    };
    load_entries(wallet, &entries)
}
