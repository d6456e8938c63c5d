//! Rounds: the payload of a frame, of either version.

ghost use Rattle.std.specs.Prelude.{◌≡◌, ◌≤◌, ◌++◌, ℕ, List, length, IfSome, OnOk, OnErr, Ok, Err};
ghost use Rattle.op_time.specs.declared.TheConstants.{LAST};
ghost use Rattle.op_model.specs.declared.act.Entry.{Entry};
ghost use Rattle.op_record.specs.declared.fault.Fault.{Fault};
ghost use Rattle.op_record.specs.declared.fault.ReadError.TheVariants as errors;
ghost use Rattle.op_record.specs.declared.fault.Fault.TheVariants as inner;
ghost use Rattle.op_record.specs.declared.RecordFault.TheVariants.{Short, Bad};
ghost use Rattle.op_record.specs.Readers.{Gives};
ghost use Rattle.op_record.specs.Cuts.{IsUnlessMemory};
ghost use Rattle.op_record.specs.Rounds.{IsRound, IsCutRound, IsBadRoundAt, IsReadOrMemory};
ghost use Rattle.op_record.specs.RoundReading.{entry_with, AreRead, StopsAt, IsReadRound, IsLeft, Says, Grows};

use crate::RecordFault;
use crate::fault::{Fault, ReadError};
use crate::fields::{behind, moment_at};
use crate::reading::{entry_at, entry_of_round_at};
use crate::round_writing::VERSION_2;
use op_model::Entry;
use std::alloc::Global;

/// An entry with its moment, or one whose moment was said before.
fn entry_with(alloc: Global, bytes: &[u8], said: Option<u64>) -> Result<(Entry, &[u8]), ReadError>
    requires { IfSome said (λ at. at ≤ LAST) }
    ensures { Gives (λ x. (x.0, x.1.now)) result (entry_with said bytes.now) }
{
    match said {
        Some(at) => entry_of_round_at(alloc, bytes, at),
        None => entry_at(alloc, bytes),
    }
}

/// Reads entries one after another up to the end, at least one, and puts them behind what is there.
fn read_entries(
    alloc: Global,
    bytes: &[u8],
    said: Option<u64>,
    into: &mut Vec<Entry>,
) -> Result<(), ReadError>
    requires { IfSome said (λ at. at ≤ LAST) }
    ensures read { OnOk result (AreRead said bytes.now into.old.items into.new.items) }
    ensures stops { (fault : Fault) → result ≡ Err (errors.Fault fault) → StopsAt said bytes.now fault }
    ensures grows { Grows into.old.items into.new.items }
{
    let mut rest = bytes;
    loop {
        let (entry, after) = entry_with(alloc, rest, said)?;
        into.push(entry)?;
        if after.is_empty() {
            return Ok(());
        }
        rest = after;
    }
}

/// Reads the entries of a payload by its version, and puts them behind what is there.
fn read_payload(alloc: Global, payload: &[u8], into: &mut Vec<Entry>) -> Result<(), ReadError>
    ensures read { OnOk result (IsReadRound payload.now into.old.items into.new.items) }
    ensures short { result ≡ Err (errors.Fault inner.Short) → IsCutRound payload.now }
    ensures bad { (left : ℕ) → result ≡ Err (errors.Fault (inner.Bad left)) → IsLeft payload.now left }
    ensures grows { Grows into.old.items into.new.items }
{
    let Some(rest) = behind(payload, VERSION_2) else {
        return read_entries(alloc, payload, None, into);
    };
    match moment_at(rest) {
        Ok((at, entries)) => read_entries(alloc, entries, Some(at), into),
        Err(error) => Err(error),
    }
}

/// What reading a payload gives. After an `Err` what was there stands as it was.
fn read_whole(alloc: Global, payload: &[u8], into: &mut Vec<Entry>) -> Result<(), RecordFault>
    ensures says { Says payload.now into.old.items into.new.items result }
    ensures refused { OnErr result (into.new.items ≡ into.old.items) }
{
    let before = into.len();
    match read_payload(alloc, payload, into) {
        Ok(()) => Ok(()),
        Err(error) => {
            into.truncate(before);
            match error {
                ReadError::Memory => Err(RecordFault::Memory),
                ReadError::Fault(Fault::Short) => Err(RecordFault::Short),
                ReadError::Fault(Fault::Bad(left)) => {
                    let at = (payload.len() - left) as u64;
                    Err(RecordFault::Bad { at })
                }
            }
        }
    }
}

/// Reads the entries of the payload of a frame, of either version, and puts them behind what is there. The texts of the
/// entries are kept on the heap. After an `Err` what was there stands as it was.
///
/// `Short` where a round begins with the payload and goes on, and the payload is none itself; `Bad { at }` where no round
/// begins with the bytes up to and with that place, and it is the first such place. A payload whose first byte is 2 is of
/// version 2, any other of version 1.
pub fn read_round(alloc: Global, payload: &[u8], into: &mut Vec<Entry>) -> Result<(), RecordFault>
    ensures read { OnOk result (IsReadRound payload.now into.old.items into.new.items) }
    ensures short { result ≡ Err Short → IsCutRound payload.now }
    ensures bad { (at : ℕ) → result ≡ Err (Bad at) → IsBadRoundAt payload.now at }
    // A round is read, a cut one is too short, and a bad place is told, unless memory ran out.
    ensures whole { (round : List Entry) → IsRound payload.now round → IsReadOrMemory round into.old.items into.new.items result }
    ensures cut { IsCutRound payload.now → IsUnlessMemory result (Err Short) }
    ensures strange { (at : ℕ) → IsBadRoundAt payload.now at → IsUnlessMemory result (Err (Bad at)) }
    ensures refused { OnErr result (into.new.items ≡ into.old.items) }
{
    read_whole(alloc, payload, into)
}
