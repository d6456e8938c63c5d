//! An entry found in the bytes of rounds.

ghost use Rattle.std.specs.Prelude.{◌≡◌, ◌≤◌, ◌<◌, ◌∷◌, length, slice_index_or, IfOk, IsOk, Ok};
ghost use Rattle.op_time.specs.declared.TheConstants.{LAST};
ghost use Rattle.op_model.specs.declared.act.Entry.{Entry};
ghost use Rattle.op_record.specs.Readers.{Gives};
ghost use Rattle.op_record.specs.Rows.{entry_of_round_at};
ghost use Rattle.op_record.specs.Packing.{opening_at, held};

use crate::fault::ReadError;
use crate::fields::{behind, byte_between, bytes_at, moment_at};
use crate::packed_bytes::CLOSED;
use crate::reading::entry_of_round_at;
use crate::round_writing::VERSION_2;
use op_model::Entry;
use std::alloc::{AllocError, Global};

/// The length of a payload, the byte 2 and the moment: what a round has before its entries.
#[tactic(auto, unfolding(crate::specs::Packing::opening_at, crate::specs::Readers::bind))]
fn opening_at(bytes: &[u8]) -> Result<(u64, &[u8]), ReadError>
    ensures gives { Gives (λ x. (x.0, x.1.now)) result (opening_at bytes.now) }
    ensures low { IfOk result (λ x. x.0 ≤ LAST) }
{
    let (_, rest) = bytes_at(bytes, 4)?;
    let (_, rest) = byte_between(rest, VERSION_2, VERSION_2)?;
    moment_at(rest)
}

/// The moment that stands before the entries of a round, and the bytes from the first of them on.
fn opened(bytes: &[u8]) -> Result<(u64, &[u8]), AllocError>
    requires { IsOk (opening_at bytes.now) }
    ensures { IfOk result (λ x. (opening_at bytes.now ≡ Ok (x.0, x.1.now)) × (x.0 ≤ LAST)) }
{
    match opening_at(bytes) {
        Ok(opening) => Ok(opening),
        Err(ReadError::Memory) => Err(AllocError),
        Err(ReadError::Fault(_)) => unreachable!(),
    }
}

/// The entry with which the bytes begin, at the moment of its round, and the bytes behind it.
fn next_in(alloc: Global, bytes: &[u8], at: u64) -> Result<(Entry, &[u8]), AllocError>
    requires low { at ≤ LAST }
    requires there { IsOk (entry_of_round_at at bytes.now) }
    ensures { IfOk result (λ x. entry_of_round_at at bytes.now ≡ Ok (x.0, x.1.now)) }
{
    match entry_of_round_at(alloc, bytes, at) {
        Ok(next) => Ok(next),
        Err(ReadError::Memory) => Err(AllocError),
        Err(ReadError::Fault(_)) => unreachable!(),
    }
}

/// The bytes behind the entry with which they begin.
fn behind_next(alloc: Global, bytes: &[u8], at: u64) -> Result<&[u8], AllocError>
    requires low { at ≤ LAST }
    requires there { IsOk (entry_of_round_at at bytes.now) }
    ensures { IfOk result (λ rest. (entry : Entry) × (entry_of_round_at at bytes.now ≡ Ok (entry, rest.now))) }
{
    let (passed, rest) = next_in(alloc, bytes, at)?;
    drop(passed);
    Ok(rest)
}

/// The entry at this place of those that the bytes hold, the first being 0. They begin within a round of this moment.
pub(crate) fn entry_in(
    alloc: Global,
    bytes: &[u8],
    at: u64,
    place: usize,
) -> Result<Entry, AllocError>
    requires low { at ≤ LAST }
    requires there { place < length (held at bytes.now) }
    ensures { IfOk result (λ entry. entry ≡ slice_index_or (held at bytes.now) place entry) }
{
    let mut at = at;
    let mut rest = bytes;
    let mut left = place;
    loop {
        if let Some(opening) = behind(rest, CLOSED) {
            let (moment, after) = opened(opening)?;
            at = moment;
            rest = after;
        } else if left > 0 {
            rest = behind_next(alloc, rest, at)?;
            left -= 1;
        } else {
            let (entry, _) = next_in(alloc, rest, at)?;
            return Ok(entry);
        }
    }
}
