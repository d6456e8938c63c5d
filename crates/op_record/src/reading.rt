//! Acts and entries, read from left to right.

ghost use Rattle.std.specs.Prelude.{◌≡◌, ◌≤◌, ◌++◌, ℕ, List, length, IfOk};
ghost use Rattle.op_time.specs.declared.TheConstants.{LAST};
ghost use Rattle.op_model.specs.declared.act.Entry.{Entry};
ghost use Rattle.op_record.specs.declared.RecordFault.TheVariants.{Short, Bad};
ghost use Rattle.op_record.specs.Records.{record_of};
ghost use Rattle.op_record.specs.Reading.{reading};
ghost use Rattle.op_record.specs.Cuts.{HasRecord, IsFound, IsCut, IsBadAt, IsUnlessMemory};
ghost use Rattle.op_model.specs.declared.act.Act.TheVariants as acts;
ghost use Rattle.op_record.specs.Readers.{Gives};
ghost use Rattle.op_record.specs.Rows.{origin_set_at, asset_added_at, address_added_at, moved_at, rate_set_at, incoming_made_at, quote_made_at, grant_asked_at, outgoing_made_at, outgoing_failed_at, attempted_at, outgoing_direct_at, provider_at, receiving_at, grant_at, sending_at, fields_at, act_at, entry_at, entry_of_round_at};

use crate::RecordFault;
use crate::fault::{Fault, ReadError};
use crate::fields::{
    account_at, byte_between, kept_at, mode_at, moment_at, outcome_at, reason_at, some_text_at,
    some_u64_at, text_at, u32_at, u64_at, word_at,
};
use crate::grants::{items_at, some_finish_at};
use op_model::{Act, CodeText, Entry, Text};
use op_names::{AddressPath, ClientText, Origin};
use op_time::Moment;
use std::alloc::Global;

/// The highest kind that version 1 has.
const HIGHEST_OF_VERSION_1: u8 = 24;

/// The highest kind that version 2 has.
const HIGHEST_OF_VERSION_2: u8 = 25;

#[tactic(auto, unfolding(crate::specs::Rows::origin_set_at, crate::specs::Readers::bind, crate::specs::Readers::done))]
fn origin_set_at(bytes: &[u8]) -> Result<(Act, &[u8]), ReadError>
    ensures { Gives (λ x. (x.0, x.1.now)) result (origin_set_at bytes.now) }
{
    let (text, rest) = text_at(bytes, 200)?;
    match Origin::from_bytes(text) {
        Some(origin) => Ok((Act::OriginSet { origin }, rest)),
        None => unreachable!(),
    }
}

#[tactic(auto, unfolding(crate::specs::Rows::asset_added_at, crate::specs::Readers::bind, crate::specs::Readers::done))]
fn asset_added_at(bytes: &[u8]) -> Result<(Act, &[u8]), ReadError>
    ensures { Gives (λ x. (x.0, x.1.now)) result (asset_added_at bytes.now) }
{
    let (text, rest) = text_at(bytes, 8)?;
    let (scale, rest) = byte_between(rest, 0, 255)?;
    let (pieces, rest) = byte_between(rest, 0, 255)?;
    match CodeText::from_bytes(text) {
        Some(code) => Ok((
            Act::AssetAdded {
                code,
                scale,
                pieces,
            },
            rest,
        )),
        None => unreachable!(),
    }
}

#[tactic(auto, unfolding(crate::specs::Rows::address_added_at, crate::specs::Readers::bind, crate::specs::Readers::done))]
fn address_added_at(alloc: Global, bytes: &[u8]) -> Result<(Act, &[u8]), ReadError>
    ensures { Gives (λ x. (x.0, x.1.now)) result (address_added_at bytes.now) }
{
    let (path, rest) = kept_at(alloc, bytes, 128)?;
    let (asset, rest) = u32_at(rest)?;
    let (name, rest) = some_text_at(alloc, rest, 128)?;
    let path = AddressPath::new(path);
    Ok((Act::AddressAdded { path, asset, name }, rest))
}

#[tactic(auto, unfolding(crate::specs::Rows::moved_at, crate::specs::Readers::bind, crate::specs::Readers::done))]
fn deposited_at(alloc: Global, bytes: &[u8]) -> Result<(Act, &[u8]), ReadError>
    ensures { Gives (λ x. (x.0, x.1.now)) result (moved_at acts.Deposited bytes.now) }
{
    let (transfer, rest) = kept_at(alloc, bytes, 64)?;
    let (account, rest) = account_at(rest)?;
    let (value, rest) = u64_at(rest)?;
    let act = Act::Deposited {
        transfer: Text::new(transfer),
        account,
        value,
    };
    Ok((act, rest))
}

#[tactic(auto, unfolding(crate::specs::Rows::moved_at, crate::specs::Readers::bind, crate::specs::Readers::done))]
fn withdrawn_at(alloc: Global, bytes: &[u8]) -> Result<(Act, &[u8]), ReadError>
    ensures { Gives (λ x. (x.0, x.1.now)) result (moved_at acts.Withdrawn bytes.now) }
{
    let (transfer, rest) = kept_at(alloc, bytes, 64)?;
    let (account, rest) = account_at(rest)?;
    let (value, rest) = u64_at(rest)?;
    let act = Act::Withdrawn {
        transfer: Text::new(transfer),
        account,
        value,
    };
    Ok((act, rest))
}

#[tactic(auto, unfolding(crate::specs::Rows::rate_set_at, crate::specs::Readers::bind, crate::specs::Readers::done))]
fn rate_set_at(bytes: &[u8]) -> Result<(Act, &[u8]), ReadError>
    ensures { Gives (λ x. (x.0, x.1.now)) result (rate_set_at bytes.now) }
{
    let (source, rest) = u32_at(bytes)?;
    let (target, rest) = u32_at(rest)?;
    let (num, rest) = u64_at(rest)?;
    let (den, rest) = u64_at(rest)?;
    let act = Act::RateSet {
        source,
        target,
        num,
        den,
    };
    Ok((act, rest))
}

#[tactic(auto, unfolding(crate::specs::Rows::incoming_made_at, crate::specs::Readers::bind, crate::specs::Readers::done))]
fn incoming_made_at(alloc: Global, bytes: &[u8]) -> Result<(Act, &[u8]), ReadError>
    ensures { Gives (λ x. (x.0, x.1.now)) result (incoming_made_at bytes.now) }
{
    let (grant, rest) = u64_at(bytes)?;
    let (address, rest) = u32_at(rest)?;
    let (amount, rest) = some_u64_at(rest)?;
    let (expiry, rest) = moment_at(rest)?;
    let (metadata, rest) = some_text_at(alloc, rest, 1024)?;
    let act = Act::IncomingMade {
        grant,
        address,
        amount,
        expiry: Moment::at_most_last(expiry),
        metadata,
    };
    Ok((act, rest))
}

#[tactic(auto, unfolding(crate::specs::Rows::quote_made_at, crate::specs::Readers::bind, crate::specs::Readers::done))]
fn quote_made_at(bytes: &[u8]) -> Result<(Act, &[u8]), ReadError>
    ensures { Gives (λ x. (x.0, x.1.now)) result (quote_made_at bytes.now) }
{
    let (grant, rest) = u64_at(bytes)?;
    let (address, rest) = u32_at(rest)?;
    let (incoming, rest) = u64_at(rest)?;
    let (mode, rest) = mode_at(rest)?;
    let (asked, rest) = u64_at(rest)?;
    let (debit, rest) = u64_at(rest)?;
    let (source, rest) = u64_at(rest)?;
    let (fee, rest) = u64_at(rest)?;
    let (receive, rest) = u64_at(rest)?;
    let (num, rest) = u64_at(rest)?;
    let (den, rest) = u64_at(rest)?;
    let act = Act::QuoteMade {
        grant,
        address,
        incoming,
        mode,
        asked,
        debit,
        source,
        fee,
        receive,
        num,
        den,
    };
    Ok((act, rest))
}

#[tactic(auto, unfolding(crate::specs::Rows::grant_asked_at, crate::specs::Readers::bind, crate::specs::Readers::done))]
fn grant_asked_at(alloc: Global, bytes: &[u8]) -> Result<(Act, &[u8]), ReadError>
    ensures { Gives (λ x. (x.0, x.1.now)) result (grant_asked_at bytes.now) }
{
    let (client, rest) = kept_at(alloc, bytes, 256)?;
    let (items, rest) = items_at(alloc, rest)?;
    let (finish, rest) = some_finish_at(alloc, rest)?;
    let (word, rest) = word_at(rest)?;
    let act = Act::GrantAsked {
        client: ClientText::new(client),
        items,
        finish,
        word,
    };
    Ok((act, rest))
}

#[tactic(auto, unfolding(crate::specs::Rows::outgoing_made_at, crate::specs::Readers::bind, crate::specs::Readers::done))]
fn outgoing_made_at(alloc: Global, bytes: &[u8]) -> Result<(Act, &[u8]), ReadError>
    ensures { Gives (λ x. (x.0, x.1.now)) result (outgoing_made_at bytes.now) }
{
    let (grant, rest) = u64_at(bytes)?;
    let (quote, rest) = u64_at(rest)?;
    let (metadata, rest) = some_text_at(alloc, rest, 1024)?;
    let act = Act::OutgoingMade {
        grant,
        quote,
        metadata,
    };
    Ok((act, rest))
}

#[tactic(auto, unfolding(crate::specs::Rows::outgoing_failed_at, crate::specs::Readers::bind, crate::specs::Readers::done))]
fn outgoing_failed_at(bytes: &[u8]) -> Result<(Act, &[u8]), ReadError>
    ensures { Gives (λ x. (x.0, x.1.now)) result (outgoing_failed_at bytes.now) }
{
    let (payment, rest) = u64_at(bytes)?;
    let (step, rest) = u64_at(rest)?;
    let (reason, rest) = reason_at(rest)?;
    let act = Act::OutgoingFailed {
        payment,
        step,
        reason,
    };
    Ok((act, rest))
}

#[tactic(auto, unfolding(crate::specs::Rows::attempted_at, crate::specs::Readers::bind, crate::specs::Readers::done))]
fn attempted_at(bytes: &[u8]) -> Result<(Act, &[u8]), ReadError>
    ensures { Gives (λ x. (x.0, x.1.now)) result (attempted_at bytes.now) }
{
    let (event, rest) = u64_at(bytes)?;
    let (outcome, rest) = outcome_at(rest)?;
    Ok((Act::Attempted { event, outcome }, rest))
}

#[tactic(auto, unfolding(crate::specs::Rows::outgoing_direct_at, crate::specs::Readers::bind, crate::specs::Readers::done))]
fn outgoing_direct_at(alloc: Global, bytes: &[u8]) -> Result<(Act, &[u8]), ReadError>
    ensures { Gives (λ x. (x.0, x.1.now)) result (outgoing_direct_at bytes.now) }
{
    let (grant, rest) = u64_at(bytes)?;
    let (address, rest) = u32_at(rest)?;
    let (incoming, rest) = u64_at(rest)?;
    let (debit, rest) = u64_at(rest)?;
    let (source, rest) = u64_at(rest)?;
    let (fee, rest) = u64_at(rest)?;
    let (receive, rest) = u64_at(rest)?;
    let (num, rest) = u64_at(rest)?;
    let (den, rest) = u64_at(rest)?;
    let (metadata, rest) = some_text_at(alloc, rest, 1024)?;
    let act = Act::OutgoingDirect {
        grant,
        address,
        incoming,
        debit,
        source,
        fee,
        receive,
        num,
        den,
        metadata,
    };
    Ok((act, rest))
}

/// Kinds 1 to 6: what the provider does.
#[tactic(auto, unfolding(crate::specs::Rows::provider_at, crate::specs::Readers::bind, crate::specs::Readers::done))]
fn provider_at(alloc: Global, kind: u8, bytes: &[u8]) -> Result<(Act, &[u8]), ReadError>
    requires low { 1 ≤ kind }
    requires high { kind ≤ 6 }
    ensures { Gives (λ x. (x.0, x.1.now)) result (provider_at kind bytes.now) }
{
    match kind {
        1 => origin_set_at(bytes),
        2 => asset_added_at(bytes),
        3 => address_added_at(alloc, bytes),
        4 => deposited_at(alloc, bytes),
        5 => withdrawn_at(alloc, bytes),
        _ => rate_set_at(bytes),
    }
}

/// Kinds 7 to 10: incoming payments and quotes.
#[tactic(auto, unfolding(crate::specs::Rows::receiving_at, crate::specs::Rows::one_at, crate::specs::Rows::two_at, crate::specs::Readers::bind, crate::specs::Readers::done))]
fn receiving_at(alloc: Global, kind: u8, bytes: &[u8]) -> Result<(Act, &[u8]), ReadError>
    requires low { 7 ≤ kind }
    requires high { kind ≤ 10 }
    ensures { Gives (λ x. (x.0, x.1.now)) result (receiving_at kind bytes.now) }
{
    match kind {
        7 => incoming_made_at(alloc, bytes),
        8 => {
            let (grant, rest) = u64_at(bytes)?;
            let (incoming, rest) = u64_at(rest)?;
            Ok((Act::IncomingCompleted { grant, incoming }, rest))
        }
        9 => {
            let (incoming, rest) = u64_at(bytes)?;
            Ok((Act::IncomingExpired { incoming }, rest))
        }
        _ => quote_made_at(bytes),
    }
}

/// Kinds 11 to 18: grants.
#[tactic(auto, unfolding(crate::specs::Rows::grant_at, crate::specs::Rows::one_at, crate::specs::Rows::drawn_at, crate::specs::Readers::bind, crate::specs::Readers::done))]
fn grant_at(alloc: Global, kind: u8, bytes: &[u8]) -> Result<(Act, &[u8]), ReadError>
    requires low { 11 ≤ kind }
    requires high { kind ≤ 18 }
    ensures { Gives (λ x. (x.0, x.1.now)) result (grant_at kind bytes.now) }
{
    match kind {
        11 => grant_asked_at(alloc, bytes),
        12 => {
            let (grant, rest) = u64_at(bytes)?;
            let (word, rest) = word_at(rest)?;
            Ok((Act::GrantAccepted { grant, word }, rest))
        }
        13 => {
            let (grant, rest) = u64_at(bytes)?;
            let (word, rest) = word_at(rest)?;
            Ok((Act::GrantRejected { grant, word }, rest))
        }
        14 => {
            let (grant, rest) = u64_at(bytes)?;
            Ok((Act::GrantPolled { grant }, rest))
        }
        15 => {
            let (grant, rest) = u64_at(bytes)?;
            let (word, rest) = word_at(rest)?;
            Ok((Act::GrantContinued { grant, word }, rest))
        }
        16 => {
            let (grant, rest) = u64_at(bytes)?;
            Ok((Act::GrantCancelled { grant }, rest))
        }
        17 => {
            let (grant, rest) = u64_at(bytes)?;
            let (word, rest) = word_at(rest)?;
            Ok((Act::TokenRotated { grant, word }, rest))
        }
        _ => {
            let (grant, rest) = u64_at(bytes)?;
            Ok((Act::TokenRevoked { grant }, rest))
        }
    }
}

/// Kinds 19 to 25: outgoing payments and events.
#[tactic(auto, unfolding(crate::specs::Rows::sending_at, crate::specs::Rows::two_at, crate::specs::Readers::bind, crate::specs::Readers::done))]
fn sending_at(alloc: Global, kind: u8, bytes: &[u8]) -> Result<(Act, &[u8]), ReadError>
    requires low { 19 ≤ kind }
    requires high { kind ≤ 25 }
    ensures { Gives (λ x. (x.0, x.1.now)) result (sending_at kind bytes.now) }
{
    match kind {
        19 => outgoing_made_at(alloc, bytes),
        20 => {
            let (payment, rest) = u64_at(bytes)?;
            let (step, rest) = u64_at(rest)?;
            Ok((Act::OutgoingFunded { payment, step }, rest))
        }
        21 => {
            let (payment, rest) = u64_at(bytes)?;
            let (step, rest) = u64_at(rest)?;
            Ok((Act::OutgoingSent { payment, step }, rest))
        }
        22 => {
            let (payment, rest) = u64_at(bytes)?;
            let (step, rest) = u64_at(rest)?;
            Ok((Act::OutgoingCompleted { payment, step }, rest))
        }
        23 => outgoing_failed_at(bytes),
        24 => attempted_at(bytes),
        _ => outgoing_direct_at(alloc, bytes),
    }
}

/// The fields of an act of a kind.
#[tactic(auto, unfolding(crate::specs::Rows::fields_at))]
fn fields_at(alloc: Global, kind: u8, bytes: &[u8]) -> Result<(Act, &[u8]), ReadError>
    requires low { 1 ≤ kind }
    requires high { kind ≤ 25 }
    ensures { Gives (λ x. (x.0, x.1.now)) result (fields_at kind bytes.now) }
{
    if kind <= 6 {
        return provider_at(alloc, kind, bytes);
    }
    if kind <= 10 {
        return receiving_at(alloc, kind, bytes);
    }
    if kind <= 18 {
        return grant_at(alloc, kind, bytes);
    }
    sending_at(alloc, kind, bytes)
}

/// A kind up to the highest that is known, and the fields of its act.
#[tactic(auto, unfolding(crate::specs::Rows::act_at, crate::specs::Readers::bind, crate::specs::Readers::done))]
fn act_at(alloc: Global, bytes: &[u8], highest: u8) -> Result<(Act, &[u8]), ReadError>
    requires { highest ≤ 25 }
    ensures { Gives (λ x. (x.0, x.1.now)) result (act_at highest bytes.now) }
{
    let (kind, rest) = byte_between(bytes, 1, highest)?;
    fields_at(alloc, kind, rest)
}

/// A moment and an act of version 1.
#[tactic(auto, unfolding(crate::specs::Rows::entry_at, crate::specs::Readers::bind, crate::specs::Readers::done))]
pub(crate) fn entry_at(alloc: Global, bytes: &[u8]) -> Result<(Entry, &[u8]), ReadError>
    ensures { Gives (λ x. (x.0, x.1.now)) result (entry_at bytes.now) }
{
    let (at, rest) = moment_at(bytes)?;
    match act_at(alloc, rest, HIGHEST_OF_VERSION_1) {
        Ok((act, rest)) => {
            let at = Moment::at_most_last(at);
            Ok((Entry { at, act }, rest))
        }
        Err(error) => Err(error),
    }
}

/// An act of version 2, at a moment that was said before.
#[tactic(auto, unfolding(crate::specs::Rows::entry_of_round_at, crate::specs::Readers::bind, crate::specs::Readers::done))]
pub(crate) fn entry_of_round_at(
    alloc: Global,
    bytes: &[u8],
    at: u64,
) -> Result<(Entry, &[u8]), ReadError>
    requires { at ≤ LAST }
    ensures { Gives (λ x. (x.0, x.1.now)) result (entry_of_round_at at bytes.now) }
{
    let (act, rest) = act_at(alloc, bytes, HIGHEST_OF_VERSION_2)?;
    let at = Moment::at_most_last(at);
    Ok((Entry { at, act }, rest))
}

/// What reading gives of the bytes.
fn read(alloc: Global, bytes: &[u8]) -> Result<(Entry, usize), RecordFault>
    ensures { IsUnlessMemory result (reading bytes.now) }
{
    match entry_at(alloc, bytes) {
        Ok((entry, rest)) => Ok((entry, bytes.len() - rest.len())),
        Err(ReadError::Memory) => Err(RecordFault::Memory),
        Err(ReadError::Fault(Fault::Short)) => Err(RecordFault::Short),
        Err(ReadError::Fault(Fault::Bad(left))) => {
            let at = (bytes.len() - left) as u64;
            Err(RecordFault::Bad { at })
        }
    }
}

/// The entry whose record the bytes begin with, and how many bytes that is. Whatever stands behind the record is not
/// looked at. The texts of the entry are kept on the heap.
pub fn read_entry(alloc: Global, bytes: &[u8]) -> Result<(Entry, usize), RecordFault>
    // What is read has the record that was taken.
    ensures found { IfOk result (λ x. IsFound bytes.now x.0 x.1) }
    ensures short { result ≡ Err Short → IsCut bytes.now }
    ensures bad { (at : ℕ) → result ≡ Err (Bad at) → IsBadAt bytes.now at }
    // What begins with a record is read, a cut record is too short, and a bad place is told, unless memory ran out.
    ensures whole { (entry : Entry) (rest : List ℕ) → HasRecord entry → bytes.now ≡ record_of entry ++ rest
        → IsUnlessMemory result (Ok (entry, length (record_of entry))) }
    ensures cut { IsCut bytes.now → IsUnlessMemory result (Err Short) }
    ensures strange { (at : ℕ) → IsBadAt bytes.now at → IsUnlessMemory result (Err (Bad at)) }
{
    read(alloc, bytes)
}
