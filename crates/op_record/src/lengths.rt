//! Lengths of records.

ghost use Rattle.std.specs.Prelude.{◌≡◌, ◌≤◌, ◌*◌, length, IfSome};
ghost use Rattle.std.specs.List.{flat_map};
ghost use Rattle.op_record.specs.declared.TheConstants.{ACT_LIMIT};
ghost use Rattle.op_record.specs.Fields.{text, number, optional, limits, item, items, cap, finish};
ghost use Rattle.op_record.specs.Records.{act_of, record_of};
ghost use Rattle.op_record.specs.Recordable.{IsShort, AreLimits, IsFinish, IsItem, AreAbove, AreItems, IsWithinLimits, IsWritable};

use op_model::{Act, Cap, Entry, Finish, IntervalText, Item, Limits, Text, Word};

fn word_length(word: &Word) -> usize
    ensures is { result ≡ length word.now }
    ensures low { result ≤ 16 }
{
    let bytes: &[u8] = word;
    bytes.len()
}

#[tactic(auto, unfolding(crate::specs::Fields::text), using(crate::proofs::LengthLaws::lengths))]
fn text_length(bytes: &[u8]) -> usize
    requires { length bytes.now ≤ 1024 }
    ensures is { result ≡ length (text bytes.now) }
    ensures low { result ≤ 1026 }
{
    2 + bytes.len()
}

#[tactic(auto, using(crate::proofs::LengthLaws::lengths))]
fn some_text_length(value: &Option<Text>) -> usize
    requires { IfSome value.now (IsShort 1024) }
    ensures is { result ≡ length (optional text value.now) }
    ensures low { result ≤ 1027 }
{
    match value {
        Some(value) => 1 + text_length(value.bytes()),
        None => 1,
    }
}

#[tactic(auto, using(crate::proofs::LengthLaws::lengths))]
fn some_interval_length(value: &Option<IntervalText>) -> usize
    requires { IfSome value.now (IsShort 128) }
    ensures is { result ≡ length (optional text value.now) }
    ensures low { result ≤ 1027 }
{
    match value {
        Some(value) => 1 + text_length(value.bytes()),
        None => 1,
    }
}

#[tactic(auto, using(crate::proofs::LengthLaws::lengths))]
fn some_number_length(value: &Option<u64>) -> usize
    ensures is { result ≡ length (optional (number 8) value.now) }
    ensures low { result ≤ 9 }
{
    match value {
        Some(_) => 9,
        None => 1,
    }
}

#[tactic(auto, using(crate::proofs::LengthLaws::lengths))]
fn some_identifier_length(value: &Option<u32>) -> usize
    ensures is { result ≡ length (optional (number 4) value.now) }
    ensures low { result ≤ 5 }
{
    match value {
        Some(_) => 5,
        None => 1,
    }
}

#[tactic(auto, using(crate::proofs::LengthLaws::lengths))]
fn cap_length(value: &Option<Cap>) -> usize
    ensures is { result ≡ length (cap value.now) }
    ensures low { result ≤ 13 }
{
    match value {
        Some(_) => 13,
        None => 1,
    }
}

#[tactic(auto, using(crate::proofs::LengthLaws::lengths))]
fn limits_length(value: &Limits) -> usize
    requires { AreLimits value.now }
    ensures is { result ≡ length (limits value.now) }
    ensures low { result ≤ 1049 }
{
    some_number_length(&value.receiver)
        + cap_length(&value.cap)
        + some_interval_length(&value.interval)
}

#[tactic(auto, using(crate::proofs::LengthLaws::lengths))]
fn some_limits_length(value: &Option<Limits>) -> usize
    requires { IfSome value.now AreLimits }
    ensures is { result ≡ length (optional limits value.now) }
    ensures low { result ≤ 1050 }
{
    match value {
        Some(value) => 1 + limits_length(value),
        None => 1,
    }
}

#[tactic(auto, using(crate::proofs::LengthLaws::lengths))]
fn item_length(value: &Item) -> usize
    requires { IsItem value.now }
    ensures is { result ≡ length (item value.now) }
    ensures low { result ≤ 1057 }
{
    2 + some_identifier_length(&value.identifier) + some_limits_length(&value.limits)
}

#[tactic(auto, using(crate::proofs::LengthLaws::lengths))]
fn items_length(values: &[Item]) -> usize
    requires { AreItems values.now }
    ensures is { result ≡ length (items values.now) }
    ensures low { result ≤ 4000 }
{
    1 + each_item_length(values)
}

fn each_item_length(values: &[Item]) -> usize
    requires { AreAbove 0 values.now }
    ensures is { result ≡ length (flat_map item values.now) }
    ensures low { result ≤ 3171 }
{
    let mut sum = 0;
    for value in values {
        sum += item_length(value);
    }
    sum
}

#[tactic(auto, using(crate::proofs::LengthLaws::lengths))]
fn finish_length(value: &Finish) -> usize
    requires { IsFinish value.now }
    ensures is { result ≡ length (finish value.now) }
    ensures low { result ≤ 2052 }
{
    text_length(value.uri.bytes()) + text_length(value.nonce.bytes())
}

#[tactic(auto, using(crate::proofs::LengthLaws::lengths))]
fn some_finish_length(value: &Option<Finish>) -> usize
    requires { IfSome value.now IsFinish }
    ensures is { result ≡ length (optional finish value.now) }
    ensures low { result ≤ 2053 }
{
    match value {
        Some(value) => 1 + finish_length(value),
        None => 1,
    }
}

/// How many bytes an act's kind and its fields are.
#[tactic(auto, using(crate::proofs::LengthLaws::lengths))]
pub(crate) fn act_length(act: &Act) -> usize
    requires { IsWithinLimits act.now }
    ensures is { result ≡ length (act_of act.now) }
    ensures low { result ≤ ACT_LIMIT }
{
    match act {
        Act::OriginSet { origin } => 1 + text_length(origin.as_bytes()),
        Act::AssetAdded { code, .. } => 3 + text_length(code.as_bytes()),
        Act::AddressAdded { path, name, .. } => {
            5 + text_length(path.bytes()) + some_text_length(name)
        }
        Act::Deposited { transfer, .. } => 14 + text_length(transfer.bytes()),
        Act::Withdrawn { transfer, .. } => 14 + text_length(transfer.bytes()),
        Act::RateSet { .. } => 25,
        Act::IncomingMade {
            amount,
            metadata,
            ..
        } => 21 + some_number_length(amount) + some_text_length(metadata),
        Act::IncomingCompleted { .. } => 17,
        Act::IncomingExpired { .. } => 9,
        Act::QuoteMade { .. } => 78,
        Act::GrantAsked {
            client,
            items,
            finish,
            word,
        } => {
            1 + text_length(client.bytes())
                + items_length(items.as_slice())
                + some_finish_length(finish)
                + word_length(word)
        }
        Act::GrantAccepted { word, .. } => 9 + word_length(word),
        Act::GrantRejected { word, .. } => 9 + word_length(word),
        Act::GrantPolled { .. } => 9,
        Act::GrantContinued { word, .. } => 9 + word_length(word),
        Act::GrantCancelled { .. } => 9,
        Act::TokenRotated { word, .. } => 9 + word_length(word),
        Act::TokenRevoked { .. } => 9,
        Act::OutgoingMade { metadata, .. } => 17 + some_text_length(metadata),
        Act::OutgoingFunded { .. } => 17,
        Act::OutgoingSent { .. } => 17,
        Act::OutgoingCompleted { .. } => 17,
        Act::OutgoingFailed { .. } => 18,
        Act::Attempted { .. } => 11,
        Act::OutgoingDirect { metadata, .. } => 69 + some_text_length(metadata),
    }
}

/// How many bytes the record of an entry is. The entry's texts are within their limits, and its items and its outcome are
/// those of a record. A payment without a quote, which version 1 does not have, counts as if it had.
#[tactic(auto, unfolding(crate::specs::Records::record_of), using(crate::proofs::LengthLaws::lengths))]
pub fn entry_length(entry: &Entry) -> usize
    requires { IsWritable entry.now }
    ensures { result ≡ length (record_of entry.now) }
{
    8 + act_length(&entry.act)
}
