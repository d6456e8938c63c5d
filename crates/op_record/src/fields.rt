//! Fields of a record, read from left to right: each gives its value and the bytes after it.

ghost use Rattle.std.specs.Prelude.{◌≡◌, ◌≤◌, [], ◌∷◌, ◌++◌, ◌<◌, ◌^◌, length, IfOk, IfSome, MatchOption};
ghost use Rattle.op_time.specs.declared.TheConstants.{LAST};
ghost use Rattle.op_record.specs.Fields.{number};
ghost use Rattle.op_record.specs.Readers.{Gives, BeginsWithout, byte_between, number_at, bytes_at, text_at, option_at};
ghost use Rattle.op_record.specs.Rows.{u32_at, u64_at, moment_at, word_at, account_at, mode_at, reason_at, outcome_at};

use crate::fault::{Fault, ReadError};
use op_model::{Account, FailReason, QuoteMode, Text, Word};
use op_time::LAST;
use std::alloc::Global;

/// The first byte and those after it.
pub(crate) fn first_of(bytes: &[u8]) -> Option<(u8, &[u8])>
    ensures parts { MatchOption result (bytes.now ≡ []) (λ x. bytes.now ≡ x.0 ∷ x.1.now) }
    ensures small { IfSome result (λ x. x.0 < 256) }
{
    match bytes {
        [] => None,
        [first, rest @ ..] => Some((*first, rest)),
    }
}

/// What stands behind this first byte. `None` where the bytes do not begin with it.
pub(crate) fn behind(bytes: &[u8], first: u8) -> Option<&[u8]>
    ensures { MatchOption result (BeginsWithout first bytes.now) (λ rest. bytes.now ≡ first ∷ rest.now) }
{
    match bytes {
        [other, rest @ ..] if *other == first => Some(rest),
        _ => None,
    }
}

/// A byte from `low` to `high`.
#[tactic(auto, unfolding(crate::specs::Readers::byte))]
pub(crate) fn byte_between(bytes: &[u8], low: u8, high: u8) -> Result<(u8, &[u8]), ReadError>
    ensures gives { Gives (λ x. (x.0, x.1.now)) result (byte_between low high bytes.now) }
    ensures between { IfOk result (λ x. (low ≤ x.0) × (x.0 ≤ high)) }
{
    match bytes {
        [] => Err(ReadError::Fault(Fault::Short)),
        [first, rest @ ..] => {
            if low <= *first && *first <= high {
                Ok((*first, rest))
            } else {
                Err(ReadError::Fault(Fault::Bad(bytes.len())))
            }
        }
    }
}

/// The number that the first `width` bytes are, the highest first, and the bytes after them. `None` where there are fewer.
fn whole_at(bytes: &[u8], width: u32) -> Option<(u64, &[u8])>
    requires { width ≤ 8 }
    ensures { IfSome result (λ x. (x.0 < 256 ^ width) × (bytes.now ≡ number width x.0 ++ x.1.now)) }
{
    let mut number = 0u64;
    let mut rest = bytes;
    for _at in 0..width {
        let (digit, after) = first_of(rest)?;
        number = number * 256 + u64::from(digit);
        rest = after;
    }
    Some((number, rest))
}

/// A number as `number_at` reads it, digit by digit, so that the first byte is found with which no such number can go on.
fn digits_at(bytes: &[u8], width: u32, limit: u64) -> Result<(u64, &[u8]), ReadError>
    requires { width ≤ 8 }
    ensures gives { Gives (λ x. (x.0, x.1.now)) result (number_at width limit bytes.now) }
    ensures low { IfOk result (λ x. x.0 ≤ limit) }
{
    let mut number = 0u64;
    let mut rest = bytes;
    for at in 0..width {
        let most = limit / 256u64.pow(width - 1 - at);
        let Some((digit, after)) = first_of(rest) else {
            return Err(ReadError::Fault(Fault::Short));
        };
        let more = number * 256 + u64::from(digit);
        if more > most {
            return Err(ReadError::Fault(Fault::Bad(rest.len())));
        }
        number = more;
        rest = after;
    }
    Ok((number, rest))
}

/// A number of `width` bytes, the highest first, that is at most `limit`. Only where there is none is it looked at digit by
/// digit, since that divides for each.
pub(crate) fn number_at(bytes: &[u8], width: u32, limit: u64) -> Result<(u64, &[u8]), ReadError>
    requires { width ≤ 8 }
    ensures gives { Gives (λ x. (x.0, x.1.now)) result (number_at width limit bytes.now) }
    ensures low { IfOk result (λ x. x.0 ≤ limit) }
{
    if let Some((number, rest)) = whole_at(bytes, width) {
        if number <= limit {
            return Ok((number, rest));
        }
    }
    digits_at(bytes, width, limit)
}

/// So many bytes.
#[tactic(auto, unfolding(crate::specs::Readers::bytes_at))]
pub(crate) fn bytes_at(bytes: &[u8], count: usize) -> Result<(&[u8], &[u8]), ReadError>
    ensures gives { Gives (λ x. (x.0.now, x.1.now)) result (bytes_at count bytes.now) }
    ensures len { IfOk result (λ x. length x.0.now ≡ count) }
{
    if bytes.len() < count {
        return Err(ReadError::Fault(Fault::Short));
    }
    Ok(bytes.split_at(count))
}

pub(crate) fn u32_at(bytes: &[u8]) -> Result<(u32, &[u8]), ReadError>
    ensures { Gives (λ x. (x.0, x.1.now)) result (u32_at bytes.now) }
{
    let (number, rest) = number_at(bytes, 4, 4_294_967_295)?;
    Ok((number as u32, rest))
}

pub(crate) fn u64_at(bytes: &[u8]) -> Result<(u64, &[u8]), ReadError>
    ensures { Gives (λ x. (x.0, x.1.now)) result (u64_at bytes.now) }
{
    number_at(bytes, 8, u64::MAX)
}

/// The milliseconds of a moment: at most those of the last one.
pub(crate) fn moment_at(bytes: &[u8]) -> Result<(u64, &[u8]), ReadError>
    ensures gives { Gives (λ x. (x.0, x.1.now)) result (moment_at bytes.now) }
    ensures low { IfOk result (λ x. x.0 ≤ LAST) }
{
    number_at(bytes, 8, LAST)
}

pub(crate) fn word_at(bytes: &[u8]) -> Result<(Word, &[u8]), ReadError>
    ensures { Gives (λ x. (x.0, x.1.now)) result (word_at bytes.now) }
{
    let (drawn, rest) = bytes_at(bytes, 16)?;
    let mut word = [0u8; 16];
    word.copy_from_slice(drawn);
    Ok((word, rest))
}

/// A text of at most `limit` bytes, lent.
#[tactic(auto, unfolding(crate::specs::Readers::text_at, crate::specs::Readers::bind))]
pub(crate) fn text_at(bytes: &[u8], limit: u64) -> Result<(&[u8], &[u8]), ReadError>
    ensures gives { Gives (λ x. (x.0.now, x.1.now)) result (text_at limit bytes.now) }
    ensures short { IfOk result (λ x. length x.0.now ≤ limit) }
{
    let (count, rest) = number_at(bytes, 2, limit)?;
    bytes_at(rest, count as usize)
}

/// A text of at most `limit` bytes, kept.
pub(crate) fn kept_at(
    alloc: Global,
    bytes: &[u8],
    limit: u64,
) -> Result<(Vec<u8>, &[u8]), ReadError>
    ensures { Gives (λ x. (x.0.items, x.1.now)) result (text_at limit bytes.now) }
{
    let (text, rest) = text_at(bytes, limit)?;
    Ok((Vec::from_slice(alloc, text)?, rest))
}

#[tactic(auto, unfolding(crate::specs::Readers::option_at, crate::specs::Readers::bind, crate::specs::Readers::done))]
pub(crate) fn some_text_at(
    alloc: Global,
    bytes: &[u8],
    limit: u64,
) -> Result<(Option<Text>, &[u8]), ReadError>
    ensures { Gives (λ x. (x.0, x.1.now)) result (option_at (text_at limit) bytes.now) }
{
    let (flag, rest) = byte_between(bytes, 0, 1)?;
    if flag == 0 {
        return Ok((None, rest));
    }
    let (text, rest) = kept_at(alloc, rest, limit)?;
    Ok((Some(Text::new(text)), rest))
}

#[tactic(auto, unfolding(crate::specs::Readers::option_at, crate::specs::Readers::bind, crate::specs::Readers::done))]
pub(crate) fn some_u64_at(bytes: &[u8]) -> Result<(Option<u64>, &[u8]), ReadError>
    ensures { Gives (λ x. (x.0, x.1.now)) result (option_at u64_at bytes.now) }
{
    let (present, rest) = byte_between(bytes, 0, 1)?;
    if present == 0 {
        return Ok((None, rest));
    }
    let (number, rest) = u64_at(rest)?;
    Ok((Some(number), rest))
}

#[tactic(auto, unfolding(crate::specs::Rows::account_at, crate::specs::Readers::bind, crate::specs::Readers::done))]
pub(crate) fn account_at(bytes: &[u8]) -> Result<(Account, &[u8]), ReadError>
    ensures { Gives (λ x. (x.0, x.1.now)) result (account_at bytes.now) }
{
    let (kind, rest) = byte_between(bytes, 1, 3)?;
    let (number, rest) = u32_at(rest)?;
    let account = match kind {
        1 => Account::Pool(number),
        2 => Account::Fees(number),
        _ => Account::Wallet(number),
    };
    Ok((account, rest))
}

#[tactic(auto, unfolding(crate::specs::Rows::mode_at, crate::specs::Readers::bind, crate::specs::Readers::done))]
pub(crate) fn mode_at(bytes: &[u8]) -> Result<(QuoteMode, &[u8]), ReadError>
    ensures { Gives (λ x. (x.0, x.1.now)) result (mode_at bytes.now) }
{
    let (number, rest) = byte_between(bytes, 1, 3)?;
    let mode = match number {
        1 => QuoteMode::Debit,
        2 => QuoteMode::Receive,
        _ => QuoteMode::Rest,
    };
    Ok((mode, rest))
}

#[tactic(auto, unfolding(crate::specs::Rows::reason_at, crate::specs::Readers::bind, crate::specs::Readers::done))]
pub(crate) fn reason_at(bytes: &[u8]) -> Result<(FailReason, &[u8]), ReadError>
    ensures { Gives (λ x. (x.0, x.1.now)) result (reason_at bytes.now) }
{
    let (reason, rest) = byte_between(bytes, 1, 3)?;
    let reason = match reason {
        1 => FailReason::QuoteExpired,
        2 => FailReason::ReceiverClosed,
        _ => FailReason::Cancelled,
    };
    Ok((reason, rest))
}

/// The outcome of an attempt: none, or a status of 100 to 999.
#[tactic(auto, unfolding(crate::specs::Rows::outcome_at, crate::specs::Readers::byte, crate::specs::Readers::bind, crate::specs::Readers::done))]
pub(crate) fn outcome_at(bytes: &[u8]) -> Result<(u16, &[u8]), ReadError>
    ensures { Gives (λ x. (x.0, x.1.now)) result (outcome_at bytes.now) }
{
    let (high, rest) = byte_between(bytes, 0, 3)?;
    match rest {
        [] => Err(ReadError::Fault(Fault::Short)),
        [low, after @ ..] => {
            let outcome = u16::from(high) * 256 + u16::from(*low);
            if outcome == 0 || (100 <= outcome && outcome <= 999) {
                Ok((outcome, after))
            } else {
                Err(ReadError::Fault(Fault::Bad(rest.len())))
            }
        }
    }
}
