//! Values of amounts, as texts.

ghost use Rattle.std.specs.Prelude.{◌≡◌};
ghost use Rattle.std.specs.Char.{is_ascii_digit};
ghost use Rattle.std.specs.List.{list_all};
ghost use Rattle.op_amount.specs.Values.{value_of, is_numeral, has_leading_zero};

use crate::TOP;
use thiserror::Error;

/// Why a text is no value. The first that holds is told.
#[derive(Clone, Copy, Debug, PartialEq, Eq, Error)]
pub enum ValueFault {
    /// The text is empty, or a byte of it is no decimal digit.
    #[error("a value is one decimal digit or more and nothing else")]
    NotDigits,
    /// It is longer than one digit and begins with `0`.
    #[error("a value has no zero before its other digits")]
    LeadingZero,
    /// It passes the largest value, 10^18.
    #[error("a value is at most {TOP}")]
    TooLarge,
}

/// The value that a text of decimal digits writes, from 0 to 10^18.
pub fn read_value(text: &str) -> Result<u64, ValueFault>
    ensures { result ≡ value_of text.now }
{
    if !is_numeral(text.as_bytes()) {
        return Err(ValueFault::NotDigits);
    }
    if has_leading_zero(text.as_bytes()) {
        return Err(ValueFault::LeadingZero);
    }
    match text.parse::<u64>() {
        Ok(value) if value <= TOP => Ok(value),
        _ => Err(ValueFault::TooLarge),
    }
}

fn is_numeral(text: &[u8]) -> bool
    ensures { result ≡ is_numeral text.now }
{
    !text.is_empty() && all_digits(text)
}

fn all_digits(text: &[u8]) -> bool
    ensures { result ≡ list_all is_ascii_digit text.now }
{
    text.iter().all(|b| b.is_ascii_digit())
}

fn has_leading_zero(text: &[u8]) -> bool
    ensures { result ≡ has_leading_zero text.now }
{
    text.len() > 1 && text[0] == b'0'
}
