//! Secrets as texts.

ghost use Rattle.std.specs.Prelude.{◌≡◌, ◌<◌, ◌^◌, ℕ, List, Some, length};
ghost use Rattle.std.specs.Fmt.{decimal};
ghost use Rattle.std.specs.Result.{result_ok};
ghost use Rattle.hex.specs.Hex.{encode_lower, decode_sized};
ghost use Rattle.op_names.specs.Secrets.{letter_byte, letter_in, secret_text, ReadsSecret};

use crate::room::InPlace;
use crate::{Letter, SecretText};
use hex::FromHex;
use itoa::Buffer;

impl Letter {
    fn byte(self) -> u8
        ensures { result ≡ letter_byte self }
    {
        match self {
            Letter::Access => b'a',
            Letter::Continuation => b'c',
            Letter::Nonce => b'n',
            Letter::Interaction => b'i',
        }
    }

    fn of_byte(byte: u8) -> Option<Letter>
        ensures { result ≡ letter_in byte }
    {
        match byte {
            b'a' => Some(Letter::Access),
            b'c' => Some(Letter::Continuation),
            b'n' => Some(Letter::Nonce),
            b'i' => Some(Letter::Interaction),
            _ => None,
        }
    }
}

/// The 32 digits of a word.
fn word_digits(word: &[u8; 16]) -> [u8; 32]
    ensures { result ≡ encode_lower word.now }
{
    let mut digits = [0u8; 32];
    let written = hex::encode_to_slice(word, &mut digits);
    prove!(written.is_ok());
    digits
}

/// The word of 32 digits, in either case.
fn read_word(digits: &[u8]) -> Option<[u8; 16]>
    ensures { result ≡ result_ok (decode_sized digits.now 16) }
{
    <[u8; 16]>::from_hex(digits).ok()
}

/// The number that a decimal text has.
fn read_number(text: &[u8]) -> Option<u64>
    ensures { (number : ℕ) → number < 2 ^ 64 → text.now ≡ decimal number → result ≡ Some number }
{
    match str::from_utf8(text) {
        Ok(digits) => digits.parse().ok(),
        Err(_) => None,
    }
}

/// A secret as it is told: its letter, the word in lower case hexadecimal, `-`, and the place in the
/// history, from 1, of the entry that drew the word, in decimal.
pub fn secret_text(letter: Letter, word: &[u8; 16], number: u64) -> SecretText
    ensures { result ≡ secret_text letter word.now number }
{
    let mut kept = InPlace::new();
    kept.append(&[letter.byte()]);
    kept.append(&word_digits(word));
    kept.append(b"-");
    let mut buffer = Buffer::new();
    kept.append(buffer.format(number).as_bytes());
    SecretText { kept }
}

/// The letter, the word and the number of a secret's text. `None` exactly where no secret has this
/// text: it is printed again and compared, since upper case digits, a sign and a leading zero are
/// read too.
pub fn read_secret(text: &[u8]) -> Option<(Letter, [u8; 16], u64)>
    ensures { ReadsSecret text.now result }
{
    if text.len() < 35 {
        return None;
    }
    let letter = Letter::of_byte(text[0])?;
    let word = read_word(&text[1..33])?;
    let number = read_number(&text[34..])?;
    if secret_text(letter, &word, number).as_bytes() == text {
        Some((letter, word, number))
    } else {
        None
    }
}
