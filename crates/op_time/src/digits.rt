//! Digits in texts, and texts that fit a pattern.

ghost use Rattle.std.specs.Prelude.{◌≡◌, ◌+◌, ◌^◌, ◌<◌, ◌≤◌, ◌==◌, true, length, take, drop, IsTrue};
ghost use Rattle.std.specs.Char.{is_ascii_digit};
ghost use Rattle.std.specs.List.{list_all, prefix_len};
ghost use Rattle.std.specs.Str.Parse.{digits_value};
ghost use Rattle.op_time.specs.Digits.{digits_of, fits, fits_byte, number_at};

/// Whether each byte fits the pattern's: `d` stands for a digit, `T` for `T` and `t`, `Z` for `Z`
/// and `z`, `s` for a sign, and any other byte for itself.
pub fn fits(pattern: &[u8], text: &[u8]) -> bool
    ensures { result ≡ fits pattern.now text.now }
{
    pattern.len() == text.len() && pattern.iter().zip(text).all(|(p, b)| fits_byte(*p, *b))
}

fn fits_byte(p: u8, b: u8) -> bool
    ensures { result ≡ fits_byte p b }
{
    match p {
        b'd' => b.is_ascii_digit(),
        b's' => b == b'+' || b == b'-',
        b'T' | b'Z' => b == p || b == p + 32,
        _ => b == p,
    }
}

/// The number that digits write.
pub fn number(digits: &[u8]) -> u64
    requires digits { IsTrue (list_all is_ascii_digit digits.now) }
    requires short { length digits.now ≤ 18 }
    ensures value { result ≡ digits_value 10 digits.now }
    ensures bound { result < 10 ^ length digits.now }
{
    let mut number = 0;
    for b in digits {
        number = number * 10 + u64::from(b - b'0');
    }
    number
}

/// The number that `count` digits write at a place of a text that fits a pattern with digits there.
pub fn number_at(pattern: &[u8], text: &[u8], at: usize, count: usize) -> u64
    requires fits { fits pattern.now text.now ≡ true }
    requires digits { IsTrue (list_all (λ p. p == 100) (take count (drop at pattern.now))) }
    requires within { at + count ≤ length pattern.now }
    requires short { count ≤ 18 }
    ensures value { result ≡ number_at text.now at count }
    ensures bound { result < 10 ^ count }
{
    number(&text[at..at + count])
}

/// The digits at the front of a text.
pub fn digits_of(text: &[u8]) -> &[u8]
    ensures value { result.now ≡ digits_of text.now }
    ensures digits { IsTrue (list_all is_ascii_digit result.now) }
    ensures bound { length result.now ≤ length text.now }
{
    &text[..digit_count(text)]
}

fn digit_count(text: &[u8]) -> usize
    ensures { result ≡ prefix_len is_ascii_digit text.now }
{
    text.iter().take_while(|b| b.is_ascii_digit()).count()
}

/// Whether each byte is a digit.
pub fn all_digits(text: &[u8]) -> bool
    ensures { result ≡ list_all is_ascii_digit text.now }
{
    text.iter().all(|b| b.is_ascii_digit())
}
