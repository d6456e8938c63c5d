//! The forms of texts, tested on their bytes.

ghost use Rattle.std.specs.Prelude.{◌≡◌, ◌≤◌, ◌+◌, length, drop, nat_lt};
ghost use Rattle.std.specs.List.{list_all, list_any, position_or_len, slice_split};
ghost use Rattle.std.specs.Str.{bytes_eq};
ghost use Rattle.op_names.specs.Forms.{is_visible, is_word, is_web, is_slash, is_client, scheme_length, is_segment_byte, is_segment, is_reserved, are_segments, is_path};

fn is_visible(b: u8) -> bool
    ensures { result ≡ is_visible b }
{
    b >= 33 && b <= 126
}

fn is_slash(b: u8) -> bool
    ensures { result ≡ is_slash b }
{
    b == b'/'
}

fn all_visible(text: &[u8]) -> bool
    ensures { result ≡ list_all is_visible text.now }
{
    text.iter().all(|b| is_visible(*b))
}

/// Whether the text is visible ASCII of at least one byte and at most so many.
pub fn is_word(limit: usize, text: &[u8]) -> bool
    ensures { result ≡ is_word limit text.now }
{
    if text.is_empty() || text.len() > limit {
        return false;
    }
    all_visible(text)
}

/// Whether each byte is ASCII.
pub(crate) fn is_ascii(text: &[u8]) -> bool
    ensures { result ≡ list_all (λ b. nat_lt b 128) text.now }
{
    text.iter().all(|b| *b < 128)
}

/// Whether the text begins with `https://` or `http://`.
pub(crate) fn is_web(text: &[u8]) -> bool
    ensures { result ≡ is_web text.now }
{
    text.starts_with(b"https://") || text.starts_with(b"http://")
}

pub(crate) fn is_client(text: &[u8]) -> bool
    ensures { result ≡ is_client text.now }
{
    is_word(256, text) && is_web(text)
}

/// How many bytes `https://` or `http://` takes at the start of the text.
pub(crate) fn scheme_length(text: &[u8]) -> usize
    ensures value { result ≡ scheme_length text.now }
    ensures within { result ≤ length text.now }
{
    if text.starts_with(b"https://") {
        8
    } else if text.starts_with(b"http://") {
        7
    } else {
        0
    }
}

/// How many bytes stand before the first slash.
pub(crate) fn slash_at(text: &[u8]) -> usize
    ensures value { result ≡ position_or_len is_slash text.now }
    ensures within { result ≤ length text.now }
{
    for (i, b) in text.iter().enumerate() {
        if is_slash(*b) {
            return i;
        }
    }
    text.len()
}

fn is_segment_byte(b: u8) -> bool
    ensures { result ≡ is_segment_byte b }
{
    matches!(b, b'0'..=b'9' | b'A'..=b'Z' | b'a'..=b'z' | b'-' | b'_' | b'.' | b'~')
}

fn all_segment_bytes(text: &[u8]) -> bool
    ensures { result ≡ list_all is_segment_byte text.now }
{
    text.iter().all(|b| is_segment_byte(*b))
}

fn is_segment(text: &[u8]) -> bool
    ensures { result ≡ is_segment text.now }
{
    if text.is_empty() || text.len() > 64 {
        return false;
    }
    all_segment_bytes(text) && !(text == b".".as_slice() || text == b"..".as_slice())
}

/// The first segments that have another use.
const RESERVED: [&str; 8] = [
    "admin",
    "grant",
    "continue",
    "token",
    "incoming-payments",
    "quotes",
    "outgoing-payments",
    "monetization",
];

fn is_one_of(words: &[&str], text: &[u8]) -> bool
    ensures { result ≡ list_any (λ word. bytes_eq text.now word.now) words.now }
{
    words.iter().any(|word| text == word.as_bytes())
}

fn is_reserved(segment: &[u8]) -> bool
    ensures { result ≡ is_reserved segment.now }
{
    is_one_of(&RESERVED, segment)
}

fn segment_count(text: &[u8]) -> usize
    ensures { result ≡ length (slice_split is_slash text.now) }
{
    text.split(|b| is_slash(*b)).count()
}

fn all_segments(text: &[u8]) -> bool
    ensures { result ≡ list_all is_segment (slice_split is_slash text.now) }
{
    text.split(|b| is_slash(*b)).all(is_segment)
}

fn are_segments(text: &[u8]) -> bool
    ensures { result ≡ are_segments text.now }
{
    if segment_count(text) > 8 || !all_segments(text) {
        return false;
    }
    !is_reserved(&text[..slash_at(text)])
}

/// Whether the text is an address path.
pub(crate) fn is_path(text: &[u8]) -> bool
    ensures { result ≡ is_path text.now }
{
    if text.len() > 128 || !text.starts_with(b"/") {
        return false;
    }
    are_segments(&text[1..])
}
