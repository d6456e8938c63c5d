//! Whether a whole request can be expected of what has come so far. It is a guess from the outside: what is a request, its
//! reader says.

/// The longest head and the longest body that a request may have, in bytes.
const HEAD: usize = 16_384;

const BODY: usize = 65_536;

/// The field that tells how long a body is (RFC 9110, section 8.6).
const LENGTH_FIELD: &[u8; 15] = b"content-length:";

/// The number of bytes up to the first empty line that follows another line, with it.
fn head_length(bytes: &[u8]) -> Option<usize> {
    let bare = bytes.windows(2).position(|pair| pair == b"\n\n".as_slice());
    let usual = bytes
        .windows(3)
        .position(|three| three == b"\n\r\n".as_slice());
    let bare = bare.unwrap_or(bytes.len()).saturating_add(2);
    let usual = usual.unwrap_or(bytes.len()).saturating_add(3);
    let end = bare.min(usual);
    if end <= bytes.len() { Some(end) } else { None }
}

/// The number that these digits tell; what is no digit is passed over.
fn number(text: &[u8]) -> usize {
    let mut value: usize = 0;
    for byte in text {
        if byte.is_ascii_digit() {
            value = value
                .saturating_mul(10)
                .saturating_add(usize::from(*byte - b'0'));
        }
    }
    value
}

/// The length of the body that a head tells: 0 where it tells none.
fn body_length(head: &[u8]) -> usize {
    let mut length = 0;
    for line in head.split(|byte| *byte == b'\n') {
        if let Some((name, value)) = line.split_at_checked(LENGTH_FIELD.len()) {
            if name.eq_ignore_ascii_case(LENGTH_FIELD) {
                length = number(value);
            }
        }
    }
    length
}

/// Whether a whole request can be expected of these bytes: they have a head, and the body that it tells. Of a head or a body
/// that is too long nothing more is needed: it is refused.
pub(crate) fn is_whole(bytes: &[u8]) -> bool {
    let Some(head) = head_length(bytes) else {
        return bytes.len() >= HEAD;
    };
    match bytes.split_at_checked(head) {
        Some((head, body)) => {
            let length = body_length(head);
            length > BODY || length <= body.len()
        }
        None => true,
    }
}
