//! Identifiers as texts.

ghost use Rattle.std.specs.Prelude.{◌≡◌};
ghost use Rattle.op_names.specs.Ids.{kind_number, kind_in, id_text, id_in};
ghost use Rattle.op_names.specs.declared.Id.{Id};

use crate::{Id, Kind};
use uuid::Uuid;

impl Kind {
    /// Its number, from 1 to 6.
    pub fn number(self) -> u8
        ensures { result ≡ kind_number self }
    {
        match self {
            Kind::Incoming => 1,
            Kind::Quote => 2,
            Kind::Outgoing => 3,
            Kind::Grant => 4,
            Kind::Event => 5,
            Kind::Address => 6,
        }
    }

    fn of_number(number: u64) -> Option<Kind>
        ensures { result ≡ kind_in number }
    {
        match number {
            1 => Some(Kind::Incoming),
            2 => Some(Kind::Quote),
            3 => Some(Kind::Outgoing),
            4 => Some(Kind::Grant),
            5 => Some(Kind::Event),
            6 => Some(Kind::Address),
            _ => None,
        }
    }
}

/// How many numbers the identifiers of one kind have.
const NUMBERS: u64 = 1 << 48;

/// The text of an identifier, `KKKKKKKK-0000-8000-8000-NNNNNNNNNNNN`: the kind and the last twelve
/// digits of the number, in lower case hexadecimal. It is a UUID of version 8 (RFC 9562, section 5.8).
pub fn id_text(id: Id) -> [u8; 36]
    ensures { result ≡ id_text id }
{
    let high = (u64::from(id.kind.number()) << 32) + 0x8000;
    let low = (0x8000 << 48) + id.number % NUMBERS;
    let mut buffer = Uuid::encode_buffer();
    let printed = Uuid::from_u64_pair(high, low)
        .hyphenated()
        .encode_lower(&mut buffer);
    let mut text = [0u8; 36];
    text.copy_from_slice(printed.as_bytes());
    text
}

/// The identifier of these bytes. A UUID in another of its forms is not the text of the identifier.
pub(crate) fn id_of(text: &[u8]) -> Option<Id>
    ensures { result ≡ id_in text.now }
{
    let (high, low) = Uuid::try_parse_ascii(text).ok()?.as_u64_pair();
    let kind = Kind::of_number(high >> 32)?;
    let id = Id {
        kind,
        number: low % NUMBERS,
    };
    if id_text(id).eq_ignore_ascii_case(text) {
        Some(id)
    } else {
        None
    }
}

/// The identifier whose text this is, in either case. `None` exactly where the text is that of no
/// identifier.
pub fn read_id(text: &str) -> Option<Id>
    ensures { result ≡ id_in text.now }
{
    id_of(text.as_bytes())
}
