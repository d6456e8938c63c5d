//! How long a body is, as the fields of its head tell (RFC 9110, section 8.6).
ghost use Rattle.std.specs.Prelude.{◌≡◌, ◌≤◌, ℕ, List, ◌∷◌, IsTrue, IfSome, MatchOption, true, length};
ghost use Rattle.std.specs.Char.{is_ascii_digit};
ghost use Rattle.std.specs.List.{list_all};
ghost use Rattle.std.specs.Str.Parse.{digits_value};
ghost use Rattle.op_model.specs.Requests.{has_field, is_length, body_length};
ghost use Rattle.op_http.specs.Lengths.{told_with, StandsFor};

use crate::request::Field;

/// Whether some field has this name.
pub fn has_field(fields: &[Field], name: &[u8]) -> bool
    ensures { result ≡ has_field name.now fields.now }
{
    fields.iter().any(|field| field.is_named(name))
}

/// The number that digits write.
fn number(digits: &[u8]) -> u64
    requires digits { IsTrue (list_all is_ascii_digit digits.now) }
    requires short { length digits.now ≤ 10 }
    ensures { result ≡ digits_value 10 digits.now }
{
    let mut number = 0;
    for b in digits {
        number = number * 10 + u64::from(b - b'0');
    }
    number
}

fn all_digits(text: &[u8]) -> bool
    ensures { result ≡ list_all is_ascii_digit text.now }
{
    text.iter().all(|b| b.is_ascii_digit())
}

fn is_length(text: &[u8]) -> bool
    ensures { result ≡ is_length text.now }
{
    text.len() >= 1 && text.len() <= 10 && all_digits(text)
}

/// The value that stands for the value so far and one more. `None` exactly where they tell no length together.
fn agreed<'a>(told: Option<&'a [u8]>, value: &'a [u8]) -> Option<&'a [u8]>
    requires { IfSome told (λ first. is_length first.now ≡ true) }
    ensures { MatchOption result ((others : List (List ℕ)) → told_with told.entry (value.now ∷ others) ≡ None) (StandsFor told.entry value.now) }
{
    match told {
        Some(first) => { if first == value { Some(first) } else { None } }
        None => { if is_length(value) { Some(value) } else { None } }
    }
}

/// The body's length, 0 where no field tells it. `None` exactly where two tell it differently, or a value is no length.
pub fn body_length(fields: &[Field]) -> Option<u64>
    ensures { result ≡ body_length fields.now }
{
    let mut told = None;
    for field in fields {
        if field.is_named(b"content-length") {
            let Some(value) = agreed(told, field.value()) else {
                return None;
            };
            told = Some(value);
        }
    }
    match told {
        Some(value) => Some(number(value)),
        None => Some(0),
    }
}
