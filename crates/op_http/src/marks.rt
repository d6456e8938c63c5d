//! Where a head may end.
ghost use Rattle.std.specs.Prelude.{◌≡◌, ◌||◌, ◌&&◌, not, nat_eq, codes, MatchOption};
ghost use Rattle.std.specs.List.{ends_with, list_any};
ghost use Rattle.op_model.specs.Requests.{is_line_byte};
ghost use Rattle.op_http.specs.Marks.{HasNoMark, HasNoMarkTo, IsFirstMark};

fn is_line_byte(b: u8) -> bool
    ensures { result ≡ is_line_byte b }
{
    b == b'\n' || b == b'\r'
}

/// Whether an empty line ends the text, behind some byte that ends no line.
fn is_marked(text: &[u8], other: bool) -> bool
    ensures { result ≡ ((ends_with nat_eq text.now (codes "\n\n") || ends_with nat_eq text.now (codes "\n\r\n")) && other) }
{
    (text.ends_with(b"\n\n") || text.ends_with(b"\n\r\n")) && other
}

fn either(a: bool, b: bool) -> bool
    ensures { result ≡ (a || b) }
{
    a || b
}

/// Whether some byte of the text ends no line.
fn has_other(text: &[u8]) -> bool
    ensures { result ≡ list_any (λ b. not (is_line_byte b)) text.now }
{
    text.iter().any(|b| !is_line_byte(*b))
}

/// Behind how many bytes the first end mark ends: an empty line that ends a line, where some byte stands before it
/// that ends none. None ends in the first `from` bytes, which are not looked through again.
pub fn first_mark(text: &[u8], from: usize) -> Option<usize>
    requires { HasNoMarkTo from text.now }
    ensures { MatchOption result (HasNoMark text.now) (IsFirstMark text.now) }
{
    let mut other = has_other(&text[..from]);
    for i in from..text.len() {
        other = either(other, !is_line_byte(text[i]));
        if is_marked(&text[..i + 1], other) {
            return Some(i + 1);
        }
    }
    None
}
