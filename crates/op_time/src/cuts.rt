//! Texts cut at a byte.

ghost use Rattle.std.specs.Prelude.{◌≡◌, ◌==◌, ◌≤◌, length};
ghost use Rattle.std.specs.List.{before_first, after_first, list_any, position_or_len};

/// Whether a byte stands in a text.
pub fn contains(text: &[u8], mark: u8) -> bool
    ensures { result ≡ list_any (λ b. b == mark) text.now }
{
    text.iter().any(|b| *b == mark)
}

/// What stands before the first such byte, or the whole text.
pub fn before_first(text: &[u8], mark: u8) -> &[u8]
    ensures { result.now ≡ before_first (λ b. b == mark) text.now }
{
    &text[..length_before(text, mark)]
}

/// What stands behind the first such byte, or nothing.
pub fn after_first(text: &[u8], mark: u8) -> &[u8]
    ensures { result.now ≡ after_first (λ b. b == mark) text.now }
{
    let before = length_before(text, mark);
    if before < text.len() {
        &text[before + 1..]
    } else {
        &text[before..]
    }
}

fn length_before(text: &[u8], mark: u8) -> usize
    ensures value { result ≡ position_or_len (λ b. b == mark) text.now }
    ensures bound { result ≤ length text.now }
{
    text.iter().take_while(|b| **b != mark).count()
}
