//! Bytes that are kept in place.

ghost use Rattle.std.specs.Prelude.{◌≡◌, ◌+◌, ◌≤◌, ◌++◌, [], length};

use std::marker::Model;

/// Up to `N` bytes. Contracts see the list of them.
#[derive(Clone, Copy)]
pub(crate) struct InPlace<const N: usize> {
    kept: [u8; N],
    len: usize,
}

impl<const N: usize> Model for InPlace<N> {
    ghost use Rattle.std.specs.Prelude.{◌≡◌, ◌-◌, ◌≤◌, ℕ, List, ◌++◌, length, take, replicate};

    ghost Value = { List ℕ };

    ghost view = { λ a. take a.len a.kept };

    ghost invariant = { λ a. (length a.kept ≡ N) × (a.len ≤ N) × (a.kept ≡ take a.len a.kept ++ replicate (N - a.len) 0) };

    ghost inverse = { λ xs. record { kept = xs ++ replicate (N - length xs) 0; len = length xs } };
}

impl<const N: usize> InPlace<N> {
    /// No bytes.
    pub(crate) fn new() -> Self
        ensures { result ≡ [] }
    {
        InPlace {
            kept: [0u8; N],
            len: 0,
        }
    }

    /// Puts bytes behind those that are there.
    pub(crate) fn append(&mut self, part: &[u8])
        requires { length self.old + length part.now ≤ N }
        ensures { self.new ≡ self.old ++ part.now }
    {
        let start = self.len;
        let end = start + part.len();
        let kept = &mut self.kept[..];
        kept[start..end].copy_from_slice(part);
        self.len = end;
    }

    /// The bytes.
    pub(crate) fn as_bytes(&self) -> &[u8]
        ensures value { result.now ≡ self.now }
        ensures room { length self.now ≤ N }
    {
        &self.kept[..self.len]
    }
}
