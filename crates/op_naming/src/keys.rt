//! The text that an asset is found by.

ghost use Rattle.std.specs.Prelude.{◌≡◌, ◌∷◌, IfOk};

use op_model::CodeText;
use std::alloc::{AllocError, Global};
use std::marker::Model;

/// What an asset is found by: its scale and its code. Contracts see it as the list of its bytes.
#[derive(Drop)]
pub struct AssetKey {
    kept: [u8; 9],
    len: usize,
}

impl Model for AssetKey {
    ghost use Rattle.std.specs.Prelude.{◌≡◌, ◌≤◌, ℕ, List, length, take};

    ghost Value = { List ℕ };

    ghost view = { λ a. take a.len a.kept };

    ghost invariant = { λ a. (length a.kept ≡ 9) × (a.len ≤ 9) };
}

impl AssetKey {
    /// The key of a scale and a code.
    pub fn new(scale: u8, code: CodeText) -> AssetKey
        ensures { result ≡ scale ∷ code }
    {
        let code = code.as_bytes();
        let mut kept = [scale; 9];
        kept[1..=code.len()].copy_from_slice(code);
        AssetKey {
            kept,
            len: code.len() + 1,
        }
    }

    /// Its bytes.
    pub fn as_bytes(&self) -> &[u8]
        ensures { result.now ≡ self.now }
    {
        &self.kept[..self.len]
    }

    /// Its bytes, on the heap.
    pub fn to_vec(&self, alloc: Global) -> Result<Vec<u8>, AllocError>
        ensures { IfOk result (λ key. key.items ≡ self.now) }
    {
        Vec::from_slice(alloc, self.as_bytes())
    }
}
