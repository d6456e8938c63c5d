//! HMAC (RFC 2104) over SHA-256.

ghost use Rattle.std.specs.Prelude.{◌≡◌, ◌++◌, ℕ, List, []};
ghost use Rattle.op_names.specs.Hmac.{key_block as key_block_of, masked as masked_by, hmac as hmac_of, Holds};

use sha2::{Digest, Sha256};

/// The bytes of a block of SHA-256.
const BLOCK: usize = 64;

/// HMAC over SHA-256, fed in pieces. It takes no memory.
#[derive(Drop)]
pub struct Hmac {
    inner: Sha256,
    outer: Sha256,
}

impl Hmac {
    /// The state of a key, of any length, before the first piece.
    pub fn new(key: &[u8]) -> Hmac
        ensures { Holds result key.now [] }
    {
        let block = key_block(key);
        Hmac {
            inner: Sha256::new_with_prefix(masked(&block, 0x36)),
            outer: Sha256::new_with_prefix(masked(&block, 0x5c)),
        }
    }

    /// Puts a piece behind the message.
    pub fn update(&mut self, part: &[u8])
        ensures { (key message : List ℕ) → Holds self.old key message → Holds self.new key (message ++ part.now) }
    {
        self.inner.update(part);
    }

    /// The code of the message under the key.
    pub fn finish(self) -> [u8; 32]
        ensures { (key message : List ℕ) → Holds self key message → result ≡ hmac_of key message }
    {
        let Hmac { inner, mut outer } = self;
        let digest = inner.finalize();
        outer.update(digest);
        outer.finalize()
    }
}

fn masked(block: &[u8; BLOCK], mask: u8) -> [u8; BLOCK]
    ensures { result ≡ masked_by mask block.now }
{
    let mut out = [0u8; BLOCK];
    'bytes: for i in 0..BLOCK {
        out[i] = block[i] ^ mask;
    }
    out
}

fn key_block(key: &[u8]) -> [u8; BLOCK]
    ensures { result ≡ key_block_of key.now }
{
    let mut block = [0u8; BLOCK];
    if key.len() > BLOCK {
        let digest = Sha256::digest(key);
        block[..32].copy_from_slice(&digest);
    } else {
        block[..key.len()].copy_from_slice(key);
    }
    block
}
