//! The hash by which a client knows that an interaction was finished here.

ghost use Rattle.std.specs.Prelude.{◌≡◌, ◌++◌, codes};
ghost use Rattle.sha2.specs.Sha256.{sha256};
ghost use Rattle.base64.specs.Engines.{url_safe_no_pad};
ghost use Rattle.base64.specs.GeneralPurpose.{encode_of};
ghost use Rattle.op_names.specs.Interaction.{interaction_hash, hash_base};

use base64::engine::general_purpose::URL_SAFE_NO_PAD;
use sha2::{Digest, Sha256};

/// The hash of an interaction (RFC 9635, section 4.2.3): SHA-256, in base64url without padding, of
/// the client's nonce, the server's nonce, the interaction reference and the URI of the grant
/// endpoint, joined by single newlines.
pub fn interaction_hash(
    client_nonce: &[u8],
    server_nonce: &[u8],
    reference: &[u8],
    grant_uri: &[u8],
) -> [u8; 43]
    ensures { result
        ≡ interaction_hash client_nonce.now server_nonce.now reference.now grant_uri.now }
{
    let digest = Sha256::new()
        .chain_update(client_nonce)
        .chain_update(b"\n")
        .chain_update(server_nonce)
        .chain_update(b"\n")
        .chain_update(reference)
        .chain_update(b"\n")
        .chain_update(grant_uri)
        .finalize();
    symbols(&digest)
}

fn symbols(digest: &[u8; 32]) -> [u8; 43]
    ensures { result ≡ encode_of url_safe_no_pad digest.now }
{
    let mut symbols = [0u8; 43];
    let written = URL_SAFE_NO_PAD.encode_slice(digest, &mut symbols);
    prove!(written.is_ok());
    symbols
}
