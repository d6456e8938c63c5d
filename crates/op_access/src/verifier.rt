//! Key proofs by shared secrets: an HMAC (RFC 2104) over the request, under the client's key.
ghost use Rattle.std.specs.Prelude.{◌≡◌};
ghost use Rattle.std.specs.Str.{bytes_eq};
ghost use Rattle.sha2.specs.Sha256.{sha256};
ghost use Rattle.hex.specs.Hex.{encode_lower};
ghost use Rattle.op_access.specs.Proof.{master_of, client_key, request_code, is_proof};

use hex::FromHex;
use op_names::Hmac;
use op_ports::Verifier;
use sha2::{Digest, Sha256};

/// A verifier that knows each client's key, since it makes the keys from one master secret.
///
/// A proof is 64 hexadecimal digits, in either case. They spell the HMAC of the method, the target as it was sent, the
/// body's digest and the value of `authorization`, each ended by a newline, under the client's key; and that key is
/// the HMAC of the client's text under the master secret.
#[derive(Drop)]
pub struct HmacVerifier {
    master: [u8; 32],
}

impl HmacVerifier {
    /// A verifier with this master secret.
    pub fn new(master: [u8; 32]) -> HmacVerifier
        ensures master { master_of result ≡ master }
    {
        HmacVerifier { master }
    }

    /// The key of a client.
    fn key(&self, client: &[u8]) -> [u8; 32]
        ensures { result ≡ client_key (master_of self.now) client.now }
    {
        let mut hmac = Hmac::new(&self.master);
        hmac.update(client);
        hmac.finish()
    }

    /// The code that a client's proof of a request has to spell.
    fn code(
        &self,
        client: &[u8],
        method: &[u8],
        target: &[u8],
        body: &[u8],
        authorization: &[u8],
    ) -> [u8; 32]
        ensures { result ≡ request_code (master_of self.now) client.now method.now target.now body.now authorization.now }
    {
        let mut hmac = Hmac::new(&self.key(client));
        hmac.update(method);
        hmac.update(b"\n");
        hmac.update(target);
        hmac.update(b"\n");
        hmac.update(&digits_of_body(body));
        hmac.update(b"\n");
        hmac.update(authorization);
        hmac.update(b"\n");
        hmac.finish()
    }
}

impl Verifier for HmacVerifier {
    ghost accepts = { λ verifier. is_proof (master_of verifier) };

    fn verify(
        &self,
        client: &[u8],
        method: &[u8],
        target: &[u8],
        body: &[u8],
        authorization: &[u8],
        proof: &[u8],
    ) -> bool {
        match <[u8; 32] as FromHex>::from_hex(proof) {
            Ok(given) => are_equal(
                &given,
                &self.code(client, method, target, body, authorization),
            ),
            Err(_) => false,
        }
    }
}

/// The digest of a body, in lower case hexadecimal.
fn digits_of_body(body: &[u8]) -> [u8; 64]
    ensures { result ≡ encode_lower (sha256 body.now) }
{
    let mut digits = [0; 64];
    let written = hex::encode_to_slice(Sha256::digest(body), &mut digits);
    prove!(written.is_ok());
    digits
}

/// Whether two codes are equal. Each byte is looked at, whatever the bytes before it are, so that the time that this
/// takes tells nothing of how much of a proof is right.
fn are_equal(one: &[u8; 32], other: &[u8; 32]) -> bool
    ensures { result ≡ bytes_eq one.now other.now }
{
    let mut differences = 0;
    'bytes: for i in 0..32 {
        differences |= one[i] ^ other[i];
    }
    differences == 0
}
