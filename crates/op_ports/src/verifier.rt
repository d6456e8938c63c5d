//! Who tests key proofs.
ghost use Rattle.std.specs.Prelude.{◌≡◌, ℕ, Bool, List};

/// A test of the proofs by which clients show that they hold their keys. It never fails.
pub trait Verifier {
    /// Whether these bytes prove that this client sent this method, target, body and `authorization`. The value alone
    /// decides it.
    ghost accepts: { Self → (client method target body authorization proof : List ℕ) → Bool };

    /// Whether the proof is one: the client, the request's method, its target as it was sent, its body, the value of
    /// its field `authorization` or nothing, and the proof.
    fn verify(
        &self,
        client: &[u8],
        method: &[u8],
        target: &[u8],
        body: &[u8],
        authorization: &[u8],
        proof: &[u8],
    ) -> bool
        ensures { result ≡ accepts self.now client.now method.now target.now body.now authorization.now proof.now };
}
