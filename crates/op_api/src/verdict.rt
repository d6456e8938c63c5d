//! Who asks: the client, the proof that it holds its key, and its token.
ghost use Rattle.std.specs.Prelude.{◌≡◌, Some, IfOk, codes};
ghost use Rattle.std.specs.List.{find};
ghost use Rattle.std.specs.Option.{option_copied};
ghost use Rattle.std.specs.Str.{str_eq_ignore_ascii_case};
ghost use Rattle.op_names.specs.Forms.{is_client};
ghost use Rattle.op_names.specs.Names.{text_if};
ghost use Rattle.op_model.specs.Verdicts.{value_of, authorization_of, token_in, token_of, client_of, is_accepted, verdict_of};

use op_http::{Field, RawRequest};
use op_model::Verdict;
use op_names::{ClientText, NameFault, SecretText, read_client};
use op_ports::Verifier;
use std::alloc::{AllocError, Global};
use std::str;

/// What stands before a token, in any case (RFC 9635, section 7.2).
const SCHEME: [u8; 5] = *b"GNAP ";

/// The first field of this name, whatever its case (RFC 9110, section 5.1).
fn first_named<'a>(raw: &'a RawRequest, name: &[u8]) -> Option<&'a Field>
    ensures { option_copied result ≡ find (λ (field, value). str_eq_ignore_ascii_case field name.now) raw.now.fields }
{
    raw.fields().iter().find(|field| field.is_named(name))
}

/// The value of the first field of this name.
fn value_of<'a>(raw: &'a RawRequest, name: &[u8]) -> Option<&'a [u8]>
    ensures { option_copied result ≡ value_of name.now raw.now }
{
    let field = first_named(raw, name)?;
    Some(field.value())
}

/// The value of the field `authorization`.
fn authorization_of(raw: &RawRequest) -> Option<&[u8]>
    ensures { option_copied result ≡ authorization_of raw.now }
{
    value_of(raw, b"authorization")
}

/// The token in a value of the field `authorization` (RFC 9635, section 7.2): what stands behind `GNAP`, in any case, and
/// one space. `None` where the scheme is another, or the token is longer than any secret.
fn token_in(value: &[u8]) -> Option<SecretText>
    ensures { result ≡ token_in value.now }
{
    let (scheme, token) = value.split_at_checked(SCHEME.len())?;
    if scheme.eq_ignore_ascii_case(&SCHEME) {
        SecretText::from_bytes(token)
    } else {
        None
    }
}

/// The token of a request.
fn token_of(raw: &RawRequest) -> Option<SecretText>
    ensures { result ≡ token_of raw.now }
{
    token_in(authorization_of(raw)?)
}

/// The client of this text. `None` where it has no client's form.
fn client_in(alloc: Global, text: &[u8]) -> Result<Option<ClientText>, AllocError>
    ensures { IfOk result (λ client. client ≡ text_if is_client text.now) }
{
    let Ok(text) = str::from_utf8(text) else {
        return Ok(None);
    };
    match read_client(alloc, text) {
        Ok(client) => Ok(Some(client)),
        Err(NameFault::Shape) => Ok(None),
        Err(NameFault::Memory) => Err(AllocError),
    }
}

/// The client that a request names in the field `wallet-client`.
fn client_of(alloc: Global, raw: &RawRequest) -> Result<Option<ClientText>, AllocError>
    ensures { IfOk result (λ client. client ≡ client_of raw.now) }
{
    match value_of(raw, b"wallet-client") {
        Some(text) => client_in(alloc, text),
        None => Ok(None),
    }
}

/// Whether the verifier accepts the proof that this client sent the request. No `authorization` counts as an empty one.
fn is_accepted<V: Verifier>(
    raw: &RawRequest,
    client: &ClientText,
    proof: &[u8],
    verifier: &V,
) -> bool
    ensures { result ≡ is_accepted (V.accepts verifier.now) raw.now (Some client.now) (Some proof.now) }
{
    let authorization = authorization_of(raw).unwrap_or(b"");
    verifier.verify(
        client.bytes(),
        raw.method(),
        raw.target(),
        raw.body(),
        authorization,
        proof,
    )
}

/// Whether the request has a client and, in the field `wallet-signature`, a proof that the verifier accepts.
fn is_proved<V: Verifier>(raw: &RawRequest, client: Option<&ClientText>, verifier: &V) -> bool
    ensures { result ≡ is_accepted (V.accepts verifier.now) raw.now (option_copied client.entry) (value_of (codes "wallet-signature") raw.now) }
{
    match (client, value_of(raw, b"wallet-signature")) {
        (Some(client), Some(proof)) => is_accepted(raw, client, proof, verifier),
        _ => false,
    }
}

/// Who asks, as the fields of a request tell. A client that is there may hold its key or not: `proved` says which.
pub fn verdict_of<V: Verifier>(
    alloc: Global,
    raw: &RawRequest,
    verifier: &V,
) -> Result<Verdict, AllocError>
    ensures { IfOk result (λ verdict. verdict ≡ verdict_of (V.accepts verifier.now) raw.now) }
{
    let client = client_of(alloc, raw)?;
    let proved = is_proved(raw, client.as_ref(), verifier);
    Ok(Verdict {
        client,
        proved,
        token: token_of(raw),
    })
}
