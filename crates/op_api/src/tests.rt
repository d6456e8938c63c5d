//! Who asks, and that nobody looks at it where nothing is asked for. The expected answers follow from RFC 9110, section
//! 5.1 (names of fields in any case), RFC 9635, section 7.2 (where a token stands), and the forms of clients and tokens;
//! none was taken from a run.
ghost use Rattle.std.specs.Prelude.{true, ◌&&◌};
ghost use Rattle.std.specs.Str.{bytes_eq};

use crate::{ApiFault, prepare};
use op_http::{Field, RawRequest, RouteTable};
use op_model::{Refusal, Verdict};
use op_ports::Verifier;
use std::alloc::{AllocError, Global};
use std::cell::Cell;
use std::process::Abort;
use std::test::Fail;

const BODY: &[u8] = b"{\"assetCode\":\"USD\",\"assetScale\":2}";

const SHOP: &[u8] = b"https://shop.example/app";

/// A verifier that accepts one proof of one request.
#[derive(Clone, Copy)]
struct OneProof {
    client: &'static [u8],
    method: &'static [u8],
    target: &'static [u8],
    body: &'static [u8],
    authorization: &'static [u8],
    proof: &'static [u8],
}

impl Verifier for OneProof {
    ghost accepts = { λ v client method target body authorization proof.
        bytes_eq client v.client.now && bytes_eq method v.method.now && bytes_eq target v.target.now && bytes_eq body v.body.now
        && bytes_eq authorization v.authorization.now && bytes_eq proof v.proof.now };

    fn verify(
        &self,
        client: &[u8],
        method: &[u8],
        target: &[u8],
        body: &[u8],
        authorization: &[u8],
        proof: &[u8],
    ) -> bool {
        client == self.client
            && method == self.method
            && target == self.target
            && body == self.body
            && authorization == self.authorization
            && proof == self.proof
    }
}

/// The verifier that accepts the proof `p` of the shop's request to add an asset, with this `authorization`.
fn accepts_shop(authorization: &'static [u8]) -> OneProof {
    OneProof {
        client: SHOP,
        method: b"POST",
        target: b"/admin/assets",
        body: BODY,
        authorization,
        proof: b"p",
    }
}

/// A verifier that accepts everything, and knows whether it was asked.
#[derive(Drop)]
struct Asked {
    asked: Cell<bool>,
}

impl Verifier for Asked {
    ghost accepts = { λ v client method target body authorization proof. true };

    fn verify(
        &self,
        _client: &[u8],
        _method: &[u8],
        _target: &[u8],
        _body: &[u8],
        _authorization: &[u8],
        _proof: &[u8],
    ) -> bool {
        self.asked.set(true);
        true
    }
}

/// A request with these fields.
pub(crate) fn request(
    alloc: Global,
    method: &[u8],
    target: &[u8],
    body: &[u8],
    fields: &[(&[u8], &[u8])],
) -> Result<RawRequest, AllocError> {
    let mut kept = Vec::new(alloc);
    for (name, value) in fields {
        let name = Vec::from_slice(alloc, name)?;
        let value = Vec::from_slice(alloc, value)?;
        kept.push(Field::new(name, value))?;
    }
    Ok(RawRequest::new(
        Vec::from_slice(alloc, method)?,
        Vec::from_slice(alloc, target)?,
        kept,
        Vec::from_slice(alloc, body)?,
    ))
}

/// Who asks for the asset, where these fields stand before the body.
fn asker<V: Verifier>(
    alloc: Global,
    fields: &[(&[u8], &[u8])],
    verifier: &V,
) -> Result<Verdict, Fail> {
    let raw = request(alloc, b"POST", b"/admin/assets", BODY, fields)?;
    let table = RouteTable::new(alloc)?;
    match prepare(alloc, &table, &raw, verifier) {
        Ok((_, verdict)) => Ok(verdict),
        Err(_) => Err("refused")?,
    }
}

/// The client of a verdict, empty where it has none: no client is.
fn client_of(verdict: &Verdict) -> &[u8] {
    match &verdict.client {
        Some(client) => client.bytes(),
        None => b"",
    }
}

/// The token of a verdict.
fn token_of(verdict: &Verdict) -> Option<&[u8]> {
    match &verdict.token {
        Some(token) => Some(token.as_bytes()),
        None => None,
    }
}

#[test]
fn names_and_scheme_in_any_case(rt: HostRuntime) -> Result<(), Fail> {
    let fields: [(&[u8], &[u8]); 4] = [
        (b"host", b"wallet.example"),
        (b"Wallet-Client", SHOP),
        (b"WALLET-SIGNATURE", b"p"),
        (b"Authorization", b"gnaP a5"),
    ];
    let verdict = asker(rt.alloc(), &fields, &accepts_shop(b"gnaP a5"))?;
    assert!(rt; verdict.proved && client_of(&verdict) == SHOP);
    assert!(rt; token_of(&verdict) == Some(b"a5".as_slice()));
    Ok(())
}

#[test]
fn first_values_count(rt: HostRuntime) -> Result<(), Fail> {
    let first: [(&[u8], &[u8]); 6] = [
        (b"wallet-client", SHOP),
        (b"wallet-client", b"https://other.example"),
        (b"wallet-signature", b"p"),
        (b"wallet-signature", b"q"),
        (b"authorization", b"GNAP a"),
        (b"authorization", b"GNAP b"),
    ];
    let verdict = asker(rt.alloc(), &first, &accepts_shop(b"GNAP a"))?;
    assert!(rt; verdict.proved && client_of(&verdict) == SHOP);
    assert!(rt; token_of(&verdict) == Some(b"a".as_slice()));
    let last: [(&[u8], &[u8]); 3] = [
        (b"wallet-client", b"https://other.example"),
        (b"wallet-client", SHOP),
        (b"wallet-signature", b"p"),
    ];
    let verdict = asker(rt.alloc(), &last, &accepts_shop(b""))?;
    assert!(rt; !verdict.proved && client_of(&verdict) == b"https://other.example".as_slice());
    Ok(())
}

#[test]
fn no_authorization_counts_as_an_empty_one(rt: HostRuntime) -> Result<(), Fail> {
    let fields: [(&[u8], &[u8]); 2] = [(b"wallet-client", SHOP), (b"wallet-signature", b"p")];
    let verdict = asker(rt.alloc(), &fields, &accepts_shop(b""))?;
    assert!(rt; verdict.proved && token_of(&verdict) == None);
    let verdict = asker(rt.alloc(), &fields, &accepts_shop(b"GNAP a"))?;
    assert!(rt; !verdict.proved && client_of(&verdict) == SHOP);
    Ok(())
}

/// The field `wallet-client` with this value, and a proof, name a client or not. The verifier is asked exactly where
/// they do.
fn expect_client(
    rt: &impl Abort,
    alloc: Global,
    value: &[u8],
    is_client: bool,
) -> Result<(), Fail> {
    let asked = Asked {
        asked: Cell::new(false),
    };
    let fields: [(&[u8], &[u8]); 2] = [(b"wallet-client", value), (b"wallet-signature", b"p")];
    let verdict = asker(alloc, &fields, &asked)?;
    assert_eq!(rt; verdict.client.is_some(), is_client);
    assert_eq!(rt; verdict.proved, is_client);
    assert_eq!(rt; asked.asked.get(), is_client);
    Ok(())
}

#[test]
fn clients(rt: HostRuntime) -> Result<(), Fail> {
    let mut long = Vec::from_slice(rt.alloc(), b"https://")?;
    for _ in 8..256 {
        long.push(b'a')?;
    }
    expect_client(&rt, rt.alloc(), SHOP, true)?;
    expect_client(&rt, rt.alloc(), &long, true)?;
    long.push(b'a')?;
    expect_client(&rt, rt.alloc(), &long, false)?;
    expect_client(&rt, rt.alloc(), b"shop.example", false)?;
    expect_client(&rt, rt.alloc(), b"https://shop.example/a b", false)?;
    expect_client(&rt, rt.alloc(), b"https://shop.example/\xc3\xa9", false)?;
    expect_client(&rt, rt.alloc(), b"https://shop.example/\xff", false)?;
    expect_client(&rt, rt.alloc(), b"", false)
}

/// This value of `authorization` has this token.
fn expect_token(
    rt: &impl Abort,
    alloc: Global,
    value: &[u8],
    token: Option<&[u8]>,
) -> Result<(), Fail> {
    let fields: [(&[u8], &[u8]); 1] = [(b"authorization", value)];
    let verdict = asker(alloc, &fields, &accepts_shop(b""))?;
    assert!(rt; token_of(&verdict) == token);
    assert!(rt; !verdict.proved && verdict.client.is_none());
    Ok(())
}

#[test]
fn tokens(rt: HostRuntime) -> Result<(), Fail> {
    let cases: [(&[u8], Option<&[u8]>); 7] = [
        (b"GNAP a5-1", Some(b"a5-1")),
        (b"gnap a5-1", Some(b"a5-1")),
        (b"GNAP  a", Some(b" a")),
        (b"Bearer a5-1", None),
        (b"a5-1", None),
        (b"GNAP", None),
        (b"GNAPa5-1", None),
    ];
    for (value, token) in cases {
        expect_token(&rt, rt.alloc(), value, token)?;
    }
    let mut long = Vec::from_slice(rt.alloc(), b"GNAP ")?;
    for _ in 0..54 {
        long.push(b'a')?;
    }
    expect_token(&rt, rt.alloc(), &long, long.get(5..))?;
    long.push(b'a')?;
    expect_token(&rt, rt.alloc(), &long, None)
}

/// The request is refused so, and nobody looked at who asks.
fn expect_refused(
    rt: &impl Abort,
    alloc: Global,
    method: &[u8],
    target: &[u8],
    body: &[u8],
) -> Result<Refusal, Fail> {
    let asked = Asked {
        asked: Cell::new(false),
    };
    let fields: [(&[u8], &[u8]); 2] = [(b"wallet-client", SHOP), (b"wallet-signature", b"p")];
    let raw = request(alloc, method, target, body, &fields)?;
    let table = RouteTable::new(alloc)?;
    match prepare(alloc, &table, &raw, &asked) {
        Err(ApiFault::Refused(refusal)) => {
            assert!(rt; !asked.asked.get());
            Ok(refusal)
        }
        _ => Err("not refused")?,
    }
}

#[test]
fn nobody_is_looked_at_where_nothing_is_asked(rt: HostRuntime) -> Result<(), Fail> {
    let refusal = expect_refused(&rt, rt.alloc(), b"POST", b"/admin/asset", BODY)?;
    assert!(rt; matches!(&refusal, Refusal::NotFound));
    let refusal = expect_refused(&rt, rt.alloc(), b"PUT", b"/admin/assets", BODY)?;
    assert!(rt;
        matches!(&refusal, Refusal::MethodNotAllowed { allow } if allow.bytes() == b"POST".as_slice())
    );
    let refusal = expect_refused(&rt, rt.alloc(), b"POST", b"/admin/assets", b"[]")?;
    assert!(rt; matches!(&refusal, Refusal::BadJson));
    let refusal = expect_refused(&rt, rt.alloc(), b"POST", b"/admin/assets", b"{}")?;
    assert!(rt;
        matches!(&refusal, Refusal::BadField { name } if name.bytes() == b"assetCode".as_slice())
    );
    Ok(())
}
