//! What requests mean, on whole texts. The expected answers follow from the table of routes, from RFC 8259 and RFC 3986,
//! and from the forms of texts; none was taken from a run.

use crate::tests::request;
use crate::{ApiFault, prepare};
use op_http::RouteTable;
use op_model::{Refusal, Request};
use op_ports::Verifier;
use std::alloc::Global;
use std::process::Abort;
use std::test::Fail;

/// A verifier that accepts nothing.
#[derive(Clone, Copy)]
struct Nothing;

impl Verifier for Nothing {
    ghost use Rattle.std.specs.Prelude.{false};

    ghost accepts = { λ v client method target body authorization proof. false };

    fn verify(
        &self,
        _client: &[u8],
        _method: &[u8],
        _target: &[u8],
        _body: &[u8],
        _authorization: &[u8],
        _proof: &[u8],
    ) -> bool {
        false
    }
}

/// What a request means.
pub(crate) fn read(
    alloc: Global,
    method: &str,
    target: &[u8],
    body: &[u8],
) -> Result<Result<Request, Refusal>, Fail> {
    let raw = request(alloc, method.as_bytes(), target, body, &[])?;
    let table = RouteTable::new(alloc)?;
    match prepare(alloc, &table, &raw, &Nothing) {
        Ok((request, _)) => Ok(Ok(request)),
        Err(ApiFault::Refused(refusal)) => Ok(Err(refusal)),
        Err(ApiFault::Memory) => Err("out of memory")?,
    }
}

/// The member that a refusal names, or its code.
fn told(refusal: &Refusal) -> &[u8] {
    match refusal {
        Refusal::BadJson => b"bad_json",
        Refusal::BadField { name } => name.bytes(),
        Refusal::InvalidRequest { name: Some(name) } => name.bytes(),
        Refusal::InvalidRequest { name: None } => b"invalid_request",
        Refusal::NotFound => b"not_found",
        Refusal::MethodNotAllowed { allow } => allow.bytes(),
        _ => b"another",
    }
}

/// The request is meant, or refused by this name.
fn expect(
    rt: &impl Abort,
    alloc: Global,
    method: &str,
    target: &[u8],
    body: &[u8],
    name: &str,
) -> Result<(), Fail> {
    match read(alloc, method, target, body)? {
        Ok(_) => {
            assert!(rt; name.is_empty());
        }
        Err(refusal) => {
            assert!(rt; told(&refusal) == name.as_bytes());
        }
    }
    Ok(())
}

/// A case of a body on a route: the name that the refusal tells, or nothing.
type Case = (&'static str, &'static str, &'static str);

const PROVIDER: [Case; 27] = [
    (
        "/admin/origin",
        r#"{"origin":"https://wallet.example"}"#,
        "",
    ),
    (
        "/admin/origin",
        r#"{"origin":"https://wallet.example/"}"#,
        "origin",
    ),
    ("/admin/origin", r#"{}"#, "origin"),
    (
        "/admin/assets",
        r#"{"assetCode":"USD","assetScale":2,"pieces":null,"note":[1.5]}"#,
        "",
    ),
    (
        "/admin/assets",
        r#"{"assetCode":"x","assetScale":2,"assetCode":"USD"}"#,
        "",
    ),
    (
        "/admin/assets",
        r#"{"assetCode":"USD","assetScale":19,"pieces":0}"#,
        "assetScale",
    ),
    (
        "/admin/assets",
        r#"{"assetCode":"USD","assetScale":18,"pieces":0}"#,
        "pieces",
    ),
    (
        "/admin/assets",
        r#"{"assetCode":"USD","assetScale":2.0}"#,
        "assetScale",
    ),
    (
        "/admin/assets",
        r#"{"assetCode":"USD","assetScale":-0}"#,
        "assetScale",
    ),
    (
        "/admin/wallet-addresses",
        r#"{"path":"/a","assetCode":"USD","assetScale":2}"#,
        "",
    ),
    (
        "/admin/wallet-addresses",
        r#"{"path":"/a","assetCode":"USD","assetScale":2,"publicName":""}"#,
        "",
    ),
    (
        "/admin/wallet-addresses",
        r#"{"path":"/admin","assetCode":"usd"}"#,
        "path",
    ),
    (
        "/admin/wallet-addresses",
        r#"{"path":"/a","assetCode":"usd"}"#,
        "assetCode",
    ),
    (
        "/admin/wallet-addresses",
        r#"{"path":"/a","assetCode":"USD"}"#,
        "assetScale",
    ),
    (
        "/admin/wallet-addresses",
        r#"{"path":"/a","assetCode":"USD","assetScale":2,"publicName":7}"#,
        "publicName",
    ),
    (
        "/admin/deposits",
        r#"{"transferId":"d1","account":"pool","amount":{"assetCode":"USD","assetScale":2,"value":"0"}}"#,
        "",
    ),
    (
        "/admin/deposits",
        r#"{"transferId":"d 1","account":7}"#,
        "transferId",
    ),
    (
        "/admin/deposits",
        r#"{"transferId":"d1","account":7}"#,
        "account",
    ),
    (
        "/admin/deposits",
        r#"{"transferId":"d1","account":"","amount":{"assetCode":"USD","assetScale":2,"value":"01"}}"#,
        "amount",
    ),
    (
        "/admin/deposits",
        r#"{"transferId":"d1","account":"","amount":{"assetCode":"USD","assetScale":2,"value":1}}"#,
        "amount",
    ),
    (
        "/admin/withdrawals",
        r#"{"transferId":"w","account":"fees","amount":{"assetCode":"USD","assetScale":2,"value":"1000000000000000000"}}"#,
        "",
    ),
    (
        "/admin/withdrawals",
        r#"{"transferId":"w","account":"fees","amount":{"assetCode":"USD","assetScale":2,"value":"1000000000000000001"}}"#,
        "amount",
    ),
    (
        "/admin/rates",
        r#"{"from":{"assetCode":"USD","assetScale":2},"to":{"assetCode":"EUR","assetScale":2},"num":"9","den":"10"}"#,
        "",
    ),
    (
        "/admin/rates",
        r#"{"to":{"assetCode":"EUR","assetScale":2},"num":"9","den":"10"}"#,
        "from",
    ),
    (
        "/admin/rates",
        r#"{"from":{"assetCode":"USD","assetScale":2},"to":"EUR","num":"0"}"#,
        "to",
    ),
    (
        "/admin/rates",
        r#"{"from":{"assetCode":"USD","assetScale":2},"to":{"assetCode":"EUR","assetScale":2},"num":"0"}"#,
        "num",
    ),
    (
        "/admin/rates",
        r#"{"from":{"assetCode":"USD","assetScale":2},"to":{"assetCode":"EUR","assetScale":2},"num":"1","den":"1000000000001"}"#,
        "den",
    ),
];

const PAYMENTS: [Case; 29] = [
    ("/incoming-payments", r#"{"walletAddress":"$x"}"#, ""),
    (
        "/incoming-payments",
        r#"{"walletAddress":"https://wallet.example/a","incomingAmount":{"value":"5","assetCode":"USD","assetScale":2},"expiresAt":"2026-12-01T12:00:00Z","metadata":{"page":"x"}}"#,
        "",
    ),
    (
        "/incoming-payments",
        r#"{"walletAddress":null,"incomingAmount":7}"#,
        "walletAddress",
    ),
    (
        "/incoming-payments",
        r#"{"walletAddress":"","incomingAmount":7,"expiresAt":7}"#,
        "incomingAmount",
    ),
    (
        "/incoming-payments",
        r#"{"walletAddress":"","expiresAt":"2026-13-01T12:00:00Z","metadata":7}"#,
        "expiresAt",
    ),
    (
        "/incoming-payments",
        r#"{"walletAddress":"","metadata":[]}"#,
        "metadata",
    ),
    (
        "/incoming-payments",
        r#"{"walletAddress":"","metadata":{"a":[1.5]}}"#,
        "metadata",
    ),
    (
        "/incoming-payments",
        r#"{"walletAddress":"","metadata":{"a":[-0]}}"#,
        "metadata",
    ),
    (
        "/incoming-payments",
        r#"{"walletAddress":"","metadata":{"a":[[1e0]]}}"#,
        "metadata",
    ),
    (
        "/incoming-payments",
        r#"{"walletAddress":"","metadata":{"a":[123456789012345678901]}}"#,
        "metadata",
    ),
    (
        "/incoming-payments",
        r#"{"walletAddress":"","metadata":{"page":"x","v":[0.5]}}"#,
        "metadata",
    ),
    (
        "/incoming-payments",
        r#"{"walletAddress":"","metadata":{"a":[-9223372036854775808,18446744073709551615]}}"#,
        "",
    ),
    (
        "/quotes",
        r#"{"walletAddress":"","receiver":"","method":"ilp"}"#,
        "",
    ),
    (
        "/quotes",
        r#"{"receiver":"","method":"x"}"#,
        "walletAddress",
    ),
    (
        "/quotes",
        r#"{"walletAddress":"","method":"x"}"#,
        "receiver",
    ),
    (
        "/quotes",
        r#"{"walletAddress":"","receiver":"","method":"card","debitAmount":7}"#,
        "method",
    ),
    (
        "/quotes",
        r#"{"walletAddress":"","receiver":"","method":"ilp","debitAmount":7,"receiveAmount":7}"#,
        "debitAmount",
    ),
    (
        "/quotes",
        r#"{"walletAddress":"","receiver":"","method":"ilp","receiveAmount":7}"#,
        "receiveAmount",
    ),
    (
        "/quotes",
        r#"{"walletAddress":"","receiver":"","method":"ilp","debitAmount":{"value":"5","assetCode":"USD","assetScale":2},"receiveAmount":{"value":"5","assetCode":"USD","assetScale":2}}"#,
        "receiveAmount",
    ),
    (
        "/quotes",
        r#"{"walletAddress":"","receiver":"","method":"ilp","debitAmount":{"value":"5","assetCode":"USD","assetScale":2},"receiveAmount":null}"#,
        "",
    ),
    (
        "/outgoing-payments",
        r#"{"walletAddress":"","quoteId":""}"#,
        "",
    ),
    (
        "/outgoing-payments",
        r#"{"walletAddress":"","incomingPayment":"","debitAmount":{"value":"5","assetCode":"USD","assetScale":2}}"#,
        "",
    ),
    ("/outgoing-payments", r#"{"quoteId":7}"#, "walletAddress"),
    (
        "/outgoing-payments",
        r#"{"walletAddress":"","incomingPayment":null}"#,
        "quoteId",
    ),
    (
        "/outgoing-payments",
        r#"{"walletAddress":"","incomingPayment":7}"#,
        "incomingPayment",
    ),
    (
        "/outgoing-payments",
        r#"{"walletAddress":"","quoteId":"","incomingPayment":""}"#,
        "incomingPayment",
    ),
    (
        "/outgoing-payments",
        r#"{"walletAddress":"","incomingPayment":""}"#,
        "debitAmount",
    ),
    (
        "/outgoing-payments",
        r#"{"walletAddress":"","quoteId":"","debitAmount":{"value":"5","assetCode":"USD","assetScale":2}}"#,
        "debitAmount",
    ),
    (
        "/outgoing-payments",
        r#"{"walletAddress":"","quoteId":"","metadata":7}"#,
        "metadata",
    ),
];

const GRANTS: [Case; 25] = [
    (
        "/grant",
        r#"{"access_token":{"access":[{"type":"quote","actions":["create","read","create"],"identifier":7}]},"client":"https://shop.example"}"#,
        "",
    ),
    (
        "/grant",
        r#"{"access_token":{"access":[{"type":"outgoing-payment","actions":["create"],"identifier":"x","limits":{"debitAmount":{"value":"5","assetCode":"USD","assetScale":2},"interval":"R/2024-01-01T00:00:00Z/P1M"}}]},"client":"x","interact":{"start":["redirect"],"finish":{"method":"redirect","uri":"https://shop.example/done","nonce":"n"}}}"#,
        "",
    ),
    (
        "/grant",
        r#"{"access_token":{"access":[{"type":"incoming-payment","actions":["complete"],"limits":7}]},"client":"x","interact":null}"#,
        "",
    ),
    ("/grant", r#"["#, "invalid_request"),
    ("/grant", r#"{}"#, "access_token"),
    (
        "/grant",
        r#"{"access_token":{"access":[]}}"#,
        "access_token",
    ),
    (
        "/grant",
        r#"{"access_token":{"access":[{"type":"card","actions":["read"]}]}}"#,
        "access_token",
    ),
    (
        "/grant",
        r#"{"access_token":{"access":[{"type":"quote","actions":["write"]}]}}"#,
        "access_token",
    ),
    (
        "/grant",
        r#"{"access_token":{"access":[{"type":"quote","actions":["list"]}]}}"#,
        "access_token",
    ),
    (
        "/grant",
        r#"{"access_token":{"access":[{"type":"quote","actions":[]}]}}"#,
        "access_token",
    ),
    (
        "/grant",
        r#"{"access_token":{"access":[{"type":"quote","actions":["read"]},{"type":"quote","actions":["read"]}]}}"#,
        "access_token",
    ),
    (
        "/grant",
        r#"{"access_token":{"access":[{"type":"outgoing-payment","actions":["read"]}]}}"#,
        "access_token",
    ),
    (
        "/grant",
        r#"{"access_token":{"access":[{"type":"outgoing-payment","actions":["read"],"identifier":"","limits":{"debitAmount":{"value":"5","assetCode":"USD","assetScale":2},"receiveAmount":{"value":"5","assetCode":"USD","assetScale":2}}}]}}"#,
        "access_token",
    ),
    (
        "/grant",
        r#"{"access_token":{"access":[{"type":"outgoing-payment","actions":["read"],"identifier":"","limits":{"interval":"P1M"}}]}}"#,
        "access_token",
    ),
    (
        "/grant",
        r#"{"access_token":{"access":[{"type":"quote","actions":["read"]}]},"client":7}"#,
        "client",
    ),
    (
        "/grant",
        r#"{"access_token":{"access":[{"type":"quote","actions":["read"]}]},"client":"","interact":{}}"#,
        "interact",
    ),
    (
        "/grant",
        r#"{"access_token":{"access":[{"type":"quote","actions":["read"]}]},"client":"","interact":{"start":["app"]}}"#,
        "",
    ),
    (
        "/grant",
        r#"{"access_token":{"access":[{"type":"quote","actions":["read"]}]},"client":"","interact":{"start":["redirect"],"finish":{"method":"redirect","uri":"https://shop.example/done#a","nonce":"n"}}}"#,
        "interact",
    ),
    (
        "/grant",
        r#"{"access_token":{"access":[{"type":"quote","actions":["read"]}]},"client":"","interact":{"start":["redirect"],"finish":{"method":"push","uri":"https://shop.example/done","nonce":"n"}}}"#,
        "interact",
    ),
    ("/continue/x", "", ""),
    ("/continue/x", " ", "invalid_request"),
    ("/continue/x", r#"{"interact_ref":null}"#, ""),
    ("/continue/x", r#"{"interact_ref":"x"}"#, ""),
    ("/continue/x", r#"{"interact_ref":7}"#, "interact_ref"),
    (
        "/admin/interactions/00000004-0000-8000-8000-000000000001/accept",
        "not read",
        "",
    ),
];

/// The bodies of `POST` requests.
fn expect_each(rt: &impl Abort, alloc: Global, cases: &[Case]) -> Result<(), Fail> {
    for (target, body, name) in cases {
        expect(rt, alloc, "POST", target.as_bytes(), body.as_bytes(), name)?;
    }
    Ok(())
}

#[test]
fn bodies_of_the_provider(rt: HostRuntime) -> Result<(), Fail> {
    expect_each(&rt, rt.alloc(), &PROVIDER)
}

#[test]
fn bodies_of_payments(rt: HostRuntime) -> Result<(), Fail> {
    expect_each(&rt, rt.alloc(), &PAYMENTS)
}

#[test]
fn bodies_of_grants(rt: HostRuntime) -> Result<(), Fail> {
    expect_each(&rt, rt.alloc(), &GRANTS)
}

const QUERIES: [(&str, &str); 18] = [
    ("/incoming-payments?wallet-address=a", ""),
    ("/incoming-payments", "wallet-address"),
    ("/incoming-payments?wallet-address=%C3%28", "wallet-address"),
    ("/incoming-payments?wallet-address=%zz", ""),
    ("/incoming-payments?wallet%2Daddress=a+b&first=1", ""),
    ("/incoming-payments?wallet-address=a&first=0", "first"),
    ("/incoming-payments?wallet-address=a&first=100", ""),
    ("/incoming-payments?wallet-address=a&first=101", "first"),
    ("/incoming-payments?wallet-address=a&first=01", "first"),
    ("/incoming-payments?wallet-address=a&first=1&first=x", ""),
    (
        "/incoming-payments?wallet-address=a&cursor=00000001-0000-8000-8000-000000000007",
        "",
    ),
    (
        "/incoming-payments?wallet-address=a&cursor=00000003-0000-8000-8000-000000000007",
        "cursor",
    ),
    (
        "/outgoing-payments?wallet-address=a&cursor=00000003-0000-8000-8000-000000000007",
        "",
    ),
    ("/outgoing-payments?wallet-address=a&cursor=", "cursor"),
    ("/monetization?wallet-address=a&page=x", ""),
    ("/monetization?wallet-address=a&page=", "page"),
    ("/monetization?page=x", "wallet-address"),
    ("/admin/assets/USD/02", ""),
];

#[test]
fn queries(rt: HostRuntime) -> Result<(), Fail> {
    for (target, name) in &QUERIES {
        expect(&rt, rt.alloc(), "GET", target.as_bytes(), b"", name)?;
    }
    Ok(())
}

/// A text between two others, so many times a letter.
fn long_body(
    alloc: Global,
    front: &str,
    count: usize,
    letter: u8,
    end: &str,
) -> Result<Vec<u8>, Fail> {
    let mut body = Vec::from_slice(alloc, front.as_bytes())?;
    for _ in 0..count {
        body.push(letter)?;
    }
    body.extend_from_slice(end.as_bytes())?;
    Ok(body)
}

/// A body with so many letters, and one with one more, which the member is refused for.
fn expect_limit(
    rt: &impl Abort,
    alloc: Global,
    target: &str,
    parts: (&str, &str),
    count: u16,
    name: &str,
) -> Result<(), Fail> {
    let fits = long_body(alloc, parts.0, usize::from(count), b'a', parts.1)?;
    expect(rt, alloc, "POST", target.as_bytes(), &fits, "")?;
    let over = long_body(alloc, parts.0, usize::from(count) + 1, b'a', parts.1)?;
    expect(rt, alloc, "POST", target.as_bytes(), &over, name)
}

#[test]
fn longest_texts(rt: HostRuntime) -> Result<(), Fail> {
    let name = (
        r#"{"path":"/a","assetCode":"USD","assetScale":2,"publicName":""#,
        r#""}"#,
    );
    expect_limit(
        &rt,
        rt.alloc(),
        "/admin/wallet-addresses",
        name,
        128,
        "publicName",
    )?;
    let transfer = (
        r#"{"account":"pool","amount":{"value":"5","assetCode":"USD","assetScale":2},"transferId":""#,
        r#""}"#,
    );
    expect_limit(
        &rt,
        rt.alloc(),
        "/admin/deposits",
        transfer,
        64,
        "transferId",
    )?;
    let metadata = (r#"{"walletAddress":"","metadata":{"a":""#, r#""}}"#);
    expect_limit(
        &rt,
        rt.alloc(),
        "/incoming-payments",
        metadata,
        1016,
        "metadata",
    )?;
    let client = (
        r#"{"access_token":{"access":[{"type":"quote","actions":["read"]}]},"client":""#,
        r#""}"#,
    );
    expect_limit(&rt, rt.alloc(), "/grant", client, 256, "client")?;
    let uri = (
        r#"{"access_token":{"access":[{"type":"quote","actions":["read"]}]},"client":"","interact":{"start":["redirect"],"finish":{"method":"redirect","nonce":"n","uri":"https://shop.example/"#,
        r#""}}}"#,
    );
    expect_limit(&rt, rt.alloc(), "/grant", uri, 491, "interact")
}

#[test]
fn deepest_bodies(rt: HostRuntime) -> Result<(), Fail> {
    let alloc = rt.alloc();
    for (levels, name) in [(126usize, ""), (127usize, "bad_json")] {
        let mut body = long_body(alloc, r#"{"walletAddress":"","note":"#, levels, b'[', "")?;
        for _ in 0..levels {
            body.push(b']')?;
        }
        body.push(b'}')?;
        expect(&rt, alloc, "POST", b"/incoming-payments", &body, name)?;
    }
    Ok(())
}
