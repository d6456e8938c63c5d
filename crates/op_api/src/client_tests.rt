//! Bodies as the client libraries of Open Payments send them: `@interledger/open-payments` 6 and 7 (TypeScript), and the
//! Rust and PHP libraries, whose members are the same. The members and their values follow the examples of the OpenAPI
//! documents of Open Payments (`auth-server.yaml` and `resource-server.yaml`, version 1); what they mean follows from these
//! documents too, and none was taken from a run.

use crate::request_tests::read;
use op_model::{Interact, PaymentAsked, QuoteAsked, Request};
use std::test::Fail;

/// What a request asks for. Its addresses are names of addresses, and what may be absent is there where it says so.
fn asks_for(request: &Request) -> &'static str {
    match request {
        Request::AskGrant {
            client: Some(_),
            interact: Interact::Missing,
            ..
        } => "a grant",
        Request::AskGrant {
            client: Some(_),
            interact: Interact::Redirect(Some(_)),
            ..
        } => "a grant with a finish",
        Request::ContinueGrant {
            reference: Some(_),
            ..
        } => "a grant by its reference",
        Request::ContinueGrant {
            reference: None,
            ..
        } => "a grant that waits",
        Request::MakeIncoming {
            address: Some(_),
            amount: Some(_),
            expiry: Some(_),
            metadata: Some(_),
        } => "an incoming payment",
        Request::MakeQuote {
            address: Some(_),
            asked: QuoteAsked::Rest,
            ..
        } => "a quote",
        Request::MakeQuote {
            address: Some(_),
            asked: QuoteAsked::Debit(_),
            ..
        } => "a quote of a debit",
        Request::MakeOutgoing {
            address: Some(_),
            asked: PaymentAsked::Quoted(_),
            ..
        } => "a payment from a quote",
        Request::MakeOutgoing {
            address: Some(_),
            asked: PaymentAsked::Direct { .. },
            ..
        } => "a payment without a quote",
        _ => "something else",
    }
}

/// A path, a body that is sent there, and what it asks for.
const BODIES: [(&str, &str, &str); 9] = [
    (
        "/grant",
        r#"{"access_token":{"access":[{"type":"incoming-payment","actions":["create","read"],"identifier":"http://ilp.interledger-test.dev/bob"}]},"client":"http://webmonize.com/.well-known/pay"}"#,
        "a grant",
    ),
    (
        "/grant",
        r#"{"access_token":{"access":[{"type":"outgoing-payment","actions":["create","read"],"identifier":"http://ilp.interledger-test.dev/alice","limits":{"receiver":"http://ilp.interledger-test.dev/incoming-payments/45a0d0ee-26dc-4c66-89e0-01fbf93156f7","interval":"R12/2019-08-24T14:15:22Z/P1M","debitAmount":{"value":"500","assetCode":"USD","assetScale":2}}}]},"interact":{"start":["redirect"],"finish":{"method":"redirect","uri":"http://webmonize.com/return/876FGRD8VC","nonce":"4edb2194-dbdf-46bb-9397-d5fd57b7c8a7"}},"client":"http://webmonize.com/.well-known/pay"}"#,
        "a grant with a finish",
    ),
    (
        "/continue/00000004-0000-8000-8000-000000000001",
        r#"{"interact_ref":"ad82597c-bbfa-4eb0-b72e-328e005b8689"}"#,
        "a grant by its reference",
    ),
    (
        "/continue/00000004-0000-8000-8000-000000000001",
        "{}",
        "a grant that waits",
    ),
    (
        "/incoming-payments",
        r#"{"walletAddress":"https://ilp.interledger-test.dev/alice","incomingAmount":{"value":"2500","assetCode":"USD","assetScale":2},"expiresAt":"2022-02-03T23:20:50.520Z","metadata":{"externalRef":"INV2022-02-0137"}}"#,
        "an incoming payment",
    ),
    (
        "/quotes",
        r#"{"method":"ilp","walletAddress":"https://ilp.interledger-test.dev/alice","receiver":"https://ilp.interledger-test.dev/incoming-payments/2f1b0150-db73-49e8-8713-628baa4a17ff"}"#,
        "a quote",
    ),
    (
        "/quotes",
        r#"{"method":"ilp","walletAddress":"https://ilp.interledger-test.dev/alice","receiver":"https://ilp.interledger-test.dev/incoming-payments/2f1b0150-db73-49e8-8713-628baa4a17ff","debitAmount":{"value":"2500","assetCode":"USD","assetScale":2}}"#,
        "a quote of a debit",
    ),
    (
        "/outgoing-payments",
        r#"{"walletAddress":"https://ilp.interledger-test.dev/alice","quoteId":"https://ilp.interledger-test.dev/quotes/ab03296b-0c8b-4776-b94e-7ee27d868d4d","metadata":{"externalRef":"INV2022-02-0137"}}"#,
        "a payment from a quote",
    ),
    (
        "/outgoing-payments",
        r#"{"walletAddress":"https://ilp.interledger-test.dev/alice","incomingPayment":"https://ilp.interledger-test.dev/incoming-payments/2f1b0150-db73-49e8-8713-628baa4a17ff","debitAmount":{"value":"2500","assetCode":"USD","assetScale":2}}"#,
        "a payment without a quote",
    ),
];

#[test]
fn bodies_of_client_libraries(rt: HostRuntime) -> Result<(), Fail> {
    for (target, body, what) in &BODIES {
        match read(rt.alloc(), "POST", target.as_bytes(), body.as_bytes())? {
            Ok(request) => {
                assert_eq!(rt; asks_for(&request), *what);
            }
            Err(_) => Err("refused")?,
        }
    }
    Ok(())
}
