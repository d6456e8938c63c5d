//! Replies as bytes. The expected texts were made by Python's `json`, `hashlib` and `base64`.

use crate::print_reply;
use op_amount::{Amount, Asset, AssetCode};
use op_model::{
    AddressShown, Finish, IncomingShown, MetaText, NonceText, Redirect, Refusal, Reply, ReplyBody,
    Text, UriText,
};
use op_names::{AddressPath, Origin, SecretText};
use op_time::Moment;
use std::alloc::Global;
use std::process::Abort;
use std::str;
use std::test::Fail;

fn origin() -> Result<Origin, Fail> {
    Ok(Origin::from_bytes(b"https://wallet.example").ok_or("no origin")?)
}

fn expect_text(rt: &impl Abort, printed: &[u8], text: &str) {
    assert!(rt; printed == text.as_bytes(), "{text}");
}

#[test]
fn another_method_is_told_those_of_the_path(rt: HostRuntime) -> Result<(), Fail> {
    let alloc = rt.alloc();
    let origin = origin()?;
    str::from_utf8(origin.as_bytes())?;
    let allow = Text::new(Vec::from_slice(alloc, b"GET, POST")?);
    let body = ReplyBody::Refused(Refusal::MethodNotAllowed { allow });
    let printed = print_reply(alloc, &Reply { origin, body })?;
    expect_text(
        &rt,
        &printed,
        "HTTP/1.1 405 Method Not Allowed\r\nallow: GET, POST\r\nconnection: close\r\ncontent-length: 39\r\ncontent-type: application/json\r\n\r\n{\"error\":{\"code\":\"method_not_allowed\"}}",
    );
    Ok(())
}

#[test]
fn a_missing_token_is_challenged(rt: HostRuntime) -> Result<(), Fail> {
    let alloc = rt.alloc();
    let origin = origin()?;
    str::from_utf8(origin.as_bytes())?;
    let body = ReplyBody::Refused(Refusal::InvalidToken);
    let printed = print_reply(alloc, &Reply { origin, body })?;
    expect_text(
        &rt,
        &printed,
        "HTTP/1.1 401 Unauthorized\r\nconnection: close\r\ncontent-length: 34\r\ncontent-type: application/json\r\nwww-authenticate: GNAP as_uri=https://wallet.example/grant\r\n\r\n{\"error\":{\"code\":\"invalid_token\"}}",
    );
    Ok(())
}

#[test]
fn a_denial_tells_its_rule_and_what_was_spent(rt: HostRuntime) -> Result<(), Fail> {
    let alloc = rt.alloc();
    let origin = origin()?;
    str::from_utf8(origin.as_bytes())?;
    let body = ReplyBody::Refused(Refusal::AccessDenied {
        rule: 9,
        spent: Some(8000),
    });
    let printed = print_reply(alloc, &Reply { origin, body })?;
    expect_text(
        &rt,
        &printed,
        "HTTP/1.1 403 Forbidden\r\nconnection: close\r\ncontent-length: 69\r\ncontent-type: application/json\r\n\r\n{\"error\":{\"code\":\"access_denied\",\"rule\":\"over_limit\",\"spent\":\"8000\"}}",
    );
    Ok(())
}

#[test]
fn an_empty_reply_has_no_content_fields(rt: HostRuntime) -> Result<(), Fail> {
    let alloc = rt.alloc();
    let origin = origin()?;
    str::from_utf8(origin.as_bytes())?;
    let reply = Reply {
        origin,
        body: ReplyBody::NoContent,
    };
    let printed = print_reply(alloc, &reply)?;
    expect_text(
        &rt,
        &printed,
        "HTTP/1.1 204 No Content\r\nconnection: close\r\n\r\n",
    );
    Ok(())
}

fn dollars() -> Result<Asset, Fail> {
    let code = AssetCode::read("USD").ok_or("no code")?;
    Ok(Asset { code, scale: 2 })
}

#[test]
fn a_name_is_escaped(rt: HostRuntime) -> Result<(), Fail> {
    let alloc = rt.alloc();
    let origin = origin()?;
    let path = AddressPath::new(Vec::from_slice(alloc, b"/alice")?);
    let name = Text::new(Vec::from_slice(alloc, "Ali \"ce\" \\ é\n".as_bytes())?);
    str::from_utf8(origin.as_bytes())?;
    str::from_utf8(path.bytes())?;
    str::from_utf8(name.bytes())?;
    let address = AddressShown {
        path,
        asset: dollars()?,
        name: Some(name),
    };
    let body = ReplyBody::AddressAdded { number: 3, address };
    let printed = print_reply(alloc, &Reply { origin, body })?;
    expect_text(
        &rt,
        &printed,
        "HTTP/1.1 201 Created\r\nconnection: close\r\ncontent-length: 149\r\ncontent-type: application/json\r\n\r\n{\"assetCode\":\"USD\",\"assetScale\":2,\"id\":\"00000006-0000-8000-8000-000000000003\",\"publicName\":\"Ali \\\"ce\\\" \\\\ é\\n\",\"url\":\"https://wallet.example/alice\"}",
    );
    Ok(())
}

#[test]
fn metadata_stands_in_its_payment(rt: HostRuntime) -> Result<(), Fail> {
    let alloc = rt.alloc();
    let origin = origin()?;
    let path = AddressPath::new(Vec::from_slice(alloc, b"/alice")?);
    str::from_utf8(origin.as_bytes())?;
    str::from_utf8(path.bytes())?;
    let Ok(metadata) = MetaText::read(alloc, b"{\"n\":[1,{\"deep\":null}],\"page\":\"p\"}") else {
        return Err("no metadata".into());
    };
    let amount = Amount {
        value: 500,
        asset: dollars()?,
    };
    let incoming = IncomingShown {
        number: 1,
        path,
        amount: Some(amount),
        received: amount,
        completed: true,
        made: Moment::at_most_last(1_704_067_200_123),
        expiry: Moment::at_most_last(1_706_659_200_123),
        metadata: Some(metadata),
    };
    let body = ReplyBody::IncomingMade { incoming };
    let printed = print_reply(alloc, &Reply { origin, body })?;
    expect_text(
        &rt,
        &printed,
        "HTTP/1.1 201 Created\r\nconnection: close\r\ncontent-length: 419\r\ncontent-type: application/json\r\n\r\n{\"completed\":true,\"createdAt\":\"2024-01-01T00:00:00.123Z\",\"expiresAt\":\"2024-01-31T00:00:00.123Z\",\"id\":\"https://wallet.example/incoming-payments/00000001-0000-8000-8000-000000000001\",\"incomingAmount\":{\"assetCode\":\"USD\",\"assetScale\":2,\"value\":\"500\"},\"metadata\":{\"n\":[1,{\"deep\":null}],\"page\":\"p\"},\"methods\":[],\"receivedAmount\":{\"assetCode\":\"USD\",\"assetScale\":2,\"value\":\"500\"},\"walletAddress\":\"https://wallet.example/alice\"}",
    );
    Ok(())
}

#[test]
fn a_redirect_goes_behind_a_query(rt: HostRuntime) -> Result<(), Fail> {
    let alloc = rt.alloc();
    let origin = origin()?;
    let uri = UriText::new(Vec::from_slice(alloc, b"https://shop.example/done?a=1")?);
    let nonce = NonceText::new(Vec::from_slice(alloc, b"client")?);
    let reference = SecretText::from_bytes(b"i-secret").ok_or("too long")?;
    str::from_utf8(origin.as_bytes())?;
    str::from_utf8(uri.bytes())?;
    str::from_utf8(reference.as_bytes())?;
    let finish = Finish { uri, nonce };
    let nonce = SecretText::from_bytes(b"n-secret").ok_or("too long")?;
    let redirect = Some(Redirect {
        finish,
        nonce,
        reference,
    });
    let body = ReplyBody::GrantDecided { redirect };
    let printed = print_reply(alloc, &Reply { origin, body })?;
    expect_text(
        &rt,
        &printed,
        "HTTP/1.1 200 OK\r\nconnection: close\r\ncontent-length: 115\r\ncontent-type: application/json\r\n\r\n{\"redirect\":\"https://shop.example/done?a=1&hash=7WhycFbqEiGkRgMpxsxd8epFwV3nJJZZrmun-6UYibQ&interact_ref=i-secret\"}",
    );
    Ok(())
}
