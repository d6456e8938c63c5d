//! Texts whose reading comes from outside: published vectors and the examples of standards.

use crate::{
    Hmac, Id, Kind, Letter, NameFault, id_text, interaction_hash, is_finish_uri, read_address,
    read_client, read_id, read_origin, read_path, read_row, read_secret, secret_text,
};
use std::alloc::{AllocError, Global};
use std::process::Abort;
use std::test::Fail;

/// The code of a message, fed in two pieces.
fn code(key: &[u8], first: &[u8], rest: &[u8]) -> [u8; 32] {
    let mut hmac = Hmac::new(key);
    hmac.update(first);
    hmac.update(rest);
    hmac.finish()
}

fn expect_code(rt: &impl Abort, code: [u8; 32], digits: &str) {
    let mut printed = [0u8; 64];
    let written = hex::encode_to_slice(code, &mut printed);
    assert!(rt; written.is_ok());
    assert!(rt; printed.as_slice() == digits.as_bytes(), "{digits}");
}

#[test]
fn codes_of_rfc_4231(rt: HostRuntime) {
    let counted: [u8; 25] = [
        1, 2, 3, 4, 5, 6, 7, 8, 9, 10, 11, 12, 13, 14, 15, 16, 17, 18, 19, 20, 21, 22, 23, 24, 25,
    ];
    expect_code(
        &rt,
        code(&[0x0b; 20], b"Hi", b" There"),
        "b0344c61d8db38535ca8afceaf0bf12b881dc200c9833da726e9376c2e32cff7",
    );
    expect_code(
        &rt,
        code(b"Jefe", b"what do ya want ", b"for nothing?"),
        "5bdcc146bf60754e6a042426089575c75a003f089d2739839dec58b964ec3843",
    );
    expect_code(
        &rt,
        code(&[0xaa; 20], &[0xdd; 50], b""),
        "773ea91e36800e46854db8ebd09181a72959098b3ef8c122d9635514ced565fe",
    );
    expect_code(
        &rt,
        code(&counted, &[0xcd; 20], &[0xcd; 30]),
        "82558a389a443c0ea4cc819899f2083a85f0faa3e578f8077a2e3ff46729665b",
    );
    expect_code(
        &rt,
        code(&[0x0c; 20], b"", b"Test With Truncation"),
        "a3b6167473100ee06e0c796c2955552bfa6f7c0a6a8aef8b93f860aab0cd20c5",
    );
    expect_code(
        &rt,
        code(
            &[0xaa; 131],
            b"Test Using Larger Than Block-Size Key",
            b" - Hash Key First",
        ),
        "60e431591ee0b67f0d8a26aacbf5b77f8e0bc6213728c5140546040f0ee37f54",
    );
    expect_code(
        &rt,
        code(
            &[0xaa; 131],
            b"This is a test using a larger than block-size key and a larger than block-size data.",
            b" The key needs to be hashed before being used by the HMAC algorithm.",
        ),
        "9b09ffa71b942fcb27635fbcd5b0e944bfdc63644f0713938a7f51535c3a35e2",
    );
}

#[test]
fn hash_of_rfc_9635(rt: HostRuntime) {
    let hash = interaction_hash(
        b"VJLO6A4CATR0KRO",
        b"MBDOFXG4Y5CVJCX821LH",
        b"4IFWWIKYB2PQ6U56NL1",
        b"https://server.example.com/tx",
    );
    assert!(rt; hash.as_slice() == b"x-gguKWTj8rQf7d7i3w3UhzvuJ5bpOlKyAlVpLxBffY".as_slice());
}

fn expect_ids(rt: &impl Abort, table: &[(&str, Kind, u64)]) {
    for (text, kind, number) in table {
        let id = Id {
            kind: *kind,
            number: *number,
        };
        assert_eq!(rt; read_id(text), Some(id), "{text}");
    }
}

fn expect_no_ids(rt: &impl Abort, texts: &[&str]) {
    for text in texts {
        assert_eq!(rt; read_id(text), None, "{text}");
    }
}

#[test]
fn identifiers(rt: HostRuntime) {
    let printed = id_text(Id {
        kind: Kind::Event,
        number: 0xf81d_4fae_7dec,
    });
    assert!(rt; printed.as_slice() == b"00000005-0000-8000-8000-f81d4fae7dec".as_slice());
    expect_ids(
        &rt,
        &[
            ("00000001-0000-8000-8000-000000000001", Kind::Incoming, 1),
            (
                "00000006-0000-8000-8000-F81D4FAE7DEC",
                Kind::Address,
                0xf81d_4fae_7dec,
            ),
            (
                "00000004-0000-8000-8000-ffffFFFFffff",
                Kind::Grant,
                281_474_976_710_655,
            ),
        ],
    );
    expect_no_ids(
        &rt,
        &[
            "",
            "f81d4fae-7dec-11d0-a765-00a0c91e6bf6",
            "00000000-0000-8000-8000-000000000001",
            "00000007-0000-8000-8000-000000000001",
            "00000001-0000-7000-8000-000000000001",
            "00000001-0000-8000-8000-00000000001",
            "00000001-0000-8000-8000-0000000000001",
            "00000001-0000-8000-8000-+00000000001",
            "000000010000-8000-8000-0000000000001",
            "{00000001-0000-8000-8000-00000000001}",
            "{00000001-0000-8000-8000-000000000001}",
            "urn:uuid:00000001-0000-8000-8000-000000000001",
            "00000001000080008000000000000001",
        ],
    );
}

/// Whether a text is an origin, kept as it was sent.
fn is_origin(alloc: Global, text: &str) -> Result<bool, NameFault> {
    match read_origin(alloc, text) {
        Ok(origin) => Ok(origin.as_bytes() == text.as_bytes()),
        Err(NameFault::Shape) => Ok(false),
        Err(NameFault::Memory) => Err(NameFault::Memory),
    }
}

fn expect_origins(
    rt: &impl Abort,
    alloc: Global,
    texts: &[&str],
    are: bool,
) -> Result<(), NameFault> {
    for text in texts {
        assert_eq!(rt; is_origin(alloc, text)?, are, "{text}");
    }
    Ok(())
}

#[test]
fn origins(rt: HostRuntime) -> Result<(), Fail> {
    let alloc = rt.alloc();
    expect_origins(
        &rt,
        alloc,
        &[
            "https://wallet.example",
            "https://pay.example:8443",
            "http://127.0.0.1:8080",
            "http://[::1]",
        ],
        true,
    )?;
    expect_origins(
        &rt,
        alloc,
        &[
            "",
            "https://",
            "wallet.example",
            "ftp://wallet.example",
            "HTTPS://wallet.example",
            "https://Wallet.example",
            "https://wallet.example:443",
            "http://wallet.example:80",
            "https://wallet.example/",
            "https://wallet.example/a",
            "https://wallet.example?a",
            "https://wallet.example#a",
            "https://alice@wallet.example",
            "https://:key@wallet.example",
            " https://wallet.example",
            "https:\\\\wallet.example",
            "https:///wallet.example",
        ],
        false,
    )?;
    let label = "abcdefghijklmnopqrstuvwxyz0123456789abcdefghijklmnopqrstuvwxyz";
    let at_limit = format!(in alloc; "https://{label}.{label}.{label}.abc")?;
    let past_limit = format!(in alloc; "https://{label}.{label}.{label}.abcd")?;
    assert_eq!(rt; at_limit.len(), 200);
    assert_eq!(rt; is_origin(alloc, at_limit.as_str())?, true);
    assert_eq!(rt; is_origin(alloc, past_limit.as_str())?, false);
    Ok(())
}

/// Whether a text is a path, kept as it was sent.
fn is_path(alloc: Global, text: &str) -> Result<bool, NameFault> {
    match read_path(alloc, text) {
        Ok(path) => Ok(path.bytes() == text.as_bytes()),
        Err(NameFault::Shape) => Ok(false),
        Err(NameFault::Memory) => Err(NameFault::Memory),
    }
}

fn expect_paths(
    rt: &impl Abort,
    alloc: Global,
    texts: &[&str],
    are: bool,
) -> Result<(), NameFault> {
    for text in texts {
        assert_eq!(rt; is_path(alloc, text)?, are, "{text}");
    }
    Ok(())
}

#[test]
fn paths(rt: HostRuntime) -> Result<(), Fail> {
    let alloc = rt.alloc();
    let long = "0123456789abcdefghijklmnopqrstuvwxyzABCDEFGHIJKLMNOPQRSTUVWXYZ-_";
    assert_eq!(rt; long.len(), 64);
    expect_paths(
        &rt,
        alloc,
        &[
            "/alice",
            "/.well-known/pay",
            "/a/b/c/d/e/f/g/h",
            "/~a.b/...",
            "/Admin",
            "/a/admin",
            "/grants",
        ],
        true,
    )?;
    expect_paths(
        &rt,
        alloc,
        &[
            "",
            "/",
            "alice",
            "//",
            "/alice/",
            "/a//b",
            "/.",
            "/a/..",
            "/../a",
            "/a%20b",
            "/a b",
            "/a?b",
            "/a/b/c/d/e/f/g/h/i",
            "/admin",
            "/grant/a",
            "/continue",
            "/token/1",
            "/incoming-payments",
            "/quotes/a",
            "/outgoing-payments",
            "/monetization/a/b",
        ],
        false,
    )?;
    let segment_at_limit = format!(in alloc; "/{long}")?;
    let segment_past_limit = format!(in alloc; "/{long}a")?;
    let at_limit = format!(in alloc; "/{long}/{}", &long[2..])?;
    let past_limit = format!(in alloc; "/{long}/{}", &long[1..])?;
    assert_eq!(rt; at_limit.len(), 128);
    assert_eq!(rt; is_path(alloc, segment_at_limit.as_str())?, true);
    assert_eq!(rt; is_path(alloc, segment_past_limit.as_str())?, false);
    assert_eq!(rt; is_path(alloc, at_limit.as_str())?, true);
    assert_eq!(rt; is_path(alloc, past_limit.as_str())?, false);
    Ok(())
}

/// Whether a text names the address at an origin and a path; where these are empty, whether it
/// names none.
fn names_address(alloc: Global, text: &str, origin: &str, path: &str) -> Result<bool, NameFault> {
    match read_address(alloc, text) {
        Ok(name) => {
            let found = name.origin.as_bytes() == origin.as_bytes()
                && name.path.bytes() == path.as_bytes();
            let copy = name.clone(alloc)?;
            Ok(found && copy.path.bytes() == name.path.bytes())
        }
        Err(NameFault::Shape) => Ok(origin.is_empty() && path.is_empty()),
        Err(NameFault::Memory) => Err(NameFault::Memory),
    }
}

fn expect_addresses(
    rt: &impl Abort,
    alloc: Global,
    table: &[(&str, &str, &str)],
) -> Result<(), NameFault> {
    for (text, origin, path) in table {
        assert_eq!(rt; names_address(alloc, text, origin, path)?, true, "{text}");
    }
    Ok(())
}

#[test]
fn addresses_and_payment_pointers(rt: HostRuntime) -> Result<(), Fail> {
    let alloc = rt.alloc();
    expect_addresses(
        &rt,
        alloc,
        &[
            ("$pay.example", "https://pay.example", "/.well-known/pay"),
            ("$pay.example/", "https://pay.example", "/.well-known/pay"),
            ("$pay.example/alice", "https://pay.example", "/alice"),
            ("$pay.example/a/b", "https://pay.example", "/a/b"),
            ("https://pay.example/alice", "https://pay.example", "/alice"),
            ("http://127.0.0.1:8080/a/b", "http://127.0.0.1:8080", "/a/b"),
            ("", "", ""),
            ("$", "", ""),
            ("$/alice", "", ""),
            ("$pay.example:8443", "", ""),
            ("$pay.example:8443/alice", "", ""),
            ("$alice@pay.example", "", ""),
            ("$Pay.example", "", ""),
            ("$pay.example?a", "", ""),
            ("$pay.example/#a", "", ""),
            ("$pay.example//", "", ""),
            ("$pay.example/admin", "", ""),
            ("https://pay.example", "", ""),
            ("https://pay.example/", "", ""),
            ("https://alice@pay.example/alice", "", ""),
            ("https://pay.example:443/alice", "", ""),
            ("https://pay.example/alice?a", "", ""),
            ("pay.example/alice", "", ""),
        ],
    )?;
    Ok(())
}

fn expect_rows(
    rt: &impl Abort,
    alloc: Global,
    table: &[(&str, Kind, Option<u64>)],
) -> Result<(), NameFault> {
    for (text, kind, number) in table {
        let found = match read_row(alloc, text, *kind) {
            Ok(name) => Some(name.id.number),
            Err(NameFault::Shape) => None,
            Err(NameFault::Memory) => return Err(NameFault::Memory),
        };
        assert_eq!(rt; found, *number, "{text}");
    }
    Ok(())
}

#[test]
fn rows(rt: HostRuntime) -> Result<(), Fail> {
    let alloc = rt.alloc();
    expect_rows(
        &rt,
        alloc,
        &[
            (
                "https://pay.example/incoming-payments/00000001-0000-8000-8000-000000000001",
                Kind::Incoming,
                Some(1),
            ),
            (
                "https://pay.example:8443/quotes/00000002-0000-8000-8000-0000000000AF",
                Kind::Quote,
                Some(175),
            ),
            (
                "https://pay.example/outgoing-payments/00000003-0000-8000-8000-000000000009",
                Kind::Outgoing,
                Some(9),
            ),
            (
                "https://pay.example/quotes/00000001-0000-8000-8000-000000000001",
                Kind::Quote,
                None,
            ),
            (
                "https://pay.example/quotes/00000002-0000-8000-8000-000000000001",
                Kind::Incoming,
                None,
            ),
            (
                "https://pay.example/quotes/00000002-0000-8000-8000-000000000001/",
                Kind::Quote,
                None,
            ),
            (
                "$pay.example/quotes/00000002-0000-8000-8000-000000000001",
                Kind::Quote,
                None,
            ),
            (
                "https://pay.example/grant/00000004-0000-8000-8000-000000000001",
                Kind::Grant,
                None,
            ),
        ],
    )?;
    Ok(())
}

/// Whether a text is a client, kept as it was sent.
fn is_client(alloc: Global, text: &str) -> Result<bool, NameFault> {
    match read_client(alloc, text) {
        Ok(client) => Ok(client.clone(alloc)?.bytes() == text.as_bytes()),
        Err(NameFault::Shape) => Ok(false),
        Err(NameFault::Memory) => Err(NameFault::Memory),
    }
}

fn expect_clients(rt: &impl Abort, alloc: Global, table: &[(&str, bool)]) -> Result<(), NameFault> {
    for (text, is) in table {
        assert_eq!(rt; is_client(alloc, text)?, *is, "{text}");
    }
    Ok(())
}

#[test]
fn clients(rt: HostRuntime) -> Result<(), Fail> {
    let alloc = rt.alloc();
    expect_clients(
        &rt,
        alloc,
        &[
            ("https://shop.example/keys?a#b", true),
            ("http://shop.example", true),
            ("https://", true),
            ("", false),
            ("shop.example", false),
            ("https:/shop.example", false),
            ("https://shop.example/a b", false),
            ("https://shop.example/\u{e9}", false),
            (" https://shop.example", false),
        ],
    )?;
    let part = "0123456789abcdef0123456789abcdef0123456789abcdef0123456789abcdef";
    let at_limit = format!(in alloc; "https://{part}{part}{part}{}", &part[8..])?;
    let past_limit = format!(in alloc; "https://{part}{part}{part}{}", &part[7..])?;
    assert_eq!(rt; at_limit.len(), 256);
    assert_eq!(rt; is_client(alloc, at_limit.as_str())?, true);
    assert_eq!(rt; is_client(alloc, past_limit.as_str())?, false);
    Ok(())
}

fn expect_finish_addresses(
    rt: &impl Abort,
    alloc: Global,
    table: &[(&str, bool)],
) -> Result<(), AllocError> {
    for (text, is) in table {
        assert_eq!(rt; is_finish_uri(alloc, text)?, *is, "{text}");
    }
    Ok(())
}

#[test]
fn finish_addresses(rt: HostRuntime) -> Result<(), Fail> {
    let alloc = rt.alloc();
    expect_finish_addresses(
        &rt,
        alloc,
        &[
            ("https://shop.example/done?order=1", true),
            ("http://127.0.0.1:9000", true),
            ("HTTPS:shop.example", true),
            ("https://shop.example/#", false),
            ("https://shop.example/#a", false),
            ("https://shop.example/\u{e9}", false),
            ("ftp://shop.example/done", false),
            ("mailto:shop@shop.example", false),
            ("done", false),
            ("", false),
        ],
    )?;
    let part = "0123456789abcdef0123456789abcdef0123456789abcdef0123456789abcdef";
    let long = format!(in alloc; "{part}{part}{part}{part}{part}{part}{part}")?;
    let at_limit = format!(in alloc; "https://a/{long}{}", &part[10..])?;
    let past_limit = format!(in alloc; "https://a/{long}{}", &part[9..])?;
    assert_eq!(rt; at_limit.len(), 512);
    assert_eq!(rt; is_finish_uri(alloc, at_limit.as_str())?, true);
    assert_eq!(rt; is_finish_uri(alloc, past_limit.as_str())?, false);
    Ok(())
}

fn expect_no_secrets(rt: &impl Abort, texts: &[&str]) {
    for text in texts {
        assert_eq!(rt; read_secret(text.as_bytes()), None, "{text}");
    }
}

/// Secrets of one word that was drawn at the seventh place.
fn expect_secrets(rt: &impl Abort, word: &[u8; 16], table: &[(Letter, &str)]) {
    for (letter, text) in table {
        assert!(rt;
            secret_text(*letter, word, 7).as_bytes() == text.as_bytes(),
            "{text}"
        );
        assert_eq!(rt;
            read_secret(text.as_bytes()),
            Some((*letter, *word, 7)),
            "{text}"
        );
    }
}

#[test]
fn secrets(rt: HostRuntime) {
    let word = [
        0, 1, 15, 16, 127, 128, 171, 205, 239, 255, 9, 10, 99, 100, 200, 42,
    ];
    let text = secret_text(Letter::Continuation, &word, 18_446_744_073_709_551_615);
    let printed = b"c00010f107f80abcdefff090a6364c82a-18446744073709551615".as_slice();
    assert!(rt; text.as_bytes() == printed);
    assert_eq!(rt;
        read_secret(printed),
        Some((Letter::Continuation, word, u64::MAX))
    );
    expect_no_secrets(
        &rt,
        &[
            "",
            "c00010f107f80abcdefff090a6364c82a-",
            "c00010f107f80abcdefff090a6364c82a-01",
            "c00010f107f80abcdefff090a6364c82a-+1",
            "c00010f107f80abcdefff090a6364c82a-1 ",
            "c00010f107f80abcdefff090a6364c82a-18446744073709551616",
            "c00010F107F80ABCDEFFF090A6364C82A-1",
            "c00010f107f80abcdefff090a6364c82-1",
            "c00010f107f80abcdefff090a6364c82a_1",
            "x00010f107f80abcdefff090a6364c82a-1",
            "C00010f107f80abcdefff090a6364c82a-1",
        ],
    );
    expect_secrets(
        &rt,
        &word,
        &[
            (Letter::Access, "a00010f107f80abcdefff090a6364c82a-7"),
            (Letter::Nonce, "n00010f107f80abcdefff090a6364c82a-7"),
            (Letter::Interaction, "i00010f107f80abcdefff090a6364c82a-7"),
        ],
    );
}
