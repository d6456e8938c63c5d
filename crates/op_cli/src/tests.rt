//! The top call over the forms in memory. Expected bytes are written out here, and were not taken from a run.
ghost use Rattle.std.specs.Prelude.{false};

use crate::outside::Outside;
use crate::program::wallet_main;
use op_disk::MemoryDisk;
use op_ports::{MemorySink, MemorySource, TableClock, TableWords, Verifier};
use op_pricing::{OnePercent, PriceHook};
use op_session::Status;
use std::alloc::{AllocError, Global};
use std::test::Fail;

/// 2024-03-01T12:00:00.000Z
const NOON: u64 = 1_709_294_400_000;

const ADD: &str =
    "POST /admin/assets HTTP/1.1\r\nhost: wallet.example\r\ncontent-length: 34\r\n\r\n{\"assetCode\":\"USD\",\"assetScale\":2}";

const ADDED: &str =
    "HTTP/1.1 201 Created\r\nconnection: close\r\ncontent-length: 45\r\ncontent-type: application/json\r\n\r\n{\"assetCode\":\"USD\",\"assetScale\":2,\"pieces\":1}";

const THERE: &str =
    "HTTP/1.1 409 Conflict\r\nconnection: close\r\ncontent-length: 35\r\ncontent-type: application/json\r\n\r\n{\"error\":{\"code\":\"already_exists\"}}";

const DISK_FAULT: &str =
    "HTTP/1.1 503 Service Unavailable\r\nconnection: close\r\ncontent-length: 31\r\ncontent-type: application/json\r\n\r\n{\"error\":{\"code\":\"disk_fault\"}}";

/// A fresh journal, and the journal after USD was added at noon.
const FRESH: &[u8] = b"OPWJ\x00\x00\x00\x01\x00";

const WITH_USD: &[u8] =
    b"OPWJ\x00\x00\x00\x01\x01\x00\x00\x00\x11\x02\x00\x00\x01\x8d\xf9\xe2\xb2\x00\x02\x00\x03USD\x02\x01\x00";

/// No proof is one. No route that is built looks at proofs.
#[derive(Drop)]
struct NoProofs;

impl Verifier for NoProofs {
    ghost accepts = { λ verifier client method target body authorization proof. false };

    fn verify(
        &self,
        _client: &[u8],
        _method: &[u8],
        _target: &[u8],
        _body: &[u8],
        _authorization: &[u8],
        _proof: &[u8],
    ) -> bool {
        false
    }
}

/// What a call came to.
#[derive(Drop)]
struct Run {
    status: u8,
    output: String,
    journal: Vec<u8>,
    reads: u64,
    writes: u64,
}

/// How the outside behaves: the journal's bytes, the size of the pieces that are read and written, and the calls that
/// fail.
#[derive(Clone, Copy)]
struct Outdoors<'a> {
    journal: &'a [u8],
    piece: usize,
    bad_disk: &'a [u64],
    bad_reads: &'a [u64],
    bad_writes: &'a [u64],
    bad_draws: &'a [u64],
}

/// No call fails, and the journal is fresh.
const CALM: Outdoors<'static> = Outdoors {
    journal: b"",
    piece: 4096,
    bad_disk: &[],
    bad_reads: &[],
    bad_writes: &[],
    bad_draws: &[],
};

/// `apply j` over this input.
fn apply(alloc: Global, input: &str, outdoors: Outdoors<'_>) -> Result<Run, AllocError> {
    let piece = outdoors.piece.max(1);
    let journal = Vec::from_slice(alloc, outdoors.journal)?;
    let bad_disk = Vec::from_slice(alloc, outdoors.bad_disk)?;
    let source = Vec::from_slice(alloc, input.as_bytes())?;
    let bad_reads = Vec::from_slice(alloc, outdoors.bad_reads)?;
    let bad_writes = Vec::from_slice(alloc, outdoors.bad_writes)?;
    let bad_draws = Vec::from_slice(alloc, outdoors.bad_draws)?;
    let mut outside = Outside {
        disk: MemoryDisk::new(alloc, journal, bad_disk)?,
        source: MemorySource::new(source, piece, bad_reads),
        sink: MemorySink::new(Vec::new(alloc), piece, bad_writes),
        clock: TableClock::new(vec![in alloc; NOON]?),
        draws: TableWords::new(Vec::new(alloc), bad_draws),
        verifier: NoProofs,
        hook: PriceHook::keep(OnePercent),
    };
    let mut words = Vec::new(alloc);
    words.push(String::from_str(alloc, "apply")?)?;
    words.push(String::from_str(alloc, "j")?)?;
    let status = wallet_main(alloc, &words, &mut outside).code();
    let mut output = String::new(alloc);
    for b in outside.sink.bytes() {
        output.push(char::from(*b))?;
    }
    Ok(Run {
        status,
        output,
        journal: Vec::from_slice(alloc, outside.disk.contents())?,
        reads: outside.source.calls(),
        writes: outside.sink.calls(),
    })
}

fn joined(alloc: Global, a: &str, b: &str) -> Result<String, AllocError> {
    format!(in alloc; "{a}{b}")
}

/// A request with this body.
fn request(alloc: Global, body: &str) -> Result<String, AllocError> {
    let length = body.len();
    format!(in alloc;
        "POST /admin/assets HTTP/1.1\r\nhost: wallet.example\r\ncontent-length: {length}\r\n\r\n{body}"
    )
}

/// A reply with this status, these fields before the others, and this body.
fn reply(alloc: Global, status: &str, fields: &str, body: &str) -> Result<String, AllocError> {
    let length = body.len();
    format!(in alloc;
        "HTTP/1.1 {status}\r\n{fields}connection: close\r\ncontent-length: {length}\r\ncontent-type: application/json\r\n\r\n{body}"
    )
}

#[test]
fn usd_twice(rt: HostRuntime) -> Result<(), Fail> {
    let input = joined(rt.alloc(), ADD, ADD)?;
    let output = joined(rt.alloc(), ADDED, THERE)?;
    for piece in [4096, 7, 1] {
        let run = apply(rt.alloc(), input.as_str(), Outdoors { piece, ..CALM })?;
        assert_eq!(rt; run.status, 0);
        assert_eq!(rt; run.output.as_str(), output.as_str());
        assert_eq!(rt; run.journal.as_slice(), WITH_USD);
    }
    Ok(())
}

#[test]
fn empty_input(rt: HostRuntime) -> Result<(), Fail> {
    let run = apply(rt.alloc(), "", CALM)?;
    assert_eq!(rt; run.status, 0);
    assert_eq!(rt; run.output.as_str(), "");
    assert_eq!(rt; run.journal.as_slice(), FRESH);
    Ok(())
}

#[test]
fn what_stands_behind_a_closed_gate_is_left_alone(rt: HostRuntime) -> Result<(), Fail> {
    let journal = b"OPWJ\x00\x00\x00\x01\x07\xaa\xbb\xcc".as_slice();
    let run = apply(rt.alloc(), "", Outdoors { journal, ..CALM })?;
    assert_eq!(rt; run.status, 0);
    assert_eq!(rt; run.journal.as_slice(), journal);
    Ok(())
}

#[test]
fn five_zero_bytes_are_a_fresh_journal(rt: HostRuntime) -> Result<(), Fail> {
    let journal = [0; 5].as_slice();
    let run = apply(rt.alloc(), "", Outdoors { journal, ..CALM })?;
    assert_eq!(rt; run.status, 0);
    assert_eq!(rt; run.journal.as_slice(), FRESH);
    Ok(())
}

#[test]
fn a_second_call_knows_what_the_first_did(rt: HostRuntime) -> Result<(), Fail> {
    let first = apply(rt.alloc(), ADD, CALM)?;
    assert_eq!(rt; first.output.as_str(), ADDED);
    let journal = first.journal.as_slice();
    let second = apply(rt.alloc(), ADD, Outdoors { journal, ..CALM })?;
    assert_eq!(rt; second.status, 0);
    assert_eq!(rt; second.output.as_str(), THERE);
    assert_eq!(rt; second.journal.as_slice(), WITH_USD);
    Ok(())
}

#[test]
fn bodies_have_their_replies(rt: HostRuntime) -> Result<(), Fail> {
    let rows = [
        (
            "[]",
            "400 Bad Request",
            "{\"error\":{\"code\":\"bad_json\"}}",
        ),
        ("", "400 Bad Request", "{\"error\":{\"code\":\"bad_json\"}}"),
        (
            "{",
            "400 Bad Request",
            "{\"error\":{\"code\":\"bad_json\"}}",
        ),
        (
            "{\"assetCode\":\"USD\",",
            "400 Bad Request",
            "{\"error\":{\"code\":\"bad_json\"}}",
        ),
        (
            "{\"assetCode\":\"USD\"}",
            "400 Bad Request",
            "{\"error\":{\"code\":\"bad_field\",\"name\":\"assetScale\"}}",
        ),
        (
            "{}",
            "400 Bad Request",
            "{\"error\":{\"code\":\"bad_field\",\"name\":\"assetCode\"}}",
        ),
        (
            "{\"assetCode\":\"usd\",\"assetScale\":19,\"pieces\":0}",
            "400 Bad Request",
            "{\"error\":{\"code\":\"bad_field\",\"name\":\"assetCode\"}}",
        ),
        (
            "{\"assetCode\":\"USD\",\"assetScale\":19}",
            "400 Bad Request",
            "{\"error\":{\"code\":\"bad_field\",\"name\":\"assetScale\"}}",
        ),
        (
            "{\"assetCode\":\"USD\",\"assetScale\":2.0}",
            "400 Bad Request",
            "{\"error\":{\"code\":\"bad_field\",\"name\":\"assetScale\"}}",
        ),
        (
            "{\"assetCode\":\"USD\",\"assetScale\":2,\"pieces\":0}",
            "400 Bad Request",
            "{\"error\":{\"code\":\"bad_field\",\"name\":\"pieces\"}}",
        ),
        (
            "{\"assetCode\":\"USD\",\"assetScale\":2,\"pieces\":65}",
            "400 Bad Request",
            "{\"error\":{\"code\":\"bad_field\",\"name\":\"pieces\"}}",
        ),
        (
            "{\"assetCode\":\"USD\",\"assetScale\":2,\"pieces\":\"7\"}",
            "400 Bad Request",
            "{\"error\":{\"code\":\"bad_field\",\"name\":\"pieces\"}}",
        ),
        (
            "{\"pieces\":64,\"assetScale\":0,\"assetCode\":\"A1B2C3D4\"}",
            "201 Created",
            "{\"assetCode\":\"A1B2C3D4\",\"assetScale\":0,\"pieces\":64}",
        ),
        (
            "{\"assetCode\":\"USD\",\"assetScale\":2,\"pieces\":null}",
            "201 Created",
            "{\"assetCode\":\"USD\",\"assetScale\":2,\"pieces\":1}",
        ),
        (
            " {\"assetScale\":18,\"assetCode\":\"EUR\",\"more\":[1.5]} ",
            "201 Created",
            "{\"assetCode\":\"EUR\",\"assetScale\":18,\"pieces\":1}",
        ),
        (
            "{\"assetCode\":\"USD\",\"assetScale\":2,\"assetCode\":\"EUR\"}",
            "201 Created",
            "{\"assetCode\":\"EUR\",\"assetScale\":2,\"pieces\":1}",
        ),
    ];
    for (body, status, told) in rows {
        let input = request(rt.alloc(), body)?;
        let output = reply(rt.alloc(), status, "", told)?;
        let run = apply(rt.alloc(), input.as_str(), CALM)?;
        assert_eq!(rt; run.status, 0);
        assert_eq!(rt; run.output.as_str(), output.as_str());
    }
    Ok(())
}

#[test]
fn a_body_of_65536_bytes_is_read(rt: HostRuntime) -> Result<(), Fail> {
    let mut body = String::from_str(rt.alloc(), "{\"assetCode\":\"EUR\",\"assetScale\":2}")?;
    for _space in 0..65502 {
        body.push(' ')?;
    }
    let input = request(rt.alloc(), body.as_str())?;
    let told = "{\"assetCode\":\"EUR\",\"assetScale\":2,\"pieces\":1}";
    let output = reply(rt.alloc(), "201 Created", "", told)?;
    let run = apply(rt.alloc(), input.as_str(), CALM)?;
    assert_eq!(rt; run.status, 0);
    assert_eq!(rt; run.output.as_str(), output.as_str());
    Ok(())
}

#[test]
fn other_fields_and_the_version_1_0_change_nothing(rt: HostRuntime) -> Result<(), Fail> {
    let input =
        "POST /admin/assets HTTP/1.0\r\nX-Any: y\r\ncontent-length: 34\r\n\r\n{\"assetCode\":\"USD\",\"assetScale\":2}";
    let run = apply(rt.alloc(), input, CALM)?;
    assert_eq!(rt; run.status, 0);
    assert_eq!(rt; run.output.as_str(), ADDED);
    assert_eq!(rt; run.journal.as_slice(), WITH_USD);
    Ok(())
}

#[test]
fn requests_without_a_route_that_is_built(rt: HostRuntime) -> Result<(), Fail> {
    let not_found = "{\"error\":{\"code\":\"not_found\"}}";
    let not_allowed = "{\"error\":{\"code\":\"method_not_allowed\"}}";
    let rows = [
        ("GET / HTTP/1.1\r\n\r\n", "404 Not Found", "", not_found),
        (
            "GET /alice HTTP/1.0\r\n\r\n",
            "404 Not Found",
            "",
            not_found,
        ),
        (
            "POST /alice HTTP/1.1\r\n\r\n",
            "405 Method Not Allowed",
            "allow: GET\r\n",
            not_allowed,
        ),
        (
            "GET /admin/assets HTTP/1.1\r\n\r\n",
            "405 Method Not Allowed",
            "allow: POST\r\n",
            not_allowed,
        ),
        (
            "PUT /continue/x HTTP/1.1\r\n\r\n",
            "405 Method Not Allowed",
            "allow: DELETE, POST\r\n",
            not_allowed,
        ),
    ];
    for (input, status, fields, told) in rows {
        let output = reply(rt.alloc(), status, fields, told)?;
        let run = apply(rt.alloc(), input, CALM)?;
        assert_eq!(rt; run.status, 0);
        assert_eq!(rt; run.output.as_str(), output.as_str());
        assert_eq!(rt; run.journal.as_slice(), FRESH);
    }
    Ok(())
}

#[test]
fn a_rest_that_is_no_request_is_refused(rt: HostRuntime) -> Result<(), Fail> {
    let rows = [
        (
            "X",
            "400 Bad Request",
            "{\"error\":{\"at\":0,\"code\":\"bad_http\"}}",
        ),
        (
            "GET /alice HT",
            "400 Bad Request",
            "{\"error\":{\"at\":0,\"code\":\"bad_http\"}}",
        ),
        (
            "POST /admin/assets HTTP/1.1\r\ncontent-length: 1\r\nContent-Length: 2\r\n\r\n{}",
            "400 Bad Request",
            "{\"error\":{\"at\":0,\"code\":\"bad_http\"}}",
        ),
        (
            "POST /admin/assets HTTP/1.1\r\ntransfer-encoding: chunked\r\n\r\n",
            "411 Length Required",
            "{\"error\":{\"at\":0,\"code\":\"length_required\"}}",
        ),
        (
            "POST /admin/assets HTTP/1.1\r\ncontent-length: 65537\r\n\r\n",
            "413 Payload Too Large",
            "{\"error\":{\"at\":0,\"code\":\"request_too_large\"}}",
        ),
    ];
    for (input, status, told) in rows {
        let output = reply(rt.alloc(), status, "", told)?;
        let run = apply(rt.alloc(), input, Outdoors { piece: 7, ..CALM })?;
        assert_eq!(rt; run.status, 10);
        assert_eq!(rt; run.output.as_str(), output.as_str());
    }
    // The first request takes 107 bytes.
    let input = joined(rt.alloc(), ADD, "X")?;
    let run = apply(rt.alloc(), input.as_str(), CALM)?;
    let told = "{\"error\":{\"at\":107,\"code\":\"bad_http\"}}";
    let refusal = reply(rt.alloc(), "400 Bad Request", "", told)?;
    let output = joined(rt.alloc(), ADDED, refusal.as_str())?;
    assert_eq!(rt; run.status, 10);
    assert_eq!(rt; run.output.as_str(), output.as_str());
    Ok(())
}

#[test]
fn each_read_may_fail(rt: HostRuntime) -> Result<(), Fail> {
    let input = joined(rt.alloc(), ADD, ADD)?;
    let output = joined(rt.alloc(), ADDED, THERE)?;
    let calm = Outdoors { piece: 50, ..CALM };
    let reads = apply(rt.alloc(), input.as_str(), calm)?.reads;
    for k in 0..reads {
        let bad_reads = &[k];
        let run = apply(rt.alloc(), input.as_str(), Outdoors { bad_reads, ..calm })?;
        assert_eq!(rt; run.status, 4);
        assert_eq!(rt; run.reads, k + 1);
        assert!(rt; output.as_str().starts_with(run.output.as_str()));
        // Each request that was read whole has its reply: each takes two reads of 50 bytes and one of 7.
        assert_eq!(rt; run.output.len() >= ADDED.len(), k >= 3);
        assert_eq!(rt; run.output.len() == output.len(), k >= 6);
    }
    Ok(())
}

#[test]
fn each_write_may_fail(rt: HostRuntime) -> Result<(), Fail> {
    let input = joined(rt.alloc(), ADD, ADD)?;
    let output = joined(rt.alloc(), ADDED, THERE)?;
    let calm = Outdoors { piece: 50, ..CALM };
    let writes = apply(rt.alloc(), input.as_str(), calm)?.writes;
    for k in 0..writes {
        let bad_writes = &[k];
        let run = apply(rt.alloc(), input.as_str(), Outdoors { bad_writes, ..calm })?;
        assert_eq!(rt; run.status, 6);
        assert_eq!(rt; run.writes, k + 1);
        assert!(rt; output.as_str().starts_with(run.output.as_str()));
        assert!(rt; run.output.len() < output.len());
        // The act stands before its reply is written.
        assert_eq!(rt; run.journal.as_slice(), WITH_USD);
    }
    Ok(())
}

/// The opening of a fresh journal makes five calls, and a commit four: body, sync, gate, sync.
#[test]
fn each_call_on_the_disk_may_fail(rt: HostRuntime) -> Result<(), Fail> {
    let input = joined(rt.alloc(), ADD, ADD)?;
    for k in 0..9 {
        let bad_disk = &[k];
        let run = apply(rt.alloc(), input.as_str(), Outdoors { bad_disk, ..CALM })?;
        assert_eq!(rt; run.status, 5);
        assert_eq!(rt; run.output.as_str(), if k < 5 { "" } else { DISK_FAULT });
        // Opened again, the journal knows the asset or does not.
        let journal = run.journal.as_slice();
        let again = apply(rt.alloc(), ADD, Outdoors { journal, ..CALM })?;
        assert_eq!(rt; again.status, 0);
        assert!(rt; again.output.as_str() == ADDED || again.output.as_str() == THERE);
        assert_eq!(rt; again.journal.as_slice(), WITH_USD);
    }
    Ok(())
}

#[test]
fn each_draw_may_fail(rt: HostRuntime) -> Result<(), Fail> {
    let input = joined(rt.alloc(), ADD, ADD)?;
    for (bad_draws, output) in [([0], ""), ([1], ADDED)] {
        let bad_draws = &bad_draws;
        let run = apply(rt.alloc(), input.as_str(), Outdoors { bad_draws, ..CALM })?;
        assert_eq!(rt; run.status, 9);
        assert_eq!(rt; run.output.as_str(), output);
    }
    Ok(())
}

#[test]
fn a_journal_that_spells_no_legal_history_is_left_alone(rt: HostRuntime) -> Result<(), Fail> {
    let rows: [&[u8]; 4] = [
        b"OPWJ\x00\x00\x00\x02\x00\x00",
        b"OPWJ\x00\x00\x00\x01\x01\x00\x00\x00\x00\x00",
        b"OPWJ\x00\x00\x00\x01\x01\x00\x00\x00\x09\x00\x00\x01\x8d\xf9\xe2\xb2\x00\x63\x00",
        b"OPWJ\x00\x00\x00\x01\x01\x00\x00\x00\x10\x00\x00\x01\x8d\xf9\xe2\xb2\x00\x02\x00\x03USD\x02\x41\x00",
    ];
    for journal in rows {
        let run = apply(rt.alloc(), ADD, Outdoors { journal, ..CALM })?;
        assert_eq!(rt; run.status, 3);
        assert_eq!(rt; run.output.as_str(), "");
        assert_eq!(rt; run.reads, 0);
        assert_eq!(rt; run.journal.as_slice(), journal);
    }
    Ok(())
}

#[test]
fn other_words_are_no_command(rt: HostRuntime) -> Result<(), Fail> {
    for word in ["", "-j"] {
        let alloc = rt.alloc();
        let mut outside = Outside {
            disk: MemoryDisk::new(alloc, Vec::new(alloc), Vec::new(alloc))?,
            source: MemorySource::new(Vec::from_slice(alloc, ADD.as_bytes())?, 1, Vec::new(alloc)),
            sink: MemorySink::new(Vec::new(alloc), 1, Vec::new(alloc)),
            clock: TableClock::new(Vec::new(alloc)),
            draws: TableWords::new(Vec::new(alloc), Vec::new(alloc)),
            verifier: NoProofs,
            hook: PriceHook::keep(OnePercent),
        };
        let mut words = Vec::new(alloc);
        words.push(String::from_str(alloc, "apply")?)?;
        words.push(String::from_str(alloc, word)?)?;
        assert_eq!(rt; wallet_main(alloc, &words, &mut outside), Status::Usage);
        assert_eq!(rt; outside.source.calls(), 0);
        assert_eq!(rt; outside.sink.calls(), 0);
        assert_eq!(rt; outside.disk.calls().len(), 0);
    }
    Ok(())
}
