//! Replies as bytes: status line, fields and body (RFC 9112, sections 4 to 6).
ghost use Rattle.std.specs.Prelude.{◌≡◌, ◌++◌, Some, None, IfOk, OnOk, codes, option_map, unwrap_or, []};
ghost use Rattle.serde_json.specs.Written.{compact_text};
ghost use Rattle.http.specs.StatusCode.{reason_phrase};
ghost use Rattle.op_model.specs.Bodies.{grant_url};
ghost use Rattle.op_model.specs.Printed.{printed, message as message_text, line_if, content_lines};
ghost use Rattle.op_reply.specs.Printable.{IsPrintable};
ghost use Rattle.op_reply.specs.Values.{data_of};
ghost use Rattle.op_reply.specs.Said.{said_of, status_line};

use crate::replies::said;
use crate::said::Said;
use crate::values::Json;
use http::StatusCode;
use op_model::{Reply, Text};
use op_names::Origin;
use std::alloc::{AllocError, Global};

/// A body's bytes.
fn body_text(alloc: Global, body: &Option<Json>) -> Result<Option<Vec<u8>>, AllocError>
    ensures { IfOk result (λ text. option_map (λ bytes. bytes.items) text ≡ option_map compact_text (option_map data_of body.now)) }
{
    match body {
        Some(json) => Ok(Some(json.text(alloc)?)),
        None => Ok(None),
    }
}

/// The phrase of a status, or nothing where it has none.
fn phrase(status: StatusCode) -> &'static str
    ensures { result.now ≡ unwrap_or (reason_phrase status) [] }
{
    match status.canonical_reason() {
        Some(phrase) => phrase,
        None => "",
    }
}

/// The digits of a status, a blank, and its phrase.
fn put_status(out: &mut Vec<u8>, status: StatusCode) -> Result<(), AllocError>
    ensures { OnOk result (out.new.items ≡ out.old.items ++ status_line status) }
{
    out.extend_from_slice(status.as_str().as_bytes())?;
    out.extend_from_slice(b" ")?;
    out.extend_from_slice(phrase(status).as_bytes())
}

/// The field that tells the methods of a path.
fn put_allow(out: &mut Vec<u8>, allow: Option<&Text>) -> Result<(), AllocError>
    ensures { OnOk result (out.new.items ≡ out.old.items ++ line_if (codes "allow: ") (option_map (λ text. text.now) allow.entry)) }
{
    let Some(allow) = allow else {
        return Ok(());
    };
    out.extend_from_slice(b"allow: ")?;
    out.extend_from_slice(allow.bytes())?;
    out.extend_from_slice(b"\r\n")
}

/// The fields that tell of a body.
fn put_content(alloc: Global, out: &mut Vec<u8>, body: &Option<Vec<u8>>) -> Result<(), AllocError>
    ensures { OnOk result (out.new.items ≡ out.old.items ++ content_lines (option_map (λ bytes. bytes.items) body.now)) }
{
    let Some(body) = body else {
        return Ok(());
    };
    let length = body.len();
    let lines = format!(in alloc;
        "content-length: {length}\r\ncontent-type: application/json\r\n"
    )?;
    out.extend_from_slice(lines.as_bytes())
}

/// The field that tells where a grant is asked for (RFC 9635, section 9.1).
fn put_challenge(out: &mut Vec<u8>, challenge: Option<&Origin>) -> Result<(), AllocError>
    ensures { OnOk result (out.new.items
        ≡ out.old.items ++ line_if (codes "www-authenticate: ") (option_map (λ origin. codes "GNAP as_uri=" ++ grant_url origin.now) challenge.entry)) }
{
    let Some(origin) = challenge else {
        return Ok(());
    };
    out.extend_from_slice(b"www-authenticate: GNAP as_uri=")?;
    out.extend_from_slice(origin.as_bytes())?;
    out.extend_from_slice(b"/grant\r\n")
}

fn put_body(out: &mut Vec<u8>, body: &Option<Vec<u8>>) -> Result<(), AllocError>
    ensures { OnOk result (out.new.items ≡ out.old.items ++ unwrap_or (option_map (λ bytes. bytes.items) body.now) []) }
{
    match body {
        Some(body) => out.extend_from_slice(body),
        None => Ok(()),
    }
}

/// A status line, and an empty line behind the fields, and the body.
fn message(alloc: Global, said: &Said<'_>, body: &Option<Vec<u8>>) -> Result<Vec<u8>, AllocError>
    ensures { IfOk result (λ text. text.items
        ≡ message_text (said_of said.now).status (said_of said.now).allow (said_of said.now).challenge (option_map (λ bytes. bytes.items) body.now)) }
{
    let mut out = Vec::new(alloc);
    out.extend_from_slice(b"HTTP/1.1 ")?;
    put_status(&mut out, said.status)?;
    out.extend_from_slice(b"\r\n")?;
    put_allow(&mut out, said.allow)?;
    out.extend_from_slice(b"connection: close\r\n")?;
    put_content(alloc, &mut out, body)?;
    put_challenge(&mut out, said.challenge)?;
    out.extend_from_slice(b"\r\n")?;
    put_body(&mut out, body)?;
    Ok(out)
}

/// A reply's bytes. It is one that is replied to somebody, and its texts are UTF-8. Want of memory is the one error.
pub fn print_reply(alloc: Global, reply: &Reply) -> Result<Vec<u8>, AllocError>
    requires { IsPrintable reply.now }
    ensures { IfOk result (λ text. text.items ≡ printed reply.now) }
{
    let said = said(alloc, reply)?;
    let body = body_text(alloc, &said.body)?;
    message(alloc, &said, &body)
}
