//! The head of a request, as `httparse` reads it.
ghost use Rattle.std.specs.Prelude.{◌≡◌, map, length, All, IfOk, MatchOption};
ghost use Rattle.httparse.specs.Spans.{IsRequestWithin, IsHeaderWithin, header_bytes, IsWithin, span_bytes};
ghost use Rattle.op_model.specs.Requests.{HasNoHead, field_limit};
ghost use Rattle.op_http.specs.Head.{IsHeadAt, HoldsHead};

use crate::request::Field;
use httparse::Status;
use httparse::spans::{EMPTY_HEADER_SPAN, HeaderSpan, RequestSpans, Span, parse_request};
use std::alloc::{AllocError, Global};
use std::marker::Model;

/// The most fields that a head may have.
const FIELD_LIMIT: usize = 64;

/// The spans of the head at the front of a window. `None` exactly where it has none.
fn read_head(window: &[u8], headers: &mut [HeaderSpan]) -> Option<RequestSpans>
    requires { length headers.old ≡ field_limit }
    ensures { MatchOption result (HasNoHead window.now)
        (λ spans. IsHeadAt window.now headers.new spans × IsRequestWithin window.now headers.new spans) }
{
    match parse_request(window, headers) {
        Ok(Status::Complete(spans)) => Some(spans),
        _ => None,
    }
}

/// The bytes that a span covers.
fn copy_span(alloc: Global, window: &[u8], span: Span) -> Result<Vec<u8>, AllocError>
    requires { IsWithin (length window.now) span }
    ensures { IfOk result (λ bytes. bytes.items ≡ span_bytes window.now span) }
{
    let mut bytes = Vec::new(alloc);
    bytes.extend_from_slice(span.of(window))?;
    Ok(bytes)
}

/// The fields that spans cover.
fn copy_fields(
    alloc: Global,
    window: &[u8],
    headers: &[HeaderSpan],
) -> Result<Vec<Field>, AllocError>
    requires { All (IsHeaderWithin (length window.now)) headers.now }
    ensures { IfOk result (λ fields. fields.items ≡ map (header_bytes window.now) headers.now) }
{
    let mut fields = Vec::new(alloc);
    for header in headers {
        let name = copy_span(alloc, window, header.name)?;
        let value = copy_span(alloc, window, header.value)?;
        fields.push(Field::new(name, value))?;
    }
    Ok(fields)
}

/// A request's head, and the length of its text.
#[derive(Drop)]
pub struct Head {
    pub method: Vec<u8>,
    pub target: Vec<u8>,
    pub fields: Vec<Field>,
    pub len: usize,
}

impl Model for Head {
    ghost use Rattle.op_http.specs.Head.{HeadParts};

    ghost Value = { HeadParts };

    ghost view = { λ h. record { method = h.method.items; target = h.target.items; fields = h.fields.items; len = h.len } };
}

/// The head at the front of a window. `None` exactly where it has none.
pub fn take_head(alloc: Global, window: &[u8]) -> Result<Option<Head>, AllocError>
    ensures { IfOk result (λ found. MatchOption found (HasNoHead window.now) (HoldsHead window.now)) }
{
    let mut headers = [EMPTY_HEADER_SPAN; FIELD_LIMIT];
    let Some(spans) = read_head(window, &mut headers) else {
        return Ok(None);
    };
    let method = copy_span(alloc, window, spans.method)?;
    let target = copy_span(alloc, window, spans.path)?;
    let fields = copy_fields(alloc, window, &headers[..spans.headers])?;
    Ok(Some(Head {
        method,
        target,
        fields,
        len: spans.len,
    }))
}
