//! A head, and how long the body is that follows it.
ghost use Rattle.std.specs.Prelude.{◌≡◌, MatchResult};
ghost use Rattle.op_http.specs.Head.{Frames, FramesNot};

use crate::head::{Head, take_head};
use crate::length::{body_length, has_field};
use std::alloc::Global;
use thiserror::Error;

/// The most bytes of a body.
const BODY_LIMIT: u64 = 65_536;

/// Why no body is told.
#[derive(Clone, Copy, Debug, PartialEq, Eq, Error)]
pub enum FrameFault {
    /// The window has no head.
    #[error("no head of a request")]
    NoHead,
    /// The body's length is told by `transfer-encoding`.
    #[error("the body's length is told by transfer-encoding")]
    Chunked,
    /// Two values tell the body's length differently, or a value is no length.
    #[error("the body has no one length")]
    BadLength,
    /// The body is longer than it may be.
    #[error("the body is too long")]
    LongBody,
    /// Memory was wanting.
    #[error("memory was wanting")]
    NoMemory,
}

/// A head, and the size of the body behind it in bytes.
#[derive(Drop)]
pub struct Frame {
    pub head: Head,
    pub size: usize,
}

/// The head of a window, and the size of the body behind it.
pub fn read_frame(alloc: Global, window: &[u8]) -> Result<Frame, FrameFault>
    ensures { MatchResult result (λ frame. Frames window.now frame.head frame.size) (FramesNot window.now) }
{
    let head = match take_head(alloc, window) {
        Ok(Some(head)) => head,
        Ok(None) => return Err(FrameFault::NoHead),
        Err(_) => return Err(FrameFault::NoMemory),
    };
    if has_field(&head.fields, b"transfer-encoding") {
        return Err(FrameFault::Chunked);
    }
    let Some(size) = body_length(&head.fields) else {
        return Err(FrameFault::BadLength);
    };
    if size > BODY_LIMIT {
        return Err(FrameFault::LongBody);
    }
    Ok(Frame {
        head,
        size: size as usize,
    })
}
