//! The reader of a stream.
ghost use Rattle.std.specs.Prelude.{◌≡◌, ◌<◌, ◌≤◌, ◌+◌, ◌-◌, ◌^◌, ◌++◌, ℕ, List, [], Option, Some, length, take, drop, max, ◌≢◌, IsTrue, ◌↔◌, IfOk, IfErr, OnErr, IsErrOf, MatchOption, vec_len};
ghost use Rattle.std.specs.Bool.{MatchBool};
ghost use Rattle.std.specs.Io.KnownBytes.{Consumes, IsAtEnd, Keeps};
ghost use Rattle.op_causes.specs.Causes.{NamesFault};
ghost use Rattle.op_model.specs.Requests.{IsEnded, head_limit};
ghost use Rattle.op_http.specs.Marks.{HasNoMark, HasNoMarkTo, IsFirstMark, IsEdge};
ghost use Rattle.op_http.specs.Reader.{fault_of, IsOpen};

use crate::frame::{Frame, FrameFault, read_frame};
use crate::head::Head;
use crate::marks::first_mark;
use crate::request::RawRequest;
use op_ports::Source;
use std::alloc::{AllocError, Global};
use std::marker::Model;
use thiserror::Error;

/// The most bytes of a head.
const HEAD_LIMIT: usize = 16_384;

/// The most bytes that are read at a time.
const PIECE: usize = 4096;

/// Where the window ends in which a head may stand.
#[derive(Drop)]
enum Edge {
    /// Behind the first end mark, after this many bytes.
    Mark(usize),
    /// At the limit of a head: no end mark ends before it.
    Limit,
    /// Where the stream ends: no end mark ends before it.
    End,
}

/// Why no more of the stream is held.
#[derive(Clone, Copy, Debug, PartialEq, Eq)]
enum FillFault {
    /// A read failed.
    Read,
    /// Memory was wanting.
    Full,
}

/// Why there is no request.
#[derive(Clone, Copy, Debug, PartialEq, Eq, Error)]
pub enum HttpFault {
    /// The stream goes on, from this offset, with no request (RFC 9112, section 2.2): 400.
    #[error("the stream goes on with no request at byte {at}")]
    BadHttp { at: u64 },
    /// The length of the body is not told by `content-length` (RFC 9112, section 6.3): 411.
    #[error("the request at byte {at} does not tell its length")]
    LengthRequired { at: u64 },
    /// The head or the body is longer than it may be: 413.
    #[error("the request at byte {at} is too large")]
    TooLarge { at: u64 },
    /// A read failed.
    #[error("a read failed")]
    ReadFault,
    /// Memory was wanting.
    #[error("memory was wanting")]
    Memory,
}

/// The answer where no more of the stream is held.
fn fault_of(fault: FillFault) -> HttpFault
    ensures { result ≡ fault_of fault }
{
    match fault {
        FillFault::Read => HttpFault::ReadFault,
        FillFault::Full => HttpFault::Memory,
    }
}

fn is_text(bytes: &[u8], text: &[u8]) -> bool
    ensures { IsTrue result ↔ (bytes.now ≡ text.now) }
{
    bytes == text
}

/// Whether there is nothing, but perhaps one empty line.
fn is_blank(bytes: &[u8]) -> bool
    ensures { IsTrue result ↔ IsEnded bytes.now }
{
    is_text(bytes, b"") || is_text(bytes, b"\r\n") || is_text(bytes, b"\n")
}

/// Where the window ends, if these bytes tell it. No end mark ends in the first `from` of them.
fn edge_of(bytes: &[u8], from: usize) -> Option<Edge>
    requires clear { HasNoMarkTo from bytes.now }
    requires limit { from ≤ head_limit }
    ensures { MatchOption result (IsOpen bytes.now) (λ edge. (left : Option (List ℕ)) → IsEdge bytes.now left edge) }
{
    let front = &bytes[..bytes.len().min(HEAD_LIMIT)];
    match first_mark(front, from) {
        Some(end) => Some(Edge::Mark(end)),
        None => {
            if bytes.len() < HEAD_LIMIT {
                None
            } else {
                Some(Edge::Limit)
            }
        }
    }
}

/// Takes bytes from the front.
fn drop_front(kept: &mut Vec<u8>, count: usize)
    requires { count ≤ vec_len kept.old }
    ensures { kept.new.items ≡ drop count kept.old.items }
{
    let left = kept.len() - count;
    kept.as_mut_slice().rotate_left(count);
    kept.truncate(left);
}

/// Reads at most so many bytes of the source to the end. Where memory is wanting nothing is read.
fn fill<S: Source>(kept: &mut Vec<u8>, source: &mut S, most: usize) -> Result<usize, FillFault>
    requires { 0 < most }
    ensures read { IfOk result (λ n. (piece : List ℕ) × (kept.new.items ≡ kept.old.items ++ piece) × (length piece ≡ n) × (n ≤ most)
        × Consumes (S.left source.old) (S.left source.new) piece × (n ≡ 0 → IsAtEnd (S.left source.new))) }
    ensures err { OnErr result ((kept.new.items ≡ kept.old.items) × Keeps (S.left source.old) (S.left source.new)) }
    ensures cause { NamesFault (S.faults source.old) (S.faults source.new) (IsErrOf result FillFault.Read) }
{
    let most = most.min(PIECE);
    if kept.reserve(most).is_err() {
        return Err(FillFault::Full);
    }
    let mut piece = [0u8; PIECE];
    match source.take(&mut piece[..most]) {
        Ok(count) => match kept.extend_from_slice(&piece[..count]) {
            Ok(()) => Ok(count),
            Err(_) => unreachable!(),
        },
        Err(_) => Err(FillFault::Read),
    }
}

/// Reads requests from a source. Contracts see what it holds.
#[derive(Drop)]
pub struct Reader {
    kept: Vec<u8>,
    place: u64,
}

impl Model for Reader {
    ghost use Rattle.op_http.specs.Held.{Held};

    ghost Value = { Held };

    ghost view = { λ a. record { bytes = a.kept.items; at = a.place } };
}

impl Reader {
    ghost use Rattle.op_model.specs.Requests.{head_limit, body_limit};
    ghost use Rattle.op_http.specs.Head.{FramesNot};
    ghost use Rattle.op_http.specs.Reader.{Fills, Reads, ReadsOne, IsFramed, CutsOff, refusal_at};

    /// A reader that has read nothing.
    pub fn new(alloc: Global) -> Reader
        ensures { result ≡ record { bytes = []; at = 0 } }
    {
        Reader {
            kept: Vec::new(alloc),
            place: 0,
        }
    }

    fn len(&self) -> usize
        ensures { result ≡ length self.now.bytes }
    {
        self.kept.len()
    }

    fn bad_http(&self) -> HttpFault
        ensures { result ≡ HttpFault.BadHttp self.now.at }
    {
        HttpFault::BadHttp { at: self.place }
    }

    fn length_required(&self) -> HttpFault
        ensures { result ≡ HttpFault.LengthRequired self.now.at }
    {
        HttpFault::LengthRequired { at: self.place }
    }

    fn too_large(&self) -> HttpFault
        ensures { result ≡ HttpFault.TooLarge self.now.at }
    {
        HttpFault::TooLarge { at: self.place }
    }

    /// Whether nothing is held, but perhaps one empty line.
    fn is_blank(&self) -> bool
        ensures { IsTrue result ↔ IsEnded self.now.bytes }
    {
        is_blank(&self.kept)
    }

    /// Holds some more of the source, none exactly at its end, up to so many bytes in all.
    fn more<S: Source>(&mut self, source: &mut S, most: usize) -> Result<usize, FillFault>
        requires { length self.old.bytes < most }
        ensures fills { Fills self.old self.new (S.left source.old) (S.left source.new) }
        ensures most { length self.new.bytes ≤ most }
        ensures count { IfOk result (λ n. length self.new.bytes ≡ length self.old.bytes + n) }
        ensures end { IfOk result (λ n. n ≡ 0 → (self.new.bytes ≡ self.old.bytes) × IsAtEnd (S.left source.new)) }
        ensures err { OnErr result (self.new.bytes ≡ self.old.bytes) }
        ensures cause { NamesFault (S.faults source.old) (S.faults source.new) (IsErrOf result FillFault.Read) }
    {
        let most = most - self.kept.len();
        fill(&mut self.kept, source, most)
    }

    /// Where the window ends, if what is held tells it. No end mark ends in the first `from` bytes.
    fn edge(&self, from: usize) -> Option<Edge>
        requires clear { HasNoMarkTo from self.now.bytes }
        requires limit { from ≤ head_limit }
        ensures { MatchOption result (IsOpen self.now.bytes) (λ edge. (left : Option (List ℕ)) → IsEdge self.now.bytes left edge) }
    {
        edge_of(&self.kept, from)
    }

    /// Reads on until what is held tells where the window ends.
    fn find_edge<S: Source>(&mut self, source: &mut S) -> Result<Edge, FillFault>
        ensures fills { Fills self.old self.new (S.left source.old) (S.left source.new) }
        ensures edge { IfOk result (IsEdge self.new.bytes (S.left source.new)) }
        ensures open { OnErr result (HasNoMark self.new.bytes) }
        ensures kept { length self.new.bytes ≤ max (length self.old.bytes) head_limit }
        ensures cause { NamesFault (S.faults source.old) (S.faults source.new) (IsErrOf result FillFault.Read) }
    {
        // How many bytes were looked through.
        let mut scanned = 0;
        'reading: loop {
            if let Some(edge) = self.edge(scanned) {
                return Ok(edge);
            }
            scanned = self.len();
            match self.more(source, HEAD_LIMIT) {
                Ok(0) => return Ok(Edge::End),
                Ok(_) => {}
                Err(fault) => return Err(fault),
            }
        }
    }

    /// Reads on until this many bytes are held. `false` exactly where the stream ends before.
    fn hold<S: Source>(&mut self, source: &mut S, count: usize) -> Result<bool, FillFault>
        ensures fills { Fills self.old self.new (S.left source.old) (S.left source.new) }
        ensures held { IfOk result (λ whole. MatchBool whole (count ≤ length self.new.bytes) ((length self.new.bytes < count) × IsAtEnd (S.left source.new))) }
        ensures short { OnErr result (length self.new.bytes < count) }
        ensures kept { length self.new.bytes ≤ max (length self.old.bytes) count }
        ensures cause { NamesFault (S.faults source.old) (S.faults source.new) (IsErrOf result FillFault.Read) }
    {
        'reading: while self.len() < count {
            match self.more(source, count) {
                Ok(0) => return Ok(false),
                Ok(_) => {}
                Err(fault) => return Err(fault),
            }
        }
        Ok(true)
    }

    /// Takes a request that is held whole. Where memory is wanting nothing is taken.
    fn cut(&mut self, alloc: Global, head: Head, end: usize) -> Result<RawRequest, AllocError>
        requires head { head.len ≤ end }
        requires held { end ≤ length self.old.bytes }
        requires place { self.old.at < 2 ^ 60 }
        ensures cut { IfOk result (CutsOff self.old self.new head end) }
        ensures err { OnErr result (self.new ≡ self.old) }
    {
        let body = Vec::from_slice(alloc, &self.kept[head.len..end])?;
        drop_front(&mut self.kept, end);
        self.place += end as u64;
        Ok(RawRequest::new(head.method, head.target, head.fields, body))
    }

    /// The answer where the window tells no body.
    fn refusal(&self, fault: FrameFault) -> HttpFault
        ensures value { result ≡ refusal_at self.now.at fault }
        ensures other { result ≢ HttpFault.ReadFault }
    {
        match fault {
            FrameFault::NoHead | FrameFault::BadLength => self.bad_http(),
            FrameFault::Chunked => self.length_required(),
            FrameFault::LongBody => self.too_large(),
            FrameFault::NoMemory => HttpFault::Memory,
        }
    }

    /// Reads the body of a head that is held, and takes the request.
    fn body<S: Source>(
        &mut self,
        alloc: Global,
        source: &mut S,
        frame: Frame,
    ) -> Result<RawRequest, HttpFault>
        requires framed { IsFramed self.old.bytes frame.head frame.size }
        requires place { self.old.at < 2 ^ 60 }
        ensures reads { ReadsOne self.old self.new (S.left source.old) (S.left source.new) result }
        ensures kept { length self.new.bytes ≤ max (length self.old.bytes) (head_limit + body_limit) }
        ensures cause { NamesFault (S.faults source.old) (S.faults source.new) (IsErrOf result HttpFault.ReadFault) }
    {
        let end = frame.head.len + frame.size;
        match self.hold(source, end) {
            Ok(true) => match self.cut(alloc, frame.head, end) {
                Ok(request) => Ok(request),
                Err(_) => Err(HttpFault::Memory),
            },
            Ok(false) => Err(self.bad_http()),
            Err(fault) => Err(fault_of(fault)),
        }
    }

    /// The frame of the head in the window, which ends behind so many bytes.
    fn frame(&self, alloc: Global, end: usize) -> Result<Frame, FrameFault>
        requires mark { IsFirstMark self.now.bytes end }
        requires limit { end ≤ head_limit }
        ensures frame { IfOk result (λ frame. IsFramed self.now.bytes frame.head frame.size) }
        ensures fault { IfErr result (FramesNot (take end self.now.bytes)) }
    {
        read_frame(alloc, &self.kept[..end])
    }

    /// Reads the next request of a source. `None` exactly where the stream has ended. It reads on only where it holds
    /// no whole request, and holds at most one head and one body more than it held.
    ///
    /// # Errors
    ///
    /// `BadHttp`, `LengthRequired` and `TooLarge` exactly where the stream goes on with such a beginning. `ReadFault`
    /// only where the source failed, and what is held begins with no whole request. `Memory` where memory was wanting.
    /// After each of them what is held and what the source has left are together as before.
    pub fn next<S: Source>(
        &mut self,
        alloc: Global,
        source: &mut S,
    ) -> Result<Option<RawRequest>, HttpFault>
        requires { self.old.at < 2 ^ 60 }
        ensures reads { Reads self.old self.new (S.left source.old) (S.left source.new) result }
        ensures kept { length self.new.bytes ≤ max (length self.old.bytes) (head_limit + body_limit) }
        ensures cause { NamesFault (S.faults source.old) (S.faults source.new) (IsErrOf result HttpFault.ReadFault) }
    {
        let end = match self.find_edge(source) {
            Ok(Edge::Mark(end)) => end,
            Ok(Edge::Limit) => return Err(self.too_large()),
            Ok(Edge::End) => {
                if self.is_blank() {
                    return Ok(None);
                }
                return Err(self.bad_http());
            }
            Err(fault) => return Err(fault_of(fault)),
        };
        match self.frame(alloc, end) {
            Ok(frame) => match self.body(alloc, source, frame) {
                Ok(request) => Ok(Some(request)),
                Err(fault) => Err(fault),
            },
            Err(fault) => Err(self.refusal(fault)),
        }
    }
}
