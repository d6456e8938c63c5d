//! Peers that were taken and that have not sent a whole request.
use crate::door::Conn;
use crate::stream::{TcpSink, TcpSource};
use crate::whole::is_whole;
use std::alloc::Global;
use std::io;
use std::io::{ErrorKind, Read};
use std::net::TcpStream;
use std::sync::Arc;
use std::time::{Duration, Instant};

/// How long a peer may take to send its request, and how long a write to it may wait, in seconds.
const PATIENCE: u64 = 5;

/// How much is read at once, in bytes.
const PIECE: usize = 4096;

/// How often is read at once.
const READS: u32 = 32;

/// A peer, and what it has sent so far. Its stream does not block.
#[derive(Drop)]
pub(crate) struct Peer {
    stream: Arc<TcpStream, Global>,
    taken: Vec<u8>,
    since: Instant,
    is_ready: bool,
}

/// What came of a read that does not wait.
enum Came {
    /// So many bytes.
    Some(usize),
    /// Nothing so far.
    Nothing,
    /// The peer has ended, or the read failed.
    End,
}

/// Reads what has come.
fn read_piece(stream: &TcpStream, piece: &mut [u8; PIECE]) -> Came {
    let mut reader = stream;
    match reader.read(piece) {
        Ok(0) => Came::End,
        Ok(count) => Came::Some(count),
        Err(e) if e.kind() == ErrorKind::WouldBlock => Came::Nothing,
        Err(_) => Came::End,
    }
}

/// Sets a stream up: reads do not wait, and a write waits for a limited time.
fn set_up(stream: &TcpStream) -> io::Result<()> {
    stream.set_nonblocking(true)?;
    stream.set_nodelay(true)?;
    stream.set_write_timeout(Some(Duration::from_secs(PATIENCE)))
}

impl Peer {
    /// A peer that was taken now. `None` where its stream can't be set up, or memory is short.
    pub(crate) fn new(alloc: Global, stream: TcpStream, now: Instant) -> Option<Peer> {
        set_up(&stream).ok()?;
        let stream = Arc::new(alloc, stream).ok()?;
        Some(Peer {
            stream,
            taken: Vec::new(alloc),
            since: now,
            is_ready: false,
        })
    }

    /// Whether it can be given out: a whole request can be expected of it, or it has ended, or its time is over.
    pub(crate) fn is_ready(&self) -> bool {
        self.is_ready
    }

    /// Takes in what it has sent, without waiting. Whether more is to come: not where it has ended, or a whole request can be
    /// expected of it, or memory is short.
    fn take_in(&mut self) -> bool {
        let mut piece = [0; PIECE];
        for _ in 0..READS {
            match read_piece(&self.stream, &mut piece) {
                Came::Some(count) => {
                    let kept = self.taken.extend_from_slice(&piece[..count.min(PIECE)]);
                    if kept.is_err() || is_whole(&self.taken) {
                        return false;
                    }
                }
                Came::Nothing => return true,
                Came::End => return false,
            }
        }
        true
    }

    /// Looks at what it has sent by now, unless it is ready.
    pub(crate) fn look(&mut self, now: Instant) {
        let is_late = now.duration_since(self.since).as_secs() >= PATIENCE;
        if !self.is_ready {
            self.is_ready = is_late || !self.take_in();
        }
    }

    /// Its two halves. From here on its stream blocks, for a limited time.
    pub(crate) fn into_conn(self) -> Option<Conn<TcpSource, TcpSink>> {
        self.stream.set_nonblocking(false).ok()?;
        let other = Arc::try_clone(&self.stream).ok()?;
        Some(Conn {
            reads: TcpSource::new(self.taken, self.stream),
            writes: TcpSink::new(other),
        })
    }
}
