//! The edge: a door on a port of this machine.
ghost use Rattle.std.specs.Prelude.{◌≡◌, ◌<◌, ◌+◌, None, ⊤};

use crate::door::{Conn, Door, Next};
use crate::peer::Peer;
use crate::stream::{TcpSink, TcpSource};
use op_causes::count_fault;
use std::alloc::Global;
use std::io::ErrorKind;
use std::net::{Net, TcpListener, TcpStream};
use std::rt::Clock;
use std::time::{Duration, Instant};
use std::{io, thread};

/// How often a call that waits looks for a connection before it answers that there is none.
const LOOKS: u32 = 28;

/// The first looks are a tenth of a millisecond apart, the others a millisecond: twenty milliseconds in all.
const QUICK_LOOKS: u32 = 10;

/// How many peers may be there that have not sent a whole request.
const MOST: usize = 1024;

/// A door on a port of this machine, which it opens at its first call. It tells nothing.
///
/// It takes in what peers send without waiting for any of them, and gives out a connection once a whole request can be
/// expected of it: its head has come and the body that it tells, or as much as a request may have, or the peer has ended,
/// or five seconds have passed since it was taken. So a peer that is silent or slow holds up nobody. Where none can be given
/// out, a call waits about twenty milliseconds for one; right behind a connection it does not wait.
#[derive(Drop)]
pub struct TcpDoor<R: Net<Listener = TcpListener, Stream = TcpStream> + Clock + Drop> {
    rt: R,
    alloc: Global,
    port: u16,
    listener: Option<TcpListener>,
    // The oldest first.
    peers: Vec<Peer>,
    gave: bool,
    given: u64,
    faults: u64,
}

impl<R: Net<Listener = TcpListener, Stream = TcpStream> + Clock + Drop> TcpDoor<R> {
    /// A door on a port of 127.0.0.1 that was not called yet.
    pub fn new(alloc: Global, rt: R, port: u16) -> TcpDoor<R> {
        TcpDoor {
            rt,
            alloc,
            port,
            listener: None,
            peers: Vec::new(alloc),
            gave: false,
            given: 0,
            faults: 0,
        }
    }
}

/// Opens the port, unless it is open.
fn open<R: Net<Listener = TcpListener, Stream = TcpStream>>(
    rt: &R,
    port: u16,
    slot: &mut Option<TcpListener>,
) -> io::Result<()> {
    if slot.is_none() {
        let listener = TcpListener::bind(rt, ("127.0.0.1", port))?;
        listener.set_nonblocking(true)?;
        *slot = Some(listener);
    }
    Ok(())
}

/// Puts a peer that was just taken behind the others. One whose stream can't be set up, or for which there is no memory,
/// is dropped.
fn add(alloc: Global, peers: &mut Vec<Peer>, stream: TcpStream, now: Instant) {
    if let Some(peer) = Peer::new(alloc, stream, now) {
        let _ = peers.push(peer);
    }
}

/// Takes the peers that have come at the port. Where the system has no room for another one, those that are there come
/// first.
fn take_new(
    alloc: Global,
    listener: &TcpListener,
    peers: &mut Vec<Peer>,
    now: Instant,
) -> io::Result<()> {
    for _ in 0..MOST {
        if peers.len() >= MOST {
            return Ok(());
        }
        match listener.accept() {
            Ok((stream, _)) => add(alloc, peers, stream, now),
            Err(e) if e.kind() == ErrorKind::WouldBlock => return Ok(()),
            Err(e) if e.kind() == ErrorKind::ConnectionAborted => {}
            Err(e) if peers.is_empty() => return Err(e),
            Err(_) => return Ok(()),
        }
    }
    Ok(())
}

/// Takes in what all peers have sent.
fn look_at_all(peers: &mut Vec<Peer>, now: Instant) {
    for peer in peers.iter_mut() {
        peer.look(now);
    }
}

/// The oldest peer that can be given out. One that has broken off since is passed over.
fn first_ready(peers: &mut Vec<Peer>) -> Option<Conn<TcpSource, TcpSink>> {
    for _ in 0..MOST {
        let place = peers.iter().position(|peer| peer.is_ready())?;
        if let Some(conn) = peers.remove(place).into_conn() {
            return Some(conn);
        }
    }
    None
}

/// Looks once: at what has come at the port, and at what peers have sent.
fn look<R: Net + Clock>(
    rt: &R,
    alloc: Global,
    listener: &TcpListener,
    peers: &mut Vec<Peer>,
) -> io::Result<Option<Conn<TcpSource, TcpSink>>> {
    let now = Instant::now(rt)?;
    take_new(alloc, listener, peers, now)?;
    look_at_all(peers, now);
    Ok(first_ready(peers))
}

impl<R: Net<Listener = TcpListener, Stream = TcpStream> + Clock + Drop> TcpDoor<R> {
    /// The next connection: at once where one can be given out, else after so many looks.
    fn wait(&mut self, looks: u32) -> io::Result<Option<Conn<TcpSource, TcpSink>>>
        ensures given { self.new.given ≡ self.old.given }
        ensures faults { self.new.faults ≡ self.old.faults }
    {
        open(&self.rt, self.port, &mut self.listener)?;
        if let Some(conn) = first_ready(&mut self.peers) {
            return Ok(Some(conn));
        }
        let Some(listener) = &self.listener else {
            return Ok(None);
        };
        for number in 0..looks {
            if let Some(conn) = look(&self.rt, self.alloc, listener, &mut self.peers)? {
                return Ok(Some(conn));
            }
            if looks > 1 {
                let pause = if number < QUICK_LOOKS { 100 } else { 1000 };
                thread::sleep(&self.rt, Duration::from_micros(pause));
            }
        }
        Ok(None)
    }
}

impl<R: Net<Listener = TcpListener, Stream = TcpStream> + Clock + Drop> Door for TcpDoor<R> {
    type Reads = TcpSource;

    type Writes = TcpSink;

    ghost coming = { λ _. None };

    ghost finished = { λ _. None };

    ghost given = { λ d. d.given };

    ghost faults = { λ d. d.faults };

    fn next(&mut self) -> Next<Conn<TcpSource, TcpSink>> {
        let looks = if self.gave { 1 } else { LOOKS };
        self.gave = false;
        match (self.given.checked_add(1), self.wait(looks)) {
            (Some(given), Ok(Some(conn))) => {
                self.given = given;
                self.gave = true;
                Next::Conn(conn)
            }
            (Some(_), Ok(None)) => Next::Nothing,
            _ => {
                count_fault(&mut self.faults);
                Next::Failed
            }
        }
    }

    fn finish(&mut self, conn: Conn<TcpSource, TcpSink>)
        requires { 0 < self.old.given }
        ensures finished { ⊤ }
        ensures coming { ⊤ }
        ensures given { self.new.given + 1 ≡ self.old.given }
        ensures faults { self.new.faults ≡ self.old.faults }
    {
        self.given -= 1;
        drop(conn);
    }
}
