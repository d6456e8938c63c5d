//! The edge: a link to a port of this machine.
ghost use Rattle.std.specs.Prelude.{◌≡◌, ◌≤◌, None, IfOk, IfSome};

use crate::link::{Link, LinkFault};
use crate::pause::Pause;
use op_causes::count_fault;
use std::io;
use std::io::{ErrorKind, Read, Write};
use std::net::{Ipv4Addr, Net, SocketAddr, TcpListener, TcpStream};
use std::rt::Clock;
use std::time::{Duration, Instant};

/// How long a post may wait to connect, and then for its answer, in milliseconds.
const PATIENCE: u64 = 200;

/// The bytes of a reply up to its status (RFC 9112, section 4): `HTTP/1.1 200`.
const STATUS_END: usize = 12;

/// A link to a port of 127.0.0.1. It tells nothing.
///
/// A post connects anew, and waits at most 200 milliseconds to connect and as long for the status of its reply. After one
/// that ran out of time, posts are refused at once, each with a counted fault, for a pause that doubles from one second to
/// sixty, and that an answer in time ends: a hook that does not answer stops nobody.
#[derive(Drop)]
pub struct TcpLink<R: Net<Listener = TcpListener, Stream = TcpStream> + Clock + Drop> {
    rt: R,
    port: u16,
    secret: Option<[u8; 32]>,
    pause: Pause,
    faults: u64,
}

/// Why a post has no status.
#[derive(Drop)]
enum Missed {
    /// It ran out of time.
    Late,
    /// The peer refused it, broke off, or replied with no status.
    Other,
}

/// What an error of the system is.
fn why_missed(error: &io::Error) -> Missed {
    match error.kind() {
        ErrorKind::TimedOut | ErrorKind::WouldBlock => Missed::Late,
        _ => Missed::Other,
    }
}

/// Connects, and writes the message.
fn send<R: Net<Listener = TcpListener, Stream = TcpStream>>(
    rt: &R,
    port: u16,
    message: &[u8],
) -> io::Result<TcpStream> {
    let address = SocketAddr::from((Ipv4Addr::LOCALHOST, port));
    let limit = Duration::from_millis(PATIENCE);
    let mut stream = TcpStream::connect_timeout(rt, &address, limit)?;
    stream.set_read_timeout(Some(limit))?;
    stream.set_write_timeout(Some(limit))?;
    stream.set_nodelay(true)?;
    stream.write_all(message)?;
    Ok(stream)
}

/// The value of a decimal digit.
fn digit(byte: u8) -> Option<u16>
    ensures { IfSome result (λ value. value ≤ 9) }
{
    if byte < b'0' || byte > b'9' {
        return None;
    }
    Some(u16::from(byte - b'0'))
}

/// The status that the first bytes of a reply tell.
fn status_in(bytes: &[u8; STATUS_END]) -> Option<u16>
    ensures { IfSome result (λ status. (100 ≤ status) × (status ≤ 999)) }
{
    if &bytes[..7] != b"HTTP/1.".as_slice() || bytes[8] != b' ' {
        return None;
    }
    let (hundreds, tens, ones) = (digit(bytes[9])?, digit(bytes[10])?, digit(bytes[11])?);
    let status = hundreds * 100 + tens * 10 + ones;
    if status < 100 {
        return None;
    }
    Some(status)
}

/// Reads the status of a reply, within the time that is left.
fn receive<R: Clock>(rt: &R, stream: &mut TcpStream, began: Instant) -> Result<u16, Missed>
    ensures { IfOk result (λ status. (100 ≤ status) × (status ≤ 999)) }
{
    let mut bytes = [0; STATUS_END];
    let mut place: usize = 0;
    // Each read gives at least one byte.
    for _ in 0..STATUS_END {
        if place >= STATUS_END {
            break;
        }
        match began.elapsed(rt) {
            Ok(spent) if spent < Duration::from_millis(2 * PATIENCE) => {}
            _ => return Err(Missed::Late),
        }
        match stream.read(&mut bytes[place..]) {
            Ok(0) => return Err(Missed::Other),
            Ok(count) => place = place.saturating_add(count),
            Err(error) => return Err(why_missed(&error)),
        }
    }
    status_in(&bytes).ok_or(Missed::Other)
}

impl<R: Net<Listener = TcpListener, Stream = TcpStream> + Clock + Drop> TcpLink<R> {
    /// A link to this port, with the secret that signs its messages, over which nothing was posted. `None` where no link is
    /// wired: then each post fails.
    pub fn new(rt: R, port: u16, secret: Option<[u8; 32]>) -> TcpLink<R> {
        TcpLink {
            rt,
            port,
            secret,
            pause: Pause::new(),
            faults: 0,
        }
    }

    /// Posts a message now, unless there is a pause.
    fn try_post(&mut self, message: &[u8]) -> Option<u16>
        ensures status { IfSome result (λ status. (100 ≤ status) × (status ≤ 999)) }
        ensures faults { self.new.faults ≡ self.old.faults }
        ensures secret { self.new.secret ≡ self.old.secret }
    {
        let now = Instant::now(&self.rt).ok()?;
        if self.secret.is_none() || self.pause.holds(now) {
            return None;
        }
        let answer = match send(&self.rt, self.port, message) {
            Ok(mut stream) => receive(&self.rt, &mut stream, now),
            Err(error) => Err(why_missed(&error)),
        };
        match answer {
            Ok(status) => {
                self.pause.end();
                Some(status)
            }
            Err(Missed::Late) => {
                self.pause.lengthen(now);
                None
            }
            Err(Missed::Other) => None,
        }
    }
}

impl<R: Net<Listener = TcpListener, Stream = TcpStream> + Clock + Drop> Link for TcpLink<R> {
    ghost secret_of = { λ l. l.secret };

    ghost posted = { λ _. None };

    ghost faults = { λ l. l.faults };

    fn secret(&self) -> Option<[u8; 32]> {
        self.secret
    }

    fn post(&mut self, message: &[u8]) -> Result<u16, LinkFault> {
        match self.try_post(message) {
            Some(status) => Ok(status),
            None => {
                count_fault(&mut self.faults);
                Err(LinkFault)
            }
        }
    }
}
