//! The two halves of a connection over TCP.
ghost use Rattle.std.specs.Prelude.{◌≤◌, length, None, IfOk};

use op_causes::count_fault;
use op_ports::{ReadFault, Sink, Source, WriteFault};
use std::alloc::Global;
use std::io;
use std::io::{Read, Write};
use std::net::TcpStream;
use std::sync::Arc;

/// What a peer sends: first the bytes that the door took in, then what has come since. It never waits: a peer of which
/// nothing has come is a fault.
#[derive(Drop)]
pub struct TcpSource {
    taken: Vec<u8>,
    place: usize,
    stream: Arc<TcpStream, Global>,
    faults: u64,
    ghost in_range: { place ≤ length taken.items },
}

impl TcpSource {
    pub(crate) fn new(taken: Vec<u8>, stream: Arc<TcpStream, Global>) -> TcpSource {
        TcpSource {
            taken,
            place: 0,
            stream,
            faults: 0,
        }
    }
}

/// Reads what has come, without waiting.
fn read_now(stream: &TcpStream, into: &mut [u8]) -> io::Result<usize>
    ensures { IfOk result (λ n. n ≤ length into.new) }
{
    stream.set_nonblocking(true)?;
    let mut reader = stream;
    let read = reader.read(into);
    stream.set_nonblocking(false)?;
    read
}

impl Source for TcpSource {
    ghost left = { λ _. None };

    ghost faults = { λ s. s.faults };

    fn take(&mut self, into: &mut [u8]) -> Result<usize, ReadFault> {
        let left = &self.taken[self.place..];
        let count = left.len().min(into.len());
        if count > 0 {
            into[..count].copy_from_slice(&left[..count]);
            self.place += count;
            return Ok(count);
        }
        match read_now(&self.stream, into) {
            Ok(count) => Ok(count),
            Err(_) => {
                count_fault(&mut self.faults);
                Err(ReadFault)
            }
        }
    }
}

/// Where a peer's reply goes. A peer that does not read makes a write fail after five seconds.
#[derive(Drop)]
pub struct TcpSink {
    stream: Arc<TcpStream, Global>,
    faults: u64,
}

impl TcpSink {
    pub(crate) fn new(stream: Arc<TcpStream, Global>) -> TcpSink {
        TcpSink { stream, faults: 0 }
    }
}

impl Sink for TcpSink {
    ghost written = { λ _. None };

    ghost faults = { λ s. s.faults };

    fn put(&mut self, from: &[u8]) -> Result<usize, WriteFault> {
        let mut writer = &*self.stream;
        match writer.write(from) {
            Ok(count) if count > 0 => Ok(count),
            _ => {
                count_fault(&mut self.faults);
                Err(WriteFault)
            }
        }
    }
}
