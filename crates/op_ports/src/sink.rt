//! Where bytes go.
ghost use Rattle.std.specs.Prelude.{◌≡◌, ◌<◌, ◌≤◌, ℕ, List, Some, length, IfOk};
ghost use Rattle.std.specs.declared.option.Option.{Option};
ghost use Rattle.op_causes.specs.Causes.{HasCause};
ghost use Rattle.op_ports.specs.Sink.{PutAppends};

use op_causes::count_fault;
use std::io::Write;
use thiserror::Error;

/// A write failed.
#[derive(Clone, Copy, Debug, PartialEq, Eq, Error)]
#[error("a write failed")]
pub struct WriteFault;

/// A stream of bytes that are written once, at the end.
pub trait Sink {
    /// The bytes that it was given, where it tells them.
    ghost written: { Self → Option (List ℕ) };

    /// How often it has failed.
    ghost faults: { Self → ℕ };

    /// Writes from the front of a piece, at least one byte. After a fault some of the front may be written.
    fn put(&mut self, from: &[u8]) -> Result<usize, WriteFault>
        requires { 0 < length from.now }
        ensures bound { IfOk result (λ n. (0 < n) × (n ≤ length from.now)) }
        ensures bytes { PutAppends (written self.old) (written self.new) result from.now }
        ensures cause { HasCause (faults self.old) (faults self.new) result };
}

/// A sink in memory. It takes at most so many bytes at a time. It fails at the calls whose numbers, counted from 0,
/// are listed, and where it gets no memory; then nothing of the piece is written.
#[derive(Drop)]
pub struct MemorySink {
    bytes: Vec<u8>,
    piece: usize,
    failing: Vec<u64>,
    calls: u64,
    faults: u64,
    ghost takes: { 0 < piece },
}

impl MemorySink {
    ghost use Rattle.op_ports.specs.MemorySink.{sink_bytes, sink_piece, sink_failing, sink_calls, sink_faults, sink_fails, Calls};

    /// A sink that was given these bytes, and was not called yet.
    pub fn new(bytes: Vec<u8>, piece: usize, failing: Vec<u64>) -> MemorySink
        requires { 0 < piece }
        ensures bytes { sink_bytes result ≡ bytes.items }
        ensures piece { sink_piece result ≡ piece }
        ensures failing { sink_failing result ≡ failing.items }
        ensures calls { sink_calls result ≡ 0 }
        ensures faults { sink_faults result ≡ 0 }
    {
        MemorySink {
            bytes,
            piece,
            failing,
            calls: 0,
            faults: 0,
        }
    }

    /// The bytes that it was given.
    pub fn bytes(&self) -> &[u8]
        ensures { result.now ≡ sink_bytes self.now }
    {
        &self.bytes
    }

    /// How often it was called.
    pub fn calls(&self) -> u64
        ensures { result ≡ sink_calls self.now }
    {
        self.calls
    }

    /// How often it has failed.
    pub fn faults(&self) -> u64
        ensures { result ≡ sink_faults self.now }
    {
        self.faults
    }

    /// Whether the next call is one of those that fail.
    fn fails(&self) -> bool
        ensures { result ≡ sink_fails self.now }
    {
        self.failing.iter().any(|n| *n == self.calls)
    }

    /// One call: the front of the piece is written, or there is a fault and nothing is written.
    pub fn accept(&mut self, from: &[u8]) -> Result<usize, WriteFault>
        ensures called { Calls self.old self.new from.now result }
        ensures cause { HasCause (sink_faults self.old) (sink_faults self.new) result }
    {
        let fails = self.fails();
        self.calls = self.calls.saturating_add(1);
        if fails {
            count_fault(&mut self.faults);
            return Err(WriteFault);
        }
        let count = from.len().min(self.piece);
        match self.bytes.extend_from_slice(&from[..count]) {
            Ok(()) => Ok(count),
            Err(_) => {
                count_fault(&mut self.faults);
                Err(WriteFault)
            }
        }
    }
}

impl Sink for MemorySink {
    ghost use Rattle.op_ports.specs.MemorySink.{sink_bytes, sink_faults};

    ghost written = { λ s. Some (sink_bytes s) };

    ghost faults = { sink_faults };

    fn put(&mut self, from: &[u8]) -> Result<usize, WriteFault> {
        self.accept(from)
    }
}

/// The edge: a sink on any writer, as standard output.
#[derive(Drop)]
pub struct WriteSink<W: Write> {
    inner: W,
    faults: u64,
}

impl<W: Write> WriteSink<W> {
    ghost use Rattle.op_ports.specs.Edges.{writer_written, writer_faults};

    /// A sink on this writer, without a fault so far.
    pub fn new(inner: W) -> WriteSink<W>
        ensures written { writer_written W.contents result ≡ W.contents inner }
        ensures faults { writer_faults result ≡ 0 }
    {
        WriteSink { inner, faults: 0 }
    }
}

impl<W: Write> Sink for WriteSink<W> {
    ghost use Rattle.op_ports.specs.Edges.{writer_written, writer_faults};

    ghost written = { writer_written W.contents };

    ghost faults = { writer_faults };

    fn put(&mut self, from: &[u8]) -> Result<usize, WriteFault> {
        match self.inner.write(from) {
            Ok(count) if count > 0 => Ok(count),
            _ => {
                count_fault(&mut self.faults);
                Err(WriteFault)
            }
        }
    }
}
