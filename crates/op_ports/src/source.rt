//! Where bytes come from.
ghost use Rattle.std.specs.Prelude.{◌≡◌, ◌<◌, ◌≤◌, ℕ, List, Some, drop, length, IfOk};
ghost use Rattle.std.specs.declared.option.Option.{Option};
ghost use Rattle.std.specs.Io.KnownBytes.{ReadConsumes};
ghost use Rattle.op_causes.specs.Causes.{HasCause};

use op_causes::count_fault;
use std::io::Read;
use thiserror::Error;

/// A read failed.
#[derive(Clone, Copy, Debug, PartialEq, Eq, Error)]
#[error("a read failed")]
pub struct ReadFault;

/// A stream of bytes that are read once, from the front.
pub trait Source {
    /// The bytes that are left, where it tells them.
    ghost left: { Self → Option (List ℕ) };

    /// How often it has failed.
    ghost faults: { Self → ℕ };

    /// Gives the next bytes: none exactly at the end. After a fault the bytes that were left are left.
    fn take(&mut self, into: &mut [u8]) -> Result<usize, ReadFault>
        requires { 0 < length into.old }
        ensures bound { IfOk result (λ n. n ≤ length into.new) }
        ensures bytes { ReadConsumes (left self.old) (left self.new) result into.new }
        ensures cause { HasCause (faults self.old) (faults self.new) result };
}

/// A source in memory. It gives at most so many bytes at a time, and fails at the calls whose numbers, counted
/// from 0, are listed.
#[derive(Drop)]
pub struct MemorySource {
    bytes: Vec<u8>,
    place: usize,
    piece: usize,
    failing: Vec<u64>,
    calls: u64,
    faults: u64,
    ghost in_range: { place ≤ length bytes.items },
    ghost gives: { 0 < piece },
}

impl MemorySource {
    ghost use Rattle.op_ports.specs.MemorySource.{source_left, source_failing, source_piece, source_calls, source_faults, source_fails, Calls};

    /// A source of these bytes that was not called yet.
    pub fn new(bytes: Vec<u8>, piece: usize, failing: Vec<u64>) -> MemorySource
        requires { 0 < piece }
        ensures left { source_left result ≡ bytes.items }
        ensures piece { source_piece result ≡ piece }
        ensures failing { source_failing result ≡ failing.items }
        ensures calls { source_calls result ≡ 0 }
        ensures faults { source_faults result ≡ 0 }
    {
        MemorySource {
            bytes,
            place: 0,
            piece,
            failing,
            calls: 0,
            faults: 0,
        }
    }

    /// The bytes that are left.
    pub fn left(&self) -> &[u8]
        ensures { result.now ≡ source_left self.now }
    {
        &self.bytes[self.place..]
    }

    /// How often it was called.
    pub fn calls(&self) -> u64
        ensures { result ≡ source_calls self.now }
    {
        self.calls
    }

    /// How often it has failed.
    pub fn faults(&self) -> u64
        ensures { result ≡ source_faults self.now }
    {
        self.faults
    }

    /// Whether the next call is one of those that fail.
    fn fails(&self) -> bool
        ensures { result ≡ source_fails self.now }
    {
        self.failing.iter().any(|n| *n == self.calls)
    }

    /// One call: the next bytes, or, exactly where the call's number is listed, a fault.
    pub fn give(&mut self, into: &mut [u8]) -> Result<usize, ReadFault>
        ensures called { Calls self.old self.new into.old into.new result }
        ensures cause { HasCause (source_faults self.old) (source_faults self.new) result }
    {
        let fails = self.fails();
        self.calls = self.calls.saturating_add(1);
        if fails {
            count_fault(&mut self.faults);
            return Err(ReadFault);
        }
        let left = &self.bytes[self.place..];
        let count = left.len().min(into.len()).min(self.piece);
        into[..count].copy_from_slice(&left[..count]);
        self.place += count;
        Ok(count)
    }
}

impl Source for MemorySource {
    ghost use Rattle.op_ports.specs.MemorySource.{source_left, source_faults};

    ghost left = { λ s. Some (source_left s) };

    ghost faults = { source_faults };

    fn take(&mut self, into: &mut [u8]) -> Result<usize, ReadFault> {
        self.give(into)
    }
}

/// The edge: a source on any reader, as standard input.
#[derive(Drop)]
pub struct ReadSource<R: Read> {
    inner: R,
    faults: u64,
}

impl<R: Read> ReadSource<R> {
    ghost use Rattle.op_ports.specs.Edges.{reader_left, reader_faults};

    /// A source on this reader, without a fault so far.
    pub fn new(inner: R) -> ReadSource<R>
        ensures left { reader_left R.remaining result ≡ R.remaining inner }
        ensures faults { reader_faults result ≡ 0 }
    {
        ReadSource { inner, faults: 0 }
    }
}

impl<R: Read> Source for ReadSource<R> {
    ghost use Rattle.op_ports.specs.Edges.{reader_left, reader_faults};

    ghost left = { reader_left R.remaining };

    ghost faults = { reader_faults };

    fn take(&mut self, into: &mut [u8]) -> Result<usize, ReadFault> {
        match self.inner.read(into) {
            Ok(count) => Ok(count),
            Err(_) => {
                count_fault(&mut self.faults);
                Err(ReadFault)
            }
        }
    }
}
