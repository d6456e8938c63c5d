//! A door in memory.
ghost use Rattle.std.specs.Prelude.{◌+◌, ◌≤◌, ◌^◌, vec_len, vec_capacity};

use crate::door::{Conn, Told};
use op_ports::{MemorySink, MemorySource};

/// A connection in memory: a source that holds its request, and a sink that keeps its reply.
pub type MemoryConn = Conn<MemorySource, MemorySink>;

/// A door in memory. It gives the answers that it was told, in order, and past their end it is closed. It fails at the
/// calls of `next` whose numbers, counted from 0, are listed. It takes the room for all connections when it is made.
#[derive(Drop)]
pub struct MemoryDoor {
    // The next answer stands last.
    pub(crate) coming: Vec<Told<MemoryConn>>,
    pub(crate) finished: Vec<MemoryConn>,
    pub(crate) failing: Vec<u64>,
    pub(crate) calls: u64,
    pub(crate) given: u64,
    pub(crate) faults: u64,
    ghost room: { vec_len finished + given + vec_len coming ≤ vec_capacity finished },
    ghost small: { given + vec_len coming ≤ 2 ^ 63 },
}
