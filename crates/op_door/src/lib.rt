//! The door: where the connections of a server come from, and where they go back to.
//!
//! `Door` is a port of the outside, as op_ports has them: a trait with meanings, a form in memory that tells everything,
//! and an edge on the operating system that tells nothing.
#![tactic(auto)]

mod door;
mod memory;
mod memory_door;
mod peer;
mod stream;
mod tcp;
#[cfg(test)]
mod tests;
mod whole;

pub use door::{Conn, Door, Next, Told};
pub use memory::{MemoryConn, MemoryDoor};
pub use stream::{TcpSink, TcpSource};
pub use tcp::TcpDoor;
