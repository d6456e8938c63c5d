//! The link: where webhook messages go.
//!
//! `Link` is a port of the outside, as op_ports has them: a trait with meanings, a form in memory that tells everything,
//! and an edge on the operating system that tells nothing.
#![tactic(auto)]

mod link;
mod memory;
mod pause;
mod tcp;
#[cfg(test)]
mod tests;

pub use link::{Link, LinkFault};
pub use memory::{MemoryLink, Post};
pub use tcp::TcpLink;
