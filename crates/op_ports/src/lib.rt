//! The ports of the outside: where bytes come from, where they go, what time it is, where unguessable bytes come from,
//! and who tests key proofs.
//!
//! Each port is a trait with meanings: what an object of the outside tells of itself, where it tells it. A form in
//! memory tells everything, and fails at the calls that it is told to fail at; an edge stands on the operating
//! system and tells nothing.
#![tactic(auto)]

mod clock;
mod sink;
mod source;
#[cfg(test)]
mod tests;
mod verifier;
mod words;

pub use clock::{Clock, SystemClock, TableClock};
pub use sink::{MemorySink, Sink, WriteFault, WriteSink};
pub use source::{MemorySource, ReadFault, ReadSource, Source};
pub use verifier::Verifier;
pub use words::{SystemWords, TableWords, Words, WordsFault};
