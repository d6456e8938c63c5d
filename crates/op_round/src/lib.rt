//! Rounds of jobs: each has a connection, from which one request is read, or a task.
//!
//! `run_round` lets workers read all connections without a lock; then they act for the jobs that have a task, one at a time,
//! on one book behind a lock. Whatever order they take the lock in, the replies are those of one round. `run_round_plain`
//! does the same in the order of the list, without a thread.
#![tactic(auto)]

mod book;
mod built;
mod gate;
mod job;
mod plain;
mod prepare;
mod prepared;
mod round;
#[cfg(test)]
mod tests;

pub use book::{Book, Named};
pub use built::prepare_built;
pub use gate::{Gate, OpenGate};
pub use job::Job;
pub use plain::run_round_plain;
pub use prepared::Prepared;
pub use round::run_round;
