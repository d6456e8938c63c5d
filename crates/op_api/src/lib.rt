//! What a request as it came asks for, and who asks: its path, its body as JSON (RFC 8259), and the fields that tell of
//! its client and its token.
#![tactic(auto)]

mod access;
#[cfg(test)]
mod client_tests;
mod constant;
mod grants;
mod members;
mod names;
mod parameters;
mod payments;
mod provider;
mod request;
#[cfg(test)]
mod request_tests;
#[cfg(test)]
mod tests;
mod values;
mod verdict;

pub use constant::{disk_fault_reply, journal_full_reply};
pub use request::{ApiFault, prepare};
