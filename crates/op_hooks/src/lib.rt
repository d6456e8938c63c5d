//! Events of payments: how often each was tried, which are due, and the webhook messages that tell them.
#![tactic(auto)]

mod event;
mod events;
mod messages;
#[cfg(test)]
mod tests;

pub use event::{Event, Tried};
pub use events::Events;
pub use messages::message;
pub use op_model::{EventBody, EventRow, EventWord};
