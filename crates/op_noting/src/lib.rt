//! The events and the page feeds of a history: what an act adds to them, and what is read off them. The histories in
//! these clauses are legal, and contracts speak of any history whose events or feeds a value has.
#![tactic(auto)]

mod feeds;
mod laws;
mod messages;
mod noting;
#[cfg(test)]
mod tests;
mod touched;

pub use feeds::note_ended;
pub use laws::{events_follow, events_next, events_read, feeds_next, names_are_texts};
pub use messages::{due_hooks, hook};
pub use noting::note_act;
pub use touched::{IncomingNow, OutgoingNow, Touched};
