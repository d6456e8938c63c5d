//! What workers tell while a round runs.
use op_model::Reply;

/// What a worker calls around its act for a job. Neither call is made for an act that no worker made.
pub trait Gate {
    /// Called without the lock, before a worker acts for the job of this index.
    fn pass(&self, index: u64);

    /// Called under the lock, with the reply that the book keeps for the job of this index.
    fn answered(&self, index: u64, reply: &Reply);
}

/// A gate that does nothing.
#[derive(Clone, Copy)]
pub struct OpenGate;

impl Gate for OpenGate {
    fn pass(&self, _index: u64) {}

    fn answered(&self, _index: u64, _reply: &Reply) {}
}
