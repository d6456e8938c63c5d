//! The jobs of a round.
use op_model::{Reply, Task, Word};

/// A job of a round.
#[derive(Drop)]
pub struct Job<C> {
    /// Where its request comes from. A job without a connection has its task.
    pub conn: Option<C>,
    /// What is asked: it is read from the connection, if there is one.
    pub task: Option<Task>,
    /// The unguessable bytes of which its secrets are made.
    pub word: Word,
    /// The slot for its reply. It stays empty where the connection ended, or failed, before a whole request.
    pub reply: Option<Reply>,
}
