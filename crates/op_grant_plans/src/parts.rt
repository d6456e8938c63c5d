//! What a plan is made from.

use op_grant::Grants;
use op_granting::NextEntry;
use op_model::{Verdict, Word};
use op_naming::Names;

/// The parts of a wallet that a request on grants looks at: its grants, its names, and how many incoming payments there
/// are.
#[derive(Clone, Copy)]
pub struct Parts<'a> {
    pub grants: &'a Grants,
    pub names: &'a Names,
    pub incomings: u64,
}

/// What comes beside a request: the moment and the place of the next entry, the word that is drawn for it, and who asks.
#[derive(Clone, Copy)]
pub struct Context<'a> {
    pub next: NextEntry,
    pub word: &'a Word,
    pub verdict: &'a Verdict,
}
