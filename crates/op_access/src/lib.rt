//! Who may do what: the proof by which a client shows that a request is its own, and the nine rules of access.
#![tactic(auto)]

mod rules;
#[cfg(test)]
mod tests;
mod verifier;

pub use rules::{AccessFacts, Decision, SpendFault, allowed};
pub use verifier::HmacVerifier;
