//! Quotes and outgoing payments: how a payment is funded, sent in pieces, and ended. All values are smallest units, of
//! the asset of the payer's wallet address for what is sent and charged, and of the payee's for what is delivered.
#![tactic(auto)]

mod law;
mod made;
mod outgoings;
mod payments;
mod progress;
mod quoted;
mod stepping;
#[cfg(test)]
mod tests;

pub use law::{payments_are_defined, payments_keep_their_terms};
pub use op_model::{OutgoingRow, QuoteRow, StepAnswer};
pub use outgoings::{OutgoingFault, Outgoings};
