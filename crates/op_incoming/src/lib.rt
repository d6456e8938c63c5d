//! Incoming payments: what they have received, whether they are open, and which of them are due for expiry. All values
//! are smallest units of the asset of a payment's wallet address.
#![tactic(auto)]

mod incoming;
mod incomings;
mod law;
#[cfg(test)]
mod tests;

pub use incoming::{Closing, Incoming, IncomingFault};
pub use incomings::Incomings;
pub use law::{payments_are_defined, received_is_a_sum};
pub use op_model::IncomingRow;
