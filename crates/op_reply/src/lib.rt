//! Replies as bytes (RFC 9112).
#![tactic(auto)]

mod admin;
mod fields;
mod grants;
mod payments;
mod print;
mod redirect;
mod refusals;
mod replies;
mod said;
#[cfg(test)]
mod tests;
mod values;

pub use print::print_reply;
