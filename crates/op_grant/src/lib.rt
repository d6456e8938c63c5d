//! Grants: their tokens, and what was spent under them (GNAP, RFC 9635).
#![tactic(auto)]

mod answers;
mod fault;
mod grants;
mod laws;
mod limits;
mod rows;
#[cfg(test)]
mod tests;
mod tokens;

pub use answers::may_ask;
pub use fault::{GrantFault, Proceeded};
pub use grants::Grants;
pub use laws::{
    ended_tokens_are_gone, live_tokens_are_found, one_live_token, secrets_are_apart,
    spending_is_sum,
};
pub use limits::Spending;
pub use op_model::{
    Asked, Cap, Finish, GrantRow, GrantState, Interact, IntervalText, Item, Limits, Rows, Sum,
};
