//! Grants and what was spent under them, as the wallet's definitions have them of a history: they go on with each entry.
#![tactic(auto)]

mod access;
mod laws;
mod next;
mod spending;
mod take;

pub use access::{Looks, access_refusal, limit_of};
pub use laws::{
    calls_fit, grants_follow, payments_lie, places_are_new, spending_fits, spending_follows,
};
pub use next::{NextEntry, PaidUnder};
pub use spending::{make_room, take_failed, take_made};
pub use take::{no_grants, take_grants};
