//! Plans of the requests on grants (GNAP, RFC 9635): what is to come of each, as the model's definitions say it, with nothing
//! changed yet. One function a route.
#![tactic(auto)]

mod asked;
mod asking;
mod callers;
mod cancelling;
mod continuing;
mod deciding;
mod parts;
mod routes;
mod shown;
mod tokens;

pub use asking::plan_ask;
pub use cancelling::plan_cancel;
pub use continuing::plan_continue;
pub use deciding::plan_decide;
pub use parts::{Context, Parts};
pub use routes::plan_grant;
pub use tokens::{plan_revoke, plan_rotate};
