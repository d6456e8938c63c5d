//! Plans of the requests that a client asks with a token: who asks, whether the access passes, and one function a route.
//! Nothing is changed. All values are smallest units of an address's asset.
#![tactic(auto)]

mod actions;
mod asking;
mod incomings;
mod looks;
mod parts;
mod reading;
mod routes;
mod shown;

pub use asking::{Asking, access, admit, caller};
pub use incomings::{IncomingAsked, plan_complete_incoming, plan_make_incoming};
pub use looks::{Needed, Place, looks_at_address, looks_at_row};
pub use parts::Parts;
pub use reading::{plan_read_incoming, plan_read_outgoing, plan_read_quote};
pub use routes::plan_token;
