//! Sessions: what one run of `wallet apply` is, how it may end, and with which status.
//!
//! The definitions stand in `specs`, in the model's words. Of code there are the ends, and the exit statuses with their
//! numbers and lines.
#![tactic(auto)]

mod end;
mod status;

pub use end::End;
pub use status::Status;
