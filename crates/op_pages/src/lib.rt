//! Feeds of pages: the ended payments that name a page in their metadata, listed by address and page.
#![tactic(auto)]

mod feeds;
#[cfg(test)]
mod tests;

pub use feeds::Feeds;
pub use op_model::PageRow;
