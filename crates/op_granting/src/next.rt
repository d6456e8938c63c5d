//! Where the next entry stands, and what it pays.

use op_time::Moment;

/// The next entry of a history: its moment, and its place, counted from 1.
#[derive(Clone, Copy)]
pub struct NextEntry {
    pub at: Moment,
    pub place: u64,
}

/// What a payment that is made pays under a grant, by its number: what is debited and what is received, in smallest units
/// of their assets.
#[derive(Clone, Copy)]
pub struct PaidUnder {
    pub grant: u64,
    pub debit: u64,
    pub receive: u64,
}
