//! Records of entries: what a journal keeps of a history.
#![tactic(auto)]

mod fault;
mod fields;
mod grants;
mod laws;
mod lengths;
mod packed;
mod packed_bytes;
mod packed_reading;
mod reading;
#[cfg(test)]
mod round_tests;
mod round_writing;
mod rounds;
#[cfg(test)]
mod tests;
mod writing;

pub use laws::{
    both_versions_say_it, no_act_begins_another, no_record_begins_another, records_are_cut_one_way,
    records_read_back, rounds_are_read_one_way,
};
pub use lengths::entry_length;
pub use packed::Packed;
pub use reading::read_entry;
pub use round_writing::{round_length, write_round};
pub use rounds::read_round;
use thiserror::Error;
pub use writing::write_entry;

/// At most so many bytes are the kind of an act and its fields.
pub const ACT_LIMIT: usize = 10_000;

/// Why bytes are no record.
#[derive(Clone, Copy, Debug, PartialEq, Eq, Error)]
pub enum RecordFault {
    /// A record begins with them, and goes on.
    #[error("the bytes end within a record")]
    Short,
    /// No record begins with the bytes up to and with this place, and this is the first such place.
    #[error("no record goes on at byte {at}")]
    Bad { at: u64 },
    /// Memory was wanting.
    #[error("memory was wanting")]
    Memory,
}
