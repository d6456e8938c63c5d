//! Why no entry was read.

ghost use Rattle.std.specs.Prelude.{◌≡◌};
ghost use Rattle.op_record.specs.declared.fault.ReadError.TheVariants.{Memory};

use std::alloc::{AllocError, AllocFailed};

/// What is wrong with the bytes: the first fault from left to right.
#[derive(Clone, Copy, Debug, PartialEq, Eq)]
pub enum Fault {
    /// The bytes end within a field.
    Short,
    /// A byte cannot stand where it does. So many bytes are left from it on.
    Bad(usize),
}

/// Why a field was not read.
#[derive(Debug, Drop)]
pub enum ReadError {
    /// Memory was wanting.
    Memory,
    /// The bytes are wrong.
    Fault(Fault),
}

impl From<AllocError> for ReadError {
    ghost from_gives = { λ _ e. e ≡ Memory };

    fn from(_: AllocError) -> ReadError {
        ReadError::Memory
    }
}

impl<T: Drop> From<AllocFailed<T>> for ReadError {
    ghost from_gives = { λ _ e. e ≡ Memory };

    fn from(_: AllocFailed<T>) -> ReadError {
        ReadError::Memory
    }
}
