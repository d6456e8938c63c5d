//! An incoming payment.
ghost use Rattle.std.specs.Prelude.{◌≡◌, ◌-◌, ◌≤◌};
ghost use Rattle.op_amount.specs.declared.TheConstants.{TOP};
ghost use Rattle.op_model.specs.Incoming.{bound_of};
ghost use Rattle.op_incoming.specs.Rows.{is_unclosed, is_unfinished, is_open_at, is_due_at, is_completed, room_of};
ghost use Rattle.op_incoming.specs.Within.{IsWithin};
ghost use Rattle.op_incoming.specs.declared.incoming.IncomingFault.TheVariants.{Memory};

use op_amount::TOP;
use op_model::IncomingRow;
use op_time::Moment;
use std::alloc::AllocError;
use thiserror::Error;

/// Whether an act closed an incoming payment, and which.
#[derive(Clone, Copy)]
pub enum Closing {
    Unclosed,
    Completed,
    Expired,
}

/// An incoming payment, with what it has received.
#[derive(Drop)]
pub struct Incoming {
    pub row: IncomingRow,
    pub closing: Closing,
    pub received: u64,
}

/// Why an incoming payment is not made or not completed.
#[derive(Clone, Copy, Debug, PartialEq, Eq, Error)]
pub enum IncomingFault {
    /// The payment is not open.
    #[error("the payment is not open")]
    AlreadyClosed,
    /// The amount is not in the address's asset. The assets of addresses are not known here, so no call of this crate
    /// answers it.
    #[error("the amount is not in the asset of the address")]
    AssetMismatch,
    /// The expiry is not to come.
    #[error("the expiry is not to come")]
    ExpiresInPast,
    /// The incoming amount is zero.
    #[error("the incoming amount is zero")]
    ZeroAmount,
    /// There was no memory.
    #[error("memory was wanting")]
    Memory,
}

impl From<AllocError> for IncomingFault {
    ghost from_gives = { λ _ fault. fault ≡ Memory };

    fn from(_: AllocError) -> IncomingFault {
        IncomingFault::Memory
    }
}

impl Closing {
    fn is_unclosed(self) -> bool
        ensures { result ≡ is_unclosed self }
    {
        match self {
            Closing::Unclosed => true,
            Closing::Completed | Closing::Expired => false,
        }
    }
}

impl Incoming {
    // What it takes at most, but for the last piece: the incoming amount, or the greatest value.
    fn bound(&self) -> u64
        ensures { result ≡ bound_of self.now.row }
    {
        match self.row.amount {
            Some(amount) => amount,
            None => TOP,
        }
    }

    // No act closed it, and its bound is not reached.
    pub(crate) fn is_unfinished(&self) -> bool
        ensures { result ≡ is_unfinished self.now }
    {
        self.closing.is_unclosed() && self.received < self.bound()
    }

    pub(crate) fn is_open(&self, t: Moment) -> bool
        ensures { result ≡ is_open_at t self.now }
    {
        self.is_unfinished() && t.ms() < self.row.expiry.ms()
    }

    pub(crate) fn is_due(&self, t: Moment) -> bool
        ensures { result ≡ is_due_at t self.now }
    {
        self.is_unfinished() && self.row.expiry.ms() <= t.ms()
    }

    pub(crate) fn is_completed(&self) -> bool
        ensures { result ≡ is_completed self.now }
    {
        match self.closing {
            Closing::Completed => true,
            Closing::Unclosed | Closing::Expired => self.bound() <= self.received,
        }
    }

    // How much more it takes: nothing where the bound is reached or passed.
    pub(crate) fn room(&self) -> u64
        requires { IsWithin self.now }
        ensures value { result ≡ room_of self.now }
        ensures at_most { result ≤ TOP }
    {
        self.bound().saturating_sub(self.received)
    }
}
