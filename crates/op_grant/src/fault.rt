//! What calls on grants answer.

ghost use Rattle.std.specs.Prelude.{◌≡◌};
ghost use Rattle.op_grant.specs.declared.fault.GrantFault.TheVariants.{Memory};

use std::alloc::AllocError;
use thiserror::Error;

/// What came of a continuation (RFC 9635, section 5).
#[derive(Clone, Copy, Debug, PartialEq, Eq)]
pub enum Proceeded {
    /// The grant was issued, with its access token (section 5.1).
    Issued,
    /// The provider has not decided yet (section 5.2).
    Polled,
}

/// Why a call on a grant is refused. The first five have codes of RFC 9635, section 3.6; all others are this project's
/// own.
#[derive(Clone, Copy, Debug, PartialEq, Eq, Error)]
pub enum GrantFault {
    /// An interaction is needed and not offered, or its reference is not the one that was drawn.
    #[error("an interaction is needed, or its reference is another")]
    InvalidInteraction,
    /// The value is not the continuation token of a grant that can be continued.
    #[error("no grant can be continued with this token")]
    InvalidContinuation,
    /// The provider rejected the grant.
    #[error("the provider rejected the grant")]
    UserDenied,
    /// The client polled again before it had waited.
    #[error("polled before the wait was over")]
    TooFast,
    /// A name in what is asked for is not this wallet's.
    #[error("a name is not of this wallet")]
    RequestDenied,
    /// The cap would be passed: `spent` is what was spent before in the interval, in smallest units of the cap's asset.
    #[error("the limit would be passed: {spent} were spent before")]
    OverLimit { spent: u64 },
    /// The moment lies before or after the limits' interval.
    #[error("the moment is outside the interval of the limits")]
    OutsideInterval,
    /// The cap is in another asset.
    #[error("the limit is in another asset")]
    LimitAsset,
    /// The limits name another receiver.
    #[error("the limits name another receiver")]
    LimitReceiver,
    /// The grant was decided before, or needs no decision.
    #[error("the grant waits for no decision")]
    NotPending,
    /// The value is not the grant's current access token.
    #[error("the token is not the current one")]
    InvalidToken,
    /// There was no memory.
    #[error("out of memory")]
    Memory,
}

impl From<AllocError> for GrantFault {
    ghost from_gives = { λ error fault. fault ≡ Memory };

    fn from(_: AllocError) -> GrantFault {
        GrantFault::Memory
    }
}
