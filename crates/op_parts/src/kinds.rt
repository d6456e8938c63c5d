//! Which parts an act changes.

ghost use Rattle.std.specs.Prelude.{◌≡◌};
ghost use Rattle.op_granting.specs.Kinds.{is_on_grants, is_on_spending};
ghost use Rattle.op_naming.specs.Added.{adds_name};

use op_model::Act;

/// Whether an act adds a name: an origin, an asset, an address, a transfer or a rate.
pub(crate) fn adds_name(act: &Act) -> bool
    ensures { result ≡ adds_name act.now }
{
    matches!(
        act,
        Act::OriginSet { .. }
            | Act::AssetAdded { .. }
            | Act::AddressAdded { .. }
            | Act::Deposited { .. }
            | Act::Withdrawn { .. }
            | Act::RateSet { .. }
    )
}

/// Whether an act asks for a grant, or changes one that is there.
pub(crate) fn is_on_grants(act: &Act) -> bool
    ensures { result ≡ is_on_grants act.now }
{
    matches!(
        act,
        Act::GrantAsked { .. }
            | Act::GrantAccepted { .. }
            | Act::GrantRejected { .. }
            | Act::GrantPolled { .. }
            | Act::GrantContinued { .. }
            | Act::GrantCancelled { .. }
            | Act::TokenRotated { .. }
            | Act::TokenRevoked { .. }
    )
}

/// Whether an act changes what was spent under a grant: a payment is made or fails.
pub(crate) fn is_on_spending(act: &Act) -> bool
    ensures { result ≡ is_on_spending act.now }
{
    matches!(
        act,
        Act::OutgoingMade { .. } | Act::OutgoingDirect { .. } | Act::OutgoingFailed { .. }
    )
}
