//! The laws of grants over a legal history. Each function does nothing: its contract is the law.

ghost use Rattle.op_granting.specs.Calls.{CallsFit};
ghost use Rattle.op_granting.specs.Drawn.{PlacesAreNew};
ghost use Rattle.op_granting.specs.Models.{GrantsFollow};
ghost use Rattle.op_granting.specs.Spending.{PaymentsLie, SpendingFits, SpendingFollows};

/// A value of grants that has the rows of a legal history has them behind each call and the act that fits it.
pub fn grants_follow()
    ensures { GrantsFollow }
{}

/// What was spent in an interval of a grant changes with a payment that is made, from a quote or without one, and with one
/// that fails, as the calls change what is counted, and with no other act.
pub fn spending_follows()
    ensures { SpendingFollows }
{}

/// The call that fits the act of an entry that may follow is not refused.
pub fn calls_fit()
    ensures { CallsFit }
{}

/// A payment that may be made spends in one interval of its grant, and the cap covers it there.
pub fn spending_fits()
    ensures { SpendingFits }
{}

/// The place of the next entry is new for the grants of a history.
pub fn places_are_new()
    ensures { PlacesAreNew }
{}

/// Each payment of a legal history was made in an interval of its grant.
pub fn payments_lie()
    ensures { PaymentsLie }
{}
