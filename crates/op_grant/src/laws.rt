//! The laws of calls on grants.

ghost use Rattle.op_grant.specs.Runs.{SpendingIsSum, SecretsAreApart, OneLiveToken, LiveTokensAreFound, EndedTokensAreGone};

/// Behind any list of calls on no grants, what was spent in an interval of a grant with a cap is the sum of what was
/// spent there, less what was given back, and it never passes the cap. For a grant without a cap nothing is counted.
pub fn spending_is_sum()
    ensures { SpendingIsSum }
{}

/// Behind any list of calls on no grants, no two grants have the same access token, continuation token, nonce or
/// reference.
pub fn secrets_are_apart()
    ensures { SecretsAreApart }
{}

/// A grant has at most one live access token.
pub fn one_live_token()
    ensures { OneLiveToken }
{}

/// Behind any list of calls on no grants, a live access token is found, as its grant's.
pub fn live_tokens_are_found()
    ensures { LiveTokensAreFound }
{}

/// A token that was rotated or revoked, or whose grant was cancelled, is never found again, whatever calls follow.
pub fn ended_tokens_are_gone()
    ensures { EndedTokensAreGone }
{}
