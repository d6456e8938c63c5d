//! The law of a ledger's calls.

ghost use Rattle.op_ledger.specs.Runs.{BalancesAreSums};

/// Behind any list of calls on a new ledger, what is posted on each account and held there, and each total, is the sum
/// of the movements and the holds of these calls.
pub fn balances_are_sums()
    ensures { BalancesAreSums }
{}
