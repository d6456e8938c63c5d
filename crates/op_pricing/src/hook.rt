//! The fee rule that is handed in, and what it promises.
ghost use Rattle.std.specs.Prelude.{◌≡◌, ◌≤◌};

use op_amount::{FeeTerms, OnePercent, Pair, TOP};

/// A fee rule. Its terms (`FeeTerms`) say which fees it may answer, each at most its amount; that it keeps to them is
/// this trait's contract, so it is proved once for each rule and holds wherever a rule is handed in.
pub trait FeeRule: FeeTerms {
    ghost use Rattle.op_amount.specs.declared.TheConstants.{TOP};

    /// The fee on an amount of the source, up to 10^18, for a payment between these assets.
    fn fee(&self, pair: &Pair, amount: u64) -> u64
        requires amount { amount ≤ TOP }
        ensures allowed { Self.allows pair.now amount result };
}

impl FeeRule for OnePercent {
    fn fee(&self, _pair: &Pair, amount: u64) -> u64 {
        amount.div_ceil(100)
    }
}

/// A fee rule as a wallet keeps it.
#[derive(Clone, Copy)]
pub struct PriceHook<F> {
    rule: F,
}

impl<F: FeeRule> PriceHook<F> {
    /// Keeps a rule.
    pub fn keep(rule: F) -> PriceHook<F>
        ensures { result.rule ≡ rule }
    {
        PriceHook { rule }
    }

    /// The rule's fee on an amount of the source, up to 10^18: one that its terms allow, so at most the amount.
    pub fn fee(&self, pair: &Pair, amount: u64) -> u64
        requires amount { amount ≤ TOP }
        ensures allowed { F.FeeTerms.allows pair.now amount result }
        ensures at_most { result ≤ amount }
    {
        self.rule.fee(pair, amount)
    }
}
