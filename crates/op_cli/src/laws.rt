//! The law of calls in a row. The function does nothing: its contract is the law.
ghost use Rattle.op_cli.specs.Laws.{CallsAreOneHistory, CallsGoOn, CallsLeaveLegal};

use op_amount::FeeTerms;
use op_disk::Disk;

/// Two calls that open one journal are one history: the second begins with what stood at the end of the first, also where
/// a crash came between the two. Only where the disk failed in the first, the round that was tried may stand too. And what
/// the first leaves is legal, so the second does not end for an illegal journal. Each may have its own fee rule.
pub fn calls_are_one_history<D: Disk, F: FeeTerms, G: FeeTerms>()
    ensures settled { CallsAreOneHistory F.allows G.allows D.Disk }
    ensures tried { CallsGoOn F.allows G.allows D.Disk }
    ensures legal { CallsLeaveLegal F.allows G.allows D.Disk }
{}
