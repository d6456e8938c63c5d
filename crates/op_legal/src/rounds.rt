//! Laws of rounds, whatever a fee rule may answer.

ghost use Rattle.op_legal.specs.Rounds.{RoundsKeepLegal, PlainRoundsKeepLegal, StepsActOnce};

use op_amount::FeeTerms;

/// A round keeps a history legal, whatever the order of its places.
pub fn rounds_keep_legal<F: FeeTerms>()
    ensures { RoundsKeepLegal F.allows }
{}

/// Tasks that are handled one after another keep a history legal.
pub fn plain_rounds_keep_legal<F: FeeTerms>()
    ensures { PlainRoundsKeepLegal F.allows }
{}

/// Of the tasks of a round that are one step of a payment, at most one acts.
pub fn steps_act_once<F: FeeTerms>()
    ensures { StepsActOnce F.allows }
{}
