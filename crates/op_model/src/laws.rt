//! The law of rounds. The function does nothing: its contract is the law.
ghost use Rattle.op_model.specs.Laws.{PlainRoundsArePlaced};

use op_amount::FeeTerms;

/// Tasks that were handled one after another are a round, each at its place, whatever a fee rule may answer.
pub fn plain_rounds_are_placed<F: FeeTerms>()
    ensures { PlainRoundsArePlaced F.allows }
{}
