//! Every reply of the plain wallet on a legal history can be printed. Each function does nothing: its contract is the law.
#![tactic(auto)]

ghost use Rattle.op_printable.specs.Printing.{RepliesArePrintable, RefusalsArePrintable};

/// On a legal history the reply to a request that keeps its forms can be printed: its texts are UTF-8. Nothing is asked of
/// the moment, the drawn word, the fee and who asks.
pub fn replies_are_printable()
    ensures { RepliesArePrintable }
{}

/// On a legal history the reply that refuses can be printed, where the name that the refusal tells is UTF-8.
pub fn refusals_are_printable()
    ensures { RefusalsArePrintable }
{}
