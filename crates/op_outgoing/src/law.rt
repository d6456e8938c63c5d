//! The laws of a payment's steps.

ghost use Rattle.op_outgoing.specs.Models.{PaymentsAreDefined};
ghost use Rattle.op_outgoing.specs.Runs.{PaymentsKeepTheirTerms};

/// Over any list of steps and cancellings of a payment, whatever the ledger and the incoming payments are at each, each
/// step number is used once, a completed payment debits its source and fee and delivers the floor of its rate, and a
/// failed one debits what it sent and the floor of its fee.
pub fn payments_keep_their_terms()
    ensures { PaymentsKeepTheirTerms }
{}

/// Payments are what the wallet's definitions say of a history: where the ledger and the incoming payments are as it has
/// them, a step is answered as defined; its entry, and that of a cancelling, change the history's payments as the call
/// changes those here; and what is held, and the work of a round, are as defined.
pub fn payments_are_defined()
    ensures { PaymentsAreDefined }
{}
