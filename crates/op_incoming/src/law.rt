//! The laws of incoming payments.

ghost use Rattle.op_incoming.specs.Models.{PaymentsAreDefined};
ghost use Rattle.op_incoming.specs.Runs.{ReceivedIsASum};

/// Behind any list of calls on no incoming payments, what each payment has received is the sum of what these calls gave
/// it.
pub fn received_is_a_sum()
    ensures { ReceivedIsASum }
{}

/// Where payments are as a history has them, they are open, due for expiry and completed, and have that room, as the
/// wallet's definitions say of that history.
pub fn payments_are_defined()
    ensures { PaymentsAreDefined }
{}
