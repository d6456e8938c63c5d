//! Plans of what is told of an outgoing payment, and of cancelling one.

ghost use Rattle.std.specs.Prelude.{◌≡◌, List};
ghost use Rattle.op_model.specs.Shown.{progress_shown};
ghost use Rattle.op_model.specs.declared.act.Entry.{Entry};
ghost use Rattle.op_model.specs.declared.request.Request.TheVariants.{InspectOutgoing, CancelOutgoing};
ghost use Rattle.op_paying.specs.Money.{IsMoneyOf};
ghost use Rattle.op_plans.specs.Plans.{IsPlanned};

use op_model::{Act, FailReason, OutgoingRow, ProgressShown, Refusal, ReplyBody};
use op_paying::Money;
use op_plans::Plan;

/// What is to come of a look at an outgoing payment (`GET /admin/outgoing-payments/{id}`): how far it has come. `None` is
/// what is no number.
pub fn plan_inspect_outgoing(money: &Money, payment: Option<u64>) -> Plan
    ensures { (history : List Entry) → IsMoneyOf history money.now → IsPlanned history (InspectOutgoing payment) result }
{
    let Some(number) = payment else {
        return Plan::Refused(Refusal::NotFound);
    };
    match money.outgoing(number) {
        Some(row) => Plan::Told(ReplyBody::OutgoingInspected {
            number,
            payment: progress_shown(row),
        }),
        None => Plan::Refused(Refusal::NotFound),
    }
}

/// What is to come of cancelling an outgoing payment (`POST /admin/outgoing-payments/{id}/cancel`): it fails, and what is
/// left of its debit is held no more. `None` is what is no number.
pub fn plan_cancel_outgoing(money: &Money, payment: Option<u64>) -> Plan
    ensures { (history : List Entry) → IsMoneyOf history money.now → IsPlanned history (CancelOutgoing payment) result }
{
    let Some(number) = payment else {
        return Plan::Refused(Refusal::NotFound);
    };
    let Some(row) = money.outgoing(number) else {
        return Plan::Refused(Refusal::NotFound);
    };
    let Some(progress) = money.cancelled(number) else {
        return Plan::Refused(Refusal::AlreadyEnded);
    };
    Plan::Acts {
        act: Act::OutgoingFailed {
            payment: number,
            step: row.step,
            reason: FailReason::Cancelled,
        },
        body: ReplyBody::OutgoingInspected {
            number,
            payment: progress,
        },
    }
}

// How far a payment has come, as the provider is told.
fn progress_shown(row: &OutgoingRow) -> ProgressShown
    ensures { result ≡ progress_shown row.now }
{
    ProgressShown {
        state: row.state,
        step: row.step,
        sent: row.sent,
        fee: row.fee,
        delivered: row.delivered,
        reason: row.reason,
    }
}
