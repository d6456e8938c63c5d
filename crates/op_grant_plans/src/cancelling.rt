//! Plans of cancelling grants (RFC 9635, section 5.4).

ghost use Rattle.std.specs.Prelude.{◌≡◌, List};
ghost use Rattle.op_grant_plans.specs.Callers.{AreRowsOf, answered};
ghost use Rattle.op_grant_plans.specs.GrantPlans.{IsGrantPlan};
ghost use Rattle.op_model.specs.GrantAnswers.{cancel_grant};
ghost use Rattle.op_model.specs.declared.act.Act.TheVariants.{GrantCancelled};
ghost use Rattle.op_model.specs.declared.act.Entry.{Entry};
ghost use Rattle.op_model.specs.declared.request.Request.TheVariants.{CancelGrant};

use crate::callers::{is_proved, own_grant};
use crate::parts::{Context, Parts};
use op_grant::Grants;
use op_model::{Act, Refusal, ReplyBody, Verdict};
use op_plans::Plan;

/// Cancelling a grant (RFC 9635, section 5.4).
pub fn plan_cancel(parts: &Parts<'_>, context: &Context<'_>, grant: Option<u64>) -> Plan
    ensures { IsGrantPlan parts.now context.now (CancelGrant grant) result }
{
    match cancelled_grant(parts.grants, context.verdict, grant) {
        Ok(grant) => Plan::Acts {
            act: Act::GrantCancelled { grant },
            body: ReplyBody::NoContent,
        },
        Err(refusal) => Plan::Refused(refusal),
    }
}

// The grant that the client may cancel, or why it may not.
fn cancelled_grant(grants: &Grants, verdict: &Verdict, grant: Option<u64>) -> Result<u64, Refusal>
    ensures { (history : List Entry) → AreRowsOf history grants.now
        → cancel_grant history grant verdict.now ≡ answered GrantCancelled result }
{
    if !is_proved(verdict) {
        return Err(Refusal::InvalidClient);
    }
    let Some(n) = own_grant(grants, verdict, grant) else {
        return Err(Refusal::InvalidContinuation);
    };
    let Some(token) = &verdict.token else {
        return Err(Refusal::InvalidContinuation);
    };
    match grants.may_cancel(n, token) {
        Ok(()) => Ok(n),
        Err(_) => Err(Refusal::InvalidContinuation),
    }
}
