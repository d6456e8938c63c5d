//! Plans of rotating and revoking access tokens (RFC 9635, section 6).

ghost use Rattle.std.specs.Prelude.{◌≡◌, ℕ, List, Some, IfOk};
ghost use Rattle.op_grant_plans.specs.GrantPlans.{IsGrantPlan};
ghost use Rattle.op_grant_plans.specs.Callers.{AreRowsOf, answered, HasCurrent};
ghost use Rattle.op_model.specs.GrantAnswers.{change_token};
ghost use Rattle.op_model.specs.declared.act.Act.{Act};
ghost use Rattle.op_model.specs.declared.act.Entry.{Entry};
ghost use Rattle.op_model.specs.declared.request.Request.TheVariants.{RotateToken, RevokeToken};

use crate::callers::{is_proved, own_grant, row_of};
use crate::parts::{Context, Parts};
use crate::shown::items_shown;
use op_grant::Grants;
use op_model::{Act, Refusal, ReplyBody, Rows, Verdict};
use op_names::{Letter, secret_text};
use op_plans::Plan;
use std::alloc::{AllocError, Global};

/// Giving a grant a new access token for its current one (RFC 9635, section 6.1).
pub fn plan_rotate(
    alloc: Global,
    parts: &Parts<'_>,
    context: &Context<'_>,
    grant: Option<u64>,
) -> Result<Plan, AllocError>
    ensures { IfOk result (IsGrantPlan parts.now context.now (RotateToken grant)) }
{
    let n = match token_grant(parts.grants, context.verdict, grant) {
        Ok(n) => n,
        Err(refusal) => return Ok(Plan::Refused(refusal)),
    };
    let row = row_of(parts.grants, n);
    let items = items_shown(alloc, parts.names, row.items.as_slice())?;
    Ok(Plan::Acts {
        act: Act::TokenRotated {
            grant: n,
            word: *context.word,
        },
        body: ReplyBody::TokenRotated {
            number: n,
            items: Rows::new(items),
            access: secret_text(Letter::Access, context.word, context.next.place),
        },
    })
}

/// Revoking a grant's current access token (RFC 9635, section 6.2).
pub fn plan_revoke(parts: &Parts<'_>, context: &Context<'_>, grant: Option<u64>) -> Plan
    ensures { IsGrantPlan parts.now context.now (RevokeToken grant) result }
{
    match token_grant(parts.grants, context.verdict, grant) {
        Ok(grant) => Plan::Acts {
            act: Act::TokenRevoked { grant },
            body: ReplyBody::NoContent,
        },
        Err(refusal) => Plan::Refused(refusal),
    }
}

// The grant whose current access token the client has, or why it may not change it.
fn token_grant(grants: &Grants, verdict: &Verdict, grant: Option<u64>) -> Result<u64, Refusal>
    ensures answer { (history : List Entry) (act : ℕ → Act) → AreRowsOf history grants.now
        → change_token history act grant verdict.now ≡ answered act result }
    ensures named { IfOk result (λ n. grant ≡ Some n) }
    ensures current { IfOk result (HasCurrent grants.now) }
{
    if !is_proved(verdict) {
        return Err(Refusal::InvalidClient);
    }
    let Some(n) = own_grant(grants, verdict, grant) else {
        return Err(Refusal::InvalidToken);
    };
    let Some(token) = &verdict.token else {
        return Err(Refusal::InvalidToken);
    };
    match grants.may_change_token(n, token) {
        Ok(()) => Ok(n),
        Err(_) => Err(Refusal::InvalidToken),
    }
}
