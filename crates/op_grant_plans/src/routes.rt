//! The plan of each request on grants.

ghost use Rattle.std.specs.Prelude.{IfOk, IsTrue};
ghost use Rattle.op_grant_plans.specs.GrantPlans.{IsGrantPlan, is_grant_request};

use crate::asking::plan_ask;
use crate::cancelling::plan_cancel;
use crate::continuing::plan_continue;
use crate::deciding::plan_decide;
use crate::parts::{Context, Parts};
use crate::tokens::{plan_revoke, plan_rotate};
use op_model::Request;
use op_plans::Plan;
use std::alloc::{AllocError, Global};

/// What is to come of a request on grants.
pub fn plan_grant(
    alloc: Global,
    parts: &Parts<'_>,
    context: &Context<'_>,
    request: &Request,
) -> Result<Plan, AllocError>
    requires { IsTrue (is_grant_request request.now) }
    ensures { IfOk result (IsGrantPlan parts.now context.now request.now) }
{
    match request {
        Request::AcceptGrant { grant } => plan_decide(alloc, parts, context, *grant, true),
        Request::RejectGrant { grant } => plan_decide(alloc, parts, context, *grant, false),
        Request::AskGrant {
            items,
            client,
            interact,
        } => plan_ask(alloc, parts, context, items, client, interact),
        Request::ContinueGrant { grant, reference } => {
            plan_continue(alloc, parts, context, *grant, reference)
        }
        Request::CancelGrant { grant } => Ok(plan_cancel(parts, context, *grant)),
        Request::RotateToken { grant } => plan_rotate(alloc, parts, context, *grant),
        Request::RevokeToken { grant } => Ok(plan_revoke(parts, context, *grant)),
        _ => unreachable!(),
    }
}
