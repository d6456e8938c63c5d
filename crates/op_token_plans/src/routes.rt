//! The plan of each request that a client asks with a token.

ghost use Rattle.std.specs.Prelude.{ℕ, List, IfOk, IsTrue};
ghost use Rattle.op_model.specs.declared.act.Entry.{Entry};
ghost use Rattle.op_plans.specs.Plans.{IsPlan};
ghost use Rattle.op_token_plans.specs.Parts.{ArePartsOf};
ghost use Rattle.op_token_plans.specs.Requests.{is_token_request};

use crate::asking::Asking;
use crate::incomings::{IncomingAsked, plan_complete_incoming, plan_make_incoming};
use crate::parts::Parts;
use crate::reading::{plan_read_incoming, plan_read_outgoing, plan_read_quote};
use op_model::Request;
use op_plans::Plan;
use std::alloc::{AllocError, Global};

/// What is to come of a request that is planned here: its first refusal, or its reply, or its act and the reply behind it.
pub fn plan_token(
    alloc: Global,
    parts: &Parts<'_>,
    asking: &Asking<'_>,
    request: &Request,
) -> Result<Plan, AllocError>
    requires { IsTrue (is_token_request request.now) }
    ensures { IfOk result (λ plan. (history : List Entry) (word : List ℕ) (fee : ℕ) → ArePartsOf history parts.now
        → IsPlan history asking.now.at word fee request.now asking.now.verdict.now plan) }
{
    match request {
        Request::MakeIncoming {
            address,
            amount,
            expiry,
            metadata,
        } => {
            let asked = IncomingAsked {
                address,
                amount: *amount,
                expiry: *expiry,
                metadata,
            };
            plan_make_incoming(alloc, parts, asking, &asked)
        }
        Request::ReadIncoming { incoming } => plan_read_incoming(alloc, parts, asking, *incoming),
        Request::CompleteIncoming { incoming } => {
            plan_complete_incoming(alloc, parts, asking, *incoming)
        }
        Request::ReadQuote { quote } => plan_read_quote(alloc, parts, asking, *quote),
        Request::ReadOutgoing { outgoing } => plan_read_outgoing(alloc, parts, asking, *outgoing),
        _ => unreachable!(),
    }
}
