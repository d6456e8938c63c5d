//! What is to come of a request that is built, by its family of routes.

ghost use Rattle.std.specs.Prelude.{◌≡◌, List, length, IfOk, IsTrue};
ghost use Rattle.op_grant_plans.specs.GrantPlans.{is_grant_request};
ghost use Rattle.op_model.specs.Payments.{incomings};
ghost use Rattle.op_model.specs.declared.act.Entry.{Entry};
ghost use Rattle.op_money_plans.specs.Requests.{is_money_request};
ghost use Rattle.op_paying.specs.Money.{IsMoneyOf};
ghost use Rattle.op_plans.specs.Plans.{is_provider_request};
ghost use Rattle.op_wallet.specs.Answers.{is_built_request};
ghost use Rattle.op_wallet.specs.Planned.{IsPlanOn};

use op_grant_plans::{Context, Parts as GrantParts, plan_grant};
use op_model::Request;
use op_money_plans::plan_money;
use op_parts::Parts;
use op_plans::{Plan, plan_request};
use op_token_plans::{Asking, Parts as PaymentParts, plan_token};
use std::alloc::{AllocError, Global};

// Whether a request is the provider's on origin, assets, addresses or rates, or reads an address.
fn is_provider_request(request: &Request) -> bool
    ensures { result ≡ is_provider_request request.now }
{
    matches!(
        request,
        Request::SetOrigin { .. }
            | Request::AddAsset { .. }
            | Request::AddAddress { .. }
            | Request::SetRate { .. }
            | Request::ReadAddress { .. }
    )
}

// Whether a request is the provider's on money.
fn is_money_request(request: &Request) -> bool
    ensures { result ≡ is_money_request request.now }
{
    matches!(
        request,
        Request::Deposit { .. }
            | Request::Withdraw { .. }
            | Request::InspectAsset { .. }
            | Request::InspectAddress { .. }
            | Request::InspectOutgoing { .. }
            | Request::CancelOutgoing { .. }
    )
}

// Whether a request is on grants.
fn is_grant_request(request: &Request) -> bool
    ensures { result ≡ is_grant_request request.now }
{
    matches!(
        request,
        Request::AcceptGrant { .. }
            | Request::RejectGrant { .. }
            | Request::AskGrant { .. }
            | Request::ContinueGrant { .. }
            | Request::CancelGrant { .. }
            | Request::RotateToken { .. }
            | Request::RevokeToken { .. }
    )
}

// What a request on grants looks at.
fn grants_read(parts: &Parts) -> GrantParts<'_>
    ensures grants { result.grants.now ≡ parts.now.grants }
    ensures names { result.names.now ≡ parts.now.names }
    ensures incomings { (history : List Entry) → IsMoneyOf history parts.now.money → result.incomings ≡ length (incomings history) }
{
    GrantParts {
        grants: &parts.grants,
        names: &parts.names,
        incomings: parts.money.incoming_count(),
    }
}

// What a request on payments looks at.
fn payments_read(parts: &Parts) -> PaymentParts<'_>
    ensures names { result.names.now ≡ parts.now.names }
    ensures money { result.money.now ≡ parts.now.money }
    ensures grants { result.grants.now ≡ parts.now.grants }
{
    PaymentParts {
        names: &parts.names,
        money: &parts.money,
        grants: &parts.grants,
    }
}

/// What is to come of a request, with nothing changed yet.
pub(crate) fn plan(
    alloc: Global,
    parts: &Parts,
    context: &Context<'_>,
    request: &Request,
) -> Result<Plan, AllocError>
    requires { IsTrue (is_built_request request.now) }
    ensures { IfOk result (IsPlanOn parts.now context.now request.now) }
{
    if is_provider_request(request) {
        return plan_request(alloc, &parts.names, request);
    }
    if is_money_request(request) {
        return plan_money(alloc, &parts.names, &parts.money, request);
    }
    if is_grant_request(request) {
        return plan_grant(alloc, &grants_read(parts), context, request);
    }
    let asking = Asking {
        at: context.next.at,
        verdict: context.verdict,
    };
    plan_token(alloc, &payments_read(parts), &asking, request)
}
