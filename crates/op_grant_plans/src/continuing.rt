//! Plans of continuing grants (RFC 9635, sections 5.1 and 5.2).

ghost use Rattle.std.specs.Prelude.{◌≡◌, List, Some, IfOk, IsTrue};
ghost use Rattle.op_grant.specs.Rows.{at_row};
ghost use Rattle.op_grant.specs.Value.{has_row};
ghost use Rattle.op_grant_plans.specs.Callers.{AreRowsOf, answered, continue_answer, malformed, Proceeds, refusal_of};
ghost use Rattle.op_grant_plans.specs.GrantPlans.{IsGrantPlan, IsContinuation};
ghost use Rattle.op_granting.specs.Models.{proceeded_act};
ghost use Rattle.op_model.specs.GrantAnswers.{continue_grant};
ghost use Rattle.op_model.specs.declared.act.Entry.{Entry};
ghost use Rattle.op_model.specs.declared.request.Request.TheVariants.{ContinueGrant};

use crate::callers::{is_proved, own_grant, row_of};
use crate::parts::{Context, Parts};
use crate::shown::items_shown;
use op_grant::{GrantFault, Grants, Proceeded};
use op_model::{Act, Refusal, ReplyBody, Rows, Verdict};
use op_names::{Letter, SecretText, secret_text};
use op_plans::Plan;
use op_time::Moment;
use std::alloc::{AllocError, Global};

/// Continuing a grant: a poll while the provider has not decided, or the issue of its tokens (RFC 9635, sections 5.1 and
/// 5.2).
pub fn plan_continue(
    alloc: Global,
    parts: &Parts<'_>,
    context: &Context<'_>,
    grant: Option<u64>,
    reference: &Option<Option<SecretText>>,
) -> Result<Plan, AllocError>
    ensures { IfOk result (IsGrantPlan parts.now context.now (ContinueGrant grant reference.now)) }
{
    match continued_grant(parts.grants, context, grant, reference) {
        Ok((n, answer)) => proceed(alloc, parts, context, n, answer),
        Err(refusal) => Ok(Plan::Refused(refusal)),
    }
}

// The plan of a continuation that is answered so.
fn proceed(
    alloc: Global,
    parts: &Parts<'_>,
    context: &Context<'_>,
    n: u64,
    answer: Proceeded,
) -> Result<Plan, AllocError>
    requires { Proceeds parts.now.grants.now n context.now.next.at answer }
    ensures { IfOk result (IsContinuation parts.now context.now n answer) }
{
    let row = row_of(parts.grants, n);
    match answer {
        Proceeded::Polled => Ok(Plan::Acts {
            act: Act::GrantPolled { grant: n },
            body: ReplyBody::GrantPolled {
                number: n,
                continuation: row.continuation,
            },
        }),
        Proceeded::Issued => {
            let items = items_shown(alloc, parts.names, row.items.as_slice())?;
            let access = secret_text(Letter::Access, context.word, context.next.place);
            let continuation = secret_text(Letter::Continuation, context.word, context.next.place);
            Ok(Plan::Acts {
                act: Act::GrantContinued {
                    grant: n,
                    word: *context.word,
                },
                body: ReplyBody::GrantIssued {
                    number: n,
                    items: Rows::new(items),
                    access,
                    continuation,
                },
            })
        }
    }
}

// The grant that the client may continue and what comes of it, or why it may not.
fn continued_grant(
    grants: &Grants,
    context: &Context<'_>,
    grant: Option<u64>,
    reference: &Option<Option<SecretText>>,
) -> Result<(u64, Proceeded), Refusal>
    ensures answer { (history : List Entry) → AreRowsOf history grants.now
        → continue_grant history context.now.next.at context.now.word.now grant reference.now context.now.verdict.now
        ≡ answered (λ x. proceeded_act x.1 x.0 context.now.word.now) result }
    ensures named { IfOk result (λ x. grant ≡ Some x.0) }
    ensures proceeds { IfOk result (λ x. Proceeds grants.now x.0 context.now.next.at x.1) }
{
    let verdict = context.verdict;
    if !is_proved(verdict) {
        return Err(Refusal::InvalidClient);
    }
    let Some(n) = own_grant(grants, verdict, grant) else {
        return Err(Refusal::InvalidContinuation);
    };
    let Some(token) = &verdict.token else {
        return Err(Refusal::InvalidContinuation);
    };
    match continue_answer(grants, n, context.next.at, token, reference) {
        Ok(answer) => Ok((n, answer)),
        Err(fault) => Err(refusal_of(fault)),
    }
}

// What a continuation is answered.
fn continue_answer(
    grants: &Grants,
    n: u64,
    t: Moment,
    token: &SecretText,
    reference: &Option<Option<SecretText>>,
) -> Result<Proceeded, GrantFault>
    requires { IsTrue (has_row grants.now n) }
    ensures answer { result ≡ at_row (continue_answer t token.now reference.now) grants.now n }
    ensures proceeds { IfOk result (Proceeds grants.now n t) }
{
    match reference {
        None => grants.may_proceed(n, t, token, None),
        Some(Some(given)) => grants.may_proceed(n, t, token, Some(given)),
        Some(None) => Err(malformed(grants.may_proceed(n, t, token, None))),
    }
}

// A reference that is no secret is never the one that was drawn: it is refused behind what comes before a reference.
fn malformed(answer: Result<Proceeded, GrantFault>) -> GrantFault
    ensures { result ≡ malformed answer }
{
    match answer {
        Err(GrantFault::InvalidContinuation) => GrantFault::InvalidContinuation,
        Err(GrantFault::UserDenied) => GrantFault::UserDenied,
        _ => GrantFault::InvalidInteraction,
    }
}

/// The refusal that a fault of asking or continuing is.
pub(crate) fn refusal_of(fault: GrantFault) -> Refusal
    ensures { result ≡ refusal_of fault }
{
    match fault {
        GrantFault::UserDenied => Refusal::UserDenied,
        GrantFault::TooFast => Refusal::TooFast,
        GrantFault::InvalidInteraction => Refusal::InvalidInteraction,
        GrantFault::RequestDenied => Refusal::RequestDenied,
        _ => Refusal::InvalidContinuation,
    }
}
