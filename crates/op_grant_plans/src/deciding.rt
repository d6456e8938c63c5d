//! Plans of the provider's decisions on grants.

ghost use Rattle.std.specs.Prelude.{◌≡◌, ℕ, List, Some, Ok, IfOk};
ghost use Rattle.op_grant.specs.Rows.{at_row, decide_answer};
ghost use Rattle.op_grant_plans.specs.Callers.{AreRowsOf, answered};
ghost use Rattle.op_grant_plans.specs.GrantPlans.{IsGrantPlan, decision};
ghost use Rattle.op_granting.specs.Models.{decided_act};
ghost use Rattle.op_model.specs.GrantAnswers.{decide};
ghost use Rattle.op_model.specs.Shown.{redirect_of};
ghost use Rattle.op_model.specs.declared.act.Act.{Act};
ghost use Rattle.op_model.specs.declared.act.Entry.{Entry};

use crate::callers::row_of;
use crate::parts::{Context, Parts};
use op_grant::Grants;
use op_model::{Act, GrantRow, Redirect, Refusal, ReplyBody, Word};
use op_names::{Letter, SecretText, secret_text};
use op_plans::Plan;
use std::alloc::{AllocError, Global};

/// Accepting or rejecting a grant. Its reply tells where the client is sent back to, with the hash of the interaction (RFC
/// 9635, section 4.2).
pub fn plan_decide(
    alloc: Global,
    parts: &Parts<'_>,
    context: &Context<'_>,
    grant: Option<u64>,
    accept: bool,
) -> Result<Plan, AllocError>
    ensures { IfOk result (IsGrantPlan parts.now context.now (decision accept grant)) }
{
    let n = match decided_grant(parts.grants, grant) {
        Ok(n) => n,
        Err(refusal) => return Ok(Plan::Refused(refusal)),
    };
    let row = row_of(parts.grants, n);
    let reference = secret_text(Letter::Interaction, context.word, context.next.place);
    let redirect = redirect_with(alloc, row, reference)?;
    Ok(Plan::Acts {
        act: decided_act(accept, n, context.word),
        body: ReplyBody::GrantDecided { redirect },
    })
}

// The grant that the provider may decide, or why it may not.
fn decided_grant(grants: &Grants, grant: Option<u64>) -> Result<u64, Refusal>
    ensures answer { (history : List Entry) (act : ℕ → Act) → AreRowsOf history grants.now
        → decide history act grant ≡ answered act result }
    ensures named { IfOk result (λ n. grant ≡ Some n) }
    ensures passes { IfOk result (λ n. at_row decide_answer grants.now n ≡ Ok tt) }
{
    let Some(n) = grant else {
        return Err(Refusal::NotFound);
    };
    let Some(_row) = grants.row(n) else {
        return Err(Refusal::NotFound);
    };
    match grants.may_decide(n) {
        Ok(()) => Ok(n),
        Err(_) => Err(Refusal::NotPending),
    }
}

// The act that accepts or rejects a grant.
fn decided_act(accept: bool, grant: u64, word: &Word) -> Act
    ensures { result ≡ decided_act accept grant word.now }
{
    if accept {
        Act::GrantAccepted { grant, word: *word }
    } else {
        Act::GrantRejected { grant, word: *word }
    }
}

// Where the client is sent back to with this reference, if it asked for that.
fn redirect_with(
    alloc: Global,
    row: &GrantRow,
    reference: SecretText,
) -> Result<Option<Redirect>, AllocError>
    ensures { IfOk result (λ redirect. redirect ≡ redirect_of (record row.now { reference = Some reference })) }
{
    match &row.finish {
        Some(finish) => Ok(Some(Redirect {
            finish: finish.clone(alloc)?,
            nonce: row.nonce,
            reference,
        })),
        None => Ok(None),
    }
}
