//! The plan of asking for a grant (RFC 9635, sections 2 and 3).

ghost use Rattle.std.specs.Prelude.{◌≡◌, ◌+◌, true, false, List, length, IfOk};
ghost use Rattle.op_grant_plans.specs.Asking.{IsNewGrant, new_plan};
ghost use Rattle.op_grant_plans.specs.GrantPlans.{IsGrantPlan};
ghost use Rattle.op_granting.specs.Models.{next_place};
ghost use Rattle.op_model.specs.GrantAnswers.{finish_of};
ghost use Rattle.op_model.specs.Grants.{grants, is_immediate};
ghost use Rattle.op_model.specs.declared.act.Entry.{Entry};
ghost use Rattle.op_model.specs.declared.request.Request.TheVariants.{AskGrant};

use crate::asked::{has_strange_item, items_asked};
use crate::callers::{is_proved, is_same_client};
use crate::continuing::refusal_of;
use crate::parts::{Context, Parts};
use crate::shown::items_shown;
use op_grant::may_ask;
use op_model::{Act, Asked, AskedItem, Finish, Interact, Item, Refusal, ReplyBody, Rows};
use op_names::{ClientText, Letter, secret_text};
use op_naming::Names;
use op_plans::Plan;
use std::alloc::{AllocError, Global};

/// The type of items for outgoing payments, for which the provider is asked.
const OUTGOING: u8 = 3;

/// Asking for a grant. It is issued at once where it has no item for outgoing payments; else it waits for the provider.
pub fn plan_ask(
    alloc: Global,
    parts: &Parts<'_>,
    context: &Context<'_>,
    items: &Rows<AskedItem>,
    client: &Option<ClientText>,
    interact: &Interact,
) -> Result<Plan, AllocError>
    ensures { IfOk result (IsGrantPlan parts.now context.now (AskGrant items.now client.now interact.now)) }
{
    if !is_proved(context.verdict) {
        return Ok(Plan::Refused(Refusal::InvalidClient));
    }
    let Some(client) = client else {
        return Ok(Plan::Refused(Refusal::InvalidClient));
    };
    if !is_same_client(&context.verdict.client, client) {
        return Ok(Plan::Refused(Refusal::InvalidClient));
    }
    let asked = Asked {
        client: client.clone(alloc)?,
        items: Rows::new(items_asked(alloc, parts.names, items.as_slice())?),
        interact: interact.clone(alloc)?,
        strange: has_strange_item(parts.names, parts.incomings, items.as_slice()),
    };
    let number = next_number(parts.grants.count(), context.next.place);
    match may_ask(&asked) {
        Ok(()) => new_grant(alloc, parts.names, context, number, asked),
        Err(fault) => Ok(Plan::Refused(refusal_of(fault))),
    }
}

// The number of the grant that the entry at this place asks for, behind so many others. Each grant has an entry of its own,
// so its number does not pass the place of that entry.
fn next_number(count: u64, place: u64) -> u64
    ensures { (history : List Entry) → count ≡ length (grants history) → place ≡ next_place history → result ≡ 1 + length (grants history) }
{
    if count < place { count + 1 } else { place }
}

// The plan of a grant that is not refused and gets this number.
fn new_grant(
    alloc: Global,
    names: &Names,
    context: &Context<'_>,
    number: u64,
    asked: Asked,
) -> Result<Plan, AllocError>
    ensures { IfOk result (IsNewGrant names.now number context.now asked) }
{
    if is_immediate(asked.items.as_slice()) {
        issued(alloc, names, context, number, asked)
    } else {
        Ok(waiting(context, number, asked))
    }
}

// Whether a grant with these items is issued without asking the provider.
fn is_immediate(items: &[Item]) -> bool
    ensures { result ≡ is_immediate items.now }
{
    !items.iter().any(|item| item.kind == OUTGOING)
}

// The plan of a grant that is issued at once.
fn issued(
    alloc: Global,
    names: &Names,
    context: &Context<'_>,
    number: u64,
    asked: Asked,
) -> Result<Plan, AllocError>
    requires { is_immediate asked.items ≡ true }
    ensures { IfOk result (IsNewGrant names.now number context.now asked) }
{
    let items = items_shown(alloc, names, asked.items.as_slice())?;
    let access = secret_text(Letter::Access, context.word, context.next.place);
    let continuation = secret_text(Letter::Continuation, context.word, context.next.place);
    Ok(Plan::Acts {
        act: Act::GrantAsked {
            client: asked.client,
            items: asked.items,
            finish: None,
            word: *context.word,
        },
        body: ReplyBody::GrantIssued {
            number,
            items: Rows::new(items),
            access,
            continuation,
        },
    })
}

// The plan of a grant that waits for the provider.
fn waiting(context: &Context<'_>, number: u64, asked: Asked) -> Plan
    requires { is_immediate asked.items ≡ false }
    ensures { (history : List Entry) → result ≡ new_plan history number context.now asked }
{
    let finish = finish_of(asked.interact);
    let drawn = secret_text(Letter::Nonce, context.word, context.next.place);
    let nonce = finish.is_some().then_some(drawn);
    let continuation = secret_text(Letter::Continuation, context.word, context.next.place);
    Plan::Acts {
        act: Act::GrantAsked {
            client: asked.client,
            items: asked.items,
            finish,
            word: *context.word,
        },
        body: ReplyBody::GrantPending {
            number,
            nonce,
            continuation,
        },
    }
}

// Where the client wants to be sent back.
fn finish_of(interact: Interact) -> Option<Finish>
    ensures { result ≡ finish_of interact }
{
    match interact {
        Interact::Redirect(finish) => finish,
        _ => None,
    }
}
