//! Whether a client may do what it asks for under a grant.

ghost use Rattle.std.specs.Prelude.{◌≡◌, ◌==◌, if◌then◌else◌, Some, None, IsTrue};
ghost use Rattle.std.specs.Option.{option_copied};
ghost use Rattle.op_grant.specs.Value.{has_row};
ghost use Rattle.op_granting.specs.Access.{IsRefusalOf, limit_of, limit_broken_by, spent_before, facts_of};
ghost use Rattle.op_model.specs.Access.{is_same_client, cap_rule};
ghost use Rattle.op_model.specs.Grants.{item_of};
ghost use Rattle.op_model.specs.History.{nth};
ghost use Rattle.op_model.specs.declared.reply.Refusal.TheVariants.{AccessDenied};
ghost use Rattle.op_model.specs.declared.row.GrantRow.{GrantRow};

use op_access::{AccessFacts, Decision, SpendFault, allowed};
use op_grant::{GrantFault, GrantRow, Grants, Item, Spending};
use op_model::Refusal;
use op_names::ClientText;
use op_time::Moment;

/// What an access looks at, with the names found.
#[derive(Clone, Copy)]
pub struct Looks {
    /// The type of item: 1 incoming payments, 2 quotes, 3 outgoing payments.
    pub kind: u8,
    /// The actions of which any one serves, as a sum of bits.
    pub need: u8,
    /// The action that reaches the rows of all clients, one bit; 0 where there is none.
    pub all: u8,
    /// The number of the address of the request or of the row, where it is there.
    pub address: Option<u32>,
    /// The row, or the quote that is to be paid, was made by the client that asks. `None` where there is none.
    pub own: Option<bool>,
    /// The payment that is to be made. `None` where the access makes none, or where its receiver is not there.
    pub payment: Option<Spending>,
}

/// Whether a client may do under grant `n`, at a moment, what an access looks at: `None` where it may, and else the denial
/// by the first of the nine rules that fails. That by the last rule tells what was spent in the interval before.
pub fn access_refusal(
    grants: &Grants,
    n: u64,
    t: Moment,
    client: Option<&ClientText>,
    looks: &Looks,
) -> Option<Refusal>
    requires { IsTrue (has_row grants.now n) }
    ensures { IsRefusalOf result grants.now n t (option_copied client.entry) looks.now }
{
    let facts = facts_under(grants, n, t, client, looks);
    match allowed(&facts) {
        Decision::Pass => None,
        Decision::Denied(rule) => Some(denied(rule, spent_at(grants, n, t))),
    }
}

// The rule of the cap: its denial tells what was spent.
const CAP_RULE: u8 = 9;

// The denial by a rule, where so much was spent before.
fn denied(rule: u8, spent: u64) -> Refusal
    ensures { result ≡ AccessDenied rule (if rule == cap_rule then Some spent else None) }
{
    let spent = if rule == CAP_RULE { Some(spent) } else { None };
    Refusal::AccessDenied { rule, spent }
}

/// The limit of a grant that an answer of `Grants::may_pay` names.
pub fn limit_of(answer: Result<u64, GrantFault>) -> Option<SpendFault>
    ensures { result ≡ limit_of answer }
{
    match answer {
        Err(GrantFault::LimitReceiver) => Some(SpendFault::LimitReceiver),
        Err(GrantFault::LimitAsset) => Some(SpendFault::LimitAsset),
        Err(GrantFault::OutsideInterval) => Some(SpendFault::OutsideInterval),
        Err(GrantFault::OverLimit { .. }) => Some(SpendFault::OverLimit),
        _ => None,
    }
}

// The first limit that a payment breaks, where one is to be made.
fn spend_fault(grants: &Grants, n: u64, t: Moment, payment: Option<Spending>) -> Option<SpendFault>
    requires { IsTrue (has_row grants.now n) }
    ensures { result ≡ limit_broken_by grants.now n t payment }
{
    let asked = payment?;
    limit_of(grants.may_pay(n, t, asked))
}

// What was spent in the interval of a moment.
fn spent_at(grants: &Grants, n: u64, t: Moment) -> u64
    requires { IsTrue (has_row grants.now n) }
    ensures { result ≡ spent_before grants.now n t }
{
    match grants.interval_at(n, t) {
        Some(j) => grants.spent(n, j),
        None => 0,
    }
}

fn is_same_client(asking: Option<&ClientText>, client: &ClientText) -> bool
    ensures { result ≡ is_same_client (option_copied asking.entry) client.now }
{
    match asking {
        Some(asking) => asking.bytes() == client.bytes(),
        None => false,
    }
}

// The item of a type, of which a grant has one at most.
fn item_of(kind: u8, items: &[Item]) -> Option<&Item>
    ensures { option_copied result ≡ item_of kind items.now }
{
    items.iter().find(|item| item.kind == kind)
}

// What the rules look at under grant `n`.
fn facts_under(
    grants: &Grants,
    n: u64,
    t: Moment,
    client: Option<&ClientText>,
    looks: &Looks,
) -> AccessFacts
    requires { IsTrue (has_row grants.now n) }
    ensures { (row : GrantRow) → nth grants.now.rows n ≡ Some row
        → result ≡ facts_of row (option_copied client.entry) looks.now (limit_broken_by grants.now n t looks.now.payment) }
{
    let spend = spend_fault(grants, n, t, looks.payment);
    match grants.row(n) {
        Some(row) => facts_of(row, client, looks, spend),
        None => unreachable!(),
    }
}

fn facts_of(
    row: &GrantRow,
    client: Option<&ClientText>,
    looks: &Looks,
    spend: Option<SpendFault>,
) -> AccessFacts
    ensures { result ≡ facts_of row.now (option_copied client.entry) looks.now spend }
{
    let same_client = is_same_client(client, &row.client);
    let (actions, identifier) = match item_of(looks.kind, row.items.as_slice()) {
        Some(item) => (Some(item.actions), item.identifier),
        None => (None, None),
    };
    AccessFacts {
        same_client,
        actions,
        need: looks.need,
        all: looks.all,
        identifier,
        address: looks.address,
        own: looks.own,
        spend,
    }
}
