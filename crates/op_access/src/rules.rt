//! The nine rules of access.
ghost use Rattle.std.specs.Prelude.{◌≡◌, ℕ, List};
ghost use Rattle.std.specs.declared.option.Option.{Option};
ghost use Rattle.op_model.specs.Access.{Looked, failures, first_failure, has_action, differ};
ghost use Rattle.op_model.specs.declared.act.Entry.{Entry};
ghost use Rattle.op_model.specs.declared.row.GrantRow.{GrantRow};
ghost use Rattle.op_access.specs.Rules.{AreFactsOf, decision, decision_of, rule_of};

use thiserror::Error;

/// Which limit of a grant a spending breaks. They are looked at in this order.
#[derive(Clone, Copy, Debug, PartialEq, Eq, Error)]
pub enum SpendFault {
    /// The limits name another receiver.
    #[error("the limits name another receiver")]
    LimitReceiver,
    /// The amount of the limits is in another asset.
    #[error("the limit is in another asset")]
    LimitAsset,
    /// The moment lies in no interval of the limits.
    #[error("the moment is outside the interval of the limits")]
    OutsideInterval,
    /// The amount of the limits would be passed in this interval.
    #[error("the limit would be passed in this interval")]
    OverLimit,
}

/// What the rules look at, for one access under a grant.
#[derive(Clone, Copy, Debug, PartialEq, Eq)]
pub struct AccessFacts {
    /// The client that asks is the one that asked for the grant.
    pub same_client: bool,
    /// The actions of the grant's item of the type that is asked for, as a sum of bits. `None` where there is no such
    /// item.
    pub actions: Option<u8>,
    /// The actions of which any one serves, as a sum of bits.
    pub need: u8,
    /// The action that reaches the rows of all clients, one bit; 0 where there is none.
    pub all: u8,
    /// The number of the address that the item names, if it names one.
    pub identifier: Option<u32>,
    /// The number of the address of the request or of the row, where it is there.
    pub address: Option<u32>,
    /// The row, or the quote that is to be paid, was made by the client that asks. `None` where there is none.
    pub own: Option<bool>,
    /// The first limit that the payment breaks. `None` where it breaks none, and where the access makes no payment.
    pub spend: Option<SpendFault>,
}

/// Whether an access passes.
#[derive(Clone, Copy, Debug, PartialEq, Eq)]
pub enum Decision {
    Pass,
    /// The number, from 1 to 9, of the first rule that fails.
    Denied(u8),
}

/// The decision by the nine rules, in this order: 1 the token is another client's, 2 the grant has no item of the type,
/// 3 the item lacks the action, 4 the item names another address, 5 the row is another client's and the item's action
/// does not reach all rows, and 6 to 9 the limits.
pub fn allowed(facts: &AccessFacts) -> Decision
    ensures decision { result ≡ decision_of facts.now }
    ensures by_history { (history : List Entry) (t : ℕ) (client : Option (List ℕ)) (g : ℕ) (grant : GrantRow) (looked : Looked)
        → AreFactsOf facts.now history t client g grant looked → result ≡ decision (first_failure (failures history t client g grant looked)) }
{
    if !facts.same_client {
        return Decision::Denied(1);
    }
    let Some(actions) = facts.actions else {
        return Decision::Denied(2);
    };
    if !has_action(actions, facts.need) {
        return Decision::Denied(3);
    }
    if differ(facts.identifier, facts.address) {
        return Decision::Denied(4);
    }
    if facts.own == Some(false) && !has_action(actions, facts.all) {
        return Decision::Denied(5);
    }
    match facts.spend {
        Some(fault) => Decision::Denied(rule_of(fault)),
        None => Decision::Pass,
    }
}

/// Whether one of these actions is among those.
fn has_action(actions: u8, bits: u8) -> bool
    ensures { result ≡ has_action actions bits }
{
    actions & bits != 0
}

/// Whether both are there and differ.
fn differ(one: Option<u32>, other: Option<u32>) -> bool
    ensures { result ≡ differ one other }
{
    match (one, other) {
        (Some(one), Some(other)) => one != other,
        _ => false,
    }
}

/// The number of the rule that a spending breaks.
fn rule_of(fault: SpendFault) -> u8
    ensures { result ≡ rule_of fault }
{
    match fault {
        SpendFault::LimitReceiver => 6,
        SpendFault::LimitAsset => 7,
        SpendFault::OutsideInterval => 8,
        SpendFault::OverLimit => 9,
    }
}
