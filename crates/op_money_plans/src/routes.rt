//! The plan of each request on money.

ghost use Rattle.std.specs.Prelude.{List, IfOk, IsTrue};
ghost use Rattle.op_model.specs.declared.act.Entry.{Entry};
ghost use Rattle.op_money_plans.specs.Requests.{is_money_request};
ghost use Rattle.op_naming.specs.Names.{AreNames};
ghost use Rattle.op_paying.specs.Money.{IsMoneyOf};
ghost use Rattle.op_plans.specs.Plans.{IsPlanned};

use crate::inspecting::{plan_inspect_address, plan_inspect_asset};
use crate::outgoing::{plan_cancel_outgoing, plan_inspect_outgoing};
use crate::transfers::{plan_deposit, plan_withdraw};
use op_model::Request;
use op_naming::Names;
use op_paying::Money;
use op_plans::Plan;
use std::alloc::{AllocError, Global};

/// What is to come of a request on money, where the names and the money are those of one history.
pub fn plan_money(
    alloc: Global,
    names: &Names,
    money: &Money,
    request: &Request,
) -> Result<Plan, AllocError>
    requires { IsTrue (is_money_request request.now) }
    ensures { IfOk result (λ plan. (history : List Entry) → AreNames history names.now → IsMoneyOf history money.now → IsPlanned history request.now plan) }
{
    match request {
        Request::Deposit {
            transfer,
            account,
            amount,
        } => plan_deposit(alloc, names, money, transfer, account, amount),
        Request::Withdraw {
            transfer,
            account,
            amount,
        } => plan_withdraw(alloc, names, money, transfer, account, amount),
        Request::InspectAsset { asset } => Ok(plan_inspect_asset(names, money, *asset)),
        Request::InspectAddress { address } => {
            plan_inspect_address(alloc, names, money, *address)
        }
        Request::InspectOutgoing { payment } => Ok(plan_inspect_outgoing(money, *payment)),
        Request::CancelOutgoing { payment } => Ok(plan_cancel_outgoing(money, *payment)),
        _ => unreachable!(),
    }
}
