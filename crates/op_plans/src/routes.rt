//! The plan of each request.

ghost use Rattle.std.specs.Prelude.{List, IfOk, IsTrue};
ghost use Rattle.op_model.specs.declared.act.Entry.{Entry};
ghost use Rattle.op_naming.specs.Names.{AreNames};
ghost use Rattle.op_plans.specs.Plans.{IsPlanned, AreBased, is_provider_request};

use crate::plan::Plan;
use crate::provider::{
    plan_add_address, plan_add_asset, plan_read_address, plan_set_origin, plan_set_rate,
};
use op_model::Request;
use op_naming::Names;
use std::alloc::{AllocError, Global};

/// What is to come of a request of the provider on origin, assets, addresses or rates, or of one that reads an address.
pub fn plan_request(alloc: Global, names: &Names, request: &Request) -> Result<Plan, AllocError>
    requires { IsTrue (is_provider_request request.now) }
    ensures { IfOk result (λ plan. (history : List Entry) → AreNames history names.now → AreBased history → IsPlanned history request.now plan) }
{
    match request {
        Request::SetOrigin { origin } => Ok(plan_set_origin(names, origin)),
        Request::AddAsset { asset, pieces } => Ok(plan_add_asset(names, asset, *pieces)),
        Request::AddAddress { path, asset, name } => {
            plan_add_address(alloc, names, path, asset, name)
        }
        Request::SetRate {
            source,
            target,
            rate,
        } => Ok(plan_set_rate(names, source, target, *rate)),
        Request::ReadAddress { path } => plan_read_address(alloc, names, path),
        _ => unreachable!(),
    }
}
