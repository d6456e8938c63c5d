//! Requests as they came, and what they mean.
ghost use Rattle.std.specs.Prelude.{◌≡◌, IfOk, IfErr, IsTrue, Ok};
ghost use Rattle.op_model.specs.Legal.{keeps_forms};
ghost use Rattle.op_model.specs.Meant.{asked_of, meant};
ghost use Rattle.op_model.specs.Parameters.{number_named};
ghost use Rattle.op_model.specs.declared.request.Request.TheVariants as requests;
ghost use Rattle.op_model.specs.Verdicts.{verdict_of};
ghost use Rattle.op_api.specs.Body.{IsMeant, IsReadingFault, refusal_of, request_of};
ghost use Rattle.op_api.specs.declared.request.ApiFault.TheVariants.{Memory};

use crate::grants::{read_ask_grant, read_continue_grant};
use crate::parameters::{
    asset_named, number_named, read_feed, read_list_incomings, read_list_outgoings,
};
use crate::payments::{read_make_incoming, read_make_outgoing, read_make_quote};
use crate::provider::{
    read_add_address, read_add_asset, read_deposit, read_set_origin, read_set_rate, read_withdraw,
};
use crate::verdict::verdict_of;
use op_http::{RawRequest, Route, RouteFault, RouteTable};
use op_model::{Refusal, Request, Text, Verdict};
use op_names::{AddressPath, Kind};
use op_ports::Verifier;
use std::alloc::{AllocError, Global};
use std::fmt;
use thiserror::Error;

/// Why a request is not understood.
#[derive(Drop, Error)]
pub enum ApiFault {
    /// It is refused: for its path, its method, its parameters or its body.
    #[error("{}", cause_of(.0))]
    Refused(Refusal),
    /// Memory was wanting while it was read.
    #[error("out of memory")]
    Memory,
}

/// Its text alone: what a refusal keeps of the request is not shown.
impl fmt::Debug for ApiFault {
    fn fmt<W: fmt::Write>(&self, f: &mut fmt::Formatter<W>) -> fmt::Result {
        write!(f, "{self}")
    }
}

/// Why a request is refused before it is looked at on the history, in a line.
fn cause_of(refusal: &Refusal) -> &'static str {
    match refusal {
        Refusal::NotFound => "no route has the path",
        Refusal::MethodNotAllowed { .. } => "the path has other methods",
        Refusal::BadJson => "the body is no JSON object",
        Refusal::BadField { .. } => "a member or a parameter is missing or breaks its form",
        Refusal::InvalidRequest { .. } => "the body asks for no grant",
        _ => "the request is refused",
    }
}

impl From<AllocError> for ApiFault {
    ghost from_gives = { λ error fault. fault ≡ Memory };

    fn from(_: AllocError) -> ApiFault {
        ApiFault::Memory
    }
}

/// The refusal of a request that has no route.
fn unrouted(fault: RouteFault) -> ApiFault
    ensures { result ≡ refusal_of fault }
{
    match fault {
        RouteFault::NoRoute => ApiFault::Refused(Refusal::NotFound),
        RouteFault::BadMethod { allow } => {
            ApiFault::Refused(Refusal::MethodNotAllowed { allow })
        }
        RouteFault::Memory => ApiFault::Memory,
    }
}

/// The request to read the address at a path.
fn read_address(alloc: Global, path: &Text) -> Result<Request, ApiFault>
    ensures meant { IsMeant (Ok (requests.ReadAddress path.now)) result }
    ensures forms { IfErr result IsReadingFault }
{
    let path = AddressPath::new(Vec::from_slice(alloc, path.bytes())?);
    Ok(Request::ReadAddress { path })
}

/// The number of the row of a kind that a path's parameter names.
fn named(kind: Kind, id: &Text) -> Option<u64>
    ensures { result ≡ number_named kind id.now }
{
    number_named(kind, id.bytes())
}

/// The request that this one means on its route.
fn on_route(alloc: Global, route: &Route, raw: &RawRequest) -> Result<Request, ApiFault>
    ensures meant { IsMeant (asked_of route.now raw.now.target raw.now.body) result }
    ensures forms { IfErr result IsReadingFault }
{
    let request = match route {
        Route::SetOrigin => read_set_origin(alloc, raw.body())?,
        Route::AddAsset => read_add_asset(alloc, raw.body())?,
        Route::InspectAsset { code, scale } => Request::InspectAsset {
            asset: asset_named(code.bytes(), scale.bytes()),
        },
        Route::AddAddress => read_add_address(alloc, raw.body())?,
        Route::InspectAddress { id } => Request::InspectAddress {
            address: named(Kind::Address, id),
        },
        Route::Deposit => read_deposit(alloc, raw.body())?,
        Route::Withdraw => read_withdraw(alloc, raw.body())?,
        Route::SetRate => read_set_rate(alloc, raw.body())?,
        Route::AcceptGrant { id } => Request::AcceptGrant {
            grant: named(Kind::Grant, id),
        },
        Route::RejectGrant { id } => Request::RejectGrant {
            grant: named(Kind::Grant, id),
        },
        Route::InspectOutgoing { id } => Request::InspectOutgoing {
            payment: named(Kind::Outgoing, id),
        },
        Route::CancelOutgoing { id } => Request::CancelOutgoing {
            payment: named(Kind::Outgoing, id),
        },
        Route::ReadAddress { path } => read_address(alloc, path)?,
        Route::AskGrant => read_ask_grant(alloc, raw.body())?,
        Route::ContinueGrant { id } => {
            read_continue_grant(alloc, named(Kind::Grant, id), raw.body())?
        }
        Route::CancelGrant { id } => Request::CancelGrant {
            grant: named(Kind::Grant, id),
        },
        Route::RotateToken { id } => Request::RotateToken {
            grant: named(Kind::Grant, id),
        },
        Route::RevokeToken { id } => Request::RevokeToken {
            grant: named(Kind::Grant, id),
        },
        Route::MakeIncoming => read_make_incoming(alloc, raw.body())?,
        Route::ListIncomings => read_list_incomings(alloc, raw.target())?,
        Route::ReadIncoming { id } => Request::ReadIncoming {
            incoming: named(Kind::Incoming, id),
        },
        Route::CompleteIncoming { id } => Request::CompleteIncoming {
            incoming: named(Kind::Incoming, id),
        },
        Route::MakeQuote => read_make_quote(alloc, raw.body())?,
        Route::ReadQuote { id } => Request::ReadQuote {
            quote: named(Kind::Quote, id),
        },
        Route::MakeOutgoing => read_make_outgoing(alloc, raw.body())?,
        Route::ListOutgoings => read_list_outgoings(alloc, raw.target())?,
        Route::ReadOutgoing { id } => Request::ReadOutgoing {
            outgoing: named(Kind::Outgoing, id),
        },
        Route::ReadFeed => read_feed(alloc, raw.target())?,
    };
    Ok(request)
}

/// The request that this one means, by its method, target and body.
fn read_request(alloc: Global, table: &RouteTable, raw: &RawRequest) -> Result<Request, ApiFault>
    ensures meant { IsMeant (meant raw.now) result }
    ensures forms { IfErr result IsReadingFault }
{
    match table.find_route(alloc, raw) {
        Ok(route) => on_route(alloc, &route, raw),
        Err(fault) => Err(unrouted(fault)),
    }
}

/// The request that this one means, by its method, target and body, and who asks, by its fields. Who asks is not looked
/// at where it means none. The table of routes is made once, and lent here.
///
/// # Errors
///
/// `Refused` exactly where it means none: `NotFound` where no route has its path, `MethodNotAllowed` where the path has
/// other methods, `BadJson` where its body is no object, `BadField` with the first member or parameter that is missing or
/// breaks its form; on the routes of grants `InvalidRequest` in place of these two. `Memory` where memory was wanting.
pub fn prepare<V: Verifier>(
    alloc: Global,
    table: &RouteTable,
    raw: &RawRequest,
    verifier: &V,
) -> Result<(Request, Verdict), ApiFault>
    ensures meant { IsMeant (meant raw.now) (request_of result) }
    ensures asker { IfOk result (λ (request, verdict). verdict ≡ verdict_of (V.accepts verifier.now) raw.now) }
    ensures kept { IfOk result (λ (request, verdict). IsTrue (keeps_forms request)) }
    ensures forms { IfErr result IsReadingFault }
{
    let request = read_request(alloc, table, raw)?;
    let verdict = verdict_of(alloc, raw, verifier)?;
    Ok((request, verdict))
}
