//! Every route once, and what is refused. The expected answers follow the table of paths and methods of Open Payments.
use crate::request::RawRequest;
use crate::route::RouteFault;
use crate::table::RouteTable;
use op_model::Route;
use std::alloc::{AllocError, Global};
use std::process::Abort;
use std::test::Fail;

fn name_of(route: &Route) -> &'static str {
    match route {
        Route::SetOrigin => "SetOrigin",
        Route::AddAsset => "AddAsset",
        Route::InspectAsset { code: _, scale: _ } => "InspectAsset",
        Route::AddAddress => "AddAddress",
        Route::InspectAddress { id: _ } => "InspectAddress",
        Route::Deposit => "Deposit",
        Route::Withdraw => "Withdraw",
        Route::SetRate => "SetRate",
        Route::AcceptGrant { id: _ } => "AcceptGrant",
        Route::RejectGrant { id: _ } => "RejectGrant",
        Route::InspectOutgoing { id: _ } => "InspectOutgoing",
        Route::CancelOutgoing { id: _ } => "CancelOutgoing",
        Route::ReadAddress { path: _ } => "ReadAddress",
        Route::AskGrant => "AskGrant",
        Route::ContinueGrant { id: _ } => "ContinueGrant",
        Route::CancelGrant { id: _ } => "CancelGrant",
        Route::RotateToken { id: _ } => "RotateToken",
        Route::RevokeToken { id: _ } => "RevokeToken",
        Route::MakeIncoming => "MakeIncoming",
        Route::ListIncomings => "ListIncomings",
        Route::ReadIncoming { id: _ } => "ReadIncoming",
        Route::CompleteIncoming { id: _ } => "CompleteIncoming",
        Route::MakeQuote => "MakeQuote",
        Route::ReadQuote { id: _ } => "ReadQuote",
        Route::MakeOutgoing => "MakeOutgoing",
        Route::ListOutgoings => "ListOutgoings",
        Route::ReadOutgoing { id: _ } => "ReadOutgoing",
        Route::ReadFeed => "ReadFeed",
    }
}

/// The first parameter of a route, or nothing.
fn parameter_of(route: &Route) -> &[u8] {
    match route {
        Route::InspectAsset { code, scale: _ } => code.bytes(),
        Route::InspectAddress { id } => id.bytes(),
        Route::AcceptGrant { id } => id.bytes(),
        Route::RejectGrant { id } => id.bytes(),
        Route::InspectOutgoing { id } => id.bytes(),
        Route::CancelOutgoing { id } => id.bytes(),
        Route::ReadAddress { path } => path.bytes(),
        Route::ContinueGrant { id } => id.bytes(),
        Route::CancelGrant { id } => id.bytes(),
        Route::RotateToken { id } => id.bytes(),
        Route::RevokeToken { id } => id.bytes(),
        Route::ReadIncoming { id } => id.bytes(),
        Route::CompleteIncoming { id } => id.bytes(),
        Route::ReadQuote { id } => id.bytes(),
        Route::ReadOutgoing { id } => id.bytes(),
        _ => b"",
    }
}

fn asked(alloc: Global, method: &str, target: &str) -> Result<RawRequest, AllocError> {
    Ok(RawRequest::new(
        Vec::from_slice(alloc, method.as_bytes())?,
        Vec::from_slice(alloc, target.as_bytes())?,
        Vec::new(alloc),
        Vec::new(alloc),
    ))
}

/// The request has this route, and this is the first of its parameters.
fn expect(
    rt: &impl Abort,
    alloc: Global,
    table: &RouteTable,
    case: &(&str, &str, &str, &str),
) -> Result<(), Fail> {
    let raw = asked(alloc, case.0, case.1)?;
    match table.find_route(alloc, &raw) {
        Ok(route) => {
            assert_eq!(rt; name_of(&route), case.2);
            assert!(rt; parameter_of(&route) == case.3.as_bytes());
        }
        Err(_) => assert!(rt; false),
    }
    Ok(())
}

/// Each request has its route.
fn expect_each(
    rt: &impl Abort,
    alloc: Global,
    cases: &[(&str, &str, &str, &str)],
) -> Result<(), Fail> {
    let table = RouteTable::new(alloc)?;
    for case in cases {
        expect(rt, alloc, &table, case)?;
    }
    Ok(())
}

/// The request has no route: these are the methods that its path has, if it has any.
fn expect_none(
    rt: &impl Abort,
    alloc: Global,
    table: &RouteTable,
    case: (&str, &str, &str),
) -> Result<(), Fail> {
    let raw = asked(alloc, case.0, case.1)?;
    match table.find_route(alloc, &raw) {
        Ok(_) => assert!(rt; false),
        Err(fault) => assert!(rt; allowed_by(&fault) == case.2.as_bytes()),
    }
    Ok(())
}

/// The methods that a refusal tells, if it tells any.
fn allowed_by(fault: &RouteFault) -> &[u8] {
    match fault {
        RouteFault::NoRoute => b"",
        RouteFault::BadMethod { allow } => allow.bytes(),
        RouteFault::Memory => b"no memory",
    }
}

#[test]
fn each_route_once(rt: HostRuntime) -> Result<(), Fail> {
    let cases: [(&str, &str, &str, &str); 28] = [
        ("POST", "/admin/origin", "SetOrigin", ""),
        ("POST", "/admin/assets", "AddAsset", ""),
        ("GET", "/admin/assets/USD/2", "InspectAsset", "USD"),
        ("POST", "/admin/wallet-addresses", "AddAddress", ""),
        ("GET", "/admin/wallet-addresses/w1", "InspectAddress", "w1"),
        ("POST", "/admin/deposits", "Deposit", ""),
        ("POST", "/admin/withdrawals", "Withdraw", ""),
        ("POST", "/admin/rates", "SetRate", ""),
        ("POST", "/admin/interactions/g1/accept", "AcceptGrant", "g1"),
        ("POST", "/admin/interactions/g2/reject", "RejectGrant", "g2"),
        (
            "GET",
            "/admin/outgoing-payments/o1",
            "InspectOutgoing",
            "o1",
        ),
        (
            "POST",
            "/admin/outgoing-payments/o2/cancel",
            "CancelOutgoing",
            "o2",
        ),
        ("GET", "/alice/euro?x=/y", "ReadAddress", "/alice/euro"),
        ("POST", "/grant", "AskGrant", ""),
        ("POST", "/continue/g3", "ContinueGrant", "g3"),
        ("DELETE", "/continue/g4", "CancelGrant", "g4"),
        ("POST", "/token/g5", "RotateToken", "g5"),
        ("DELETE", "/token/g6", "RevokeToken", "g6"),
        ("POST", "/incoming-payments", "MakeIncoming", ""),
        ("GET", "/incoming-payments?first=1", "ListIncomings", ""),
        ("GET", "/incoming-payments/i1", "ReadIncoming", "i1"),
        (
            "POST",
            "/incoming-payments/i2/complete",
            "CompleteIncoming",
            "i2",
        ),
        ("POST", "/quotes", "MakeQuote", ""),
        ("GET", "/quotes/q1", "ReadQuote", "q1"),
        ("POST", "/outgoing-payments", "MakeOutgoing", ""),
        ("GET", "/outgoing-payments", "ListOutgoings", ""),
        ("GET", "/outgoing-payments/o3", "ReadOutgoing", "o3"),
        ("GET", "/monetization?page=p", "ReadFeed", ""),
    ];
    expect_each(&rt, rt.alloc(), &cases)
}

#[test]
fn no_route(rt: HostRuntime) -> Result<(), Fail> {
    let cases: [(&str, &str, &str); 11] = [
        ("GET", "/admin/assets", "POST"),
        ("POST", "/alice", "GET"),
        ("GET", "/continue/g1", "DELETE, POST"),
        ("DELETE", "/incoming-payments", "GET, POST"),
        ("PUT", "/quotes/q1", "GET"),
        ("get", "/quotes/q1", "GET"),
        ("GET", "/", ""),
        ("GET", "/quotes/q1/", ""),
        ("POST", "/incoming-payments//complete", ""),
        ("GET", "/admin", ""),
        ("GET", "alice", ""),
    ];
    let table = RouteTable::new(rt.alloc())?;
    for case in cases {
        expect_none(&rt, rt.alloc(), &table, case)?;
    }
    Ok(())
}
