//! The table of routes: a router for each method, made once and lent to each look-up.
ghost use Rattle.std.specs.Prelude.{◌≡◌, [], map, ◌||◌, IfOk, OnOk, None, codes};
ghost use Rattle.std.specs.Option.{option_map, is_some};
ghost use Rattle.op_names.specs.Forms.{is_path};
ghost use Rattle.op_model.specs.RouteTable.{delete, get, post, rows, route_in, route_at, methods_at, route_of, route_or_refusal, joined};
ghost use Rattle.op_http.specs.Routers.{segment, with_row, rows_from, row_of, filled, found, FindsFor, methods_with};
ghost use Rattle.op_http.specs.Routes.{IsMissed, Routed};

use crate::request::RawRequest;
use crate::route::{RouteFault, fill, path_of};
use http::Method;
use matchit::Router;
use op_model::{Route, Text};
use op_names::{NameFault, read_path};
use std::alloc::{AllocError, Global};

/// A path, in which `{..}` stands for one segment, and the route there, with the number of the segment that each parameter is.
type Row = (&'static str, Route<usize>);

const DELETE: [Row; 2] = [
    ("/continue/{id}", Route::CancelGrant { id: 1 }),
    ("/token/{id}", Route::RevokeToken { id: 1 }),
];

const GET: [Row; 9] = [
    (
        "/admin/assets/{code}/{scale}",
        Route::InspectAsset { code: 2, scale: 3 },
    ),
    (
        "/admin/wallet-addresses/{id}",
        Route::InspectAddress { id: 2 },
    ),
    (
        "/admin/outgoing-payments/{id}",
        Route::InspectOutgoing { id: 2 },
    ),
    ("/incoming-payments", Route::ListIncomings),
    ("/incoming-payments/{id}", Route::ReadIncoming { id: 1 }),
    ("/quotes/{id}", Route::ReadQuote { id: 1 }),
    ("/outgoing-payments", Route::ListOutgoings),
    ("/outgoing-payments/{id}", Route::ReadOutgoing { id: 1 }),
    ("/monetization", Route::ReadFeed),
];

const POST: [Row; 16] = [
    ("/admin/origin", Route::SetOrigin),
    ("/admin/assets", Route::AddAsset),
    ("/admin/wallet-addresses", Route::AddAddress),
    ("/admin/deposits", Route::Deposit),
    ("/admin/withdrawals", Route::Withdraw),
    ("/admin/rates", Route::SetRate),
    (
        "/admin/interactions/{id}/accept",
        Route::AcceptGrant { id: 2 },
    ),
    (
        "/admin/interactions/{id}/reject",
        Route::RejectGrant { id: 2 },
    ),
    (
        "/admin/outgoing-payments/{id}/cancel",
        Route::CancelOutgoing { id: 2 },
    ),
    ("/grant", Route::AskGrant),
    ("/continue/{id}", Route::ContinueGrant { id: 1 }),
    ("/token/{id}", Route::RotateToken { id: 1 }),
    ("/incoming-payments", Route::MakeIncoming),
    (
        "/incoming-payments/{id}/complete",
        Route::CompleteIncoming { id: 1 },
    ),
    ("/quotes", Route::MakeQuote),
    ("/outgoing-payments", Route::MakeOutgoing),
];

fn add(router: &mut Router<Route<usize>>, row: &Row) -> Result<(), AllocError>
    ensures { OnOk result (router.new ≡ with_row router.old (row_of row.now)) }
{
    match router.insert(row.0, row.1) {
        Ok(()) => Ok(()),
        Err(_) => Err(AllocError),
    }
}

/// The router of these rows.
fn router_of(alloc: Global, table: &[Row]) -> Result<Router<Route<usize>>, AllocError>
    ensures { IfOk result (λ router. router ≡ rows_from [] (map row_of table.now)) }
{
    let mut router = Router::new(alloc);
    for row in table {
        add(&mut router, row)?;
    }
    Ok(router)
}

/// The route of the row that fits a path.
fn look_up(router: &Router<Route<usize>>, path: &str) -> Option<Route<usize>>
    ensures { result ≡ found router.now path.now }
{
    match router.at(path) {
        Ok(row) => Some(*row.value),
        Err(_) => None,
    }
}

/// Whether a wallet address has this path.
fn is_address(alloc: Global, path: &str) -> Result<bool, AllocError>
    ensures { IfOk result (λ is. is ≡ is_path path.now) }
{
    match read_path(alloc, path) {
        Ok(_) => Ok(true),
        Err(NameFault::Shape) => Ok(false),
        Err(NameFault::Memory) => Err(AllocError),
    }
}

/// The methods that are there, in ascending order and joined by `, `.
fn joined(has_delete: bool, has_get: bool, has_post: bool) -> &'static str
    ensures { result.now ≡ joined (methods_with has_delete has_get has_post) }
{
    match (has_delete, has_get, has_post) {
        (true, true, true) => "DELETE, GET, POST",
        (true, true, false) => "DELETE, GET",
        (true, false, true) => "DELETE, POST",
        (true, false, false) => "DELETE",
        (false, true, true) => "GET, POST",
        (false, true, false) => "GET",
        (false, false, true) => "POST",
        (false, false, false) => "",
    }
}

/// Why a path has no route for a method, where these are the methods that it has one for.
fn fault(alloc: Global, has_delete: bool, has_get: bool, has_post: bool) -> RouteFault
    ensures { IsMissed (route_or_refusal None (methods_with has_delete has_get has_post)) result }
{
    if !has_delete && !has_get && !has_post {
        return RouteFault::NoRoute;
    }
    match Vec::from_slice(alloc, joined(has_delete, has_get, has_post).as_bytes()) {
        Ok(allow) => RouteFault::BadMethod {
            allow: Text::new(allow),
        },
        Err(_) => RouteFault::Memory,
    }
}

/// The table of routes. Making it takes memory; a look-up takes memory for what it answers alone.
#[derive(Drop)]
pub struct RouteTable {
    delete: Router<Route<usize>>,
    get: Router<Route<usize>>,
    post: Router<Route<usize>>,
    ghost deletes: { FindsFor (codes "DELETE") delete },
    ghost gets: { FindsFor (codes "GET") get },
    ghost posts: { FindsFor (codes "POST") post },
}

impl RouteTable {
    /// The table.
    ///
    /// # Errors
    ///
    /// Memory was wanting.
    pub fn new(alloc: Global) -> Result<RouteTable, AllocError> {
        Ok(RouteTable {
            delete: router_of(alloc, &DELETE)?,
            get: router_of(alloc, &GET)?,
            post: router_of(alloc, &POST)?,
        })
    }

    /// The route of a row that has this method and fits this path.
    fn row_route(&self, method: &[u8], path: &str) -> Option<Route<usize>>
        ensures { option_map (λ route. filled route (λ number. segment number path.now)) result ≡ route_in rows method.now path.now }
    {
        if method == Method::DELETE.as_str().as_bytes() {
            return look_up(&self.delete, path);
        }
        if method == Method::GET.as_str().as_bytes() {
            return look_up(&self.get, path);
        }
        if method == Method::POST.as_str().as_bytes() {
            return look_up(&self.post, path);
        }
        None
    }

    /// Why a path has no route for a method, where no row has one.
    fn fault(&self, alloc: Global, path: &str, is_address: bool) -> RouteFault
        ensures { IsMissed (route_or_refusal None (methods_with (is_some (route_in rows delete path.now)) (is_some (route_in rows get path.now) || is_address) (is_some (route_in rows post path.now)))) result }
    {
        let has_delete = look_up(&self.delete, path).is_some();
        let has_get = look_up(&self.get, path).is_some() || is_address;
        let has_post = look_up(&self.post, path).is_some();
        fault(alloc, has_delete, has_get, has_post)
    }

    /// The route that a method has at a path, or why it has none.
    fn route_at(&self, alloc: Global, method: &[u8], path: &str) -> Result<Route, RouteFault>
        ensures { Routed (route_or_refusal (route_at method.now path.now) (methods_at path.now)) result }
    {
        if let Some(route) = self.row_route(method, path) {
            return Ok(fill(alloc, route, path.as_bytes())?);
        }
        let is_address = is_address(alloc, path)?;
        if is_address && method == Method::GET.as_str().as_bytes() {
            return Ok(Route::ReadAddress {
                path: Text::new(Vec::from_slice(alloc, path.as_bytes())?),
            });
        }
        Err(self.fault(alloc, path, is_address))
    }

    /// The route of a request. It looks at the method and the target alone.
    ///
    /// # Errors
    ///
    /// `NoRoute` exactly where the table has no such path, and it is no address path; `BadMethod` exactly where it has
    /// the path and not the method. `Memory` where memory was wanting.
    pub fn find_route(&self, alloc: Global, raw: &RawRequest) -> Result<Route, RouteFault>
        ensures { Routed (route_of raw.now.method raw.now.target) result }
    {
        match str::from_utf8(path_of(raw.target())) {
            Ok(path) => self.route_at(alloc, raw.method(), path),
            Err(_) => Err(RouteFault::NoRoute),
        }
    }
}
