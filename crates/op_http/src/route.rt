//! Routes, and the parameters that their paths have.
ghost use Rattle.std.specs.Prelude.{◌≡◌, ◌≤◌, length, IfOk};
ghost use Rattle.std.specs.List.{position_or_len, after_first};
ghost use Rattle.op_names.specs.Forms.{is_slash};
ghost use Rattle.op_model.specs.RouteTable.{is_question, path_of};
ghost use Rattle.op_http.specs.Routers.{segment, filled};
ghost use Rattle.op_http.specs.declared.route.RouteFault.TheVariants as faults;

use op_model::{Route, Text};
use std::alloc::{AllocError, Global};
use std::fmt;
use thiserror::Error;

/// Why there is no route.
#[derive(Drop, Error)]
pub enum RouteFault {
    /// No path of the table fits, and it is no address path: 404.
    #[error("no route has this path")]
    NoRoute,
    /// The path has other methods, these: 405 (RFC 9110, section 15.5.6).
    #[error("the path has other methods")]
    BadMethod { allow: Text },
    /// Memory was wanting.
    #[error("memory was wanting")]
    Memory,
}

impl fmt::Debug for RouteFault {
    fn fmt<W: fmt::Write>(&self, f: &mut fmt::Formatter<W>) -> fmt::Result {
        f.write_str(match self {
            RouteFault::NoRoute => "NoRoute",
            RouteFault::BadMethod { .. } => "BadMethod",
            RouteFault::Memory => "Memory",
        })
    }
}

impl From<AllocError> for RouteFault {
    ghost from_gives = { λ error fault. fault ≡ faults.Memory };

    fn from(_: AllocError) -> RouteFault {
        RouteFault::Memory
    }
}

/// How many bytes stand before the first slash.
fn slash_at(text: &[u8]) -> usize
    ensures value { result ≡ position_or_len is_slash text.now }
    ensures within { result ≤ length text.now }
{
    for (i, b) in text.iter().enumerate() {
        if *b == b'/' {
            return i;
        }
    }
    text.len()
}

/// What stands behind the first slash.
fn behind_slash(text: &[u8]) -> &[u8]
    ensures { result.now ≡ after_first is_slash text.now }
{
    let slash = slash_at(text);
    if slash < text.len() {
        &text[slash + 1..]
    } else {
        b""
    }
}

/// A segment of a path. That of number 0 stands behind the first slash.
fn segment_of(path: &[u8], number: usize) -> &[u8]
    ensures { result.now ≡ segment number path.now }
{
    let mut rest = behind_slash(path);
    let mut passed = 0;
    while passed < number {
        rest = behind_slash(rest);
        passed += 1;
    }
    &rest[..slash_at(rest)]
}

fn segment(alloc: Global, path: &[u8], number: usize) -> Result<Text, AllocError>
    ensures { IfOk result (λ text. text ≡ segment number path.now) }
{
    Ok(Text::new(Vec::from_slice(alloc, segment_of(path, number))?))
}

/// The route with the segments of a path that are its parameters.
pub(crate) fn fill(alloc: Global, route: Route<usize>, path: &[u8]) -> Result<Route, AllocError>
    ensures { IfOk result (λ whole. whole ≡ filled route (λ number. segment number path.now)) }
{
    let whole = match route {
        Route::SetOrigin => Route::SetOrigin,
        Route::AddAsset => Route::AddAsset,
        Route::InspectAsset { code, scale } => Route::InspectAsset {
            code: segment(alloc, path, code)?,
            scale: segment(alloc, path, scale)?,
        },
        Route::AddAddress => Route::AddAddress,
        Route::InspectAddress { id } => Route::InspectAddress {
            id: segment(alloc, path, id)?,
        },
        Route::Deposit => Route::Deposit,
        Route::Withdraw => Route::Withdraw,
        Route::SetRate => Route::SetRate,
        Route::AcceptGrant { id } => Route::AcceptGrant {
            id: segment(alloc, path, id)?,
        },
        Route::RejectGrant { id } => Route::RejectGrant {
            id: segment(alloc, path, id)?,
        },
        Route::InspectOutgoing { id } => Route::InspectOutgoing {
            id: segment(alloc, path, id)?,
        },
        Route::CancelOutgoing { id } => Route::CancelOutgoing {
            id: segment(alloc, path, id)?,
        },
        Route::ReadAddress { path: number } => Route::ReadAddress {
            path: segment(alloc, path, number)?,
        },
        Route::AskGrant => Route::AskGrant,
        Route::ContinueGrant { id } => Route::ContinueGrant {
            id: segment(alloc, path, id)?,
        },
        Route::CancelGrant { id } => Route::CancelGrant {
            id: segment(alloc, path, id)?,
        },
        Route::RotateToken { id } => Route::RotateToken {
            id: segment(alloc, path, id)?,
        },
        Route::RevokeToken { id } => Route::RevokeToken {
            id: segment(alloc, path, id)?,
        },
        Route::MakeIncoming => Route::MakeIncoming,
        Route::ListIncomings => Route::ListIncomings,
        Route::ReadIncoming { id } => Route::ReadIncoming {
            id: segment(alloc, path, id)?,
        },
        Route::CompleteIncoming { id } => Route::CompleteIncoming {
            id: segment(alloc, path, id)?,
        },
        Route::MakeQuote => Route::MakeQuote,
        Route::ReadQuote { id } => Route::ReadQuote {
            id: segment(alloc, path, id)?,
        },
        Route::MakeOutgoing => Route::MakeOutgoing,
        Route::ListOutgoings => Route::ListOutgoings,
        Route::ReadOutgoing { id } => Route::ReadOutgoing {
            id: segment(alloc, path, id)?,
        },
        Route::ReadFeed => Route::ReadFeed,
    };
    Ok(whole)
}

/// How many bytes stand before the first `?`.
fn question_at(target: &[u8]) -> usize
    ensures value { result ≡ position_or_len is_question target.now }
    ensures within { result ≤ length target.now }
{
    for (i, b) in target.iter().enumerate() {
        if *b == b'?' {
            return i;
        }
    }
    target.len()
}

/// The path of a target: what stands before its first `?`.
pub(crate) fn path_of(target: &[u8]) -> &[u8]
    ensures { result.now ≡ path_of target.now }
{
    &target[..question_at(target)]
}
