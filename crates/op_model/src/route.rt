//! Routes: what a method and a path ask for.

use crate::text::Text;

/// A route, one variant for each row of the table of routes, with what stands for each parameter of its path. In a request
/// that is the parameter's text, as it stands in the path.
#[derive(Clone, Copy, Drop)]
pub enum Route<P = Text> {
    /// `POST /admin/origin`
    SetOrigin,
    /// `POST /admin/assets`
    AddAsset,
    /// `GET /admin/assets/{code}/{scale}`
    InspectAsset { code: P, scale: P },
    /// `POST /admin/wallet-addresses`
    AddAddress,
    /// `GET /admin/wallet-addresses/{id}`
    InspectAddress { id: P },
    /// `POST /admin/deposits`
    Deposit,
    /// `POST /admin/withdrawals`
    Withdraw,
    /// `POST /admin/rates`
    SetRate,
    /// `POST /admin/interactions/{id}/accept`
    AcceptGrant { id: P },
    /// `POST /admin/interactions/{id}/reject`
    RejectGrant { id: P },
    /// `GET /admin/outgoing-payments/{id}`
    InspectOutgoing { id: P },
    /// `POST /admin/outgoing-payments/{id}/cancel`
    CancelOutgoing { id: P },
    /// `GET` an address path
    ReadAddress { path: P },
    /// `POST /grant`
    AskGrant,
    /// `POST /continue/{id}`
    ContinueGrant { id: P },
    /// `DELETE /continue/{id}`
    CancelGrant { id: P },
    /// `POST /token/{id}`
    RotateToken { id: P },
    /// `DELETE /token/{id}`
    RevokeToken { id: P },
    /// `POST /incoming-payments`
    MakeIncoming,
    /// `GET /incoming-payments`
    ListIncomings,
    /// `GET /incoming-payments/{id}`
    ReadIncoming { id: P },
    /// `POST /incoming-payments/{id}/complete`
    CompleteIncoming { id: P },
    /// `POST /quotes`
    MakeQuote,
    /// `GET /quotes/{id}`
    ReadQuote { id: P },
    /// `POST /outgoing-payments`
    MakeOutgoing,
    /// `GET /outgoing-payments`
    ListOutgoings,
    /// `GET /outgoing-payments/{id}`
    ReadOutgoing { id: P },
    /// `GET /monetization`
    ReadFeed,
}
