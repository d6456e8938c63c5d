//! Plans of the provider's requests on money: deposits and withdrawals, what is told of an asset, of a wallet address
//! and of an outgoing payment, and cancelling one. A plan tells what is to come of a request, with nothing changed yet.
//! One function a route. All values are smallest units of an asset.
#![tactic(auto)]

mod inspecting;
mod outgoing;
mod routes;
mod transfers;

pub use inspecting::{plan_inspect_address, plan_inspect_asset};
pub use outgoing::{plan_cancel_outgoing, plan_inspect_outgoing};
pub use routes::plan_money;
pub use transfers::{plan_deposit, plan_withdraw};
