//! Plans: what is to come of a request, as the model's definitions say it, with nothing changed yet. One function a route.
#![tactic(auto)]

mod plan;
mod provider;
mod routes;

pub use plan::Plan;
pub use routes::plan_request;
