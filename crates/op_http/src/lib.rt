//! HTTP: the requests of a stream, the route of each, and whole texts to a sink.
//!
//! `Reader` reads a stream by the definitions of op_model: which bytes are a request, where the next one begins, and
//! which beginnings are refused. `RouteTable` finds what a request asks for.
#![tactic(auto)]

mod frame;
mod head;
mod length;
mod marks;
mod reader;
mod request;
mod route;
#[cfg(test)]
mod route_tests;
mod table;
#[cfg(test)]
mod tests;
mod write;

pub use op_model::Route;
pub use reader::{HttpFault, Reader};
pub use request::{Field, RawRequest};
pub use route::RouteFault;
pub use table::RouteTable;
pub use write::write_all;
