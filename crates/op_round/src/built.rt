//! The requests that the wallet answers so far.
ghost use Rattle.std.specs.Prelude.{◌≡◌, IfOk, IfErr};
ghost use Rattle.op_api.specs.Body.{IsMeant, request_of};
ghost use Rattle.op_model.specs.Verdicts.{verdict_of};
ghost use Rattle.op_round.specs.Jobs.{IsFitRequest, IsBuiltFault};
ghost use Rattle.op_session.specs.Built.{is_built, meant_so_far};

use op_api::{ApiFault, prepare};
use op_http::{RawRequest, RouteTable};
use op_model::{Refusal, Request, Verdict};
use op_ports::Verifier;
use std::alloc::Global;

/// Whether the wallet answers this request so far.
fn is_built(request: &Request) -> bool
    ensures { result ≡ is_built request.now }
{
    matches!(request, Request::AddAsset { .. })
}

/// The request that a raw one means, and who asks. One that the wallet does not answer yet is not found.
pub fn prepare_built<V: Verifier>(
    alloc: Global,
    table: &RouteTable,
    raw: &RawRequest,
    verifier: &V,
) -> Result<(Request, Verdict), ApiFault>
    ensures meant { IsMeant (meant_so_far raw.now) (request_of result) }
    ensures asker { IfOk result (λ (request, verdict). verdict ≡ verdict_of (V.accepts verifier.now) raw.now) }
    ensures fit { IfOk result (λ (request, verdict). IsFitRequest request) }
    ensures printable { IfErr result IsBuiltFault }
{
    match prepare(alloc, table, raw, verifier) {
        Ok((request, verdict)) => {
            if is_built(&request) {
                return Ok((request, verdict));
            }
            Err(ApiFault::Refused(Refusal::NotFound))
        }
        Err(ApiFault::Refused(refusal)) => Err(ApiFault::Refused(refusal)),
        Err(ApiFault::Memory) => Err(ApiFault::Memory),
    }
}
