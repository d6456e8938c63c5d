//! Reading one request from a connection.
ghost use Rattle.std.specs.Prelude.{◌≡◌, List, Some};
ghost use Rattle.op_model.specs.History.{origin_of};
ghost use Rattle.op_model.specs.declared.act.Entry.{Entry};
ghost use Rattle.op_round.specs.Jobs.{IsAskedBy, Follows, IsPrepared, IsReady, IsReadJob, IsFreshJob};

use crate::built::prepare_built;
use crate::job::Job;
use crate::prepared::Prepared;
use op_api::ApiFault;
use op_http::{HttpFault, RawRequest, Reader, RouteTable};
use op_model::{Refusal, Reply, ReplyBody, Task};
use op_names::Origin;
use op_ports::{Source, Verifier};
use std::alloc::Global;
use std::mem;

/// What a request asks.
fn asked_by<V: Verifier>(
    alloc: Global,
    table: &RouteTable,
    raw: &RawRequest,
    verifier: &V,
) -> Prepared
    ensures asked { IsAskedBy (V.accepts verifier.now) raw.now result }
    ensures ready { IsReady result }
{
    match prepare_built(alloc, table, raw, verifier) {
        Ok((request, verdict)) => Prepared::Asks(Task::Ask { request, verdict }),
        Err(ApiFault::Refused(refusal)) => Prepared::Refused(refusal),
        Err(ApiFault::Memory) => Prepared::Refused(Refusal::Memory),
    }
}

/// What follows from what a call for a request answered.
fn follow<V: Verifier>(
    alloc: Global,
    table: &RouteTable,
    read: Result<Option<RawRequest>, HttpFault>,
    verifier: &V,
) -> Prepared
    ensures follows { Follows (V.accepts verifier.now) read result }
    ensures ready { IsReady result }
{
    match read {
        Ok(Some(raw)) => asked_by(alloc, table, &raw, verifier),
        Ok(None) => Prepared::Silent,
        Err(HttpFault::ReadFault) => Prepared::Silent,
        Err(HttpFault::Memory) => Prepared::Refused(Refusal::Memory),
        Err(HttpFault::BadHttp { at }) => Prepared::Refused(Refusal::BadHttp { at }),
        Err(HttpFault::LengthRequired { at }) => Prepared::Refused(Refusal::LengthRequired { at }),
        Err(HttpFault::TooLarge { at }) => Prepared::Refused(Refusal::RequestTooLarge { at }),
    }
}

/// Takes one request from a connection.
fn prepare_conn<C: Source, V: Verifier>(
    alloc: Global,
    table: &RouteTable,
    conn: &mut C,
    verifier: &V,
) -> Prepared
    ensures prepared { IsPrepared (V.accepts verifier.now) (C.left conn.old) (C.left conn.new) result }
    ensures ready { IsReady result }
{
    let mut reader = Reader::new(alloc);
    let read = reader.next(alloc, conn);
    follow(alloc, table, read, verifier)
}

/// Puts a task into its place.
fn put_task(place: &mut Option<Task>, task: Task)
    ensures { place.new ≡ Some task }
{
    let _old = mem::replace(place, Some(task));
}

/// Puts a reply into its slot.
pub(crate) fn put_reply(slot: &mut Option<Reply>, reply: Reply)
    ensures { slot.new ≡ Some reply }
{
    let _old = mem::replace(slot, Some(reply));
}

/// Reads the connection of a job, if it has one.
pub(crate) fn prepare_job<C: Source, V: Verifier>(
    alloc: Global,
    table: &RouteTable,
    verifier: &V,
    origin: &Origin,
    job: &mut Job<C>,
)
    ensures { (start : List Entry) → origin.now ≡ origin_of start → IsFreshJob start job.old → IsReadJob (V.accepts verifier.now) C.left start job.old job.new }
{
    let Some(conn) = &mut job.conn else {
        return;
    };
    match prepare_conn(alloc, table, conn, verifier) {
        Prepared::Asks(task) => put_task(&mut job.task, task),
        Prepared::Refused(refusal) => put_reply(
            &mut job.reply,
            Reply {
                origin: *origin,
                body: ReplyBody::Refused(refusal),
            },
        ),
        Prepared::Silent => {}
    }
}
