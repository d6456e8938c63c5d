//! Rounds on one thread, in the order of the list.
ghost use Rattle.std.specs.Prelude.{◌≡◌, ◌<◌, ℕ, false, length, slice_get, Some};
ghost use Rattle.op_desk.specs.Batches.{history_in};
ghost use Rattle.op_model.specs.History.{origin_of};
ghost use Rattle.op_round.specs.Books.{IsFresh};
ghost use Rattle.op_round.specs.Jobs.{AreFresh, IsFreshJob, IsFitJob, PlainJob, PlainJobs, ActsFor};

use crate::job::Job;
use crate::prepare::{prepare_job, put_reply};
use op_desk::Batch;
use op_http::RouteTable;
use op_names::Origin;
use op_ports::{Source, Verifier};
use op_pricing::{FeeRule, PriceHook};
use std::alloc::Global;

/// Acts for a job that has a task.
fn act_in_turn<C, F: FeeRule>(batch: &mut Batch, hook: &PriceHook<F>, index: u64, job: &mut Job<C>)
    requires unused { slice_get batch.old.used index ≡ Some false }
    requires fit { IsFitJob batch.old.begun job.old }
    ensures { ActsFor F.FeeTerms.allows batch.old batch.new index job.old job.new }
{
    if let Some(task) = &job.task {
        let reply = batch.act(&job.word, hook, index, task);
        put_reply(&mut job.reply, reply);
    }
}

/// Reads a job's connection, and acts for it.
fn run_job<C: Source, V: Verifier, F: FeeRule>(
    alloc: Global,
    batch: &mut Batch,
    index: u64,
    table: &RouteTable,
    verifier: &V,
    hook: &PriceHook<F>,
    origin: &Origin,
    job: &mut Job<C>,
)
    requires unused { slice_get batch.old.used index ≡ Some false }
    requires origin { origin.now ≡ origin_of batch.old.begun }
    requires fresh { IsFreshJob batch.old.begun job.old }
    ensures job { PlainJob F.FeeTerms.allows (V.accepts verifier.now) C.left batch.old.begun batch.old.moment (history_in batch.old) job.old job.new (history_in batch.new) }
    ensures begun { (batch.new.begun ≡ batch.old.begun) × (batch.new.moment ≡ batch.old.moment) }
    ensures others { (i : ℕ) → index < i → slice_get batch.new.used i ≡ slice_get batch.old.used i }
{
    prepare_job(alloc, table, verifier, origin, job);
    act_in_turn(batch, hook, index, job);
}

/// Runs a round of jobs in the order of the list, without a thread: each connection is read, and its task is acted for.
pub fn run_round_plain<C: Source, V: Verifier, F: FeeRule>(
    alloc: Global,
    mut batch: Batch,
    jobs: &mut [Job<C>],
    table: &RouteTable,
    verifier: &V,
    hook: &PriceHook<F>,
) -> Batch
    requires fresh { IsFresh (length jobs.old) batch }
    requires jobs { AreFresh batch.begun jobs.old }
    ensures jobs { PlainJobs F.FeeTerms.allows (V.accepts verifier.now) C.left batch.begun batch.moment batch.begun jobs.old jobs.new (history_in result) }
    ensures begun { (result.begun ≡ batch.begun) × (result.moment ≡ batch.moment) }
{
    let origin = *batch.origin();
    for index in 0..jobs.len() {
        run_job(
            alloc,
            &mut batch,
            index as u64,
            table,
            verifier,
            hook,
            &origin,
            &mut jobs[index],
        );
    }
    batch
}
