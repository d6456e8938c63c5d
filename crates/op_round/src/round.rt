//! Rounds in which workers act under a lock.
ghost use Rattle.std.specs.Prelude.{◌≡◌, ◌<◌, List, [], true, false, length, replicate, slice_get, slice_set, Some, None, IsSome, IfOk};
ghost use Rattle.op_model.specs.History.{origin_of};
ghost use Rattle.op_model.specs.declared.act.Entry.{Entry};
ghost use Rattle.op_round.specs.Books.{Asked, IsFit, AreFit, AllUsed, GrowsUsed, IsFresh, IsDone};
ghost use Rattle.op_round.specs.Jobs.{asked_of, asking, IsFitJob, IsFreshJob, IsReadJob, AreRead, AreFresh, IsRoundOfJobs, Gives, AreGiven};

use crate::book::{Book, Named};
use crate::gate::Gate;
use crate::job::Job;
use crate::prepare::{prepare_job, put_reply};
use op_desk::Batch;
use op_http::RouteTable;
use op_model::{Reply, Task, Word};
use op_names::Origin;
use op_ports::{Source, Verifier};
use op_pricing::{FeeRule, PriceHook};
use std::alloc::{AllocError, Global};
use std::marker::Brand;
use std::sync::{Mutex, Wait};
use std::thread::Threads;
use std::{mem, thread};

/// A worker acts for an index, unless another did.
fn act_once<N: Named, F: FeeRule, G: Gate>(
    rt: &impl Wait,
    book: &Mutex<Book<N, F>>,
    hook: &PriceHook<F>,
    gate: &G,
    index: u64,
    word: &Word,
    task: &Task,
)
    requires named { slice_get N.asked index ≡ Some (Some (record { word = word.now; task = task.now })) }
    requires inside { index < length N.asked }
    requires fit { IsFit N.start task.now }
{
    gate.pass(index);
    let mut guard = book.lock(rt);
    if !guard.is_used(index) {
        let reply = guard.act(word, hook, index, task);
        gate.answered(index, reply);
    }
}

/// A worker acts for a job that has a task.
fn act_for<N: Named, F: FeeRule, G: Gate, C>(
    rt: &impl Wait,
    book: &Mutex<Book<N, F>>,
    hook: &PriceHook<F>,
    gate: &G,
    index: u64,
    job: &Job<C>,
)
    requires named { slice_get N.asked index ≡ Some (asked_of job.now) }
    requires inside { index < length N.asked }
    requires fit { IsFitJob N.start job.now }
{
    if let Some(task) = &job.task {
        act_once(rt, book, hook, gate, index, &job.word, task);
    }
}

/// Acts for a job that has a task, unless a worker did.
fn act_unless_used<N: Named, F: FeeRule, C>(
    book: &mut Book<N, F>,
    hook: &PriceHook<F>,
    index: u64,
    job: &Job<C>,
)
    requires named { slice_get N.asked index ≡ Some (asked_of job.now) }
    requires inside { index < length N.asked }
    requires fit { IsFitJob N.start job.now }
    ensures used { (a : Asked) → slice_get N.asked index ≡ Some (Some a) → slice_get book.new.batch.used index ≡ Some true }
    ensures still { GrowsUsed book.old.batch.used book.new.batch.used }
{
    if let Some(task) = &job.task {
        if !book.is_used(index) {
            book.act_at(&job.word, hook, index, task);
        }
    }
}

/// Acts for each job that has a task and that no worker acted for, in order.
fn act_rest<N: Named, F: FeeRule, C>(book: &mut Book<N, F>, hook: &PriceHook<F>, jobs: &[Job<C>])
    requires asked { asking jobs.now ≡ N.asked }
    requires fit { AreFit N.start N.asked }
    ensures { AllUsed (length N.asked) N.asked book.new.batch.used }
{
    for index in 0..jobs.len() {
        act_unless_used(book, hook, index as u64, &jobs[index]);
    }
}

/// Workers act for all jobs that have a task, under one lock.
fn act_all<
    N: Named + Send + Sync,
    R: Threads + Wait + Sync,
    F: FeeRule + Send + Sync,
    G: Gate + Sync,
    C: Send,
>(
    rt: &R,
    workers: usize,
    batch: Batch,
    replies: Vec<Option<Reply>>,
    jobs: &mut [Job<C>],
    hook: &PriceHook<F>,
    gate: &G,
) -> (Batch, Vec<Option<Reply>>)
    requires workers { 0 < workers }
    requires start { (batch.begun ≡ N.start) × (batch.moment ≡ N.moment) × (batch.entries ≡ []) }
    requires indexes { (batch.places ≡ replicate (length N.asked) 0) × (batch.used ≡ replicate (length N.asked) false) }
    requires replies { replies.items ≡ replicate (length N.asked) None }
    requires asked { asking jobs.old ≡ N.asked }
    requires fit { AreFit N.start N.asked }
    ensures done { IsDone F.FeeTerms.allows N.start N.moment N.asked result.0 result.1.items }
    ensures same { jobs.new ≡ jobs.old }
{
    let book: Mutex<Book<N, F>> = Mutex::new(Book::new(batch, replies));
    let shared = &book;
    let work = move |index: usize, job: &mut Job<C>|
        requires { (index < length N.asked) × (slice_get N.asked index ≡ Some (asked_of job.now)) × IsFitJob N.start job.now }
        ensures { job.exit.now ≡ job.entry.now }
    { act_for(rt, shared, hook, gate, index as u64, job) };
    thread::for_each_mut(rt, jobs, workers, &work);
    let mut book = book.into_inner();
    act_rest(&mut book, hook, jobs);
    book.finish()
}

/// Workers act for all jobs that have a task, under one lock: whatever order they took it in, the replies are those of one
/// round.
fn run_tasks<R: Threads + Wait + Sync, F: FeeRule + Send + Sync, G: Gate + Sync, C: Send>(
    rt: &R,
    workers: usize,
    batch: Batch,
    replies: Vec<Option<Reply>>,
    jobs: &mut [Job<C>],
    hook: &PriceHook<F>,
    gate: &G,
) -> (Batch, Vec<Option<Reply>>)
    requires workers { 0 < workers }
    requires fresh { IsFresh (length jobs.old) batch }
    requires replies { replies.items ≡ replicate (length jobs.old) None }
    requires fit { AreFit batch.begun (asking jobs.old) }
    ensures done { IsDone F.FeeTerms.allows batch.begun batch.moment (asking jobs.old) result.0 result.1.items }
    ensures same { jobs.new ≡ jobs.old }
{
    act_all::<Brand, R, F, G, C>(rt, workers, batch, replies, jobs, hook, gate)
}

/// The connections of all jobs are read by workers, without a lock.
fn prepare_all<R: Threads + Sync, C: Source + Send, V: Verifier + Sync>(
    rt: &R,
    alloc: Global,
    workers: usize,
    table: &RouteTable,
    verifier: &V,
    origin: &Origin,
    jobs: &mut [Job<C>],
)
    requires workers { 0 < workers }
    ensures { (start : List Entry) → origin.now ≡ origin_of start → AreFresh start jobs.old → AreRead (V.accepts verifier.now) C.left start jobs.old jobs.new }
{
    let read = move |_index: usize, job: &mut Job<C>|
        ensures { (start : List Entry) → origin.entry.now ≡ origin_of start → IsFreshJob start job.entry.now → IsReadJob (V.accepts verifier.entry.now) C.left start job.entry.now job.exit.now }
    { prepare_job(alloc, table, verifier, origin, job) };
    thread::for_each_mut(rt, jobs, workers, &read);
}

/// Takes a reply out of its place.
fn take_reply(replies: &mut Vec<Option<Reply>>, index: usize) -> Option<Reply>
    requires { index < length replies.old.items }
    ensures reply { slice_get replies.old.items index ≡ Some result }
    ensures left { replies.new.items ≡ slice_set replies.old.items index None }
{
    mem::replace(&mut replies[index], None)
}

/// Puts a reply, if there is one, into a job's slot.
fn give<C>(job: &mut Job<C>, reply: Option<Reply>)
    ensures { Gives job.old job.new reply }
{
    if let Some(reply) = reply {
        put_reply(&mut job.reply, reply);
    }
}

/// Puts the replies into the jobs' slots.
fn give_replies<C>(jobs: &mut [Job<C>], mut replies: Vec<Option<Reply>>)
    requires { length replies.items ≡ length jobs.old }
    ensures { AreGiven jobs.old jobs.new replies.items }
{
    for index in 0..jobs.len() {
        let reply = take_reply(&mut replies, index);
        give(&mut jobs[index], reply);
    }
}

/// Room for so many replies.
fn no_replies(alloc: Global, count: usize) -> Result<Vec<Option<Reply>>, AllocError>
    ensures { IfOk result (λ replies. replies.items ≡ replicate count None) }
{
    let mut replies = Vec::new(alloc);
    for _made in 0..count {
        replies.push(None)?;
    }
    Ok(replies)
}

/// Runs a round of jobs. Up to `workers` workers read the connections, without a lock; when all are read, they act for the
/// jobs that have a task, one at a time; whatever order they came in, the replies are those of one round. With one job or
/// one worker it makes no thread. It can wait.
///
/// A slot gets the reply of its job's task, or the refusal of what its connection sent, or that memory was wanting. It stays
/// empty where the connection ended, or its read failed, before a whole request. Where the second part of the answer is
/// there, room was wanting, and no job was begun.
pub fn run_round<
    R: Threads + Wait + Sync,
    C: Source + Send,
    V: Verifier + Sync,
    F: FeeRule + Send + Sync,
    G: Gate + Sync,
>(
    rt: &R,
    alloc: Global,
    workers: u32,
    batch: Batch,
    jobs: &mut [Job<C>],
    table: &RouteTable,
    verifier: &V,
    hook: &PriceHook<F>,
    gate: &G,
) -> (Batch, Option<AllocError>)
    requires workers { 0 < workers }
    requires fresh { IsFresh (length jobs.old) batch }
    requires jobs { AreFresh batch.begun jobs.old }
    ensures round { result.1 ≡ None → IsRoundOfJobs F.FeeTerms.allows (V.accepts verifier.now) C.left batch.begun batch.moment jobs.old jobs.new result.0 }
    ensures begun { (result.0.begun ≡ batch.begun) × (result.0.moment ≡ batch.moment) }
    ensures wanted { IsSome result.1 → (jobs.new ≡ jobs.old) × (result.0 ≡ batch) }
{
    let replies = match no_replies(alloc, jobs.len()) {
        Ok(replies) => replies,
        Err(error) => return (batch, Some(error)),
    };
    let origin = *batch.origin();
    prepare_all(rt, alloc, workers as usize, table, verifier, &origin, jobs);
    let (batch, replies) = run_tasks(rt, workers as usize, batch, replies, jobs, hook, gate);
    give_replies(jobs, replies);
    (batch, None)
}
