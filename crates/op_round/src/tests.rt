//! Workers that meet at a gate: they act for the jobs of a round beside each other.
ghost use Rattle.std.specs.Prelude.{◌≡◌, ◌<◌, List, [], ◌∷◌, false, length, IfOk};
ghost use Rattle.op_model.specs.declared.act.Entry.{Entry};
ghost use Rattle.op_round.specs.Books.{IsFresh};
ghost use Rattle.op_round.specs.Jobs.{AreFresh, IsFreshJob};

use crate::{Gate, Job, OpenGate, run_round};
use op_desk::{Batch, Desk};
use op_disk::MemoryDisk;
use op_http::RouteTable;
use op_model::{Reply, ReplyBody};
use op_ports::{MemorySource, Verifier};
use op_pricing::{OnePercent, PriceHook};
use op_time::Moment;
use std::alloc::{AllocError, Global};
use std::sync::Wait;
use std::sync::atomic::{AtomicBool, AtomicU64, Ordering};
use std::test::*;
use std::thread::Threads;

/// 2024-03-01T12:00:00.000Z
const NOON: u64 = 1_709_294_400_000;

const USD: &[u8] =
    b"POST /admin/assets HTTP/1.1\r\nhost: wallet.example\r\ncontent-length: 34\r\n\r\n{\"assetCode\":\"USD\",\"assetScale\":2}";

const EUR: &[u8] =
    b"POST /admin/assets HTTP/1.1\r\nhost: wallet.example\r\ncontent-length: 34\r\n\r\n{\"assetCode\":\"EUR\",\"assetScale\":2}";

/// How often a worker looks for the other at most. It takes some seconds.
const PATIENCE: u64 = 1_000_000_000;

/// No proof is one. No route that is built looks at proofs.
#[derive(Drop)]
struct NoProofs;

impl Verifier for NoProofs {
    ghost accepts = { λ verifier client method target body authorization proof. false };

    fn verify(
        &self,
        _client: &[u8],
        _method: &[u8],
        _target: &[u8],
        _body: &[u8],
        _authorization: &[u8],
        _proof: &[u8],
    ) -> bool {
        false
    }
}

/// A gate that job 0 passes once job 1 has its reply, and job 1 once job 0 has come. So two workers are at it at the same
/// time, or one of them is late.
#[derive(Drop)]
struct Crossing {
    has_come: AtomicBool,
    has_reply: AtomicBool,
    passes: AtomicU64,
    answers: AtomicU64,
    late: AtomicBool,
    patience: u64,
}

impl Crossing {
    fn new(patience: u64) -> Crossing {
        Crossing {
            has_come: AtomicBool::new(false),
            has_reply: AtomicBool::new(false),
            passes: AtomicU64::new(0),
            answers: AtomicU64::new(0),
            late: AtomicBool::new(false),
            patience,
        }
    }

    /// Looks for a mark until it is set or patience is at its end.
    fn wait(&self, mark: &AtomicBool) {
        for _ in 0..self.patience {
            if mark.load(Ordering::SeqCst) {
                return;
            }
        }
        self.late.store(true, Ordering::SeqCst);
    }
}

impl Gate for Crossing {
    fn pass(&self, index: u64) {
        self.passes.fetch_add(1, Ordering::SeqCst);
        if index == 0 {
            self.has_come.store(true, Ordering::SeqCst);
            self.wait(&self.has_reply);
        } else {
            self.wait(&self.has_come);
        }
    }

    fn answered(&self, index: u64, reply: &Reply) {
        self.answers.fetch_add(1, Ordering::SeqCst);
        if index == 1 && matches!(reply.body, ReplyBody::AssetAdded { .. }) {
            self.has_reply.store(true, Ordering::SeqCst);
        }
    }
}

/// A job whose connection sends these bytes.
fn job(alloc: Global, bytes: &[u8]) -> Result<Job<MemorySource>, AllocError>
    ensures { IfOk result (λ job. (start : List Entry) → IsFreshJob start job) }
{
    Ok(Job {
        conn: Some(MemorySource::new(Vec::from_slice(alloc, bytes)?, 7, Vec::new(alloc))),
        task: None,
        word: [0; 16],
        reply: None,
    })
}

fn is_added(job: &Job<MemorySource>) -> bool {
    matches!(
        &job.reply,
        Some(Reply {
            body: ReplyBody::AssetAdded { .. },
            ..
        })
    )
}

/// Two connections, each of which asks for an asset of its own.
fn two_jobs(alloc: Global) -> Result<Vec<Job<MemorySource>>, AllocError>
    ensures fresh { IfOk result (λ jobs. (start : List Entry) → AreFresh start jobs.items) }
    ensures two { IfOk result (λ jobs. length jobs.items ≡ 2) }
{
    Ok(vec![in alloc; job(alloc, USD)?, job(alloc, EUR)?]?)
}

/// Runs the round of two jobs, and counts those that added their asset.
fn run_jobs<R: Threads + Wait + Sync, G: Gate + Sync>(
    rt: &R,
    alloc: Global,
    workers: u32,
    batch: Batch,
    gate: &G,
) -> Result<(Batch, usize), AllocError>
    requires workers { 0 < workers }
    requires fresh { IsFresh 2 batch }
    ensures begun { IfOk result (λ (after, count). after.begun ≡ batch.begun) }
{
    let table = RouteTable::new(alloc)?;
    let mut jobs = two_jobs(alloc)?;
    let hook = PriceHook::keep(OnePercent);
    let (batch, wanted) = run_round(
        rt, alloc, workers, batch, &mut jobs, &table, &NoProofs, &hook, gate,
    );
    match wanted {
        None => Ok((batch, jobs.iter().filter(|job| is_added(job)).count())),
        Some(error) => Err(error),
    }
}

/// How many of two jobs added their asset in one round of a fresh journal. `None` where the round was not committed whole.
fn count_added<R: Threads + Wait + Sync, G: Gate + Sync>(
    rt: &R,
    alloc: Global,
    workers: u32,
    gate: &G,
) -> Result<Option<usize>, AllocError>
    requires { 0 < workers }
{
    let mut disk = MemoryDisk::new(alloc, Vec::new(alloc), Vec::new(alloc))?;
    let Ok(mut desk) = Desk::recover(alloc, &mut disk) else {
        return Ok(None);
    };
    let t = desk.wallet().last().later(Moment::at_most_last(NOON));
    let batch = desk.begin(alloc, t, 2)?;
    let (batch, count) = run_jobs(rt, alloc, workers, batch, gate)?;
    match desk.close_round(&mut disk, batch) {
        Ok(committed) if committed.count == 2 => Ok(Some(count)),
        _ => Ok(None),
    }
}

#[test]
fn two_workers_act_beside_each_other(rt: HostRuntime) -> Result<(), Fail> {
    let gate = Crossing::new(PATIENCE);
    assert_eq!(rt; count_added(&rt, rt.alloc(), 2, &gate)?, Some(2));
    assert_eq!(rt; gate.passes.load(Ordering::SeqCst), 2);
    assert_eq!(rt; gate.answers.load(Ordering::SeqCst), 2);
    assert!(rt; !gate.late.load(Ordering::SeqCst));
    Ok(())
}

#[test]
fn one_worker_is_late_at_the_gate(rt: HostRuntime) -> Result<(), Fail> {
    let gate = Crossing::new(1000);
    assert_eq!(rt; count_added(&rt, rt.alloc(), 1, &gate)?, Some(2));
    assert!(rt; gate.late.load(Ordering::SeqCst));
    Ok(())
}

#[test]
fn one_worker_acts_for_all(rt: HostRuntime) -> Result<(), Fail> {
    assert_eq!(rt; count_added(&rt, rt.alloc(), 1, &OpenGate)?, Some(2));
    Ok(())
}
