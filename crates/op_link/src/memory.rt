//! A link in memory.
ghost use Rattle.std.specs.Prelude.{◌≡◌, ◌≤◌, [], map, Some, IfOk};
ghost use Rattle.op_causes.specs.Causes.{HasCause};

use crate::link::{Link, LinkFault};
use op_causes::count_fault;
use std::alloc::{AllocError, Global};

/// A message that was posted, and what its post answered: a status, or 0 where the post failed.
#[derive(Drop)]
pub struct Post {
    pub message: Vec<u8>,
    pub outcome: u16,
}

/// A link in memory. Each post is answered with one status. It fails at the posts whose numbers, counted from 0, are
/// listed, and where it gets no memory; the message of a post that failed is kept where there is memory.
#[derive(Drop)]
pub struct MemoryLink {
    alloc: Global,
    secret: Option<[u8; 32]>,
    status: u16,
    posted: Vec<Post>,
    failing: Vec<u64>,
    calls: u64,
    faults: u64,
    ghost is_status: { (100 ≤ status) × (status ≤ 999) },
}

impl MemoryLink {
    ghost use Rattle.op_link.specs.Posted.{Adds};
    ghost use Rattle.op_link.specs.Memory.{link_secret, link_status, link_posted, posted_of, IsCalled, link_failing, link_calls, link_faults, link_fails, FailsWhere, KeepsMessage};

    /// A link with this secret, or none that is wired, over which nothing was posted. Each post is answered with this
    /// status.
    pub fn new(
        alloc: Global,
        secret: Option<[u8; 32]>,
        status: u16,
        failing: Vec<u64>,
    ) -> MemoryLink
        requires { (100 ≤ status) × (status ≤ 999) }
        ensures secret { link_secret result ≡ secret }
        ensures status { link_status result ≡ status }
        ensures posted { link_posted result ≡ [] }
        ensures failing { link_failing result ≡ failing.items }
        ensures calls { link_calls result ≡ 0 }
        ensures faults { link_faults result ≡ 0 }
    {
        MemoryLink {
            alloc,
            secret,
            status,
            posted: Vec::new(alloc),
            failing,
            calls: 0,
            faults: 0,
        }
    }

    /// The messages that were posted, in order.
    pub fn posted(&self) -> &[Post]
        ensures { map posted_of result.now ≡ link_posted self.now }
    {
        &self.posted
    }

    /// How often it has failed.
    pub fn faults(&self) -> u64
        ensures { result ≡ link_faults self.now }
    {
        self.faults
    }

    /// Whether the next post is one of those that fail.
    fn fails(&self) -> bool
        ensures { result ≡ link_fails self.now }
    {
        self.failing.iter().any(|n| *n == self.calls)
    }

    /// Keeps a message with what its post answered.
    fn keep(&mut self, message: &[u8], outcome: u16) -> Result<(), AllocError>
        ensures kept { KeepsMessage (link_posted self.old) (link_posted self.new) message.now outcome result }
        ensures secret { link_secret self.new ≡ link_secret self.old }
        ensures faults { link_faults self.new ≡ link_faults self.old }
        ensures calls { link_calls self.new ≡ link_calls self.old }
        ensures status { link_status self.new ≡ link_status self.old }
        ensures failing { link_failing self.new ≡ link_failing self.old }
    {
        let message = Vec::from_slice(self.alloc, message)?;
        self.posted.push(Post { message, outcome })?;
        Ok(())
    }

    /// One post: the status, or, where the post's number is listed or there is no memory, a fault.
    pub fn answer(&mut self, message: &[u8]) -> Result<u16, LinkFault>
        ensures answer { IfOk result (λ status. status ≡ link_status self.old) }
        ensures status { IfOk result (λ status. (100 ≤ status) × (status ≤ 999)) }
        ensures called { IsCalled self.old self.new }
        ensures posted { Adds (link_posted self.old) (link_posted self.new) message.now result }
        ensures listed { FailsWhere (link_fails self.old) result }
        ensures cause { HasCause (link_faults self.old) (link_faults self.new) result }
    {
        let fails = self.fails();
        self.calls = self.calls.saturating_add(1);
        let outcome = if fails { 0 } else { self.status };
        let kept = self.keep(message, outcome);
        if fails || kept.is_err() {
            count_fault(&mut self.faults);
            return Err(LinkFault);
        }
        Ok(outcome)
    }
}

impl Link for MemoryLink {
    ghost use Rattle.op_link.specs.Memory.{link_secret, link_posted, link_faults};

    ghost secret_of = { link_secret };

    ghost posted = { λ l. Some (link_posted l) };

    ghost faults = { link_faults };

    fn secret(&self) -> Option<[u8; 32]> {
        self.secret
    }

    fn post(&mut self, message: &[u8]) -> Result<u16, LinkFault> {
        self.answer(message)
    }
}
