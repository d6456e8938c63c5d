//! What a door in memory does.
ghost use Rattle.std.specs.Prelude.{◌≡◌, ◌+◌, ◌<◌, ◌++◌, ◌∷◌, [], false, Some, IfOk};
ghost use Rattle.op_door.specs.Door.{Gives, Finishes, IsCause, given_by};
ghost use Rattle.op_door.specs.Memory.{door_coming, door_finished, door_given, door_faults, door_failing, door_calls, door_fails};
ghost use Rattle.op_door.specs.Calls.{FailsWhere, IsCalled};

use crate::door::{Door, Next, Told};
use crate::memory::{MemoryConn, MemoryDoor};
use op_causes::count_fault;
use op_ports::{MemorySink, MemorySource};
use std::alloc::{AllocError, Global};

impl MemoryDoor {
    /// A door that will give these answers, in order, and has given none. It makes the room for all connections.
    pub fn new(
        alloc: Global,
        mut coming: Vec<Told<MemoryConn>>,
        failing: Vec<u64>,
    ) -> Result<MemoryDoor, AllocError>
        ensures coming { IfOk result (λ door. door_coming door ≡ coming.items) }
        ensures finished { IfOk result (λ door. door_finished door ≡ []) }
        ensures given { IfOk result (λ door. door_given door ≡ 0) }
        ensures failing { IfOk result (λ door. door_failing door ≡ failing.items) }
        ensures calls { IfOk result (λ door. door_calls door ≡ 0) }
        ensures faults { IfOk result (λ door. door_faults door ≡ 0) }
    {
        let mut finished = Vec::new(alloc);
        finished.reserve(coming.len())?;
        coming.reverse();
        Ok(MemoryDoor {
            coming,
            finished,
            failing,
            calls: 0,
            given: 0,
            faults: 0,
        })
    }

    /// The connections that were finished, in order.
    pub fn finished(&self) -> &[MemoryConn]
        ensures { result.now ≡ door_finished self.now }
    {
        &self.finished
    }

    /// How many connections it has given that are not finished.
    pub fn given(&self) -> u64
        ensures { result ≡ door_given self.now }
    {
        self.given
    }

    /// How often it has failed.
    pub fn faults(&self) -> u64
        ensures { result ≡ door_faults self.now }
    {
        self.faults
    }

    /// Whether the next call is one of those that fail.
    fn fails(&self) -> bool
        ensures { result ≡ door_fails self.now }
    {
        self.failing.iter().any(|n| *n == self.calls)
    }

    /// The next answer that it was told; past the end it is closed.
    fn give(&mut self) -> Next<MemoryConn>
        ensures gives { Gives (Some (door_coming self.old)) (Some (door_coming self.new)) result }
        ensures finished { door_finished self.new ≡ door_finished self.old }
        ensures given { door_given self.new ≡ given_by (door_given self.old) result }
        ensures cause { IsCause (door_faults self.old) (door_faults self.new) result }
        ensures listed { FailsWhere false result }
        ensures calls { door_calls self.new ≡ door_calls self.old }
        ensures failing { door_failing self.new ≡ door_failing self.old }
    {
        match self.coming.pop() {
            Some(Told::Conn(conn)) => {
                self.given += 1;
                Next::Conn(conn)
            }
            Some(Told::Nothing) => Next::Nothing,
            Some(Told::Closed) => Next::Closed,
            None => Next::Closed,
        }
    }

    /// One call: the next answer, or, exactly where the call's number is listed, a fault.
    pub fn answer(&mut self) -> Next<MemoryConn>
        ensures called { IsCalled self.old self.new }
        ensures gives { Gives (Some (door_coming self.old)) (Some (door_coming self.new)) result }
        ensures finished { door_finished self.new ≡ door_finished self.old }
        ensures given { door_given self.new ≡ given_by (door_given self.old) result }
        ensures cause { IsCause (door_faults self.old) (door_faults self.new) result }
        ensures listed { FailsWhere (door_fails self.old) result }
    {
        let fails = self.fails();
        self.calls = self.calls.saturating_add(1);
        if fails {
            count_fault(&mut self.faults);
            return Next::Failed;
        }
        self.give()
    }

    fn keep(&mut self, conn: MemoryConn)
        requires { 0 < door_given self.old }
        ensures finished { door_finished self.new ≡ door_finished self.old ++ conn ∷ [] }
        ensures coming { door_coming self.new ≡ door_coming self.old }
        ensures given { door_given self.new + 1 ≡ door_given self.old }
        ensures faults { door_faults self.new ≡ door_faults self.old }
    {
        self.given -= 1;
        self.finished.push_reserved(conn);
    }
}

impl Door for MemoryDoor {
    type Reads = MemorySource;

    type Writes = MemorySink;

    ghost coming = { λ d. Some (door_coming d) };

    ghost finished = { λ d. Some (door_finished d) };

    ghost given = { door_given };

    ghost faults = { door_faults };

    fn next(&mut self) -> Next<MemoryConn> {
        self.answer()
    }

    fn finish(&mut self, conn: MemoryConn)
        requires { 0 < door_given self.old }
        ensures finished { Finishes (Some (door_finished self.old)) (Some (door_finished self.new)) conn }
        ensures coming { Some (door_coming self.new) ≡ Some (door_coming self.old) }
        ensures given { door_given self.new + 1 ≡ door_given self.old }
        ensures faults { door_faults self.new ≡ door_faults self.old }
    {
        self.keep(conn)
    }
}
