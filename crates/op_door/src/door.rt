//! Doors, through which connections come.
ghost use Rattle.std.specs.Prelude.{◌≡◌, ◌<◌, ◌+◌, ℕ, List};
ghost use Rattle.std.specs.declared.option.Option.{Option};
ghost use Rattle.op_door.specs.Door.{Gives, Finishes, IsCause, given_by};
ghost use Rattle.op_door.specs.declared.door.Told.{Told};
ghost use Rattle.op_door.specs.declared.door.Conn.{Conn};

use op_ports::{Sink, Source};

/// A connection: where its bytes come from, and where its reply goes. Each half counts its own faults, so a fault of one
/// leaves what the other tells.
#[derive(Drop)]
pub struct Conn<I, O> {
    pub reads: I,
    pub writes: O,
}

/// What a door answers.
#[derive(Drop)]
pub enum Next<C> {
    /// The next connection.
    Conn(C),
    /// None has come so far.
    Nothing,
    /// None will come any more.
    Closed,
    /// The door failed, and its count of faults rose.
    Failed,
}

/// What a door tells of an answer to come.
#[derive(Drop)]
pub enum Told<C> {
    Conn(C),
    Nothing,
    Closed,
}

/// Where connections come from.
pub trait Door {
    type Reads: Source + Send + Drop;

    type Writes: Sink + Send + Drop;

    /// What its next calls give, where it tells it. A call that fails takes nothing from it.
    ghost coming: { Self → Option (List (Told (Conn Self.Reads Self.Writes))) };

    /// The connections that were finished, in order, where it tells them.
    ghost finished: { Self → Option (List (Conn Self.Reads Self.Writes)) };

    /// How many connections it has given that are not finished.
    ghost given: { Self → ℕ };

    /// How often it has failed.
    ghost faults: { Self → ℕ };

    /// The next connection, or why there is none.
    fn next(&mut self) -> Next<Conn<Self::Reads, Self::Writes>>
        ensures gives { Gives (coming self.old) (coming self.new) result }
        ensures finished { finished self.new ≡ finished self.old }
        ensures given { given self.new ≡ given_by (given self.old) result }
        ensures cause { IsCause (faults self.old) (faults self.new) result };

    /// Takes a connection back, whose reply was written. The door has given one that is not finished.
    fn finish(&mut self, conn: Conn<Self::Reads, Self::Writes>)
        requires { 0 < given self.old }
        ensures finished { Finishes (finished self.old) (finished self.new) conn }
        ensures coming { coming self.new ≡ coming self.old }
        ensures given { given self.new + 1 ≡ given self.old }
        ensures faults { faults self.new ≡ faults self.old };
}
