//! Exit statuses.
ghost use Rattle.std.specs.Prelude.{◌≡◌, option_copied};
ghost use Rattle.op_session.specs.Program.{code_of, line_of};

use crate::End;

/// The exit status of the program: why nothing was done, or how its session ended.
#[derive(Clone, Copy, Debug, PartialEq, Eq)]
pub enum Status {
    /// The words are no command, or the environment holds no master secret.
    Usage,
    /// The journal spells no legal history.
    Illegal,
    /// The journal was opened or could not be, and this came of it.
    Ended(End),
}

impl Status {
    /// The number with which the program exits.
    pub fn code(self) -> u8
        ensures { result ≡ code_of self }
    {
        match self {
            Status::Ended(End::Done) => 0,
            Status::Usage => 2,
            Status::Illegal => 3,
            Status::Ended(End::ReadFault) => 4,
            Status::Ended(End::DiskFault) => 5,
            Status::Ended(End::WriteFault) => 6,
            Status::Ended(End::JournalFull) => 7,
            Status::Ended(End::OutOfMemory) => 8,
            Status::Ended(End::WordsFault) => 9,
            Status::Ended(End::Malformed) => 10,
            Status::Ended(End::TurnLimit) => 11,
        }
    }

    /// What the program says of it, in one line: nothing where all went well.
    pub fn line(self) -> Option<&'static str>
        ensures { option_copied result ≡ line_of self }
    {
        match self {
            Status::Ended(End::Done) => None,
            Status::Usage => Some("usage: wallet apply JOURNAL"),
            Status::Illegal => Some("wallet: the journal spells no legal history"),
            Status::Ended(End::ReadFault) => Some("wallet: a read of the input failed"),
            Status::Ended(End::DiskFault) => Some("wallet: a call on the journal's file failed"),
            Status::Ended(End::WriteFault) => Some("wallet: a write of the output failed"),
            Status::Ended(End::JournalFull) => Some("wallet: the journal is full"),
            Status::Ended(End::OutOfMemory) => Some("wallet: memory was wanting"),
            Status::Ended(End::WordsFault) => Some("wallet: no random bytes could be drawn"),
            Status::Ended(End::Malformed) => {
                Some("wallet: the rest of the input begins with no request")
            }
            Status::Ended(End::TurnLimit) => {
                Some("wallet: as many requests were answered as one session answers")
            }
        }
    }
}
