//! Ends.

/// How a session ends.
#[derive(Clone, Copy, Debug, PartialEq, Eq)]
pub enum End {
    /// The input was read to its end, and each reply written.
    Done,
    /// A read failed.
    ReadFault,
    /// A call on the journal's disk failed: the last round is not acknowledged.
    DiskFault,
    /// A write failed.
    WriteFault,
    /// The last round does not fit in the journal: it is not on the disk.
    JournalFull,
    /// Memory was wanting.
    OutOfMemory,
    /// No word could be drawn: the last request was not answered.
    WordsFault,
    /// The rest of the input begins with no request, and that was replied.
    Malformed,
    /// As many requests were answered as one session answers.
    TurnLimit,
}
