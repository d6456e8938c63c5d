//! The top call.
ghost use Rattle.std.specs.Prelude.{◌≡◌, ◌≢◌, ◌⊎◌, map, string_bytes, IsTrue};
ghost use Rattle.op_session.specs.declared.status.Status.TheVariants.{Ended};
ghost use Rattle.op_cli.specs.Applies.{ComesTo, EndsWell, Runs, SpellsNone, status_of};
ghost use Rattle.op_cli.specs.Causes.{HasCauses};

use crate::outside::Outside;
use crate::session::session;
use crate::words::is_command;
use op_desk::{Desk, DeskFault};
use op_disk::Disk;
use op_laws::laws_are_kept;
use op_legal::beginnings_are_legal;
use op_ports::{Clock, Sink, Source, Verifier, Words};
use op_pricing::FeeRule;
use op_session::{End, Status};
use std::alloc::Global;

/// The exit status where the journal is not opened.
fn status_of(fault: DeskFault) -> Status
    ensures { result ≡ status_of fault }
{
    match fault {
        DeskFault::DiskFault => Status::Ended(End::DiskFault),
        DeskFault::Memory => Status::Ended(End::OutOfMemory),
        DeskFault::BadHeader
        | DeskFault::BadFrame { .. }
        | DeskFault::BadRecord { .. }
        | DeskFault::Illegal { .. } => Status::Illegal,
    }
}

/// Opens the journal, and runs a session on its history.
fn apply<D: Disk, S: Source, K: Sink, C: Clock, W: Words, V: Verifier, F: FeeRule>(
    alloc: Global,
    outside: &mut Outside<D, S, K, C, W, V, F>,
) -> Status
    ensures no_usage { result ≢ Status.Usage }
    ensures replies { ComesTo F.FeeTerms.allows D.Disk S.Source K.Sink C.Clock W.Words V.Verifier outside.old outside.new result }
    ensures illegal { result ≡ Status.Illegal → IsTrue D.tells → SpellsNone (D.seen outside.old.disk) }
    ensures illegal_where { IsTrue D.tells → SpellsNone (D.seen outside.old.disk) → (result ≡ Status.Illegal) ⊎ (result ≡ Ended End.DiskFault) ⊎ (result ≡ Ended End.OutOfMemory) }
    ensures causes { HasCauses D.Disk S.Source K.Sink W.Words outside.old outside.new (λ end. result ≡ Ended end) }
    ensures ends { EndsWell F.FeeTerms.allows D.Disk S.Source K.Sink C.Clock W.Words V.Verifier outside.old outside.new result }
{
    // What holds of every legal history, and so of the one that is opened and of all that it becomes.
    beginnings_are_legal();
    laws_are_kept();
    match Desk::recover(alloc, &mut outside.disk) {
        Ok(desk) => Status::Ended(session(alloc, desk, outside)),
        Err(fault) => status_of(fault),
    }
}

/// What the program does with these words, where that waits for nobody: answers the exit status.
///
/// `apply JOURNAL` opens the journal on the disk, reads requests from the source, commits what they make, and writes
/// their replies to the sink.
pub fn plain_main<D: Disk, S: Source, K: Sink, C: Clock, W: Words, V: Verifier, F: FeeRule>(
    alloc: Global,
    words: &[String],
    outside: &mut Outside<D, S, K, C, W, V, F>,
) -> Status
    ensures { Runs F.FeeTerms.allows D.Disk S.Source K.Sink C.Clock W.Words V.Verifier (map string_bytes words.now) outside.old outside.new result }
{
    if !is_command(words) {
        return Status::Usage;
    }
    apply(alloc, outside)
}

/// What the program does with these words: answers the exit status. So far no command waits for others, and it is
/// `plain_main`.
pub fn wallet_main<D: Disk, S: Source, K: Sink, C: Clock, W: Words, V: Verifier, F: FeeRule>(
    alloc: Global,
    words: &[String],
    outside: &mut Outside<D, S, K, C, W, V, F>,
) -> Status
    ensures { Runs F.FeeTerms.allows D.Disk S.Source K.Sink C.Clock W.Words V.Verifier (map string_bytes words.now) outside.old outside.new result }
{
    plain_main(alloc, words, outside)
}
