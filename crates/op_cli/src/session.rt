//! Sessions: requests from a source, replies to a sink, and what was answered in a journal.
ghost use Rattle.std.specs.Prelude.{◌≡◌, ◌≢◌, ◌⊎◌, ◌<◌, ◌≤◌, ◌+◌, ◌^◌, List, false, IsTrue, IsSome, IfSome, OnOk, IfErr, IsErrOf};
ghost use Rattle.std.specs.Io.KnownBytes.{Appends};
ghost use Rattle.std.specs.Str.{IsUtf8};
ghost use Rattle.op_causes.specs.Causes.{HasCause, NamesFault};
ghost use Rattle.op_desk.specs.Batches.{history_in};
ghost use Rattle.op_desk.specs.Built.{is_built_refusal, is_built_reply, is_built_task};
ghost use Rattle.op_desk.specs.Spelling.{Stands, history_of};
ghost use Rattle.op_desk.specs.Wallets.{IsSound, Handles};
ghost use Rattle.op_model.specs.History.{moment_of_turn};
ghost use Rattle.op_model.specs.Legal.{is_proper};
ghost use Rattle.op_model.specs.declared.act.Entry.{Entry};
ghost use Rattle.op_session.specs.Built.{meant_so_far};
ghost use Rattle.op_model.specs.Printed.{printed};
ghost use Rattle.op_model.specs.Requests.{head_limit, body_limit};
ghost use Rattle.op_model.specs.Round.{refusal_reply};
ghost use Rattle.op_model.specs.Verdicts.{verdict_of};
ghost use Rattle.op_model.specs.declared.request.Task.TheVariants.{Ask};
ghost use Rattle.op_session.specs.Session.{Final, Session, begun, settled};
ghost use Rattle.op_session.specs.Stood.{now, opened_with, with_entries};
ghost use Rattle.op_session.specs.declared.end.End.TheVariants.{WriteFault};
ghost use Rattle.op_ports.specs.Sink.{AppendsFront};
ghost use Rattle.op_round.specs.Jobs.{IsFitRequest};
ghost use Rattle.op_cli.specs.Causes.{HasCauses, HasRoundCauses};
ghost use Rattle.op_cli.specs.Kept.{history_at, Adds, EndsBy, FromEach, IsReady, Leaves, Kept};
ghost use Rattle.op_cli.specs.Told.{world_of, LeavesOthers};
ghost use Rattle.op_cli.specs.Turns.{here, Turns, Stops, Handled, NotHandled, NotStood, Told, NotTold, NotWritten, Replies, ReplyFails, RefusalEnds, Unread};

use crate::outside::Outside;
use op_api::{ApiFault, disk_fault_reply, journal_full_reply};
use op_desk::{Batch, Desk, RoundFault};
use op_disk::Disk;
use op_http::{HttpFault, RawRequest, Reader, RouteTable, write_all};
use op_model::{Refusal, Reply, Request, Task, Verdict, Word};
use op_ports::{Clock, Sink, Source, Verifier, Words};
use op_pricing::{FeeRule, PriceHook};
use op_reply::print_reply;
use op_round::prepare_built;
use op_session::End;
use op_time::Moment;
use std::alloc::Global;

/// The most requests of one session.
const TURN_LIMIT: u64 = 1_000_000_000;

/// Writes a reply after which the session ends so, unless the write fails.
fn write_last<K: Sink>(sink: &mut K, text: &[u8], end: End) -> End
    requires { end ≢ WriteFault }
    ensures end { ((result ≡ end) × Appends (K.written sink.old) (K.written sink.new) text.now)
        ⊎ ((result ≡ WriteFault) × AppendsFront (K.written sink.old) (K.written sink.new) text.now) }
    ensures cause { NamesFault (K.faults sink.old) (K.faults sink.new) (result ≡ WriteFault) }
{
    match write_all(sink, text) {
        Ok(()) => end,
        Err(_) => End::WriteFault,
    }
}

/// The bytes of a reply. `None` where memory was wanting.
fn text_of(alloc: Global, reply: Reply) -> Option<Vec<u8>>
    requires origin { IsUtf8 reply.origin }
    requires built { IsTrue (is_built_reply reply.body) }
    ensures { IfSome result (λ text. text.items ≡ printed reply) }
{
    match print_reply(alloc, &reply) {
        Ok(text) => Some(text),
        Err(_) => None,
    }
}

/// The bytes of a refusal on a desk's history. `None` where memory was wanting.
fn refusal_text(alloc: Global, desk: &Desk, refusal: Refusal) -> Option<Vec<u8>>
    requires whole { IsSome desk.now.wallet }
    requires built { IsTrue (is_built_refusal refusal) }
    ensures { IfSome result (λ text. text.items ≡ printed (refusal_reply (history_at desk.now) refusal)) }
{
    text_of(alloc, desk.wallet().refusal(refusal))
}

/// Writes the last refusal.
fn refuse<K: Sink>(alloc: Global, refusal: Refusal, desk: &Desk, sink: &mut K) -> End
    requires whole { IsSome desk.now.wallet }
    requires built { IsTrue (is_built_refusal refusal) }
    ensures end { RefusalEnds (refusal_reply (history_at desk.now) refusal) (K.written sink.old) (K.written sink.new) result }
    ensures cause { NamesFault (K.faults sink.old) (K.faults sink.new) (result ≡ WriteFault) }
{
    match refusal_text(alloc, desk, refusal) {
        Some(text) => write_last(sink, &text, End::Malformed),
        None => End::OutOfMemory,
    }
}

/// Writes the text of a reply after which the session goes on.
fn write_reply<K: Sink>(sink: &mut K, text: &[u8]) -> Result<(), End>
    ensures ok { OnOk result (Appends (K.written sink.old) (K.written sink.new) text.now) }
    ensures err { IfErr result (λ end. (end ≡ WriteFault) × AppendsFront (K.written sink.old) (K.written sink.new) text.now) }
    ensures cause { HasCause (K.faults sink.old) (K.faults sink.new) result }
{
    match write_all(sink, text) {
        Ok(()) => Ok(()),
        Err(_) => Err(End::WriteFault),
    }
}

/// A round of this one request: its batch, and its reply as bytes.
#[derive(Drop)]
struct Round {
    batch: Batch,
    text: Vec<u8>,
}

/// What a turn asked of the outside before it answers: what the clock gave, and the word that was drawn.
#[derive(Drop)]
struct Asked {
    answer: u64,
    word: Word,
}

/// Answers a request in a round, and prints the reply. The round is not committed yet. `None` where memory was wanting.
fn begin_round<F: FeeRule>(
    alloc: Global,
    task: &Task,
    asked: &Asked,
    hook: &PriceHook<F>,
    desk: &mut Desk,
) -> Option<Round>
    requires whole { IsSome desk.old.wallet }
    requires built { IsTrue (is_built_task task.now) }
    requires proper { IsTrue (is_proper (history_at desk.old) task.now) }

    ensures begun { IfSome result (λ round. round.batch.begun ≡ history_at desk.old) }
    ensures answered { IfSome result (λ round. (reply : _) × Handles F.FeeTerms.allows (history_at desk.old) (moment_of_turn (history_at desk.old) asked.now.answer) 0 task.now asked.now.word reply (history_in round.batch)
        × (round.text.items ≡ printed reply)) }
    ensures running { IfSome result (λ round. (desk.new.closed ≡ false) × (desk.new.tail ≡ desk.old.tail)) }
{
    let t = desk
        .wallet()
        .last()
        .later(Moment::at_most_last(asked.answer));
    let Ok(mut batch) = desk.begin(alloc, t, 1) else {
        return None;
    };
    let reply = batch.act(&asked.word, hook, 0, task);
    let text = text_of(alloc, reply)?;
    Some(Round { batch, text })
}

/// Commits a round, and writes its reply once it stands, or that it does not.
fn end_round<D: Disk, K: Sink>(
    round: Round,
    desk: &mut Desk,
    disk: &mut D,
    sink: &mut K,
) -> Result<(), End>
    requires running { desk.old.closed ≡ false }
    requires stands { IsTrue D.tells → (rounds : List (List Entry)) × (history_of rounds ≡ round.batch.begun) × Stands rounds desk.old.tail (D.seen disk.old) (D.images disk.old) }
    requires sound { IsSound round.batch.begun }

    ensures whole { OnOk result (history_at desk.new ≡ history_in round.batch) }
    ensures ready { OnOk result (IsReady D.Disk desk.new disk.new) }
    ensures told { OnOk result (Appends (K.written sink.old) (K.written sink.new) round.text.items) }
    ensures stands { OnOk result (FromEach round.batch.begun (λ stood. Leaves D.Disk stood (settled (with_entries stood round.batch.entries)) disk.old disk.new)) }
    ensures err { IfErr result (λ end. EndsBy D.Disk round.batch.begun disk.old disk.new (λ stood final. NotStood stood round.batch.entries (K.written sink.old) (K.written sink.new) round.text.items end final)) }
    ensures causes { HasRoundCauses (D.faults disk.old) (D.faults disk.new) (K.faults sink.old) (K.faults sink.new) (IsErrOf result) }
{
    let Round { batch, text } = round;
    match desk.close_round(disk, batch) {
        Ok(_) => write_reply(sink, &text),
        Err(RoundFault::DiskFault) => Err(write_last(sink, disk_fault_reply(), End::DiskFault)),
        Err(RoundFault::Full { .. }) => {
            Err(write_last(sink, journal_full_reply(), End::JournalFull))
        }
    }
}

/// Runs a round of this one request, and writes its reply once its act stands.
fn run_round<D: Disk, S: Source, K: Sink, C: Clock, W: Words, V: Verifier, F: FeeRule>(
    alloc: Global,
    task: &Task,
    asked: &Asked,
    desk: &mut Desk,
    outside: &mut Outside<D, S, K, C, W, V, F>,
) -> Result<(), End>
    requires ready { IsReady D.Disk desk.old outside.old.disk }
    requires sound { IsSound (history_at desk.old) }
    requires built { IsTrue (is_built_task task.now) }
    requires proper { IsTrue (is_proper (history_at desk.old) task.now) }

    ensures ok { OnOk result (Adds D.Disk (history_at desk.old) (history_at desk.new) outside.old.disk outside.new.disk (λ stood entries. Handled F.FeeTerms.allows (now stood) entries (K.written outside.old.sink) (K.written outside.new.sink) asked.now.answer asked.now.word task.now)) }
    ensures ready { OnOk result (IsReady D.Disk desk.new outside.new.disk) }
    ensures err { IfErr result (λ end. EndsBy D.Disk (history_at desk.old) outside.old.disk outside.new.disk (λ stood final. NotHandled F.FeeTerms.allows stood (K.written outside.old.sink) (K.written outside.new.sink) asked.now.answer asked.now.word task.now end final)) }
    ensures others { LeavesOthers outside.old outside.new }
    ensures causes { HasRoundCauses (D.faults outside.old.disk) (D.faults outside.new.disk) (K.faults outside.old.sink) (K.faults outside.new.sink) (IsErrOf result) }
{
    match begin_round(alloc, task, asked, &outside.hook, desk) {
        Some(round) => end_round(round, desk, &mut outside.disk, &mut outside.sink),
        None => Err(End::OutOfMemory),
    }
}

/// Runs a round of a request that is understood.
fn run_request<D: Disk, S: Source, K: Sink, C: Clock, W: Words, V: Verifier, F: FeeRule>(
    alloc: Global,
    request: Request,
    verdict: Verdict,
    asked: &Asked,
    desk: &mut Desk,
    outside: &mut Outside<D, S, K, C, W, V, F>,
) -> Result<(), End>
    requires ready { IsReady D.Disk desk.old outside.old.disk }
    requires sound { IsSound (history_at desk.old) }
    requires fit { IsFitRequest request }

    ensures ok { OnOk result (Adds D.Disk (history_at desk.old) (history_at desk.new) outside.old.disk outside.new.disk (λ stood entries. Handled F.FeeTerms.allows (now stood) entries (K.written outside.old.sink) (K.written outside.new.sink) asked.now.answer asked.now.word (Ask request verdict))) }
    ensures ready { OnOk result (IsReady D.Disk desk.new outside.new.disk) }
    ensures err { IfErr result (λ end. EndsBy D.Disk (history_at desk.old) outside.old.disk outside.new.disk (λ stood final. NotHandled F.FeeTerms.allows stood (K.written outside.old.sink) (K.written outside.new.sink) asked.now.answer asked.now.word (Ask request verdict) end final)) }
    ensures others { LeavesOthers outside.old outside.new }
    ensures causes { HasRoundCauses (D.faults outside.old.disk) (D.faults outside.new.disk) (K.faults outside.old.sink) (K.faults outside.new.sink) (IsErrOf result) }
{
    let task = Task::Ask { request, verdict };
    run_round(alloc, &task, asked, desk, outside)
}

/// Writes the refusal of a request that means none.
fn refuse_request<K: Sink>(
    alloc: Global,
    refusal: Refusal,
    desk: &Desk,
    sink: &mut K,
) -> Result<(), End>
    requires whole { IsSome desk.now.wallet }
    requires built { IsTrue (is_built_refusal refusal) }
    ensures ok { OnOk result (Appends (K.written sink.old) (K.written sink.new) (printed (refusal_reply (history_at desk.now) refusal))) }
    ensures err { IfErr result (NotWritten (refusal_reply (history_at desk.now) refusal) (K.written sink.old) (K.written sink.new)) }
    ensures cause { NamesFault (K.faults sink.old) (K.faults sink.new) (IsErrOf result WriteFault) }
{
    match refusal_text(alloc, desk, refusal) {
        Some(text) => write_reply(sink, &text),
        None => Err(End::OutOfMemory),
    }
}

/// Answers a request, and writes its reply.
fn answer_request<D: Disk, S: Source, K: Sink, C: Clock, W: Words, V: Verifier, F: FeeRule>(
    alloc: Global,
    table: &RouteTable,
    raw: &RawRequest,
    asked: &Asked,
    desk: &mut Desk,
    outside: &mut Outside<D, S, K, C, W, V, F>,
) -> Result<(), End>
    requires ready { IsReady D.Disk desk.old outside.old.disk }
    requires sound { IsSound (history_at desk.old) }

    ensures ok { OnOk result (Adds D.Disk (history_at desk.old) (history_at desk.new) outside.old.disk outside.new.disk (λ stood entries. Told F.FeeTerms.allows (now stood) entries (K.written outside.old.sink) (K.written outside.new.sink) (verdict_of (V.accepts outside.old.verifier) raw.now) asked.now.answer asked.now.word (meant_so_far raw.now))) }
    ensures ready { OnOk result (IsReady D.Disk desk.new outside.new.disk) }
    ensures err { IfErr result (λ end. EndsBy D.Disk (history_at desk.old) outside.old.disk outside.new.disk (λ stood final. NotTold F.FeeTerms.allows stood (K.written outside.old.sink) (K.written outside.new.sink) (verdict_of (V.accepts outside.old.verifier) raw.now) asked.now.answer asked.now.word (meant_so_far raw.now) end final)) }
    ensures others { LeavesOthers outside.old outside.new }
    ensures causes { HasRoundCauses (D.faults outside.old.disk) (D.faults outside.new.disk) (K.faults outside.old.sink) (K.faults outside.new.sink) (IsErrOf result) }
{
    match prepare_built(alloc, table, raw, &outside.verifier) {
        Ok((request, verdict)) => run_request(alloc, request, verdict, asked, desk, outside),
        Err(ApiFault::Refused(refusal)) => refuse_request(alloc, refusal, desk, &mut outside.sink),
        Err(ApiFault::Memory) => refuse_request(alloc, Refusal::Memory, desk, &mut outside.sink),
    }
}

/// How the session ends where no request was read: what the stream goes on with is refused, or the read failed, or memory
/// was wanting.
fn unread<K: Sink>(alloc: Global, fault: HttpFault, desk: &Desk, sink: &mut K) -> End
    requires whole { IsSome desk.now.wallet }
    ensures end { Unread (history_at desk.now) fault (K.written sink.old) (K.written sink.new) result }
    ensures cause { NamesFault (K.faults sink.old) (K.faults sink.new) (result ≡ WriteFault) }
{
    match fault {
        HttpFault::BadHttp { at } => refuse(alloc, Refusal::BadHttp { at }, desk, sink),
        HttpFault::LengthRequired { at } => {
            refuse(alloc, Refusal::LengthRequired { at }, desk, sink)
        }
        HttpFault::TooLarge { at } => refuse(alloc, Refusal::RequestTooLarge { at }, desk, sink),
        HttpFault::ReadFault => End::ReadFault,
        HttpFault::Memory => End::OutOfMemory,
    }
}

/// Asks the clock, draws a word, and answers a request.
fn reply<D: Disk, S: Source, K: Sink, C: Clock, W: Words, V: Verifier, F: FeeRule>(
    alloc: Global,
    table: &RouteTable,
    raw: &RawRequest,
    desk: &mut Desk,
    outside: &mut Outside<D, S, K, C, W, V, F>,
) -> Result<(), End>
    requires ready { IsReady D.Disk desk.old outside.old.disk }
    requires sound { IsSound (history_at desk.old) }

    ensures ok { OnOk result (Adds D.Disk (history_at desk.old) (history_at desk.new) outside.old.disk outside.new.disk (λ stood entries. Replies F.FeeTerms.allows (now stood) entries (world_of S.Source C.Clock W.Words K.Sink V.Verifier outside.old) (world_of S.Source C.Clock W.Words K.Sink V.Verifier outside.new) raw.now)) }
    ensures ready { OnOk result (IsReady D.Disk desk.new outside.new.disk) }
    ensures err { IfErr result (λ end. EndsBy D.Disk (history_at desk.old) outside.old.disk outside.new.disk (λ stood final. ReplyFails F.FeeTerms.allows stood (world_of S.Source C.Clock W.Words K.Sink V.Verifier outside.old) (world_of S.Source C.Clock W.Words K.Sink V.Verifier outside.new) raw.now end final)) }
    ensures source { outside.new.source ≡ outside.old.source }
    ensures verifier { outside.new.verifier ≡ outside.old.verifier }
    ensures causes { HasCauses D.Disk S.Source K.Sink W.Words outside.old outside.new (IsErrOf result) }
{
    let answer = outside.clock.now();
    match outside.draws.draw() {
        Ok(word) => answer_request(alloc, table, raw, &Asked { answer, word }, desk, outside),
        Err(_) => Err(End::WordsFault),
    }
}

/// One turn.
fn turn<D: Disk, S: Source, K: Sink, C: Clock, W: Words, V: Verifier, F: FeeRule>(
    alloc: Global,
    table: &RouteTable,
    reader: &mut Reader,
    desk: &mut Desk,
    outside: &mut Outside<D, S, K, C, W, V, F>,
) -> Result<(), End>
    requires at { reader.old.at < 2 ^ 60 }
    requires ready { IsReady D.Disk desk.old outside.old.disk }
    requires sound { IsSound (history_at desk.old) }

    ensures ok { OnOk result (Adds D.Disk (history_at desk.old) (history_at desk.new) outside.old.disk outside.new.disk (λ stood entries. Turns F.FeeTerms.allows (here stood reader.old (world_of S.Source C.Clock W.Words K.Sink V.Verifier outside.old))
        (here (with_entries stood entries) reader.new (world_of S.Source C.Clock W.Words K.Sink V.Verifier outside.new)))) }
    ensures ready { OnOk result (IsReady D.Disk desk.new outside.new.disk) }
    ensures err { IfErr result (λ end. EndsBy D.Disk (history_at desk.old) outside.old.disk outside.new.disk (λ stood final. Stops F.FeeTerms.allows (here stood reader.old (world_of S.Source C.Clock W.Words K.Sink V.Verifier outside.old)) (world_of S.Source C.Clock W.Words K.Sink V.Verifier outside.new) end final)) }
    ensures moved { OnOk result (reader.new.at ≤ reader.old.at + (head_limit + body_limit)) }
    ensures causes { HasCauses D.Disk S.Source K.Sink W.Words outside.old outside.new (IsErrOf result) }
{
    match reader.next(alloc, &mut outside.source) {
        Ok(Some(raw)) => reply(alloc, table, &raw, desk, outside),
        Ok(None) => Err(End::Done),
        Err(fault) => Err(unread(alloc, fault, desk, &mut outside.sink)),
    }
}

/// A session over the history of a desk: requests are answered in order, until it ends. The table of routes is made at
/// its start, once.
pub fn session<D: Disk, S: Source, K: Sink, C: Clock, W: Words, V: Verifier, F: FeeRule>(
    alloc: Global,
    mut desk: Desk,
    outside: &mut Outside<D, S, K, C, W, V, F>,
) -> End
    requires ready { IsReady D.Disk desk outside.old.disk }
    requires sound { IsSound (history_at desk) }

    ensures session { (final : Final) × Session F.FeeTerms.allows (begun (history_at desk) (world_of S.Source C.Clock W.Words K.Sink V.Verifier outside.old)) (world_of S.Source C.Clock W.Words K.Sink V.Verifier outside.new) result final
        × Kept D.Disk (history_at desk) final outside.old.disk outside.new.disk }
    ensures causes { HasCauses D.Disk S.Source K.Sink W.Words outside.old outside.new (λ end. result ≡ end) }
{
    let Ok(table) = RouteTable::new(alloc) else {
        return End::OutOfMemory;
    };
    let mut reader = Reader::new(alloc);
    for _answered in 0..TURN_LIMIT {
        match turn(alloc, &table, &mut reader, &mut desk, outside) {
            Ok(()) => {}
            Err(end) => return end,
        }
    }
    End::TurnLimit
}
