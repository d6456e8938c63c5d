//! The program: it makes the edges, calls `wallet_main`, and exits with its status.
#![tactic(auto)]

ghost use Rattle.std.specs.Prelude.{◌≡◌, ◌≢◌, ◌↔◌, ◌⊎◌, IfOk, drop, false, map, string_bytes};
ghost use Rattle.std.specs.Vec.Iter.{into_iter_items};
ghost use Rattle.std.specs.IoError.{error_kind};
ghost use Rattle.std.specs.declared.io.ErrorKind.TheVariants.{InvalidData};
ghost use Rattle.op_session.specs.Program.{is_command};
ghost use Rattle.op_session.specs.declared.end.End.TheVariants.{OutOfMemory};
ghost use Rattle.op_session.specs.declared.status.Status.TheVariants.{Ended};
ghost use Rattle.wallet.specs.Edges.{path_of};
ghost use Rattle.wallet.specs.Words.{journal_of};

mod master;

use master::{MasterFault, master_verifier};
use op_access::HmacVerifier;
use op_cli::{Outside, wallet_main};
use op_disk::FileDisk;
use op_ports::{ReadSource, SystemClock, SystemWords, WriteSink};
use op_pricing::{OnePercent, PriceHook};
use op_session::{End, Status};
use std::alloc::{AllocError, Global};
use std::env::Args;
use std::io::Printer;
use std::process::ExitCode;
use std::rt::{Env, Stdin};
use std::{env, io};

/// The edges of the program.
type Edges<'a> = Outside<
    FileDisk<&'a HostRuntime>,
    ReadSource<Stdin>,
    WriteSink<Printer<'a, HostRuntime>>,
    SystemClock<&'a HostRuntime>,
    SystemWords<&'a HostRuntime>,
    HmacVerifier,
    OnePercent,
>;

fn main(rt: HostRuntime) -> ExitCode {
    let status = match words_after_name(&rt) {
        Ok(words) => start(&rt, &words),
        Err(fault) => status_without_words(&fault),
    };
    if let Some(line) = status.line() {
        let _ = eprintln!(rt; "{line}");
    }
    ExitCode::from(status.code())
}

/// The words after the program's name.
fn words_after_name<R: Env + AllocGlobal>(rt: &R) -> io::Result<Vec<String>> {
    Ok(after_first(rt.alloc(), env::args(rt)?)?)
}

/// The words behind the first one.
fn after_first(alloc: Global, words: Args) -> Result<Vec<String>, AllocError>
    ensures { IfOk result (λ rest. rest.items ≡ drop 1 (into_iter_items words)) }
{
    words.skip(1).collect(alloc)
}

/// The status where the words cannot be read: words that are no text are no command, and else memory was wanting.
fn status_without_words(fault: &io::Error) -> Status
    ensures no_text { (result ≡ Status.Usage) ↔ (error_kind fault.now ≡ InvalidData) }
    ensures memory { error_kind fault.now ≢ InvalidData → result ≡ Ended OutOfMemory }
{
    match fault.kind() {
        io::ErrorKind::InvalidData => Status::Usage,
        _ => Status::Ended(End::OutOfMemory),
    }
}

/// The command, where the environment holds a master secret.
fn start(rt: &HostRuntime, words: &[String]) -> Status {
    match master_verifier(rt) {
        Ok(verifier) => run(rt, words, verifier),
        Err(fault) => status_without_master(fault),
    }
}

/// The status where there is no master secret.
fn status_without_master(fault: MasterFault) -> Status
    ensures malformed { (result ≡ Status.Usage) ↔ (fault ≡ MasterFault.Malformed) }
    ensures memory { (result ≡ Ended OutOfMemory) ↔ (fault ≡ MasterFault.Memory) }
{
    match fault {
        MasterFault::Malformed => Status::Usage,
        MasterFault::Memory => Status::Ended(End::OutOfMemory),
    }
}

/// The command over the edges of this runtime.
fn run(rt: &HostRuntime, words: &[String], verifier: HmacVerifier) -> Status
    ensures usage { result ≡ Status.Usage → is_command (map string_bytes words.now) ≡ false }
    ensures usage_where { is_command (map string_bytes words.now) ≡ false → (result ≡ Status.Usage) ⊎ (result ≡ Ended OutOfMemory) }
{
    let Ok(journal) = journal_name(rt.alloc(), words) else {
        return Status::Ended(End::OutOfMemory);
    };
    wallet_main(rt.alloc(), words, &mut edges(rt, journal, verifier))
}

/// The journal's file, standard input, standard output, the system's clock, its random bytes, this verifier of key proofs,
/// and the fee rule: the amount divided by 100, rounded up. The file is opened at the first call on it. No reply depends on
/// a key proof or on a fee so far.
fn edges(rt: &HostRuntime, journal: String, verifier: HmacVerifier) -> Edges<'_>
    ensures verifier { result.verifier ≡ verifier }
    ensures journal { path_of result.disk ≡ string_bytes journal }
{
    Outside {
        disk: FileDisk::new(rt, journal),
        source: ReadSource::new(rt.stdin()),
        sink: WriteSink::new(io::writer(rt)),
        clock: SystemClock::new(rt),
        draws: SystemWords::new(rt),
        verifier,
        hook: PriceHook::keep(OnePercent),
    }
}

/// The name of the journal's file: the second word, or nothing.
fn journal_name(alloc: Global, words: &[String]) -> Result<String, AllocError>
    ensures { IfOk result (λ name. string_bytes name ≡ journal_of (map string_bytes words.now)) }
{
    match words {
        [_, journal, ..] => String::from_str(alloc, journal.as_str()),
        _ => Ok(String::new(alloc)),
    }
}
