//! The top call: words, a source and a sink.

ghost use Rattle.std.specs.Prelude.{◌≡◌, ◌+◌, ◌≤◌, ℕ, IfOk, length, ◌⊎◌};
ghost use Rattle.outer_io.specs.Causes.{TookAtMost};
ghost use Rattle.smash_run.specs.Analysis.{handed_by, no_witness};
ghost use Rattle.command_words.specs.Words.{IsCommand, IsNoCommand, Command as PureCommand, workload};
ghost use Rattle.smash_run.specs.steps.Handing.{EndsAsked, EndsSilent, handed_in};
ghost use Rattle.command_words.specs.Commands.{FitsCommand, command_of};
ghost use Rattle.smash_run.specs.Run.{limit_of, long_text_of, EndsUsage, Obeys, ObeysSource, Completes};
ghost use Rattle.source_program.specs.Ends.{change, EndsWith, StaysAsItWas};

use crate::replies::Reply;
use crate::reply::reply_to;
use bolt_core::board::Board;
use command_words::{Command, command_from};
use outer_io::{Gate, ReadError, Sink, Source, read_all};
use report_text::fault::Refusal;
use report_text::{long_bundle, refusal, usage};
use source_program::{SOURCE_LIMIT, tell};
use std::alloc::{AllocError, Global};
use std::sync::Wait;
use std::thread::Threads;
use workload_gen::program_of;

/// The most bytes that the text of a bundle may have, `bundle_limit` of the clauses.
const BUNDLE_LIMIT: usize = 16_777_216;

/// How the program ended: 0, 1 and 2 are verdicts, 3 is a refusal of the source, 4 of the words, 5
/// a failed read, 6 a failed write, 7 lack of memory. Where an analysis ended, its board
/// is handed back, which is over; the root of each assertion has its number. Beside it, of an edit,
/// the board of the old source.
#[derive(Drop)]
pub struct Finish {
    pub status: u8,
    pub board: Option<Board>,
    pub old: Option<Board>,
}

/// Ends with a status alone.
fn end(status: u8) -> Finish
    ensures status { result.status ≡ status }
    ensures nothing { handed_by result ≡ no_witness }
{
    Finish {
        status,
        board: None,
        old: None,
    }
}

/// Writes a reply, and hands back what it does.
fn tell_reply<K: Sink>(sink: &mut K, reply: Reply) -> Finish
    ensures ends { EndsWith result.status (change (K.taken sink.old) (K.taken sink.new)
        (K.faults sink.old) (K.faults sink.new)) reply.status reply.text.items }
    ensures handed { handed_by result ≡ handed_in reply }
{
    let Reply {
        status,
        text,
        board,
        old,
    } = reply;
    Finish {
        status: tell(sink, status, &text),
        board,
        old,
    }
}

/// The most bytes that a command reads, beside one more that shows that there are more.
fn limit(command: &Command) -> usize
    requires { FitsCommand (command_of command.now) }
    ensures { result ≡ limit_of (command_of command.now) }
{
    match command {
        Command::Recheck => BUNDLE_LIMIT,
        Command::Edit { old_length, .. } => *old_length as usize + SOURCE_LIMIT,
        _ => SOURCE_LIMIT,
    }
}

/// What is written where there are more, unless memory runs out.
fn too_long(alloc: Global, command: &Command) -> Result<Vec<u8>, AllocError>
    ensures { IfOk result (λ text. text.items ≡ long_text_of (command_of command.now)) }
{
    match command {
        Command::Recheck => long_bundle().to_vec(alloc),
        _ => refusal(alloc, &Refusal::Long),
    }
}

/// Refuses what is too long for a command, unless memory runs out.
fn tell_too_long<K: Sink>(alloc: Global, command: &Command, sink: &mut K) -> Finish
    ensures ends { EndsWith result.status (change (K.taken sink.old) (K.taken sink.new)
        (K.faults sink.old) (K.faults sink.new)) 3 (long_text_of (command_of command.now))
        ⊎ ((result.status ≡ 7) × StaysAsItWas (change (K.taken sink.old) (K.taken sink.new)
        (K.faults sink.old) (K.faults sink.new))) }
    ensures nothing { handed_by result ≡ no_witness }
{
    match too_long(alloc, command) {
        Ok(text) => end(tell(sink, 3, &text)),
        Err(_) => end(7),
    }
}

/// Writes the reply to bytes, unless memory runs out.
fn reply_with<R: Threads + Wait + Sync, K: Sink, G: Gate>(
    rt: &R,
    alloc: Global,
    command: &Command,
    bytes: &[u8],
    sink: &mut K,
    gate: &G,
) -> Finish
    requires fits { length bytes.now ≤ limit_of (command_of command.now) }
    requires numbers { FitsCommand (command_of command.now) }
    ensures { EndsAsked (command_of command.now) bytes.now result.status
        (change (K.taken sink.old) (K.taken sink.new) (K.faults sink.old) (K.faults sink.new))
        (handed_by result)
        ⊎ EndsSilent result.status
        (change (K.taken sink.old) (K.taken sink.new) (K.faults sink.old) (K.faults sink.new))
        (handed_by result) }
{
    match reply_to(rt, alloc, command, bytes, gate) {
        Ok(reply) => tell_reply(sink, reply),
        Err(_) => end(7),
    }
}

/// Reads a source, and writes the reply to it.
fn obey_source<R: Threads + Wait + Sync, S: Source, K: Sink, G: Gate>(
    rt: &R,
    alloc: Global,
    command: &Command,
    source: &mut S,
    sink: &mut K,
    gate: &G,
) -> Finish
    requires { FitsCommand (command_of command.now) }
    ensures { ObeysSource (command_of command.now) result.status
        (change (S.left source.old) (S.left source.new) (S.faults source.old) (S.faults source.new))
        (change (K.taken sink.old) (K.taken sink.new) (K.faults sink.old) (K.faults sink.new))
        (handed_by result) }
{
    match read_all(alloc, source, limit(command)) {
        Ok(bytes) => reply_with(rt, alloc, command, &bytes, sink, gate),
        Err(ReadError::TooLong) => tell_too_long(alloc, command, sink),
        Err(ReadError::ReadFault) => end(5),
        Err(ReadError::Memory) => end(7),
    }
}

/// Obeys a command. The text of a workload is its source, and the given one stays as it was.
fn obey<R: Threads + Wait + Sync, S: Source, K: Sink, G: Gate>(
    rt: &R,
    alloc: Global,
    command: &Command,
    source: &mut S,
    sink: &mut K,
    gate: &G,
) -> Finish
    requires { FitsCommand (command_of command.now) }
    ensures obeys { Obeys (command_of command.now) result.status
        (change (S.left source.old) (S.left source.new) (S.faults source.old) (S.faults source.new))
        (change (K.taken sink.old) (K.taken sink.new) (K.faults sink.old) (K.faults sink.new))
        (handed_by result) }
    ensures unread { (n b w : ℕ) → command_of command.now ≡ workload n b w →
        source.new ≡ source.old }
{
    match command {
        Command::Workload { number, .. } => match program_of(alloc, *number) {
            Ok(text) => reply_with(rt, alloc, command, &text, sink, gate),
            Err(_) => end(7),
        },
        _ => obey_source(rt, alloc, command, source, sink, gate),
    }
}

/// Runs the program on its words, a source and a sink. All that it says goes to the sink, and its
/// whole output is made before the first byte is written. The gate is passed around each call of a
/// worker at the board.
pub fn run<R: Threads + Wait + Sync, S: Source, K: Sink, G: Gate>(
    rt: &R,
    alloc: Global,
    words: &[String],
    source: &mut S,
    sink: &mut K,
    gate: &G,
) -> Finish
    // Words that are no command get the usage text, nothing is read, and nothing is handed back.
    ensures usage { IsNoCommand words.now → EndsUsage result.status
        (change (K.taken sink.old) (K.taken sink.new) (K.faults sink.old) (K.faults sink.new))
        (handed_by result) }
    ensures unread { IsNoCommand words.now → source.new ≡ source.old }

    // However a command ends, it takes one byte more than its limit at most.
    ensures bounded { (c : PureCommand) → IsCommand words.now c →
        TookAtMost (S.left source.old) (S.left source.new) (limit_of c + 1) }

    // A command reads the source; what its bytes ask for is written. Each fault has its cause.
    ensures obeys { (c : PureCommand) → IsCommand words.now c → Obeys c result.status
        (change (S.left source.old) (S.left source.new) (S.faults source.old) (S.faults source.new))
        (change (K.taken sink.old) (K.taken sink.new) (K.faults sink.old) (K.faults sink.new))
        (handed_by result) }
    ensures complete { (c : PureCommand) → IsCommand words.now c → Completes c result.status
        (change (S.left source.old) (S.left source.new) (S.faults source.old) (S.faults source.new))
        (change (K.taken sink.old) (K.taken sink.new) (K.faults sink.old) (K.faults sink.new)) }

    // A workload reads none.
    ensures workload_unread { (n b w : ℕ) → IsCommand words.now (workload n b w) →
        source.new ≡ source.old }
{
    match command_from(alloc, words) {
        Ok(Some(given)) => obey(rt, alloc, &given, source, sink, gate),
        Ok(None) => end(tell(sink, 4, usage())),
        Err(_) => end(7),
    }
}
