//! The top call: a source and a sink.

ghost use Rattle.std.specs.Prelude.{◌≤◌, ◌⊎◌, ℕ, List, IfOk, length};
ghost use Rattle.c_tree.specs.WellFormed.{DividesByLiterals};
ghost use Rattle.c_tree.specs.Whole.{program_of};
ghost use Rattle.report_text.specs.Refused.{IsOfSource, too_long_text};
ghost use Rattle.smash_graphs.specs.Printed.{IsPrinted, IsTurnedDown, Prints, PrintsAll};
ghost use Rattle.smash_graphs.specs.steps.Replies.{EndsAsAsked, EndsSilent, IsAsked, IsSettled};
ghost use Rattle.source_program.specs.Ends.{EndsWith, change};
ghost use Rattle.source_program.specs.Rejections.{IsRefusedFor};
ghost use Rattle.source_program.specs.Source.{source_limit};

use c_tree::tree::Program;
use flow_build::build::build;
use graph_text::print_graphs;
use outer_io::{ReadError, Sink, Source, read_all};
use report_text::fault::Refusal;
use report_text::refusal;
use source_program::{Rejection, SOURCE_LIMIT, accept, tell};
use std::alloc::{AllocError, Global};

/// A status and the whole text that is written with it.
#[derive(Drop)]
pub struct Reply {
    pub status: u8,
    pub text: Vec<u8>,
}

/// The text of the graphs of a program.
fn graphs_of(alloc: Global, program: &Program) -> Result<Reply, AllocError>
    requires { DividesByLiterals (program_of program.now) }
    ensures { IfOk result (λ r. IsPrinted (program_of program.now) r.status r.text.items) }
{
    let graphs = build(alloc, program)?;
    let text = print_graphs(alloc, program.main, &graphs)?;
    Ok(Reply { status: 0, text })
}

/// The refusal of a source.
fn refused(alloc: Global, why: &Refusal) -> Result<Reply, AllocError>
    requires { IsOfSource why.now }
    ensures { (bytes : List ℕ) → IsRefusedFor bytes why.now → IfOk result
        (λ r. IsTurnedDown bytes r.status r.text.items) }
{
    let text = refusal(alloc, why)?;
    Ok(Reply { status: 3, text })
}

/// The reply to a source, by its bytes.
fn reply_to(alloc: Global, bytes: &[u8]) -> Result<Reply, AllocError>
    requires { length bytes.now ≤ source_limit }
    ensures asked { IfOk result (λ r. IsAsked bytes.now r.status r.text.items) }
    ensures settled { IfOk result (λ r. IsSettled bytes.now r.status r.text.items) }
{
    match accept(alloc, bytes) {
        Ok(program) => graphs_of(alloc, &program),
        Err(Rejection::Refused(why)) => refused(alloc, &why),
        Err(Rejection::Memory) => Err(AllocError),
    }
}

/// Writes the reply to bytes, unless memory runs out.
fn reply_with<K: Sink>(alloc: Global, bytes: &[u8], sink: &mut K) -> u8
    requires { length bytes.now ≤ source_limit }
    ensures { EndsAsAsked bytes.now result (change (K.taken sink.old) (K.taken sink.new)
        (K.faults sink.old) (K.faults sink.new))
        ⊎ EndsSilent result (change (K.taken sink.old) (K.taken sink.new)
        (K.faults sink.old) (K.faults sink.new)) }
{
    match reply_to(alloc, bytes) {
        Ok(reply) => tell(sink, reply.status, &reply.text),
        Err(_) => 7,
    }
}

/// Refuses a source that is too long, unless memory runs out.
fn tell_too_long<K: Sink>(alloc: Global, sink: &mut K) -> u8
    ensures { EndsWith result (change (K.taken sink.old) (K.taken sink.new)
        (K.faults sink.old) (K.faults sink.new)) 3 too_long_text
        ⊎ EndsSilent result (change (K.taken sink.old) (K.taken sink.new)
        (K.faults sink.old) (K.faults sink.new)) }
{
    match refusal(alloc, &Refusal::Long) {
        Ok(text) => tell(sink, 3, &text),
        Err(_) => 7,
    }
}

/// Reads a source, and writes the text of its program's graphs, or its refusal; the status is 0 or
/// 3 then, 5 where a read fails, 6 where a write fails, and 7 where memory runs out. The whole
/// output is made before the first byte is written.
pub fn print<S: Source, K: Sink>(alloc: Global, source: &mut S, sink: &mut K) -> u8
    ensures prints { Prints result
        (change (S.left source.old) (S.left source.new) (S.faults source.old) (S.faults source.new))
        (change (K.taken sink.old) (K.taken sink.new) (K.faults sink.old) (K.faults sink.new)) }
    ensures complete { PrintsAll result
        (change (S.left source.old) (S.left source.new) (S.faults source.old) (S.faults source.new))
        (change (K.taken sink.old) (K.taken sink.new) (K.faults sink.old) (K.faults sink.new)) }
{
    match read_all(alloc, source, SOURCE_LIMIT) {
        Ok(bytes) => reply_with(alloc, &bytes, sink),
        Err(ReadError::TooLong) => tell_too_long(alloc, sink),
        Err(ReadError::ReadFault) => 5,
        Err(ReadError::Memory) => 7,
    }
}
