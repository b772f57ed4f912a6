//! The program `smash_graphs`: a source on standard input, and the text of its program's graphs on
//! standard output.
#![tactic(auto)]

mod print;

use crate::print::print;
use outer_io::{FromReader, ToWriter};
use std::process::ExitCode;

fn main(rt: HostRuntime) -> ExitCode {
    let mut source = FromReader::new(rt.stdin());
    let mut sink = ToWriter::new(rt.stdout());
    ExitCode::from(print(rt.alloc(), &mut source, &mut sink))
}
