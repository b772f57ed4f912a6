//! The checker `smash`: the words of the command line, standard input and standard output.
#![tactic(auto)]

pub use bundle_make::bundle_of;
use outer_io::{FromReader, NoGate, ToWriter};
pub use smash_run::run::run;
use std::alloc::AllocError;
use std::io;
use std::process::ExitCode;

/// Status 7: lack of memory.
const NO_MEMORY: u8 = 7;

/// The words after the program's name. Words that can't be read, as those that aren't UTF-8, are no
/// command, and so are no words.
fn words_of(rt: &HostRuntime) -> Result<Vec<String>, AllocError> {
    let mut words = Vec::new(rt.alloc());
    match std::env::args(rt) {
        Ok(all) => {
            for word in all.skip(1) {
                words.push(word)?;
            }
            Ok(words)
        }
        Err(error) if error.kind() == io::ErrorKind::OutOfMemory => Err(AllocError),
        Err(_) => Ok(words),
    }
}

fn main(rt: HostRuntime) -> ExitCode {
    let status = match words_of(&rt) {
        Ok(words) => {
            let mut source = FromReader::new(rt.stdin());
            let mut sink = ToWriter::new(rt.stdout());
            run(&rt, rt.alloc(), &words, &mut source, &mut sink, &NoGate).status
        }
        Err(_) => NO_MEMORY,
    };
    ExitCode::from(status)
}
