//! A source over a reader.

ghost use Rattle.std.specs.Prelude.{◌≡◌, ◌<◌, length, OnOk, OnErr};
ghost use Rattle.std.specs.Io.{ReadsAtMost};
ghost use Rattle.std.specs.Io.KnownBytes.{ReadConsumes};
ghost use Rattle.outer_io.specs.Adapters.{reader_of, reader_faults};
ghost use Rattle.outer_io.specs.Causes.{HasCause, next_count};

use crate::fault::Failed;
use crate::source::Source;
use std::io::{ErrorKind, Read};

/// How often a call is made that a signal interrupts each time.
pub(crate) const TRIES: u32 = u32::MAX;

/// A source over a reader. Each error of the reader is a fault, but that a call was interrupted: it
/// is made again.
#[derive(Drop)]
pub struct FromReader<R> {
    inner: R,
    faults: u64,
}

impl<R: Read> FromReader<R> {
    /// A source of what the reader gives.
    pub fn new(inner: R) -> FromReader<R>
        ensures inner { reader_of result ≡ inner }
        ensures faults { reader_faults result ≡ 0 }
    {
        FromReader { inner, faults: 0 }
    }
}

impl<R: Read> Source for FromReader<R> {
    ghost left = { λ s. R.remaining s.inner };

    ghost faults = { λ s. s.faults };

    fn read(&mut self, buf: &mut [u8]) -> Result<usize, Failed>
        requires { 0 < length buf.old }
        ensures bound { ReadsAtMost result buf.new }
        ensures bytes { ReadConsumes (R.remaining (reader_of self.old))
            (R.remaining (reader_of self.new)) result buf.new }
        ensures cause { HasCause (reader_faults self.old) (reader_faults self.new) result }
        ensures ok { OnOk result (reader_faults self.new ≡ reader_faults self.old) }
        ensures err { OnErr result (reader_faults self.new ≡ next_count (reader_faults self.old)) }
    {
        match read_again(&mut self.inner, buf) {
            Ok(count) => Ok(count),
            Err(failed) => {
                self.faults = self.faults.saturating_add(1);
                Err(failed)
            }
        }
    }
}

/// One read, which is made again where a signal interrupts it.
fn read_again<R: Read>(reader: &mut R, buf: &mut [u8]) -> Result<usize, Failed>
    ensures bound { ReadsAtMost result buf.new }
    ensures bytes { ReadConsumes (R.remaining reader.old) (R.remaining reader.new) result buf.new }
{
    for _ in 0..TRIES {
        match reader.read(buf) {
            Ok(count) => return Ok(count),
            Err(error) if error.kind() == ErrorKind::Interrupted => {}
            Err(_) => return Err(Failed),
        }
    }
    Err(Failed)
}
