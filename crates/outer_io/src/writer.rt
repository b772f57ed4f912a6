//! A sink over a writer.

ghost use Rattle.std.specs.Prelude.{◌≡◌, ◌<◌, ◌≤◌, length, IfOk, OnOk, OnErr};
ghost use Rattle.std.specs.Io.{WritesAtMost};
ghost use Rattle.std.specs.Io.KnownBytes.{WriteAppends};
ghost use Rattle.outer_io.specs.Adapters.{writer_of, writer_faults};
ghost use Rattle.outer_io.specs.Causes.{HasCause, next_count};

use crate::fault::Failed;
use crate::reader::TRIES;
use crate::sink::Sink;
use std::io::{ErrorKind, Write};

/// A sink over a writer. Each error of the writer is a fault, but that a call was interrupted: it
/// is made again. A write that takes nothing is a fault.
#[derive(Drop)]
pub struct ToWriter<W> {
    inner: W,
    faults: u64,
}

impl<W: Write> ToWriter<W> {
    /// A sink into the writer.
    pub fn new(inner: W) -> ToWriter<W>
        ensures inner { writer_of result ≡ inner }
        ensures faults { writer_faults result ≡ 0 }
    {
        ToWriter { inner, faults: 0 }
    }
}

impl<W: Write> Sink for ToWriter<W> {
    ghost taken = { λ s. W.contents s.inner };

    ghost faults = { λ s. s.faults };

    fn write(&mut self, bytes: &[u8]) -> Result<usize, Failed>
        requires { 0 < length bytes.now }
        ensures some { IfOk result (λ n. (0 < n) × (n ≤ length bytes.now)) }
        ensures bytes { WriteAppends (W.contents (writer_of self.old))
            (W.contents (writer_of self.new)) result bytes.now }
        ensures cause { HasCause (writer_faults self.old) (writer_faults self.new) result }
        ensures ok { OnOk result (writer_faults self.new ≡ writer_faults self.old) }
        ensures err { OnErr result (writer_faults self.new ≡ next_count (writer_faults self.old)) }
    {
        match write_again(&mut self.inner, bytes) {
            Ok(count) if count > 0 => Ok(count),
            _ => {
                self.faults = self.faults.saturating_add(1);
                Err(Failed)
            }
        }
    }
}

/// One write, which is made again where a signal interrupts it.
fn write_again<W: Write>(writer: &mut W, bytes: &[u8]) -> Result<usize, Failed>
    ensures bound { WritesAtMost result bytes.now }
    ensures bytes { WriteAppends (W.contents writer.old) (W.contents writer.new) result bytes.now }
{
    for _ in 0..TRIES {
        match writer.write(bytes) {
            Ok(count) => return Ok(count),
            Err(error) if error.kind() == ErrorKind::Interrupted => {}
            Err(_) => return Err(Failed),
        }
    }
    Err(Failed)
}
