//! All bytes of a source, and all bytes to a sink.

ghost use Rattle.std.specs.Prelude.{◌≡◌, ℕ, ◌+◌, ◌<◌, ◌≤◌, List, ◌++◌, length, IfOk, OnOk, OnErr, IsOk};
ghost use Rattle.std.specs.Io.KnownBytes.{Consumes, Appends, IsAtEnd, Keeps};
ghost use Rattle.outer_io.specs.Causes.{Rose, HasCause, Took, TookAtMost, WritesFront};

use crate::fault::Failed;
use crate::sink::Sink;
use crate::source::Source;
use std::alloc::Global;
use thiserror::Error;

/// Why not all bytes were read.
#[derive(Debug, Clone, Copy, PartialEq, Eq, Error)]
pub enum ReadError {
    #[error("a read failed")]
    ReadFault,
    #[error("longer than the limit")]
    TooLong,
    #[error("out of memory")]
    Memory,
}

/// Reads until the end, a fault, or one byte more than the limit.
pub fn read_all<S: Source>(
    alloc: Global,
    source: &mut S,
    limit: usize,
) -> Result<Vec<u8>, ReadError>
    ensures ok { IfOk result (λ v. Consumes (S.left source.old) (S.left source.new) v.items
        × IsAtEnd (S.left source.new) × (length v.items ≤ limit)) }
    ensures fault { result ≡ Err ReadError.ReadFault →
        Rose (S.faults source.old) (S.faults source.new)
        × TookAtMost (S.left source.old) (S.left source.new) limit }
    ensures long { result ≡ Err ReadError.TooLong →
        Took (S.left source.old) (S.left source.new) (limit + 1) }
    ensures memory { result ≡ Err ReadError.Memory →
        TookAtMost (S.left source.old) (S.left source.new) (limit + 1) }
    ensures later { S.faults source.old ≤ S.faults source.new }
{
    let mut out = Vec::new(alloc);
    let mut buf = [0u8; 4096];
    'pieces: loop {
        // one more than the limit leaves, so that a longer source shows
        let room = (limit - out.len()).min(4095) + 1;
        if read_piece(source, &mut buf[..room], &mut out)? == 0 {
            return Ok(out);
        }
        if out.len() > limit {
            return Err(ReadError::TooLong);
        }
    }
}

/// Reads once, and puts what it gave at the end of `out`.
fn read_piece<S: Source>(
    source: &mut S,
    buf: &mut [u8],
    out: &mut Vec<u8>,
) -> Result<usize, ReadError>
    requires { 0 < length buf.old }
    ensures ok { IfOk result (λ n. (bytes : List ℕ) × (length bytes ≡ n)
        × Consumes (S.left source.old) (S.left source.new) bytes
        × (out.new.items ≡ out.old.items ++ bytes)
        × (n ≡ 0 → IsAtEnd (S.left source.new))) }
    ensures len { IfOk result (λ n. n ≤ length buf.old) }
    ensures fault { result ≡ Err ReadError.ReadFault →
        Rose (S.faults source.old) (S.faults source.new)
        × Keeps (S.left source.old) (S.left source.new) }
    ensures long { result ≡ Err ReadError.TooLong → ⊥ }
    ensures memory { result ≡ Err ReadError.Memory →
        TookAtMost (S.left source.old) (S.left source.new) (length buf.old) }
    ensures later { S.faults source.old ≤ S.faults source.new }
{
    match source.read(buf) {
        Ok(n) => match out.extend_from_slice(&buf[..n]) {
            Ok(_) => Ok(n),
            Err(_) => Err(ReadError::Memory),
        },
        Err(_) => Err(ReadError::ReadFault),
    }
}

/// Writes all bytes, or a prefix of them and fails.
pub fn write_all<K: Sink>(sink: &mut K, bytes: &[u8]) -> Result<(), Failed>
    ensures ok { OnOk result (Appends (K.taken sink.old) (K.taken sink.new) bytes.now) }
    ensures err { OnErr result (WritesFront (K.taken sink.old) (K.taken sink.new) bytes.now) }
    ensures empty { length bytes.now ≡ 0 → IsOk result }
    ensures cause { HasCause (K.faults sink.old) (K.faults sink.new) result }
{
    let mut done = 0;
    while done < bytes.len() {
        done += sink.write(&bytes[done..])?;
    }
    Ok(())
}
