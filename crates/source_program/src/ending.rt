//! How a program ends that reads one source and writes one text.

ghost use Rattle.source_program.specs.Ends.{EndsWith, change};

use outer_io::{Sink, write_all};

/// The most bytes that a source may have, `source_limit` of the clauses.
pub const SOURCE_LIMIT: usize = 65_536;

/// Writes a whole text, and gives the status with which to end: the given one, or 6 where a write
/// failed.
pub fn tell<K: Sink>(sink: &mut K, status: u8, text: &[u8]) -> u8
    ensures { EndsWith result (change (K.taken sink.old) (K.taken sink.new)
        (K.faults sink.old) (K.faults sink.new)) status text.now }
{
    match write_all(sink, text) {
        Ok(_) => status,
        Err(_) => 6,
    }
}
