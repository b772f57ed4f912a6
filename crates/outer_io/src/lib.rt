//! Where a program's bytes come from and go to: sources and sinks that count their faults, in
//! memory and over std's readers and writers, and the transfer of all bytes.
#![tactic(auto)]

pub mod fault;
pub mod gate;
pub mod memory;
pub mod reader;
pub mod sink;
pub mod source;
#[cfg(test)]
mod tests;
pub mod transfer;
pub mod writer;

pub use fault::{Failed, OutOfMemory};
pub use gate::{Gate, NoGate};
pub use memory::{MemSink, MemSource};
pub use reader::FromReader;
pub use sink::Sink;
pub use source::Source;
pub use transfer::{ReadError, read_all, write_all};
pub use writer::ToWriter;
