ghost use Rattle.std.specs.Prelude.{◌≤◌, IfOk};

use crate::{
    Failed, FromReader, MemSink, MemSource, ReadError, Sink, ToWriter, read_all, write_all,
};
use std::io;
use std::io::{Cursor, ErrorKind, Read, Write};
use std::test::Fail;

const TEXT: &[u8] = b"abcdefghij";

#[test]
fn reads_all_or_says_why(rt: HostRuntime) -> Result<(), Fail> {
    const FAULT: ReadError = ReadError::ReadFault;
    const LONG: ReadError = ReadError::TooLong;
    // the piece, the call that fails, the limit, whether the text came, and how much a second try
    // gets
    let cases = &[
        (4, 99, 10, Ok(true), Ok(0)),
        (1, 11, 10, Ok(true), Err(FAULT)),
        (4, 4, 10, Ok(true), Err(FAULT)),
        (usize::MAX, 99, usize::MAX, Ok(true), Ok(0)),
        (4, 0, 10, Err(FAULT), Ok(10)),
        (4, 2, 10, Err(FAULT), Ok(2)),
        (4, 3, 10, Err(FAULT), Ok(0)),
        (4, 99, 9, Err(LONG), Ok(0)),
        (4, 99, 5, Err(LONG), Ok(4)),
        (4, 2, 5, Err(LONG), Err(FAULT)),
        (4, 1, 5, Err(FAULT), Ok(6)),
        (4, 99, 0, Err(LONG), Ok(9)),
    ];
    for &(piece, failing, limit, want, rest) in cases {
        let bytes = TEXT.to_vec(rt.alloc())?;
        let failing = vec![in rt.alloc(); failing]?;
        assert!(rt; piece > 0);
        let mut source = MemSource::new(bytes, failing, piece);
        let first = read_all(rt.alloc(), &mut source, limit);
        assert_eq!(rt; first.map(|bytes| bytes.as_slice() == TEXT), want);
        let second = read_all(rt.alloc(), &mut source, 100);
        assert_eq!(rt; second.map(|bytes| bytes.len()), rest);
    }
    Ok(())
}

#[test]
fn asks_for_what_it_may_take(rt: HostRuntime) -> Result<(), Fail> {
    // how many bytes there are, the call that fails, the limit, and how many bytes came
    let cases = &[
        (0, 1, 0, Ok(0)),
        (0, 0, 0, Err(ReadError::ReadFault)),
        (4097, 1, 4095, Err(ReadError::TooLong)),
        (4097, 1, 4096, Err(ReadError::ReadFault)),
        (4097, 2, 4096, Err(ReadError::TooLong)),
        (5000, 3, 5000, Ok(5000)),
    ];
    for &(len, failing, limit, want) in cases {
        let bytes = vec![in rt.alloc(); 7; len]?;
        let failing = vec![in rt.alloc(); failing]?;
        let mut source = MemSource::new(bytes, failing, usize::MAX);
        let answer = read_all(rt.alloc(), &mut source, limit);
        assert_eq!(rt; answer.map(|bytes| bytes.len()), want);
    }
    Ok(())
}

#[test]
fn writes_all_or_a_front(rt: HostRuntime) -> Result<(), Fail> {
    // the piece, the call that fails, the room, the answer, and how much was written
    let cases = &[
        (4, 99, 10, Ok(()), 10),
        (4, 3, 10, Ok(()), 10),
        (1, 10, 20, Ok(()), 10),
        (usize::MAX, 1, 10, Ok(()), 10),
        (4, 99, 9, Err(Failed), 9),
        (4, 0, 10, Err(Failed), 0),
        (4, 1, 10, Err(Failed), 4),
        (4, 2, 10, Err(Failed), 8),
        (4, 99, 0, Err(Failed), 0),
    ];
    for &(piece, failing, room, want, len) in cases {
        let failing = vec![in rt.alloc(); failing]?;
        assert!(rt; piece > 0);
        let mut sink = MemSink::new(rt.alloc(), room, failing, piece)?;
        assert_eq!(rt; write_all(&mut sink, TEXT), want);
        assert_eq!(rt; Some(sink.written()), TEXT.get(..len));
        assert_eq!(rt; write_all(&mut sink, b""), Ok(()));
    }
    Ok(())
}

// Gives or takes three bytes a call. One is interrupted, and one fails.
#[derive(Drop)]
struct Choppy {
    calls: u32,
    interrupted: u32,
    failing: u32,
}

impl Choppy {
    fn step(&mut self, len: usize) -> io::Result<usize>
        ensures { IfOk result (λ n. n ≤ len) }
    {
        let call = self.calls;
        self.calls = call.saturating_add(1);
        if call == self.failing {
            return Err(io::Error::from(ErrorKind::BrokenPipe));
        }
        if call == self.interrupted {
            return Err(io::Error::from(ErrorKind::Interrupted));
        }
        Ok(len.min(3))
    }
}

impl Read for Choppy {
    fn read(&mut self, buf: &mut [u8]) -> io::Result<usize> {
        let len = buf.len();
        self.step(len)
    }
}

impl Write for Choppy {
    fn write(&mut self, buf: &[u8]) -> io::Result<usize> {
        self.step(buf.len())
    }

    fn flush(&mut self) -> io::Result<()> {
        Ok(())
    }
}

#[test]
fn reads_through_a_reader(rt: HostRuntime) -> Result<(), Fail> {
    let mut source = FromReader::new(Cursor::new(TEXT));
    let bytes = read_all(rt.alloc(), &mut source, 10);
    assert_eq!(rt; bytes.map(|bytes| bytes.as_slice() == TEXT), Ok(true));

    let cases = &[
        (9, 1, ReadError::ReadFault),
        (9, 4, ReadError::TooLong),
        (1, 2, ReadError::ReadFault),
        (1, 5, ReadError::TooLong),
    ];
    for &(interrupted, failing, want) in cases {
        let mut source = FromReader::new(Choppy {
            calls: 0,
            interrupted,
            failing,
        });
        let answer = read_all(rt.alloc(), &mut source, 10);
        assert_eq!(rt; answer.map(|bytes| bytes.len()), Err(want));
    }
    Ok(())
}

#[test]
fn writes_through_a_writer(rt: HostRuntime) -> Result<(), Fail> {
    let mut out = Vec::new(rt.alloc());
    let mut sink = ToWriter::new(&mut out);
    assert_eq!(rt; write_all(&mut sink, TEXT), Ok(()));
    assert_eq!(rt; out.as_slice(), TEXT);

    let mut full = [0; 4];
    let mut sink = ToWriter::new(Cursor::new(&mut full[..]));
    assert_eq!(rt; write_all(&mut sink, TEXT), Err(Failed));
    assert_eq!(rt; full.as_slice(), b"abcd".as_slice());

    for (interrupted, failing, want) in [(9, 1, Err(Failed)), (9, 4, Ok(())), (1, 5, Ok(()))] {
        let mut sink = ToWriter::new(Choppy {
            calls: 0,
            interrupted,
            failing,
        });
        assert_eq!(rt; write_all(&mut sink, TEXT), want);
    }
    Ok(())
}
