// Standard input and output: a reader and a writer that a signal interrupts are called again.
use server::{StandardInput, StandardOutput};
use session_port::{Sink, Source};
use std::io::{self, ErrorKind, Read, Write};
use std::test::Fail;
use test_support::expect;

/// Gives its bytes, but for the first read: a signal comes in between.
#[derive(Drop)]
struct Tape<'a> {
    left: &'a [u8],
    is_interrupted: bool,
}

impl Read for Tape<'_> {
    fn read(&mut self, buf: &mut [u8]) -> io::Result<usize> {
        if !self.is_interrupted {
            self.is_interrupted = true;
            return Err(io::Error::from(ErrorKind::Interrupted));
        }
        self.left.read(buf)
    }
}

/// Takes a few bytes at once, but for the first write: a signal comes in between. It notes how many were flushed.
#[derive(Drop)]
struct Paper {
    bytes: Vec<u8>,
    flushed: usize,
    is_interrupted: bool,
}

impl Write for Paper {
    fn write(&mut self, buf: &[u8]) -> io::Result<usize> {
        if !self.is_interrupted {
            self.is_interrupted = true;
            return Err(io::Error::from(ErrorKind::Interrupted));
        }
        let len = buf.len().min(2);
        self.bytes.extend_from_slice(&buf[..len])?;
        Ok(len)
    }

    fn flush(&mut self) -> io::Result<()> {
        self.flushed = self.bytes.len();
        Ok(())
    }
}

#[test]
fn a_signal_comes_before_a_read(rt: HostRuntime) -> Result<(), Fail> {
    let tape = Tape {
        left: b"abc",
        is_interrupted: false,
    };
    let Ok(mut input) = StandardInput::new(rt.alloc(), tape) else {
        return Err(Fail::from("no room for a piece"));
    };
    let Ok(Some(piece)) = input.read_piece(9) else {
        return Err(Fail::from("no piece"));
    };
    expect("a piece", piece.as_slice() == b"abc".as_slice())?;
    expect("the end", matches!(input.read_piece(9), Ok(None)))
}

#[test]
fn a_signal_comes_before_a_write(rt: HostRuntime) -> Result<(), Fail> {
    let mut paper = Paper {
        bytes: Vec::new(rt.alloc()),
        flushed: 0,
        is_interrupted: false,
    };
    let mut output = StandardOutput::new(&mut paper);
    expect("a turn", output.put_turn(b"abc").is_ok())?;
    drop(output);
    expect("all of it", paper.bytes.as_slice() == b"abc".as_slice())?;
    expect("flushed", paper.flushed == 3)
}
