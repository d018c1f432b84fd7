//! Files whose calls a signal interrupts, as the command `record` reads and writes them.

use cli_record_streams::Retried;
use std::io::{self, ErrorKind, Read, Write};
use std::test::Fail;
use test_samples::assert_same;

/// How often each call is interrupted before it is answered.
const INTERRUPTIONS: u32 = 3;

/// A file of which each call moves one byte, after it was interrupted; or that fails.
#[derive(Drop)]
struct Interrupted {
    /// The byte that is read, and that was written last.
    byte: u8,
    calls: u32,
    left: u32,
    fails: bool,
}

impl Interrupted {
    fn new(fails: bool) -> Interrupted {
        Interrupted {
            byte: 0x5a,
            calls: 0,
            left: INTERRUPTIONS,
            fails,
        }
    }

    /// Counts a call: its error, if it has one.
    fn call(&mut self) -> io::Result<()> {
        self.calls = self.calls.saturating_add(1);
        if self.left > 0 {
            self.left -= 1;
            return Err(io::Error::from(ErrorKind::Interrupted));
        }
        self.left = INTERRUPTIONS;
        if self.fails {
            return Err(io::Error::from(ErrorKind::BrokenPipe));
        }
        Ok(())
    }
}

impl Read for Interrupted {
    fn read(&mut self, buf: &mut [u8]) -> io::Result<usize> {
        self.call()?;
        match buf.first_mut() {
            Some(first) => {
                *first = self.byte;
                Ok(1)
            }
            None => Ok(0),
        }
    }
}

impl Write for Interrupted {
    fn write(&mut self, part: &[u8]) -> io::Result<usize> {
        self.call()?;
        match part.first() {
            Some(first) => {
                self.byte = *first;
                Ok(1)
            }
            None => Ok(0),
        }
    }

    fn flush(&mut self) -> io::Result<()> {
        Ok(())
    }
}

#[test]
fn an_interrupted_read_is_made_again(rt: HostRuntime) -> Result<(), Fail> {
    let mut file = Retried {
        file: Interrupted::new(false),
    };
    let mut buf = [0u8; 2];
    assert_same!(rt; file.read(&mut buf).ok(), Some(1));
    assert_same!(rt; buf, [0x5a, 0]);
    assert_same!(rt; file.file.calls, INTERRUPTIONS + 1);
    Ok(())
}

#[test]
fn an_interrupted_write_is_made_again(rt: HostRuntime) -> Result<(), Fail> {
    let mut file = Retried {
        file: Interrupted::new(false),
    };
    assert_same!(rt; file.write(&[0xa5, 0]).ok(), Some(1));
    assert_same!(rt; file.file.byte, 0xa5);
    assert_same!(rt; file.file.calls, INTERRUPTIONS + 1);
    Ok(())
}

#[test]
fn another_error_ends_the_tries(rt: HostRuntime) -> Result<(), Fail> {
    let mut file = Retried {
        file: Interrupted::new(true),
    };
    assert_same!(rt; file.read(&mut [0]).map_err(|error| error.kind()).err(), Some(ErrorKind::BrokenPipe));
    assert_same!(rt; file.file.calls, INTERRUPTIONS + 1);
    assert_same!(rt; file.write(&[0]).map_err(|error| error.kind()).err(), Some(ErrorKind::BrokenPipe));
    assert_same!(rt; file.file.calls, 2 * (INTERRUPTIONS + 1));
    Ok(())
}
