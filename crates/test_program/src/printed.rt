//! How lines and texts go out: each as one write, and then a flush.

use cli_streams::{print_line, print_text};
use std::io::{self, ErrorKind, Write};
use test_samples::assert_same;

/// An output that counts its writes, and what it had when it was flushed last; or whose flush fails.
#[derive(Drop)]
struct Counted {
    bytes: usize,
    writes: u32,
    flushed: usize,
    fails: bool,
}

impl Counted {
    fn new(fails: bool) -> Counted {
        Counted {
            bytes: 0,
            writes: 0,
            flushed: 0,
            fails,
        }
    }
}

impl Write for Counted {
    fn write(&mut self, part: &[u8]) -> io::Result<usize> {
        self.writes = self.writes.saturating_add(1);
        self.bytes = self.bytes.saturating_add(part.len());
        Ok(part.len())
    }

    fn flush(&mut self) -> io::Result<()> {
        if self.fails {
            return Err(io::Error::from(ErrorKind::BrokenPipe));
        }
        self.flushed = self.bytes;
        Ok(())
    }
}

#[test]
fn a_line_is_one_write_and_a_flush(rt: HostRuntime) {
    let mut output = Counted::new(false);
    let mut line = Vec::new(rt.alloc());
    for number in 1..=3u32 {
        let built = writeln!(&mut line, "valid {number}");
        assert_same!(rt; print_line(&mut output, &mut line, built).is_ok(), true);
        assert_same!(rt; output.writes, number);
        assert_same!(rt; output.flushed, output.bytes);
    }
    assert_same!(rt; output.bytes, 24);
}

#[test]
fn a_text_is_one_write_and_a_flush(rt: HostRuntime) {
    let mut output = Counted::new(false);
    assert_same!(rt; print_text(&mut output, "one\ntwo\n").is_ok(), true);
    assert_same!(rt; output.writes, 1);
    assert_same!(rt; output.flushed, 8);
}

#[test]
fn a_flush_that_fails_is_no_printed_line(rt: HostRuntime) {
    let mut output = Counted::new(true);
    let mut line = Vec::new(rt.alloc());
    let built = writeln!(&mut line, "valid 1");
    assert_same!(rt; print_line(&mut output, &mut line, built).is_ok(), false);
    assert_same!(rt; print_text(&mut output, "one\n").is_ok(), false);
}
