//! An output that keeps nothing.

use std::io::{self, Write};

/// Takes all bytes, and keeps none: what is written into it is only judged.
#[derive(Drop)]
pub(crate) struct Discard;

impl Write for Discard {
    fn write(&mut self, buf: &[u8]) -> io::Result<usize> {
        Ok(buf.len())
    }

    fn flush(&mut self) -> io::Result<()> {
        Ok(())
    }
}
