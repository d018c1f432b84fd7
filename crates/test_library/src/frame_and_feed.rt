//! Tests, and the bytes, readers and outputs that they share.
use crate::shared::bytes;
use eth_frame::*;
use std::alloc::Global;
use std::cell::Cell;
use std::io;
use std::io::{BufReader, ErrorKind, Read, Write};
use std::test::Fail;
use test_samples::all_bytes;

mod feed;
mod frame;

/// A broadcast ARP frame without a payload, with its check sequence.
const ARP: &str = "ffffffffffff 020000000001 0806 a1b2c3d4";

/// The record of this frame at counter 16.
const RECORD: &str = "100000000000 00 1200 ffffffffffff 020000000001 0806 a1b2c3d4";

/// A feed of two such records.
const TWO_RECORDS: &str = "100000000000 00 1200 ffffffffffff 020000000001 0806 a1b2c3d4 \
    100000000000 00 1200 ffffffffffff 020000000001 0806 a1b2c3d4";

/// Gives bytes in pieces of at most `most`, and fails at one of the calls, counted from 1.
#[derive(Drop)]
struct Pieces<'a> {
    rest: &'a [u8],
    most: usize,
    call: u32,
    fails_at: Option<u32>,
    kind: ErrorKind,
}

impl<'a> Pieces<'a> {
    fn of(rest: &'a [u8], most: usize) -> Pieces<'a> {
        Pieces {
            rest,
            most,
            call: 0,
            fails_at: None,
            kind: ErrorKind::Other,
        }
    }

    fn failing(rest: &'a [u8], call: u32, kind: ErrorKind) -> Pieces<'a> {
        Pieces {
            rest,
            most: usize::MAX,
            call: 0,
            fails_at: Some(call),
            kind,
        }
    }
}

impl Read for Pieces<'_> {
    fn read(&mut self, buf: &mut [u8]) -> io::Result<usize> {
        self.call = self.call.saturating_add(1);
        if self.fails_at == Some(self.call) {
            return Err(io::Error::from(self.kind));
        }
        let count = self.most.min(self.rest.len()).min(buf.len());
        let (front, rest) = self.rest.split_at(count);
        buf[..count].copy_from_slice(front);
        self.rest = rest;
        Ok(count)
    }
}

/// A reader that counts its calls.
#[derive(Drop)]
struct Counted<'a> {
    reader: Pieces<'a>,
    calls: &'a Cell<u32>,
}

impl Read for Counted<'_> {
    fn read(&mut self, buf: &mut [u8]) -> io::Result<usize> {
        self.calls.set(self.calls.get().saturating_add(1));
        self.reader.read(buf)
    }
}

/// Takes `room` bytes, and then fails, or takes none.
#[derive(Drop)]
struct Full {
    room: usize,
    fails: bool,
}

impl Write for Full {
    fn write(&mut self, buf: &[u8]) -> io::Result<usize> {
        if self.room == 0 && self.fails {
            return Err(io::Error::from(ErrorKind::StorageFull));
        }
        let count = self.room.min(buf.len());
        self.room -= count;
        Ok(count)
    }

    fn flush(&mut self) -> io::Result<()> {
        Ok(())
    }
}

/// The first answers of a source, by its bound.
fn answers<S: FrameSource>(
    source: &mut S,
    buffer: &mut FrameBuf,
) -> [Result<Next, SourceFault>; 3] {
    [
        source.next(buffer),
        source.next(buffer),
        source.next(buffer),
    ]
}
