//! The export of a recording whose packets come one at a time.

use rec_export::export_recording;
use rec_reader::Reader;
use std::alloc::Global;
use std::cell::Cell;
use std::io;
use std::io::{Read, Write};
use std::test::Fail;
use test_samples::{ACCEPTING, END, FRAMES, REJECTING, assert_same, joined_bytes};

/// A recording with two packets of frames, and where its packets end.
const TWO_OF_FRAMES: [&str; 5] = [REJECTING, FRAMES, ACCEPTING, FRAMES, END];

const ENDS: [usize; 6] = [0, 60, 120, 180, 240, 292];

/// An output that keeps what it takes until it is flushed.
#[derive(Drop)]
struct Kept<'a> {
    waits: usize,
    gone: &'a Cell<usize>,
}

impl Write for Kept<'_> {
    fn write(&mut self, buf: &[u8]) -> io::Result<usize> {
        self.waits = self.waits.saturating_add(buf.len());
        Ok(buf.len())
    }

    fn flush(&mut self) -> io::Result<()> {
        self.gone.set(self.gone.get().saturating_add(self.waits));
        self.waits = 0;
        Ok(())
    }
}

/// Gives bytes, and notes at each read where it stands and how many bytes of the output are gone.
#[derive(Drop)]
struct Asked<'a> {
    bytes: &'a [u8],
    at: usize,
    gone: &'a Cell<usize>,
    seen: Vec<(usize, usize)>,
}

impl Read for Asked<'_> {
    fn read(&mut self, buf: &mut [u8]) -> io::Result<usize> {
        if self.seen.push((self.at, self.gone.get())).is_err() {
            return Err(io::Error::from(io::ErrorKind::OutOfMemory));
        }
        let count = self.bytes.len().saturating_sub(self.at).min(buf.len());
        let Some(next) = self.bytes.get(self.at..self.at.saturating_add(count)) else {
            return Ok(0);
        };
        buf[..count].copy_from_slice(next);
        self.at = self.at.saturating_add(count);
        Ok(count)
    }
}

/// Exports a recording whole.
fn export<R: Read, W: Write>(alloc: Global, input: &mut R, out: &mut W) -> Result<(), Fail> {
    let mut reader = Reader::new(alloc, input);
    match export_recording(alloc, &mut reader, None, out) {
        Ok(()) => Ok(()),
        Err(_) => Err("the export".into()),
    }
}

/// How many bytes the export of a recording has.
fn export_len(alloc: Global, recording: &[u8]) -> Result<usize, Fail> {
    let mut out = Vec::new(alloc);
    let mut input = recording;
    export(alloc, &mut input, &mut out)?;
    Ok(out.len())
}

#[test]
fn what_was_exported_is_gone_before_the_next_packet_is_read(rt: HostRuntime) -> Result<(), Fail> {
    let alloc = rt.alloc();
    let recording = joined_bytes(alloc, &TWO_OF_FRAMES)?;
    let gone = Cell::new(0);
    let mut input = Asked {
        bytes: recording.as_slice(),
        at: 0,
        gone: &gone,
        seen: Vec::new(alloc),
    };
    let mut out = Kept {
        waits: 0,
        gone: &gone,
    };
    export(alloc, &mut input, &mut out)?;
    for end in &ENDS {
        let Some(part) = recording.as_slice().get(..*end) else {
            return Err("a recording of that length".into());
        };
        let wanted = export_len(alloc, part)?;
        let Some((_, gone)) = input.seen.iter().find(|seen| seen.0 == *end) else {
            return Err("a read at each packet's beginning".into());
        };
        assert_same!(rt; *gone, wanted);
    }
    Ok(())
}
