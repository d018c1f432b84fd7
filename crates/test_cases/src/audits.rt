//! Recordings that are judged: parts of `two_versions.ch11`, whole or with a byte changed.

use crate::run::{Input, NOTHING, show_run};
use rec_cli::{LockFile, PlacedRead};
use std::rt::Files;
use std::sync::Wait;
use std::thread::Threads;
use std::{fs, io};

/// A part of the recording.
struct Part {
    /// The place of its first byte.
    from: usize,
    /// The place behind its last one.
    to: usize,
    /// A byte that is changed: its place in the part, and its value.
    changed: Option<(usize, u8)>,
    /// Whether the record of the channel's end follows once more.
    ends_again: bool,
}

/// The place of the record of the channel's end.
const END: usize = 180;

/// The recording's length.
const LEN: usize = 232;

const WHOLE: Part = Part {
    from: 0,
    to: LEN,
    changed: None,
    ends_again: false,
};

static PARTS: [Part; 8] = [
    Part { to: END, ..WHOLE },
    Part {
        changed: Some((116, 0x00)),
        ..WHOLE
    },
    Part {
        changed: Some((112, 0xff)),
        ..WHOLE
    },
    Part {
        changed: Some((224, 0x02)),
        ..WHOLE
    },
    Part {
        ends_again: true,
        ..WHOLE
    },
    Part {
        from: END,
        changed: Some((44, 0x00)),
        ..WHOLE
    },
    Part { from: END, ..WHOLE },
    Part {
        to: 210,
        changed: Some((116, 0x00)),
        ..WHOLE
    },
];

/// Judges each part.
pub(crate) fn show_audits<R: AllocGlobal + Files + Print + Threads + Wait + Sync>(
    rt: &R,
) -> io::Result<()>
where
    R::File: Send + LockFile + PlacedRead,
    R::Dir: Send,
{
    let recording = fs::read(rt, "recordings/two_versions.ch11")?;
    for part in &PARTS {
        show_audit(rt, recording.as_slice(), part)?;
    }
    for name in ["none.ch11", "two.ch11"] {
        show_run(rt, &["audit", name], NOTHING)?;
    }
    Ok(())
}

/// Judges a part.
fn show_audit<R: AllocGlobal + Files + Print + Threads + Wait + Sync>(
    rt: &R,
    recording: &[u8],
    part: &Part,
) -> io::Result<()>
where
    R::File: Send + LockFile + PlacedRead,
    R::Dir: Send,
{
    let mut bytes = Vec::new(rt.alloc());
    bytes.extend_from_slice(recording.get(part.from..part.to).unwrap_or(&[]))?;
    print!(rt; "# the bytes from {} to {}", part.from, part.to)?;
    if let Some((at, value)) = part.changed {
        if let Some(byte) = bytes.get_mut(at) {
            *byte = value;
        }
        print!(rt; ", the one at {at} is {value:02x}")?;
    }
    if part.ends_again {
        bytes.extend_from_slice(recording.get(END..).unwrap_or(&[]))?;
        print!(rt; ", and the end again")?;
    }
    println!(rt)?;
    show_run(rt, &["audit", "-"], Input::Bytes(bytes.as_slice()))?;
    Ok(())
}
