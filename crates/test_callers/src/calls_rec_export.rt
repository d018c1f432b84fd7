//! A caller of `rec_export`, as its page has it.

use rec_export::{ExportEnd, export_recording};
use rec_reader::Reader;
use std::alloc::Global;
use std::io::{Read, Write};

/// Writes the frames of a recording as a capture whose times begin at an origin, in seconds since
/// 1970.
pub fn write_frames<R: Read + Drop, W: Write>(
    alloc: Global,
    input: R,
    origin: u64,
    out: &mut W,
) -> Result<(), ExportEnd> {
    let mut reader = Reader::new(alloc, input);
    export_recording(alloc, &mut reader, Some(origin), out)
}
