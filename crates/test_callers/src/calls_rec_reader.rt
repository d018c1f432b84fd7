//! A caller of `rec_reader`, as its page has it.

use rec_reader::{frames_of, read_recording};
use std::alloc::{AllocError, Global};

/// The longest frame of channel 1, as far as the recording can be read: its length.
pub fn longest(alloc: Global, bytes: &[u8]) -> Result<Option<usize>, AllocError> {
    let recording = match read_recording(alloc, bytes) {
        Ok(recording) => recording,
        Err(fault) => fault.into_before(),
    };
    let frames = frames_of(alloc, &recording, 1)?;
    Ok(frames.iter().map(|frame| frame.bytes.len()).max())
}
