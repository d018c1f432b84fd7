//! A caller of `ch11_channels`, as its page has it.

use ch11_channels::{FileChannel, RunChannel, file_channels};
use std::alloc::{AllocError, Global};

/// The channels of a file of two recordings that both have a channel 7: the second's is channel 1 of the file.
pub fn two_sevens(alloc: Global) -> Result<Option<Vec<FileChannel>>, AllocError> {
    let first = RunChannel { run: 0, channel: 7 };
    let second = RunChannel { run: 1, channel: 7 };
    file_channels(alloc, &[first, second])
}
