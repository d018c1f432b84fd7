//! The lines that change filters while a recording goes on.

use cli_streams::channel_in;
use std::alloc::Global;
use std::io::{self, BufRead, BufReader, Read, Take};

/// How many lines are read at most.
pub(crate) const MAX_LINES: u32 = 65_536;

/// How many bytes are read at most.
const MAX_BYTES: u64 = 16_777_216;

/// The lines of an input, 65,536 lines and 16,777,216 bytes at most.
#[derive(Drop)]
pub struct Lines<I: Drop> {
    input: BufReader<Take<I>>,
    line: Vec<u8>,
    left: u32,
}

impl<I: Read + Drop> Lines<I> {
    /// The lines of this input, of which none is read yet.
    ///
    /// # Errors
    ///
    /// There is no memory for a buffer.
    pub fn new(alloc: Global, input: I) -> io::Result<Lines<I>> {
        Ok(Lines {
            input: BufReader::new(alloc, input.take(MAX_BYTES))?,
            line: Vec::new(alloc),
            left: MAX_LINES,
        })
    }

    /// The next line, without its line feed; `None` after the last. A last line without a line feed
    /// counts where the input ends, and is dropped where the read of it failed, or where it reaches
    /// [`MAX_BYTES`].
    ///
    /// # Errors
    ///
    /// That of the read: the lines have ended.
    pub(crate) fn next(&mut self) -> io::Result<Option<&[u8]>> {
        if self.left == 0 {
            return Ok(None);
        }
        self.left -= 1;
        self.line.clear();
        if self.input.read_until(b'\n', &mut self.line)? == 0 {
            return Ok(None);
        }
        match self.line.as_slice().split_last() {
            Some((b'\n', line)) => Ok(Some(line)),
            _ if self.input.get_ref().limit() == 0 => Ok(None),
            _ => Ok(Some(self.line.as_slice())),
        }
    }
}

/// What a line asks for: another program for a channel's filter.
#[derive(Clone, Copy)]
pub(crate) struct Request<'l> {
    pub(crate) channel: u16,
    /// The path of the program's listing.
    pub(crate) file: &'l str,
}

/// What a line `set <channel> <file>` asks for.
///
/// # Errors
///
/// The channel that another line names, 0 if it names none.
pub(crate) fn request_in(line: &[u8]) -> Result<Request<'_>, u16> {
    let Ok(text) = str::from_utf8(line) else {
        return Err(0);
    };
    let Some(words) = text.strip_prefix("set ") else {
        return Err(0);
    };
    let (word, file) = words.split_once(' ').unwrap_or((words, ""));
    match channel_in(word) {
        Some(channel) if !file.is_empty() => Ok(Request { channel, file }),
        channel => Err(channel.unwrap_or(0)),
    }
}
