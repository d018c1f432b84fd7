//! The files that a command reads, by which it tells that its output is one of them.

ghost use Rattle.std.specs.Prelude.{◌≡◌, IfErr};
ghost use Rattle.cli_streams.specs.declared.ending.CommandEnding.TheVariants.{File};
ghost use Rattle.cli_streams.specs.Endings.{IsPrintingFault};

use crate::ending::{CommandEnding, STREAM};
use std::alloc::{AllocError, Global};
use std::fs::{Metadata, OpenFile};
use std::io::{self, ErrorKind};
use std::os::unix::fs::{FileTypeExt, MetadataExt};
use std::rt::Files;

/// A file, by whatever name: the device that has it, and its number there.
#[derive(Clone, Copy, PartialEq, Eq)]
struct Identity {
    device: u64,
    number: u64,
}

/// The system's name for standard input.
const STANDARD_INPUT: &str = "/dev/stdin";

/// The system's name for standard output.
const STANDARD_OUTPUT: &str = "/dev/stdout";

/// The names that the system has for the standard streams.
const STREAMS: [&str; 3] = [STANDARD_INPUT, STANDARD_OUTPUT, "/dev/stderr"];

/// Files that a command has opened, none of which may be its output.
#[derive(Drop)]
pub struct Inputs {
    files: Vec<Identity>,
}

impl Inputs {
    /// No files.
    pub fn new(alloc: Global) -> Inputs {
        Inputs {
            files: Vec::new(alloc),
        }
    }

    /// Adds an open file. One that doesn't tell what it is can't be compared, and is passed over.
    pub fn add<F: OpenFile>(&mut self, file: &F) -> Result<(), AllocError> {
        let Ok(found) = file.metadata() else {
            return Ok(());
        };
        Ok(self.files.push(identity_of(&found))?)
    }

    /// Adds standard input, which a command reads: also a pipe, out of which would come again what
    /// goes into it.
    pub fn add_standard_input<R: Files>(&mut self, rt: &R) -> Result<(), AllocError> {
        let Ok(found) = rt.metadata(STANDARD_INPUT) else {
            return Ok(());
        };
        Ok(self.files.push(identity_of(&found))?)
    }

    /// Adds the files that the standard streams are, as a shell makes them by `<` and `>`: what is
    /// printed would be written over an output that is one of them, and what is read would be lost.
    /// A stream that is no regular file is passed over: `/dev/stdout` may be an output.
    pub fn add_streams<R: Files>(&mut self, rt: &R) -> Result<(), AllocError> {
        'streams: for name in STREAMS {
            match rt.metadata(name) {
                Ok(found) if found.is_file() => self.files.push(identity_of(&found))?,
                Ok(_) | Err(_) => {}
            }
        }
        Ok(())
    }

    /// Refuses an output that is one of these files, by whatever name: a regular file would be
    /// emptied, and what goes into a pipe would come out of it again. A device has nothing to lose.
    /// An output that can't be looked at is passed over: `create_output` looks at it once more.
    pub fn refuse_input<'a, R: Files>(&self, rt: &R, out: &'a str) -> Result<(), CommandEnding<'a>>
        ensures named { IfErr result (λ ending. ending ≡ File out.entry) }
    {
        match rt.metadata(out) {
            Ok(found) if self.is_spoiled(&found) => Err(CommandEnding::File(out)),
            Ok(_) | Err(_) => Ok(()),
        }
    }

    /// Refuses an output as [`Inputs::refuse_input`] does, and one that may be there, and can't be
    /// looked at.
    pub fn refuse_output<'a, R: Files>(
        &self,
        rt: &R,
        out: &'a str,
    ) -> Result<(), CommandEnding<'a>> {
        match rt.metadata(out) {
            Ok(found) if self.is_spoiled(&found) => Err(CommandEnding::File(out)),
            Ok(_) => Ok(()),
            Err(error) if error.kind() == ErrorKind::NotFound => Ok(()),
            Err(error) => Err(CommandEnding::of_io(out, &error)),
        }
    }

    /// Whether this is a name of a pipe or a device among these files, whose bytes go to one reader
    /// alone. A folder, which no reader reads, is neither. It doesn't open it, since opening a pipe
    /// may wait.
    pub fn has_stream<R: Files>(&self, rt: &R, name: &str) -> bool {
        match rt.metadata(name) {
            Ok(found) => !found.is_file() && !found.is_dir() && self.has(&found),
            Err(_) => false,
        }
    }

    /// Whether a file that is written would spoil what one of these gives.
    pub(crate) fn is_spoiled(&self, found: &Metadata) -> bool {
        is_kept(found) && self.has(found)
    }

    /// Whether a file is one of these.
    fn has(&self, found: &Metadata) -> bool {
        self.files.as_slice().contains(&identity_of(found))
    }
}

/// Refuses standard output if it is the file that a command has opened to read, as `>>` makes it: what
/// is printed would come in again, and the file would be another one.
pub fn refuse_output_into<'a, R: Files, F: OpenFile>(
    rt: &R,
    read: &F,
) -> Result<(), CommandEnding<'a>> {
    refuse_one(read.metadata(), rt.metadata(STANDARD_OUTPUT))
}

/// Refuses standard output if it is the file or the pipe that standard input is.
pub fn refuse_output_into_input<'a, R: Files>(rt: &R) -> Result<(), CommandEnding<'a>>
    ensures fault { IfErr result (λ ending. IsPrintingFault ending) }
{
    refuse_one(rt.metadata(STANDARD_INPUT), rt.metadata(STANDARD_OUTPUT))
}

/// Refuses standard output if it is what is read. What doesn't tell what it is can't be compared, and
/// is passed over.
fn refuse_one<'a>(
    read: io::Result<Metadata>,
    written: io::Result<Metadata>,
) -> Result<(), CommandEnding<'a>>
    ensures fault { IfErr result (λ ending. IsPrintingFault ending) }
{
    let (Ok(read), Ok(written)) = (read, written) else {
        return Ok(());
    };
    if is_kept(&read) && identity_of(&read) == identity_of(&written) {
        return Err(CommandEnding::File(STREAM));
    }
    Ok(())
}

/// Whether bytes that are written there are found again, as in a file or a pipe. A device has nothing
/// to lose.
fn is_kept(found: &Metadata) -> bool {
    found.is_file() || found.file_type().is_fifo()
}

/// What tells a file from all others.
fn identity_of(found: &Metadata) -> Identity {
    Identity {
        device: found.dev(),
        number: found.ino(),
    }
}
