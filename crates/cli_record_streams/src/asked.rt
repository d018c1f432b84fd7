//! The programs that lines of an input ask for, and what is answered to the lines.

use crate::errors::print_error;
use crate::lines::{Lines, MAX_LINES, Request, request_in};
use crate::listed::{FilterFault, program_in};
use bpf_insn::ListingFault;
use bpf_verify::Verified;
use cli_streams::ListedFault;
use std::alloc::AllocFailed;
use std::io::{ErrorKind, Read, Write};
use std::rt::Files;
use std::sync::{Arc, Mutex, Wait};
use std::{fs, io};
use thiserror::Error;

/// Why a change is not made. Its text is the reason that is printed.
#[derive(Clone, Copy, Debug, Error)]
pub enum Refusal {
    /// The line is none that asks for a change.
    #[error("Line")]
    Line,
    /// The file can't be read, is no regular file, is no UTF-8, or is longer than a listing may be.
    #[error("File")]
    File,
    /// The file has no listing.
    #[error("Listing")]
    Listing,
    /// The listed program may not be installed.
    #[error("Program")]
    Program,
    /// Nothing of this channel is recorded.
    #[error("NoChannel")]
    NoChannel,
    /// The channel's filter has had as many programs as it may.
    #[error("VersionsFull")]
    VersionsFull,
}

/// An answer to a line. Its text is what is printed.
#[derive(Clone, Copy, Debug, Error)]
pub enum Reply {
    #[error("installed {channel} {version} {mark}")]
    Installed {
        channel: u16,
        version: u32,
        mark: u64,
    },
    #[error("refused {0} {1}")]
    Refused(u16, Refusal),
}

/// A program that a line asks for, for a channel's filter.
#[derive(Debug, Drop)]
pub struct Asked {
    /// The channel that the line names.
    pub channel: u16,
    /// The program, which is valid.
    pub program: Arc<Verified>,
}

/// Why a line gives no program.
enum Unmade {
    /// It is refused: its channel, and why.
    Refused(u16, Refusal),
    /// There is no memory for it.
    Memory,
}

/// No memory for a line, or for its program.
#[derive(Clone, Copy, Debug)]
pub struct NoMemory;

/// The program of the next line that gives one; the lines before it are refused on standard error.
pub fn next_asked<R: AllocGlobal + Files + Wait, I: Read + Drop, E: Write + Drop>(
    rt: &R,
    lines: &mut Lines<I>,
    errors: &Mutex<E>,
) -> Result<Option<Asked>, NoMemory> {
    'lines: for _ in 0..MAX_LINES {
        let line = match lines.next() {
            Ok(Some(line)) => line,
            Err(error) if error.kind() == ErrorKind::OutOfMemory => return Err(NoMemory),
            Ok(None) | Err(_) => return Ok(None),
        };
        match asked_in(rt, line) {
            Ok(asked) => return Ok(Some(asked)),
            Err(Unmade::Refused(channel, refusal)) => {
                print_error(rt, errors, Reply::Refused(channel, refusal));
            }
            Err(Unmade::Memory) => return Err(NoMemory),
        }
    }
    Ok(None)
}

/// The program that a line asks for.
fn asked_in<R: AllocGlobal + Files>(rt: &R, line: &[u8]) -> Result<Asked, Unmade> {
    let Request { channel, file } = request_in(line).map_err(|channel| Unmade::Refused(
        channel,
        Refusal::Line,
    ))?;
    let program = program_of(rt, file).map_err(|fault| unmade_by(channel, fault))?;
    let program = Arc::new(rt.alloc(), program).map_err(|_| Unmade::Memory)?;
    Ok(Asked { channel, program })
}

/// The program that a regular file lists. Another file is refused before it is opened: a pipe would
/// hold up all later lines, and a channel's own would lose frames. No more is read than the file is
/// long: a file of the system's own has no length, and may wait as a pipe does.
fn program_of<R: AllocGlobal + Files>(rt: &R, file: &str) -> Result<Verified, FilterFault> {
    let found = rt.metadata(file)?;
    if !found.is_file() {
        return Err(FilterFault::File(io::Error::from(ErrorKind::InvalidInput)));
    }
    program_in(rt.alloc(), &mut fs::open(rt, file)?.take(found.len()))
}

/// What a fault of a filter's file comes to.
fn unmade_by(channel: u16, fault: FilterFault) -> Unmade {
    match fault {
        FilterFault::File(error) if error.kind() == ErrorKind::OutOfMemory => Unmade::Memory,
        FilterFault::Listed(ListedFault::Listing(ListingFault::Memory)) => Unmade::Memory,
        FilterFault::File(_) => Unmade::Refused(channel, Refusal::File),
        FilterFault::Listed(ListedFault::Listing(_)) => Unmade::Refused(channel, Refusal::Listing),
        FilterFault::Listed(ListedFault::Refused(_)) => Unmade::Refused(channel, Refusal::Program),
    }
}
