//! How an output's file is created.

use crate::ending::CommandEnding;
use crate::forced::force_folder_of;
use crate::inputs::Inputs;
use std::fs::{File, OpenFile, OpenOptions, TryLockError};
use std::io::{self, ErrorKind};
use std::rt::Files;

/// A file that can be locked, so that one program at a time writes it.
pub trait LockFile {
    /// Takes the lock, which goes with the file's closing.
    ///
    /// # Errors
    ///
    /// `WouldBlock` where another open of the file has it.
    fn try_lock(&self) -> Result<(), TryLockError>;
}

impl LockFile for File {
    fn try_lock(&self) -> Result<(), TryLockError> {
        File::try_lock(self)
    }
}

/// Creates an output's file, or empties it if it is there. A regular file is locked as long as it is
/// open. One that is among the inputs, or that another program has locked, is refused and keeps its
/// bytes. The folder of a new one is forced to its disk.
pub fn create_output<'a, R: Files>(
    rt: &R,
    inputs: &Inputs,
    out: &'a str,
) -> Result<R::File, CommandEnding<'a>>
where
    R::File: LockFile,
{
    let opened = OpenOptions::new().write(true).create(true).open(rt, out);
    let file = opened.map_err(|error| CommandEnding::of_io(out, &error))?;
    let was_empty = empty(inputs, &file).map_err(|error| CommandEnding::of_io(out, &error))?;
    if was_empty {
        force_folder_of(rt, out).map_err(|error| CommandEnding::of_io(out, &error))?;
    }
    Ok(file)
}

/// Locks and empties a regular file. Whether it was empty, as a new one is. A pipe or a device has
/// nothing to lose.
fn empty<F: OpenFile + LockFile>(inputs: &Inputs, file: &F) -> io::Result<bool> {
    let found = file.metadata()?;
    // its name may be another file's by now than when it was looked at
    if inputs.is_spoiled(&found) {
        return Err(io::Error::from(ErrorKind::InvalidInput));
    }
    if !found.is_file() {
        return Ok(false);
    }
    match file.try_lock() {
        Err(TryLockError::WouldBlock) => Err(io::Error::from(ErrorKind::WouldBlock)),
        // a file system may have no locks
        Ok(()) | Err(TryLockError::Error(_)) => {
            file.set_len(0)?;
            Ok(found.len() == 0)
        }
    }
}
