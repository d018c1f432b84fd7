//! How an output's file is forced to its disk.

ghost use Rattle.std.specs.Prelude.{◌≢◌, IfErr};
ghost use Rattle.std.specs.IoError.{error_kind};

use std::fs::{File, OpenFile};
use std::io::{self, ErrorKind};
use std::rt::Files;

/// Forces what went out into a file to its disk. A pipe or a device has none, and says that it can't
/// be (`InvalidInput`), which is passed over.
///
/// # Errors
///
/// That of the disk.
pub fn force_to_disk<F: OpenFile>(file: &F) -> io::Result<()>
    ensures passed { IfErr result (λ error. error_kind error ≢ ErrorKind.InvalidInput) }
{
    match file.sync_all() {
        Err(error) if error.kind() != ErrorKind::InvalidInput => Err(error),
        _ => Ok(()),
    }
}

/// Forces the folder of a file to its disk, so that the name of a new file is there. A folder that may
/// not be read can't be forced, and is passed over.
///
/// # Errors
///
/// That of the disk.
pub(crate) fn force_folder_of<R: Files>(rt: &R, path: &str) -> io::Result<()> {
    match File::open(rt, folder_of(path)) {
        Ok(folder) => force_to_disk(&folder),
        Err(_) => Ok(()),
    }
}

/// The folder of a file, by its path.
fn folder_of(path: &str) -> &str {
    match path.rsplit_once('/') {
        None => ".",
        Some(("", _)) => "/",
        Some((folder, _)) => folder,
    }
}
