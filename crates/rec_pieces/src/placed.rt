//! Reading at a place of an open file, which several readers share.

ghost use Rattle.std.specs.Prelude.{◌≡◌, drop};

use std::fs::File;
use std::io::{self, ErrorKind, Read};
use std::os::unix::fs::FileExt;

/// An open file that is read at places, and has no position of its own.
pub trait PlacedRead {
    ghost use Rattle.std.specs.Prelude.{ℕ, List, Option};
    ghost use Rattle.std.specs.Io.{ReadsAtMost};
    ghost use Rattle.rec_pieces.specs.Placed.{ReadsAt};

    // All its bytes: `None` where it doesn't say them.
    ghost held: { Self → Option (List ℕ) };

    /// Reads some of the bytes from a place on; none only at the end or with no room.
    fn read_at(&self, buf: &mut [u8], at: u64) -> io::Result<usize>
        ensures bound { ReadsAtMost result buf.new }
        ensures bytes { ReadsAt (held self.now) at result buf.new };
}

impl PlacedRead for File {
    ghost use Rattle.std.specs.Prelude.{None};

    ghost held = { λ _. None };

    fn read_at(&self, buf: &mut [u8], at: u64) -> io::Result<usize> {
        FileExt::read_at(self, buf, at)
    }
}

/// Bytes in memory, which say what they are.
impl PlacedRead for &[u8] {
    ghost use Rattle.std.specs.Prelude.{Some};

    ghost held = { λ bytes. Some bytes.now };

    fn read_at(&self, buf: &mut [u8], at: u64) -> io::Result<usize> {
        let mut rest = behind(self, at);
        rest.read(buf)
    }
}

/// The bytes from a place on: none where it lies behind them.
fn behind(bytes: &[u8], at: u64) -> &[u8]
    ensures { result.now ≡ drop at bytes.now }
{
    if at < bytes.len() as u64 {
        &bytes[at as usize..]
    } else {
        &[]
    }
}

/// A reader of the bytes of a shared file from a place on.
#[derive(Debug, Drop)]
pub struct FileAt<'f, F> {
    file: &'f F,
    at: u64,
}

impl<'f, F: PlacedRead> FileAt<'f, F> {
    ghost use Rattle.rec_pieces.specs.Placed.{known_from};

    /// The reader of the bytes from this place on.
    pub fn new(file: &'f F, at: u64) -> FileAt<'f, F>
        ensures { ⟦<FileAt<'f, F> as Read>⟧.remaining result ≡ known_from
            (F.held file.entry.now) at }
    {
        FileAt { file, at }
    }
}

impl<'f, F: PlacedRead> Read for FileAt<'f, F> {
    ghost use Rattle.rec_pieces.specs.Placed.{known_from};

    ghost remaining = { λ r. known_from (F.held r.file.now) r.at };

    fn read(&mut self, buf: &mut [u8]) -> io::Result<usize> {
        let count = self.file.read_at(buf, self.at)?;
        match self.at.checked_add(count as u64) {
            Some(next) => {
                self.at = next;
                Ok(count)
            }
            None => Err(io::Error::from(ErrorKind::InvalidInput)),
        }
    }
}
