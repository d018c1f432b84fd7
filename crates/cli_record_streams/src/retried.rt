//! A file whose calls are made again where a signal interrupts them.

use std::io::{self, ErrorKind, Read, Write};

/// A file that is read and written as `std` does it where it reads or writes all: a call that a signal
/// interrupts is made again, since nothing went wrong, and no byte was moved.
#[derive(Drop)]
pub struct Retried<F: Drop> {
    /// The file.
    pub file: F,
}

impl<F: Read + Drop> Read for Retried<F> {
    ghost remaining = { λ r. F.remaining r.file };

    fn read(&mut self, buf: &mut [u8]) -> io::Result<usize> {
        'tries: for _ in 0..u64::MAX {
            match self.file.read(buf) {
                Err(error) if error.kind() == ErrorKind::Interrupted => {}
                answer => return answer,
            }
        }
        Err(io::Error::from(ErrorKind::Interrupted))
    }
}

impl<F: Write + Drop> Write for Retried<F> {
    ghost contents = { λ w. F.contents w.file };

    fn write(&mut self, part: &[u8]) -> io::Result<usize> {
        'tries: for _ in 0..u64::MAX {
            match self.file.write(part) {
                Err(error) if error.kind() == ErrorKind::Interrupted => {}
                answer => return answer,
            }
        }
        Err(io::Error::from(ErrorKind::Interrupted))
    }

    fn flush(&mut self) -> io::Result<()> {
        self.file.flush()
    }
}
