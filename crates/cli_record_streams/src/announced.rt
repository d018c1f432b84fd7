//! The output of a recording, whose failure is told at the moment when it fails.

ghost use Rattle.std.specs.Prelude.{◌≡◌, ◌≢◌, Some, IfErr};
ghost use Rattle.std.specs.IoError.{error_kind};
ghost use Rattle.cli_streams.specs.declared.ending.CommandEnding.TheVariants.{Told, Recording};

use crate::errors::print_error;
use crate::retried::Retried;
use ch11_packet::PACKET_PARTS;
use cli_streams::{CommandEnding, RecordingFault, force_to_disk};
use std::fs::OpenFile;
use std::io::{self, ErrorKind, Write};
use std::sync::{Mutex, Wait};

/// How much of a recording went out.
#[derive(Clone, Copy)]
struct Gone {
    /// The packets that went out whole.
    whole: u64,
    /// The parts of the next packet that went out whole.
    parts: usize,
    /// The bytes of the next packet that went out.
    bytes: u64,
}

impl Gone {
    /// Nothing.
    const NOTHING: Gone = Gone {
        whole: 0,
        parts: 0,
        bytes: 0,
    };

    /// Counts bytes that went out of a part of a packet, or of what was left of one. The writer gives
    /// a packet part by part, none of them empty, so the last part ends the packet.
    fn count(&mut self, part: &[u8], written: usize) {
        self.bytes = self.bytes.saturating_add(written as u64);
        if written < part.len() {
            return;
        }
        self.parts = self.parts.saturating_add(1);
        if self.parts == PACKET_PARTS {
            *self = Gone {
                whole: self.whole.saturating_add(1),
                ..Gone::NOTHING
            };
        }
    }
}

/// The output of a recording. Where it fails, that is told on standard error at once, with how much
/// went out: the recording itself ends only when its feeds have.
#[derive(Drop)]
pub struct AnnouncedOutput<'r, R, W: Drop, E: Drop> {
    rt: &'r R,
    errors: &'r Mutex<E>,
    out: W,
    gone: Gone,
    told: Option<RecordingFault>,
}

impl<'r, R: Wait, W: Write + Drop, E: Write + Drop> AnnouncedOutput<'r, R, W, E> {
    /// An output that nothing went out to.
    pub fn new(rt: &'r R, errors: &'r Mutex<E>, out: W) -> AnnouncedOutput<'r, R, W, E>
        ensures { result.out ≡ out }
    {
        AnnouncedOutput {
            rt,
            errors,
            out,
            gone: Gone::NOTHING,
            told: None,
        }
    }

    /// What a fault of this output comes to: nothing more is printed of one that was told.
    pub fn ending<'a>(&self, fault: RecordingFault) -> CommandEnding<'a>
        ensures told { self.now.told ≡ Some fault → result ≡ Told }
        ensures untold { self.now.told ≢ Some fault → result ≡ Recording fault }
    {
        if self.told == Some(fault) {
            CommandEnding::Told
        } else {
            CommandEnding::Recording(fault)
        }
    }

    /// Tells that the output has failed.
    fn tell(&mut self)
        ensures out { self.new.out ≡ self.old.out }
    {
        let fault = RecordingFault::Output {
            whole: self.gone.whole,
            bytes: self.gone.bytes,
        };
        print_error(self.rt, self.errors, fault);
        self.told = Some(fault);
    }
}

impl<'r, R, W: OpenFile + Drop, E: Drop> AnnouncedOutput<'r, R, Retried<W>, E> {
    /// Forces what went out to its disk, if it has one.
    ///
    /// # Errors
    ///
    /// That of the disk.
    pub fn keep(&self) -> io::Result<()>
        ensures passed { IfErr result (λ error. error_kind error ≢ ErrorKind.InvalidInput) }
    {
        force_to_disk(&self.out.file)
    }
}

impl<'r, R: Wait, W: Write + Drop, E: Write + Drop> Write for AnnouncedOutput<'r, R, W, E> {
    ghost contents = { λ o. W.contents o.out };

    fn write(&mut self, part: &[u8]) -> io::Result<usize> {
        match self.out.write(part) {
            Ok(written) if 0 < written => {
                self.gone.count(part, written);
                Ok(written)
            }
            failed => {
                self.tell();
                failed
            }
        }
    }

    fn flush(&mut self) -> io::Result<()> {
        let flushed = self.out.flush();
        if flushed.is_err() {
            self.tell();
        }
        flushed
    }
}
