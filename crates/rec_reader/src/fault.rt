//! Why bytes are read no further.

ghost use Rattle.std.specs.Prelude.{◌≡◌};
ghost use Rattle.rec_reader.specs.Reading.{class_kind, header_kind};
ghost use Rattle.rec_reader.specs.declared.fault.ReadFaultKind.TheVariants.{Device, Memory};

use crate::recording::Recording;
use ch11_packet::{ClassFault, HeaderFault};
use std::alloc::{AllocError, AllocFailed};
use std::error::Error;
use std::marker::Model;
use std::{fmt, io};
use thiserror::Error;

/// Why no packet follows, in the order in which faults are looked for; but a packet is cut also
/// where its header is whole and too few bytes follow it, which is looked for before its data checksum
/// and its body.
#[derive(Clone, Copy, Debug, PartialEq, Eq, Error)]
pub enum ReadFaultKind {
    /// Fewer bytes are left than a header has, or than the header says.
    #[error("1 Truncated")]
    Truncated,
    /// The bytes don't begin with the sync pattern.
    #[error("2 Sync")]
    Sync,
    /// The header's checksum is wrong.
    #[error("3 Checksum")]
    Checksum,
    /// The header's lengths don't fit each other or the data type.
    #[error("4 Length")]
    Length,
    /// The data checksum of 32 bits is wrong.
    #[error("8 DataChecksum")]
    DataChecksum,
    /// The body isn't what its header says: frames that aren't whole or bytes left over after
    /// them, or a record's tag without the record.
    #[error("5 Body")]
    Body,
    /// The input failed.
    #[error("6 Device")]
    Device,
    /// Out of memory for the packet.
    #[error("7 Memory")]
    Memory,
}

impl From<HeaderFault> for ReadFaultKind {
    ghost from_gives = { λ fault kind. kind ≡ header_kind fault };

    fn from(fault: HeaderFault) -> ReadFaultKind {
        match fault {
            HeaderFault::Sync => ReadFaultKind::Sync,
            HeaderFault::Checksum => ReadFaultKind::Checksum,
            HeaderFault::Length => ReadFaultKind::Length,
        }
    }
}

impl From<ClassFault> for ReadFaultKind {
    ghost from_gives = { λ fault kind. kind ≡ class_kind fault };

    fn from(fault: ClassFault) -> ReadFaultKind {
        match fault {
            ClassFault::DataChecksum => ReadFaultKind::DataChecksum,
            ClassFault::Body => ReadFaultKind::Body,
        }
    }
}

impl<T: Drop> From<AllocFailed<T>> for ReadFaultKind {
    ghost from_gives = { λ _ kind. kind ≡ Memory };

    fn from(_error: AllocFailed<T>) -> ReadFaultKind {
        ReadFaultKind::Memory
    }
}

impl From<AllocError> for ReadFaultKind {
    ghost from_gives = { λ _ kind. kind ≡ Memory };

    fn from(_error: AllocError) -> ReadFaultKind {
        ReadFaultKind::Memory
    }
}

/// Each error of an input is its device's.
impl From<io::Error> for ReadFaultKind {
    ghost from_gives = { λ _ kind. kind ≡ Device };

    fn from(_error: io::Error) -> ReadFaultKind {
        ReadFaultKind::Device
    }
}

/// Where a recording is read no further, and why.
#[derive(Clone, Copy, Debug, PartialEq, Eq)]
pub struct ReadEnd {
    /// Why.
    pub kind: ReadFaultKind,
    /// The place of the first byte of the packet that isn't read, counted from 0.
    pub at: u64,
}

impl fmt::Display for ReadEnd {
    fn fmt<W: fmt::Write>(&self, f: &mut fmt::Formatter<W>) -> fmt::Result {
        match self.kind {
            ReadFaultKind::Memory => write!(f, "memory"),
            kind => write!(f, "read {kind} {}", self.at),
        }
    }
}

impl Error for ReadEnd {}

/// A recording that isn't read to its end: where and why, and the packets before.
#[derive(Debug, Drop)]
pub struct ReadFault<'a> {
    /// Why it is read no further.
    pub kind: ReadFaultKind,
    /// The place of the first byte of the packet that isn't read, counted from 0.
    pub at: u64,
    /// All packets before it.
    pub before: Recording<'a>,
}

impl<'a> Model for ReadFault<'a> {
    ghost use Rattle.std.specs.Prelude.{◌≡◌};
    ghost use Rattle.rec_reader.specs.Packets.{packets_len};
    ghost use Rattle.rec_reader.specs.Reading.{ReadFaultData};

    ghost Value = { ReadFaultData };

    ghost view = { λ f. record { kind = f.kind; at = f.at; before = f.before } };

    ghost invariant = { λ f. f.at ≡ packets_len f.before };
}

impl<'a> ReadFault<'a> {
    ghost use Rattle.std.specs.Prelude.{◌≡◌};
    ghost use Rattle.rec_reader.specs.Packets.{packets_len};

    /// Where and why, without the packets.
    pub fn end(&self) -> ReadEnd
        ensures kind { result.kind ≡ self.now.kind }
        ensures at { result.at ≡ self.now.at }
        ensures place { self.now.at ≡ packets_len self.now.before }
    {
        ReadEnd {
            kind: self.kind,
            at: self.at,
        }
    }

    /// All packets before the one that isn't read.
    pub fn into_before(self) -> Recording<'a>
        ensures { result ≡ self.entry.before }
    {
        self.before
    }
}

impl fmt::Display for ReadFault<'_> {
    fn fmt<W: fmt::Write>(&self, f: &mut fmt::Formatter<W>) -> fmt::Result {
        write!(f, "{}", self.end())
    }
}

impl Error for ReadFault<'_> {}
