//! What an audit answers.

ghost use Rattle.std.specs.Prelude.{◌≡◌};
ghost use Rattle.rec_reader.specs.declared.audits.answer.AuditFault.TheVariants.{Memory};

use std::alloc::{AllocError, AllocFailed};
use std::marker::Model;
use thiserror::Error;

/// Why a recording isn't approved: the first of its packets that has a fault, counted from 0, or
/// else the least channel that has one at the end.
#[derive(Clone, Copy, Debug, PartialEq, Eq, Error)]
pub enum AuditFault {
    /// A packet of frames, and no program of its channel before it.
    #[error("no 1 NoProgram {packet}")]
    NoProgram {
        /// The packet.
        packet: u64,
    },
    /// A packet with a program that isn't valid.
    #[error("no 2 BadProgram {packet}")]
    BadProgram {
        /// The packet.
        packet: u64,
    },
    /// A packet with a frame without its check sequence, or for which the last program before it
    /// returns 0.
    #[error("no 3 NotAccepted {packet} {frame}")]
    NotAccepted {
        /// The packet.
        packet: u64,
        /// The first such frame of the packet, counted from 0.
        frame: u16,
    },
    /// A packet of a channel after its end, or a program that can't come after the last one of its
    /// channel.
    #[error("no 4 Order {packet}")]
    Order {
        /// The packet.
        packet: u64,
    },
    /// A channel without an end.
    #[error("no 5 NoEnd {channel}")]
    NoEnd {
        /// The channel.
        channel: u16,
    },
    /// A channel whose end has other counts than its packets.
    #[error("no 6 Counts {channel}")]
    Counts {
        /// The channel.
        channel: u16,
    },
    /// Out of memory.
    #[error("memory")]
    Memory,
}

impl From<AllocError> for AuditFault {
    ghost from_gives = { λ _ fault. fault ≡ Memory };

    fn from(_error: AllocError) -> AuditFault {
        AuditFault::Memory
    }
}

impl<T: Drop> From<AllocFailed<T>> for AuditFault {
    ghost from_gives = { λ _ fault. fault ≡ Memory };

    fn from(_error: AllocFailed<T>) -> AuditFault {
        AuditFault::Memory
    }
}

/// What an approved recording has of a channel.
#[derive(Clone, Copy, Debug, PartialEq, Eq)]
pub struct AuditLine {
    /// The channel.
    pub channel: u16,
    /// The number of its programs.
    pub programs: u64,
    /// The number of its frames.
    pub frames: u64,
    /// The number of frames that were offered, by its end.
    pub offered: u64,
}

/// The lines of an audit, one a channel, in ascending order of the channels.
#[derive(Debug, Drop)]
pub struct AuditLines {
    lines: Vec<AuditLine>,
}

impl Model for AuditLines {
    ghost use Rattle.std.specs.Prelude.{List};
    ghost use Rattle.rec_reader.specs.declared.audits.answer.AuditLine.{AuditLine};

    ghost Value = { List AuditLine };

    ghost view = { λ a. a.lines.items };
}

impl AuditLines {
    /// The lines that are in this list.
    pub(crate) fn new(lines: Vec<AuditLine>) -> AuditLines
        ensures { result ≡ lines.items }
    {
        AuditLines { lines }
    }

    /// The lines.
    pub fn as_slice(&self) -> &[AuditLine]
        ensures { result.now ≡ self.now }
    {
        self.lines.as_slice()
    }
}

/// The audit of a recording that is approved.
#[derive(Debug, Drop)]
pub struct Audit {
    /// A line for each channel that a packet of frames, a program or an end names, ascending.
    pub channels: AuditLines,
    /// The number of packets of any other kind.
    pub other: u64,
}
