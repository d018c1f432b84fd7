//! Why a file ended early.

use ch11_merge::PieceFault;
use std::alloc::AllocError;

/// Why a recording can't be a whole file. `at` is the place of the piece's packet in the recording.
#[derive(Clone, Copy, Debug, PartialEq, Eq)]
pub enum Refusal {
    /// The counter of a piece lies over a second behind that of a header that went out.
    Disorder { at: u64 },
    /// It lies over a week ahead of all of them.
    Gap { at: u64 },
    /// No time packet has a tick.
    Origin,
    /// The next time packet is outside of the years 1 to 3999.
    Year,
}

/// Why not all of a file went out. Nothing follows a fault.
#[derive(Clone, Copy, Debug, PartialEq, Eq)]
pub enum FileFault {
    /// Out of memory.
    Memory,
    /// The output failed, or a write took no byte.
    Output,
    /// The file would have 2^64 bytes, or the packet of its setup record more than 134,217,728.
    Long,
}

impl From<AllocError> for FileFault {
    ghost use Rattle.std.specs.Prelude.{◌≡◌};
    ghost use Rattle.ch11_file.specs.declared.end.FileFault.TheVariants.{Memory};

    ghost from_gives = { λ _ fault. fault ≡ Memory };

    fn from(_error: AllocError) -> FileFault {
        FileFault::Memory
    }
}

/// Why a file ended early.
#[derive(Clone, Copy, Debug, PartialEq, Eq)]
pub enum FileEnd {
    /// The recording can't be a whole file.
    Refused(Refusal),
    /// A source gives no more pieces.
    Pieces(PieceFault),
    /// Not all of it went out.
    Write(FileFault),
}

impl From<FileFault> for FileEnd {
    ghost use Rattle.std.specs.Prelude.{◌≡◌};
    ghost use Rattle.ch11_file.specs.declared.end.FileEnd.TheVariants.{Write};

    ghost from_gives = { λ fault end. end ≡ Write fault };

    fn from(fault: FileFault) -> FileEnd {
        FileEnd::Write(fault)
    }
}

impl From<PieceFault> for FileEnd {
    ghost use Rattle.std.specs.Prelude.{◌≡◌};
    ghost use Rattle.ch11_file.specs.declared.end.FileEnd.TheVariants.{Pieces};

    ghost from_gives = { λ fault end. end ≡ Pieces fault };

    fn from(fault: PieceFault) -> FileEnd {
        FileEnd::Pieces(fault)
    }
}
