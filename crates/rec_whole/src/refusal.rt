//! Why there is no whole file of a recording.

ghost use Rattle.std.specs.Prelude.{◌≡◌};
ghost use Rattle.rec_whole.specs.Ends.{refusal_of};

use ch11_file::{FileEnd, FileFault, Refusal};
use ch11_merge::PieceFault;
use std::alloc::AllocError;
use thiserror::Error;

/// Why a recording can't be a whole file. Its text is what the program prints.
#[derive(Clone, Copy, Debug, PartialEq, Eq, Error)]
pub enum WholeRefusal {
    /// The packet at this place is neither frames of a channel from 1 on, a program nor an end.
    #[error("refused 1 Other {at}")]
    Other { at: u64 },
    /// The counter of a piece of the packet at this place is over a second below one ahead of it.
    #[error("refused 2 Disorder {at}")]
    Disorder { at: u64 },
    /// The counter of a piece of the packet at this place is over seven days above all ahead of it.
    #[error("refused 3 Gap {at}")]
    Gap { at: u64 },
    /// No time packet has a tick.
    #[error("refused 4 Origin 0")]
    Origin,
    /// A time packet is outside of the years 1 to 3999.
    #[error("refused 5 Year 0")]
    Year,
    /// All channel IDs from 1 on are named: none is left for the time.
    #[error("refused 7 Full 0")]
    Full,
}

/// Why a whole file ended early.
#[derive(Clone, Copy, Debug, PartialEq, Eq)]
pub enum WholeEnd {
    /// The recording can't be a whole file.
    Refused(WholeRefusal),
    /// The recording can't be read, or isn't what was listed.
    Recording,
    /// The output failed, or would have 2^64 bytes.
    Output,
    /// Out of memory.
    Memory,
}

impl From<AllocError> for WholeEnd {
    ghost use Rattle.std.specs.Prelude.{◌≡◌};
    ghost use Rattle.rec_whole.specs.declared.refusal.WholeEnd.TheVariants.{Memory};

    ghost from_gives = { λ _ end. end ≡ Memory };

    fn from(_error: AllocError) -> WholeEnd {
        WholeEnd::Memory
    }
}

impl From<PieceFault> for WholeEnd {
    ghost use Rattle.std.specs.Prelude.{◌≡◌};
    ghost use Rattle.rec_whole.specs.Ends.{end_of_pieces};

    ghost from_gives = { λ fault end. end ≡ end_of_pieces fault };

    fn from(fault: PieceFault) -> WholeEnd {
        match fault {
            PieceFault::Device => WholeEnd::Recording,
            PieceFault::Memory => WholeEnd::Memory,
        }
    }
}

impl From<FileEnd> for WholeEnd {
    ghost use Rattle.std.specs.Prelude.{◌≡◌};
    ghost use Rattle.rec_whole.specs.Ends.{end_of_file};

    ghost from_gives = { λ file end. end ≡ end_of_file file };

    fn from(end: FileEnd) -> WholeEnd {
        match end {
            FileEnd::Refused(refusal) => WholeEnd::Refused(refusal_of(refusal)),
            FileEnd::Pieces(PieceFault::Device) => WholeEnd::Recording,
            FileEnd::Pieces(PieceFault::Memory) | FileEnd::Write(FileFault::Memory) => {
                WholeEnd::Memory
            }
            FileEnd::Write(FileFault::Output | FileFault::Long) => WholeEnd::Output,
        }
    }
}

/// What the refusal of a file comes to.
fn refusal_of(refusal: Refusal) -> WholeRefusal
    ensures { result ≡ refusal_of refusal }
{
    match refusal {
        Refusal::Disorder { at } => WholeRefusal::Disorder { at },
        Refusal::Gap { at } => WholeRefusal::Gap { at },
        Refusal::Origin => WholeRefusal::Origin,
        Refusal::Year => WholeRefusal::Year,
    }
}
