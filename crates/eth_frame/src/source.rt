//! What a source of frames is.
use crate::buffer::FrameBuf;
use std::io;
use thiserror::Error;

/// What a source gave.
#[derive(Clone, Copy, Debug, PartialEq, Eq)]
pub enum Next {
    /// A frame, which the buffer holds now.
    Frame,
    /// A time mark: no frame came up to this counter. More may follow.
    Time(u64),
    /// No frame: the source is at its end.
    End,
}

/// Why a source gives no more frames.
#[derive(Clone, Copy, Debug, PartialEq, Eq, Error)]
pub enum SourceFault {
    /// The bytes end within a record.
    #[error("Truncated")]
    Truncated,
    /// A record says a length that no frame has.
    #[error("Length")]
    Length,
    /// A record has marks that are not known.
    #[error("Marks")]
    Marks,
    /// The device failed.
    #[error("Device")]
    Device,
}

/// Each error of a reader is its device's.
impl From<io::Error> for SourceFault {
    ghost use Rattle.std.specs.Prelude.{◌≡◌};
    ghost use Rattle.eth_frame.specs.declared.source.SourceFault.TheVariants.{Device};

    ghost from_gives = { λ _ fault. fault ≡ Device };

    fn from(_: io::Error) -> SourceFault {
        SourceFault::Device
    }
}

/// How a source has ended.
#[derive(Clone, Copy, Debug, PartialEq, Eq)]
pub enum SourceEnding {
    /// It gave all its frames.
    End,
    /// It came to a fault.
    Fault(SourceFault),
}

impl SourceEnding {
    ghost use Rattle.std.specs.Prelude.{◌≡◌};
    ghost use Rattle.eth_frame.specs.Source.{answer, source_ending_of};

    /// What a source with this ending answers.
    pub fn answer(self) -> Result<Next, SourceFault>
        ensures answer { result ≡ answer self }
    {
        match self {
            SourceEnding::End => Ok(Next::End),
            SourceEnding::Fault(fault) => Err(fault),
        }
    }

    /// The ending of a source that gave this answer: `None` if it gave a frame or a time mark.
    pub fn of(answer: Result<Next, SourceFault>) -> Option<SourceEnding>
        ensures ending { result ≡ source_ending_of answer }
    {
        match answer {
            Ok(Next::Frame | Next::Time(_)) => None,
            Ok(Next::End) => Some(SourceEnding::End),
            Err(fault) => Some(SourceEnding::Fault(fault)),
        }
    }
}

/// Gives the frames of a channel, one after the other.
pub trait FrameSource {
    ghost use Rattle.std.specs.Prelude.{ℕ, ◌≡◌, ◌<◌, ◌≤◌, ◌⊎◌, ◌↔◌, Option, None, Some, IfSome, IfErr, IsSome, Ok, Err};
    ghost use Rattle.eth_frame.specs.declared.source.SourceEnding.{SourceEnding};
    ghost use Rattle.eth_frame.specs.declared.source.SourceEnding.TheVariants.{End, Fault};
    ghost use Rattle.eth_frame.specs.declared.source.SourceFault.TheVariants.{Device};
    ghost use Rattle.eth_frame.specs.Source.{Left, no_frames, answer, source_ending_of, GivesFirst, GivesTime, GivesEnding, Fails};

    // The frames that are left, the time marks among them and the ending after them: `None` if the
    // source doesn't say.
    ghost left: { Self → Option Left };

    // How often the source's device has failed.
    ghost failures: { Self → ℕ };

    // How the source has ended, once it has.
    ghost ending: { Self → Option SourceEnding };

    /// Puts the next frame into the buffer, or answers with a time mark, or how the source has ended.
    /// From then on each call answers the same. After any answer but a frame the buffer is empty.
    fn next(&mut self, buffer: &mut FrameBuf) -> Result<Next, SourceFault>
        // Of every source.
        ensures repeats { IfSome (ending self.old) (λ last. result ≡ answer last) }
        ensures ended { ending self.new ≡ source_ending_of result }
        ensures held { IsSome buffer.new ↔ (result ≡ Ok Next.Frame) }
        ensures failures { failures self.old ≤ failures self.new }
        ensures device { result ≡ Err SourceFault.Device → 0 < failures self.new }
        ensures failed_now { result ≡ Err SourceFault.Device → ending self.old ≡ None
            → failures self.old < failures self.new }

        // Of a source that says its frames.
        ensures frame { result ≡ Ok Next.Frame
            → GivesFirst (left self.old) buffer.new (left self.new) }
        ensures time { (counter : ℕ) → result ≡ Ok (Next.Time counter)
            → GivesTime (left self.old) counter (left self.new) }
        ensures end { result ≡ Ok Next.End → GivesEnding (left self.old) End (left self.new) }
        ensures fault { IfErr result (λ fault. (fault ≡ Device)
            ⊎ GivesEnding (left self.old) (Fault fault) (left self.new)) }
        ensures failed { result ≡ Err SourceFault.Device
            → GivesEnding (left self.old) (Fault Device) (left self.new) ⊎ Fails (left self.old)
            (ending self.old) (failures self.old) (left self.new) (failures self.new) };

    // Where a source has ended, nothing is left but its ending.
    ghost nothing_left: { (s : Self) (last : SourceEnding) →
        ending s ≡ Some last → IfSome (left s) (λ l. l ≡ no_frames last) };

    // Where the ending is the device's failure, the device has failed.
    ghost device_failed: { (s : Self) →
        IfSome (left s) (λ l. l.ending ≡ Fault Device → 0 < failures s) };
}
