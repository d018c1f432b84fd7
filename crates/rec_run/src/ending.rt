//! How a channel's recording ended.

use eth_frame::SourceFault;

/// How a channel's recording ended.
#[derive(Clone, Copy, Debug, PartialEq, Eq)]
pub enum Ending {
    /// The source is at its end.
    SourceEnd,
    /// The source came to a fault.
    SourceFault(SourceFault),
    /// There was no memory for the next packet. It is not answered: the buffers are made before the
    /// first frame.
    Memory,
    /// As many frames were taken as the channel may have.
    CountFull,
    /// The recording was given up, since the output failed.
    Stopped,
}

impl Ending {
    ghost use Rattle.std.specs.Prelude.{◌↔◌, IsTrue};
    ghost use Rattle.rec_run.specs.Endings.{IsOver};

    /// Whether all was recorded that the source gave and the channel may have.
    pub fn is_over(self) -> bool
        ensures { IsTrue result ↔ IsOver self }
    {
        match self {
            Ending::SourceEnd | Ending::SourceFault(_) | Ending::CountFull => true,
            Ending::Memory | Ending::Stopped => false,
        }
    }
}

/// How a worker ended.
#[derive(Clone, Copy, PartialEq, Eq)]
pub(crate) enum WorkerEnd {
    /// With this ending of its channel.
    Ended(Ending),
    /// A buffer that came back was not one of its lane.
    Link,
    /// The slot gave what it can't have.
    History,
}

impl WorkerEnd {
    ghost use Rattle.std.specs.Prelude.{◌≡◌, ◌↔◌, IsTrue};
    ghost use Rattle.rec_run.specs.Endings.{IsOverThen, HasEnding, worker_ending_of};

    /// Whether the channel is over.
    pub(crate) fn is_over(self) -> bool
        ensures { IsTrue result ↔ IsOverThen self }
    {
        match self {
            WorkerEnd::Ended(ending) => ending.is_over(),
            WorkerEnd::Link | WorkerEnd::History => false,
        }
    }

    /// Whether the channel has an ending.
    pub(crate) fn is_ended(self) -> bool
        ensures { IsTrue result ↔ HasEnding self }
    {
        match self {
            WorkerEnd::Ended(_) => true,
            WorkerEnd::Link | WorkerEnd::History => false,
        }
    }

    /// The channel's ending; [`Ending::Stopped`] where it has none.
    pub(crate) fn ending(self) -> Ending
        ensures { result ≡ worker_ending_of self }
    {
        match self {
            WorkerEnd::Ended(ending) => ending,
            WorkerEnd::Link | WorkerEnd::History => Ending::Stopped,
        }
    }
}
