//! How many packets a stream has.

ghost use Rattle.std.specs.Prelude.{◌≡◌, ◌<◌, ◌^◌};
ghost use Rattle.rec_stream.specs.LatePieces.{late_one};

use ch11_file::{BlockHead, BlockKind, MAX_TICKS_BACK};

/// How many packets of frames, records (programs and ends) and time packets went out, how many pieces lay over a
/// second behind a header ahead of them, and how many packets of other kinds were left out. At 2^64 - 1 a count stays.
#[derive(Clone, Copy, Debug, PartialEq, Eq)]
pub struct StreamCounts {
    pub packets: u64,
    pub records: u64,
    pub times: u64,
    pub late: u64,
    pub other: u64,
}

impl StreamCounts {
    ghost use Rattle.rec_stream.specs.SentStates.{stream_counts_behind};

    /// Those of nothing.
    pub(crate) const NONE: StreamCounts = StreamCounts {
        packets: 0,
        records: 0,
        times: 0,
        late: 0,
        other: 0,
    };

    /// The counts with a packet more, behind headers of which this is the greatest counter.
    pub(crate) fn with(self, greatest: u64, head: BlockHead) -> StreamCounts
        requires { head.counter < 2 ^ 48 }
        ensures { result ≡ stream_counts_behind greatest self head.kind head.counter }
    {
        let mut counts = self;
        let late = self.late.saturating_add(late_one(greatest, head.counter));
        match head.kind {
            BlockKind::Setup | BlockKind::Index => {}
            BlockKind::Time => counts.times = self.times.saturating_add(1),
            BlockKind::Frames => {
                counts.packets = self.packets.saturating_add(1);
                counts.late = late;
            }
            BlockKind::Record => {
                counts.records = self.records.saturating_add(1);
                counts.late = late;
            }
        }
        counts
    }
}

/// 1 for a piece whose counter lies over a second behind the greatest of a header, else 0.
fn late_one(greatest: u64, counter: u64) -> u64
    requires { counter < 2 ^ 48 }
    ensures { result ≡ late_one greatest counter }
{
    if counter + MAX_TICKS_BACK < greatest {
        1
    } else {
        0
    }
}
