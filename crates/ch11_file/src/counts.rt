//! How many packets a file has.

use crate::kind::BlockKind;

/// How many packets of times, frames, records (programs and ends) and of the index a file has, and its length
/// in bytes.
#[derive(Clone, Copy, Debug, PartialEq, Eq)]
pub struct FileCounts {
    pub times: u64,
    pub packets: u64,
    pub records: u64,
    pub index: u64,
    pub bytes: u64,
}

impl FileCounts {
    ghost use Rattle.std.specs.Prelude.{◌≡◌, ◌+◌, ◌<◌, ◌^◌};
    ghost use Rattle.ch11_file.specs.Sending.{counts_behind};

    /// The counts with a packet more, of this kind and this length.
    pub(crate) fn with(self, kind: BlockKind, len: u32) -> FileCounts
        requires packets { self.times + self.packets + self.records + self.index + 1 < 2 ^ 64 }
        requires bytes { self.bytes + len < 2 ^ 64 }
        ensures { result ≡ counts_behind self kind len }
    {
        let mut counts = self;
        counts.bytes += u64::from(len);
        match kind {
            BlockKind::Setup => {}
            BlockKind::Time => counts.times += 1,
            BlockKind::Frames => counts.packets += 1,
            BlockKind::Record => counts.records += 1,
            BlockKind::Index => counts.index += 1,
        }
        counts
    }
}
