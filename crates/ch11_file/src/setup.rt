//! What a file's setup record says.

use ch11_clock::CivilTime;
use ch11_setup::{Attribute, Setup, SetupChannel};

/// What the setup record of a file says, but for its time, which is that of the first time packet: of which
/// host and program, whether an outside source held the clock, whether an index follows, on which channel the
/// time packets stand, the Ethernet channels in ascending order, and what a user adds.
#[derive(Clone, Copy, Debug)]
pub struct FileSetup<'a> {
    pub host: &'a str,
    pub program: &'a str,
    pub is_external: bool,
    pub is_indexed: bool,
    pub time_channel: u16,
    pub channels: &'a [SetupChannel<'a>],
    pub attributes: &'a [Attribute<'a>],
}

impl<'a> FileSetup<'a> {
    ghost use Rattle.std.specs.Prelude.{◌≡◌};
    ghost use Rattle.ch11_file.specs.WholeFile.{setup_at};

    /// The setup record of a file whose first time packet says this time.
    pub(crate) fn at(&self, time: CivilTime) -> Setup<'a>
        ensures { result ≡ setup_at self.now time }
    {
        Setup {
            host: self.host,
            program: self.program,
            time,
            time_channel: self.time_channel,
            is_external: self.is_external,
            is_indexed: self.is_indexed,
            channels: self.channels,
            attributes: self.attributes,
        }
    }
}
