//! What becomes of the programs and the end of a channel.

ghost use Rattle.std.specs.Prelude.{◌≡◌, map};
ghost use Rattle.rec_runs.specs.Moves.{continued_in};

/// What the programs and the end of a channel become, of a recording that follows others of its
/// run.
#[derive(Clone, Copy, Debug, PartialEq, Eq)]
pub struct RecordMoves {
    /// The channel's ID in the recordings.
    pub channel: u16,
    /// What is added to the version of each program: at most 2^32, from which on no version fits.
    pub versions: u64,
    /// The place, in the recording, of the program that is left out, if one is.
    pub same: Option<u64>,
    /// How many frames the recordings before offered: `None` from 2^64 on.
    pub offered: Option<u64>,
    /// How many of them were kept: `None` from 2^64 on.
    pub kept: Option<u64>,
    /// Whether a later recording of the run has the channel, so that the end is left out.
    pub continues: bool,
}

impl RecordMoves {
    ghost use Rattle.std.specs.Prelude.{◌≡◌};
    ghost use Rattle.rec_runs.specs.Moves.{continued_in};

    /// Leaves the end out, if these are the moves of this channel.
    fn continue_in(&mut self, channel: u16)
        ensures { self.new ≡ continued_in channel self.old }
    {
        if self.channel == channel {
            self.continues = true;
        }
    }
}

/// Leaves the end of this channel out, since a later recording of the run has the channel.
pub fn continue_in(moves: &mut [RecordMoves], channel: u16)
    ensures { moves.new ≡ map (continued_in channel) moves.old }
{
    'moves: for of_channel in moves.iter_mut() {
        of_channel.continue_in(channel);
    }
}
