//! What the counters, the channels and the records of a recording become.

ghost use Rattle.std.specs.Prelude.{◌≡◌};
ghost use Rattle.std.specs.List.{find};
ghost use Rattle.rec_runs.specs.Moves.{moves_channel};

use ch11_channels::{FileChannel, RunChannel, id_in_file};
use ch11_clock::{Clock, Origin};
use ch11_moved::moved_counter;
use ch11_packet::What;
use rec_reader::Packet;
use rec_runs::RecordMoves;

/// What the counters, the channels and the records of a recording become in a file of several.
#[derive(Debug, Drop)]
pub struct Moves {
    /// Where the clock of the file begins.
    pub start: Origin,
    /// The recording's own clock.
    pub clock: Clock,
    /// The channels of the file that are of its run; of others too, if need be.
    pub channels: Vec<FileChannel>,
    /// The run that the recording is of.
    pub run: usize,
    /// What the records of its channels become; those of a channel without an entry stay as they are.
    pub records: Vec<RecordMoves>,
}

impl Moves {
    ghost use Rattle.std.specs.Prelude.{◌≡◌, ◌<◌, ◌≤◌, ◌^◌, IfSome, IfNone};
    ghost use Rattle.rec_reader.specs.Views.{packet_data};
    ghost use Rattle.rec_joined.specs.Moving.{moving_of};
    ghost use Rattle.rec_joined.specs.MovedRecords.{record_moving};
    ghost use Rattle.rec_joined.specs.MovedPackets.{is_left_out};

    /// The counter of a counter's time by the clock of the file: `None` if it has more than 48 bits, or if the time
    /// lies before the clock's beginning.
    pub fn counter(&self, counter: u64) -> Option<u64>
        requires { counter < 2 ^ 48 }
        ensures some { IfSome result (λ moved. moved ≡ (moving_of self.now).counters counter) }
        ensures fits { IfSome result (λ moved. moved < 2 ^ 48) }
        ensures none { IfNone result (2 ^ 48 ≤ (moving_of self.now).counters counter) }
    {
        moved_counter(self.start, &self.clock, counter)
    }

    /// The ID of a channel in the file: `None` if the file doesn't have it.
    pub fn id(&self, channel: u16) -> Option<u16>
        ensures some { IfSome result (λ id. id ≡ (moving_of self.now).ids channel) }
        ensures named { IfSome result (λ id. 0 < id) }
        ensures fits { IfSome result (λ id. id < 2 ^ 16) }
        ensures none { IfNone result ((moving_of self.now).ids channel ≡ 0) }
    {
        let of = RunChannel {
            run: self.run,
            channel,
        };
        match id_in_file(self.channels.as_slice(), of) {
            Some(0) | None => None,
            Some(id) => Some(id),
        }
    }

    /// What the records of a channel become.
    pub(crate) fn records_of(&self, channel: u16) -> RecordMoves
        ensures { record_moving result ≡ (moving_of self.now).records channel }
    {
        match found_records(self.records.as_slice(), channel) {
            Some(moves) => moves,
            None => RecordMoves {
                channel,
                versions: 0,
                same: None,
                offered: Some(0),
                kept: Some(0),
                continues: false,
            },
        }
    }

    /// Whether the file doesn't have a packet of the recording: a program that goes on, or the end of a channel that
    /// goes on.
    pub(crate) fn leaves_out(&self, packet: &Packet<'_>) -> bool
        ensures { result ≡ is_left_out (moving_of self.now) (packet_data packet.now) }
    {
        match packet.what {
            What::Program { channel, .. } => match self.records_of(channel).same {
                Some(at) => at == packet.at,
                None => false,
            },
            What::End { channel, .. } => self.records_of(channel).continues,
            What::Frames(_) | What::Other => false,
        }
    }
}

/// What the records of a channel become, of some that have an entry each.
fn found_records(records: &[RecordMoves], channel: u16) -> Option<RecordMoves>
    ensures { result ≡ find (moves_channel channel) records.now }
{
    'records: for moves in records {
        if moves.channel == channel {
            return Some(*moves);
        }
    }
    None
}
