//! The recordings of a run, packet by packet.

ghost use Rattle.std.specs.Prelude.{ℕ, ◌≡◌, [], List, IfOk, OnOk, OnErr};
ghost use Rattle.std.specs.Ordering.{nat_cmp};
ghost use Rattle.std.specs.BTreeMap.{get};
ghost use Rattle.rec_reader.specs.Packets.{PacketData};
ghost use Rattle.rec_reader.specs.Views.{packet_data};
ghost use Rattle.rec_runs.specs.Moves.{AreRecordMoves};
ghost use Rattle.rec_runs.specs.RunStates.{run_after};
ghost use Rattle.rec_runs.specs.RunsRead.{RunStandsFor, StandsStill, TakesPacketOfRun, BeginsNext, SetsRun, state_in};
ghost use Rattle.rec_runs.specs.ToldData.{told_data};

use crate::channel::ChannelRun;
use crate::record_moves::RecordMoves;
use crate::told::{ToldOfRun, told_by};
use rec_reader::Packet;
use std::alloc::{AllocError, Global};
use std::collections::BTreeMap;

/// The recordings of one run, which follow one another, read packet by packet. Of each channel it
/// keeps one program and seven numbers, and of the packets nothing else; so its memory grows with the
/// number of channels.
#[derive(Debug, Drop)]
pub struct RunRecords {
    alloc: Global,
    channels: BTreeMap<u16, ChannelRun>,
}

impl RunRecords {
    /// No recordings, and no packets of the first. It takes no memory yet.
    pub fn new(alloc: Global) -> RunRecords
        ensures { RunStandsFor result [] [] }
    {
        RunRecords {
            alloc,
            channels: BTreeMap::new(alloc),
        }
    }

    /// Takes the next packet of the recording in hand.
    ///
    /// # Errors
    ///
    /// If there is no memory for a program or for a further channel. The packet isn't taken then.
    pub fn take(&mut self, packet: &Packet<'_>) -> Result<(), AllocError>
        ensures taken { OnOk result (TakesPacketOfRun self.old (packet_data packet.now) self.new) }
        ensures unchanged { OnErr result (StandsStill self.old self.new) }
    {
        match told_by(packet) {
            Some((channel, told)) => {
                take_told(self.alloc, &mut self.channels, packet.at, channel, &told)
            }
            None => Ok(()),
        }
    }

    /// What becomes of the channels of the recording in hand: of each that it or a recording before it
    /// has, the least first. No later recording is known here, so that none of them
    /// [continues](RecordMoves::continues).
    ///
    /// # Errors
    ///
    /// If there is no memory for the moves.
    pub fn moves(&self, alloc: Global) -> Result<Vec<RecordMoves>, AllocError>
        ensures { IfOk result (λ moves. (earlier : List (List PacketData)) (own : List PacketData)
            → RunStandsFor self.now earlier own → AreRecordMoves earlier own moves.items) }
    {
        let mut moves = Vec::new(alloc);
        'channels: for (channel, run) in &self.channels {
            moves.push(run.moves(*channel))?;
        }
        Ok(moves)
    }

    /// Begins the next recording of the run.
    pub fn begin_next(&mut self)
        ensures { BeginsNext self.old self.new }
    {
        self.channels.retain(|_, run| {
            run.begin_next();
            true
        });
    }
}

/// Takes what the packet at this place says of a channel.
fn take_told(
    alloc: Global,
    channels: &mut BTreeMap<u16, ChannelRun>,
    at: u64,
    channel: u16,
    told: &ToldOfRun<'_>,
) -> Result<(), AllocError>
    ensures set { OnOk result (SetsRun channels.old channel
        (run_after at (told_data told.now) (state_in channels.old channel)) channels.new) }
    ensures unchanged { OnErr result ((other : ℕ)
        → get nat_cmp channels.new other ≡ get nat_cmp channels.old other) }
{
    match channels.get_mut(&channel) {
        Some(run) => run.take(alloc, at, told),
        None => {
            let mut run = ChannelRun::unnamed();
            run.take(alloc, at, told)?;
            channels.insert(channel, run)?;
            Ok(())
        }
    }
}
