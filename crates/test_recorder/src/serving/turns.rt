//! Recordings whose channels take turns.

use crate::serving::frames::{ACCEPT, Frames, LONGEST, Lengths, job, recorded};
use crate::serving::packet::OpenPacket;
use crate::serving::signals::{Shared, Signals, Watch};
use ch11_packet::MIN_LIMIT;
use rec_channel::MAX_CHANNELS;
use rec_run::{ChannelReport, Job};
use std::alloc::Global;
use std::io;
use std::io::Write;
use std::sync::{Arc, Wait};
use std::test::Fail;
use std::thread::Threads;

/// How many frames a channel has that waits for its turn.
const FRAMES: u64 = 3;

/// Frames that each wait for a neighbour's packet: the first for one neighbour's first packet, the
/// second for the other one's second, and the third for the first one's third.
#[derive(Drop)]
struct InTurn {
    rt: HostRuntime,
    /// The counts of the channels' packets, each at its channel ID.
    packets: Shared,
    /// The channels of the neighbours. There may be none, which isn't waited for.
    neighbours: [Option<u16>; 2],
    given: u64,
    late: bool,
}

impl InTurn {
    /// Waits for the packet that the next frame waits for.
    fn wait(&mut self) {
        let [first, second] = self.neighbours;
        let neighbour = if self.given % 2 == 0 { first } else { second };
        let Some(channel) = neighbour else { return };
        let least = self.given.saturating_add(1);
        if !self.packets.wait(&self.rt, usize::from(channel), least) {
            self.late = true;
        }
    }
}

impl Lengths for InTurn {
    fn next_len(&mut self) -> Option<usize> {
        if self.given == FRAMES {
            return None;
        }
        self.wait();
        self.given = self.given.saturating_add(1);
        if self.late { None } else { Some(LONGEST) }
    }
}

/// An output that counts the packets of each channel.
#[derive(Drop)]
struct Counting {
    packets: Shared,
    packet: OpenPacket,
}

impl Write for Counting {
    fn write(&mut self, buf: &[u8]) -> io::Result<usize> {
        if let Some(channel) = self.packet.add(buf)? {
            self.packets.count(usize::from(channel));
        }
        Ok(buf.len())
    }

    fn flush(&mut self) -> io::Result<()> {
        Ok(())
    }
}

/// The channels beside one of the channels from 1 on: the next one first, or `backwards` the one
/// before.
fn neighbours(channel: u16, channels: u16, backwards: bool) -> [Option<u16>; 2] {
    let next = if channel < channels {
        channel.checked_add(1)
    } else {
        None
    };
    let before = if channel > 1 {
        channel.checked_sub(1)
    } else {
        None
    };
    if backwards {
        [before, next]
    } else {
        [next, before]
    }
}

/// Jobs of channels from 1 on, each of which waits for the next channel first, or `backwards` for the
/// one before.
fn jobs_in_turn(
    rt: HostRuntime,
    packets: &Shared,
    channels: u16,
    backwards: bool,
) -> Result<Vec<Job<Frames<InTurn>>>, Fail> {
    let mut jobs = Vec::new(rt.alloc());
    for channel in 1..=channels {
        let lengths = InTurn {
            rt,
            packets: Arc::try_clone(packets)?,
            neighbours: neighbours(channel, channels, backwards),
            given: 0,
            late: false,
        };
        jobs.push(job(rt.alloc(), channel, ACCEPT, MIN_LIMIT, lengths)?)?;
    }
    Ok(jobs)
}

/// Whether each channel had all its frames, and each frame its turn.
fn took_turns(channels: &[ChannelReport<Frames<InTurn>>]) -> bool {
    for channel in channels {
        if channel.source.lengths.late || channel.kept != FRAMES {
            return false;
        }
    }
    true
}

/// Records so many channels. A frame's packet is written before the channel beside it has its next
/// frame: from the last channel to the first one, back, and again, or the other way round.
fn must_take_turns<R: Threads + Wait + Sync>(
    threads: &R,
    rt: HostRuntime,
    channels: u16,
    backwards: bool,
) -> Result<(), Fail> {
    let packets = Signals::shared(rt.alloc(), MAX_CHANNELS + 1)?;
    let jobs = jobs_in_turn(rt, &packets, channels, backwards)?;
    let packet = OpenPacket::new(rt.alloc());
    let done = recorded(threads, rt.alloc(), jobs, 1, Counting { packets, packet })?;
    if !took_turns(done.report.channels.as_slice()) {
        return Err("a packet that is written before the next frame".into());
    }
    Ok(())
}

/// The same with 2, 3 and 64 channels, in both ways.
fn all_must_take_turns<R: Threads + Wait + Sync>(threads: &R, rt: HostRuntime) -> Result<(), Fail> {
    for channels in [2, 3, 64] {
        must_take_turns(threads, rt, channels, false)?;
        must_take_turns(threads, rt, channels, true)?;
    }
    Ok(())
}

#[test]
fn a_packet_is_written_before_the_next_channel_goes_on(rt: HostRuntime) -> Result<(), Fail> {
    let watch = Watch::begin(rt, rt.alloc())?;
    let outcome = all_must_take_turns(&rt, rt);
    watch.end(&rt);
    outcome
}

/// How many pieces the rings of busy channels have room for.
const RING: usize = 8;

/// How many frames a busy channel has.
const BUSY: u64 = 100;

/// Frames of a busy channel, which are counted as they are asked for.
#[derive(Drop)]
struct Busy {
    asked: Shared,
    channel: u16,
    left: u64,
}

impl Lengths for Busy {
    fn next_len(&mut self) -> Option<usize> {
        self.asked.count(usize::from(self.channel));
        self.left = self.left.checked_sub(1)?;
        Some(LONGEST)
    }
}

/// An output that takes nothing before the rings of channels 1 and 2 are full, and keeps the channel of
/// each packet.
#[derive(Drop)]
struct Held {
    rt: HostRuntime,
    asked: Shared,
    packet: OpenPacket,
    channels: Vec<u16>,
}

impl Write for Held {
    fn write(&mut self, buf: &[u8]) -> io::Result<usize> {
        if self.channels.is_empty() {
            for channel in [1, 2] {
                self.asked.wait(&self.rt, channel, RING as u64 + 1);
            }
        }
        if let Some(channel) = self.packet.add(buf)? {
            self.channels.push(channel)?;
        }
        Ok(buf.len())
    }

    fn flush(&mut self) -> io::Result<()> {
        Ok(())
    }
}

/// The jobs of channels 1 and 2, which are busy.
fn busy_jobs(alloc: Global, asked: &Shared) -> Result<Vec<Job<Frames<Busy>>>, Fail> {
    let mut jobs = Vec::new(alloc);
    for channel in [1, 2] {
        let lengths = Busy {
            asked: Arc::try_clone(asked)?,
            channel,
            left: BUSY,
        };
        jobs.push(job(alloc, channel, ACCEPT, MIN_LIMIT, lengths)?)?;
    }
    Ok(jobs)
}

/// The channels of the packets of two busy channels, in the order in which they are written.
fn held_channels<R: Threads + Wait + Sync>(threads: &R, rt: HostRuntime) -> Result<Vec<u16>, Fail> {
    let alloc = rt.alloc();
    let asked = Signals::shared(alloc, 3)?;
    let jobs = busy_jobs(alloc, &asked)?;
    let out = Held {
        rt,
        asked,
        packet: OpenPacket::new(alloc),
        channels: Vec::new(alloc),
    };
    let done = recorded(threads, alloc, jobs, RING, out)?;
    let held = done.out;
    Ok(held.channels)
}

/// Of the first packets, as many as a ring has room for, each channel has at least two.
#[test]
fn a_full_ring_is_not_written_alone(rt: HostRuntime) -> Result<(), Fail> {
    let watch = Watch::begin(rt, rt.alloc())?;
    let channels = held_channels(&rt, rt);
    watch.end(&rt);
    let channels = channels?;
    for channel in [1, 2] {
        let first = channels.iter().take(RING);
        assert!(rt; first.filter(|it| **it == channel).count() >= 2);
    }
    Ok(())
}
