//! The frames of a channel.

ghost use Rattle.std.specs.Prelude.{◌≡◌, ◌++◌, map, IfOk, OnOk};
ghost use Rattle.ch11_packet.specs.Views.{read_frame_data};
ghost use Rattle.rec_reader.specs.ChannelFrames.{channel_frames, packet_frames};
ghost use Rattle.rec_reader.specs.Views.{packet_data};

use crate::packet::Packet;
use crate::recording::Recording;
use ch11_packet::ReadFrame;
use std::alloc::{AllocError, Global};

/// The frames of a channel: those of its packets of frames, in order. Their bytes are not copied.
pub fn frames_of<'a>(
    alloc: Global,
    recording: &Recording<'a>,
    channel: u16,
) -> Result<Vec<ReadFrame<'a>>, AllocError>
    ensures { IfOk result (λ frames. map read_frame_data frames.items
        ≡ channel_frames channel recording.now) }
{
    let mut frames = Vec::new(alloc);
    'packets: for packet in recording.packets() {
        if packet.header.channel == channel {
            push_frames(packet, &mut frames)?;
        }
    }
    Ok(frames)
}

/// Adds the frames of a packet.
fn push_frames<'a>(packet: &Packet<'a>, frames: &mut Vec<ReadFrame<'a>>) -> Result<(), AllocError>
    ensures { OnOk result (map read_frame_data frames.new.items
        ≡ map read_frame_data frames.old.items ++ packet_frames (packet_data packet.now)) }
{
    let Some(held) = packet.frames() else {
        return Ok(());
    };
    'frames: for frame in held.walk() {
        frames.push(frame)?;
    }
    Ok(())
}
