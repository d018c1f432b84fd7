//! The export, packet by packet.

ghost use Rattle.std.specs.Prelude.{◌≡◌, OnOk, OnErr};
ghost use Rattle.std.specs.Io.KnownBytes.{Appends};
ghost use Rattle.pcapng_blocks.specs.Blocks.{blocks_bytes};
ghost use Rattle.pcapng_blocks.specs.Outputs.{TakesStart};
ghost use Rattle.rec_export.specs.Export.{blocks_of_frames, blocks_of_version, later_behind, state_behind_frames, state_behind_version, export_state};

use crate::fault::ExportFault;
use crate::frame::write_frames;
use crate::interface::{Interfaces, describe};
use crate::version::{FilterVersion, LaterVersions, later_comment, text_in};
use ch11_packet::Frames;
use pcapng_blocks::{Block, write_block};
use rec_reader::Packet;
use std::alloc::Global;
use std::io::Write;
use std::marker::Model;

/// An export of a recording that takes it packet by packet. It keeps a few numbers of each channel
/// that has frames or programs, and no packet.
#[derive(Debug, Drop)]
pub struct Exporter {
    alloc: Global,
    origin: Option<u64>,
    interfaces: Interfaces,
}

impl Model for Exporter {
    ghost use Rattle.rec_export.specs.Export.{ExportState};

    ghost Value = { ExportState };

    ghost view = { λ e. record { origin = e.origin; interfaces = e.interfaces } };
}

impl Exporter {
    ghost use Rattle.std.specs.Prelude.{◌≡◌, OnOk, OnErr};
    ghost use Rattle.std.specs.Io.KnownBytes.{Appends};
    ghost use Rattle.pcapng_blocks.specs.Blocks.{block_bytes, blocks_bytes};
    ghost use Rattle.pcapng_blocks.specs.Blocks.BlockData.{OfSection};
    ghost use Rattle.pcapng_blocks.specs.Outputs.{TakesStart};
    ghost use Rattle.rec_reader.specs.Views.{packet_data};
    ghost use Rattle.rec_export.specs.Export.{first_state, packet_blocks, state_behind};

    /// An export of no packets yet. Times are those since an origin, in seconds since 1970, if one is
    /// given; else since counter 0. It takes no memory yet.
    pub fn new(alloc: Global, origin: Option<u64>) -> Exporter
        ensures first { result ≡ first_state origin }
    {
        Exporter {
            alloc,
            origin,
            interfaces: Interfaces::new(alloc),
        }
    }

    /// Writes what stands before the first packet. It doesn't flush the output.
    ///
    /// # Errors
    ///
    /// [`ExportFault::Output`] if the output failed.
    pub fn begin<W: Write>(&self, out: &mut W) -> Result<(), ExportFault>
        ensures whole { OnOk result (Appends (W.contents out.old) (W.contents out.new)
            (block_bytes OfSection)) }
        ensures part { OnErr result (TakesStart (W.contents out.old) (W.contents out.new)
            (block_bytes OfSection)) }
    {
        write_block(out, &Block::Section)?;
        Ok(())
    }

    /// Writes what the next packet of a recording adds. It doesn't flush the output.
    ///
    /// # Errors
    ///
    /// [`ExportFault::Output`] if the output failed, and [`ExportFault::Memory`] if there was no
    /// memory for a channel or a comment. Then the output took the first of the bytes, and the export
    /// doesn't go on.
    pub fn export_packet<W: Write>(
        &mut self,
        packet: &Packet<'_>,
        out: &mut W,
    ) -> Result<(), ExportFault>
        // At Ok.
        ensures whole { OnOk result (Appends (W.contents out.old) (W.contents out.new)
            (blocks_bytes (packet_blocks self.old (packet_data packet.now)))) }
        ensures state { OnOk result (self.new ≡ state_behind self.old (packet_data packet.now)) }

        // At a fault.
        ensures part { OnErr result (TakesStart (W.contents out.old) (W.contents out.new)
            (blocks_bytes (packet_blocks self.old (packet_data packet.now)))) }
    {
        if let Some(frames) = packet.frames() {
            let channel = packet.header.channel;
            return export_frames(
                self.alloc,
                self.origin,
                &mut self.interfaces,
                channel,
                &frames,
                out,
            );
        }
        let Some(program) = packet.program() else {
            return Ok(());
        };
        let version = FilterVersion {
            number: program.version,
            insns: program.count,
        };
        let channel = program.channel;
        export_version(
            self.alloc,
            self.origin,
            &mut self.interfaces,
            channel,
            version,
            out,
        )
    }
}

/// Writes what frames of a channel add: the description of its interface, if it has none, and the
/// frames.
fn export_frames<W: Write>(
    alloc: Global,
    origin: Option<u64>,
    interfaces: &mut Interfaces,
    channel: u16,
    frames: &Frames<'_>,
    out: &mut W,
) -> Result<(), ExportFault>
    ensures whole { OnOk result (Appends (W.contents out.old) (W.contents out.new)
        (blocks_bytes (blocks_of_frames (export_state origin interfaces.old) channel
        frames.now))) }
    ensures state { OnOk result (export_state origin interfaces.new
        ≡ state_behind_frames (export_state origin interfaces.old) channel frames.now) }
    ensures part { OnErr result (TakesStart (W.contents out.old) (W.contents out.new)
        (blocks_bytes (blocks_of_frames (export_state origin interfaces.old) channel
        frames.now))) }
{
    let number = interfaces.number_of(channel);
    // there are no more than 65,536 channels
    let Ok(interface) = u32::try_from(number) else {
        return Err(ExportFault::Memory);
    };
    let later = interfaces.later_of(channel);
    let comment = later_comment(alloc, later)?;
    describe(alloc, out, origin, interfaces, channel, None)?;
    interfaces.put(channel, later_behind(frames, later))?;
    write_frames(out, interface, text_in(&comment), frames)?;
    Ok(())
}

/// The filter's later versions that are still to be shown behind frames.
fn later_behind(frames: &Frames<'_>, later: Option<LaterVersions>) -> Option<LaterVersions>
    ensures { result ≡ later_behind frames.now later }
{
    if frames.count() == 0 { later } else { None }
}

/// Writes what a program of a channel adds: the description of its interface, if it has none.
fn export_version<W: Write>(
    alloc: Global,
    origin: Option<u64>,
    interfaces: &mut Interfaces,
    channel: u16,
    version: FilterVersion,
    out: &mut W,
) -> Result<(), ExportFault>
    ensures whole { OnOk result (Appends (W.contents out.old) (W.contents out.new)
        (blocks_bytes (blocks_of_version (export_state origin interfaces.old) channel version))) }
    ensures state { OnOk result (export_state origin interfaces.new
        ≡ state_behind_version (export_state origin interfaces.old) channel version) }
    ensures part { OnErr result (TakesStart (W.contents out.old) (W.contents out.new)
        (blocks_bytes (blocks_of_version (export_state origin interfaces.old) channel version))) }
{
    describe(alloc, out, origin, interfaces, channel, Some(version))?;
    let later = interfaces.later_with(channel, version);
    interfaces.put(channel, later)?;
    Ok(())
}
