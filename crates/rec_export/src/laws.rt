//! Laws of exports, which run nothing.

ghost use Rattle.std.specs.Prelude.{ℕ, ◌≡◌, true, false, List, [], map, Option};
ghost use Rattle.pcapng_blocks.specs.Blocks.{blocks_bytes};
ghost use Rattle.rec_reader.specs.declared.fault.ReadEnd.{ReadEnd};
ghost use Rattle.rec_reader.specs.Packets.{BeginSomeBytes, PacketData};
ghost use Rattle.rec_reader.specs.ChannelFrames.{channel_frames};
ghost use Rattle.rec_export.specs.Interfaces.{is_described, number_of};
ghost use Rattle.rec_export.specs.Export.{export_blocks, first_state, state_behind_all};
ghost use Rattle.rec_export.specs.Exported.{IsExported, StopsExport};
ghost use Rattle.rec_export.specs.Found.{AreReadAs, ShowsPackets};
ghost use Rattle.rec_export.specs.Shown.{frame_shown, frames_on, interface_name, names_in};

use pcapng_blocks::{blocks_are_read_back, bytes_hold_one_list_of_blocks};

/// Law: each channel that has frames has an interface in the export, the interfaces have the names of
/// their channels, and an interface shows the frames of its channel, in order and once each, and no
/// others.
pub fn an_interface_shows_the_frames_of_its_channel()
    ensures frames { (origin : Option ℕ) (packets : List PacketData) (channel : ℕ)
        → is_described channel (state_behind_all (first_state origin) packets).interfaces ≡ true
        → frames_on (number_of channel (state_behind_all (first_state origin) packets).interfaces)
        (export_blocks origin packets) ≡ map frame_shown (channel_frames channel packets) }
    ensures none { (origin : Option ℕ) (packets : List PacketData) (channel : ℕ)
        → is_described channel (state_behind_all (first_state origin) packets).interfaces ≡ false
        → channel_frames channel packets ≡ [] }
    ensures names { (origin : Option ℕ) (packets : List PacketData)
        → names_in (export_blocks origin packets)
        ≡ map interface_name (state_behind_all (first_state origin) packets).interfaces }
{}

/// Law: the bytes of the export of a recording's packets are read as its blocks and as no others.
pub fn an_export_is_read_as_its_blocks()
    ensures { (origin : Option ℕ) (packets : List PacketData) → BeginSomeBytes packets
        → AreReadAs (blocks_bytes (export_blocks origin packets)) (export_blocks origin packets) }
{
    blocks_are_read_back();
    bytes_hold_one_list_of_blocks();
}

/// Law: the bytes that an output took of an export are read as blocks, as one list of them and no
/// other, and these show the frames of the recording: each interface those of its channel, in order
/// and once each. Of a recording that isn't read to its end they show the frames before.
pub fn an_export_shows_its_recording()
    ensures whole { (origin : Option ℕ) (recording : List ℕ) (old new : Option (List ℕ))
        → (exported : IsExported origin recording old new)
        → ShowsPackets origin exported.packets old new }
    ensures part { (origin : Option ℕ) (recording : List ℕ) (end : ReadEnd)
        (old new : Option (List ℕ))
        → (stopped : StopsExport origin recording end old new)
        → ShowsPackets origin stopped.packets old new }
{
    an_export_is_read_as_its_blocks();
}
