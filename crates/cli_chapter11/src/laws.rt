//! The law of the recordings of runs that are joined, with nothing to run.

ghost use Rattle.std.specs.Prelude.{ℕ, List};
ghost use Rattle.ch11_clock.specs.declared.origin.Origin.{Origin};
ghost use Rattle.ch11_channels.specs.declared.channels.FileChannel.{FileChannel};
ghost use Rattle.rec_reader.specs.Packets.{PacketData};
ghost use Rattle.rec_pieces.specs.declared.packets.FilePackets.{FilePackets};
ghost use Rattle.rec_joined.specs.declared.joined.Part.{Part};
ghost use Rattle.rec_words.specs.declared.setup_file.RecordingSettings.{RecordingSettings};
ghost use Rattle.joined_theorem.specs.RunMoves.{AreAllApproved, AreMovedInRuns, HaveChannelsOfRuns};
ghost use Rattle.cli_chapter11.specs.declared.joined_channels.ListedRecording.{ListedRecording};
ghost use Rattle.cli_chapter11.specs.JoinedChannels.{NoneRefused};
ghost use Rattle.cli_chapter11.specs.Joining.{AreMovedBy, AreReadings};
ghost use Rattle.cli_chapter11.specs.RecordsInRuns.{AreListedInRuns};

use rec_pieces::PlacedRead;

/// Law: recordings that are listed and joined, none of which is refused, are moved in their runs, if the audit says yes
/// of each: their programs and ends become what the recordings of their run make of them. Each has the channels of its
/// run. So the audit says yes of their file.
pub fn listed_recordings_are_moved_in_their_runs<F: PlacedRead>()
    ensures records { (bytes : List (List ℕ)) (files : List F) (tables : List RecordingSettings)
        (all : List ListedRecording) (read : List (List PacketData)) (start : Origin)
        (channels : List FileChannel) (parts : List (Part (FilePackets F)))
        → AreReadings bytes read → AreListedInRuns all read → NoneRefused all → AreAllApproved read
        → AreMovedBy F.held start channels files tables all parts → AreMovedInRuns parts read }
    ensures channels { (files : List F) (tables : List RecordingSettings) (all : List ListedRecording)
        (start : Origin) (channels : List FileChannel) (parts : List (Part (FilePackets F)))
        → AreMovedBy F.held start channels files tables all parts
        → HaveChannelsOfRuns channels parts }
{}
