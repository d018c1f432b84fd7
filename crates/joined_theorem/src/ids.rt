//! The law of the IDs of channels, with nothing to run.

ghost use Rattle.std.specs.Prelude.{List};
ghost use Rattle.ch11_channels.specs.declared.channels.FileChannel.{FileChannel};
ghost use Rattle.ch11_channels.specs.declared.channels.RunChannel.{RunChannel};
ghost use Rattle.ch11_channels.specs.GivenIds.{AreNumberedChannels};
ghost use Rattle.rec_joined.specs.declared.joined.Part.{Part};
ghost use Rattle.joined_theorem.specs.RunMoves.{HaveChannelsOfRuns, HaveOwnIds};

use ch11_channels::channels_of_a_file_are_named_once;
use rec_pieces::PacketsAt;

/// Law: where the channels of a file are numbered, and each recording has those of its run, an ID is that of one
/// channel of one run.
pub fn ids_of_a_file_are_of_one_channel<P: PacketsAt>()
    ensures { (named : List RunChannel) (channels : List FileChannel)
        → AreNumberedChannels named channels → (parts : List (Part P))
        → HaveChannelsOfRuns channels parts → HaveOwnIds parts }
{
    channels_of_a_file_are_named_once();
}
