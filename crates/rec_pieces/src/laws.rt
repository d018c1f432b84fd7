//! Laws of the pieces of a recording, with nothing to run.

ghost use Rattle.std.specs.Prelude.{ℕ, ◌≡◌, ◌≢◌, List, None};
ghost use Rattle.std.specs.List.{flat_map};
ghost use Rattle.ch11_merge.specs.Parts.{frames_of_piece};
ghost use Rattle.rec_reader.specs.Packets.{PacketData};
ghost use Rattle.rec_reader.specs.Reading.{Reads};
ghost use Rattle.rec_reader.specs.ChannelFrames.{channel_frames};
ghost use Rattle.rec_pieces.specs.Entries.{AreThere, PacketPlaces, pieces_of_channel, places_of};
ghost use Rattle.rec_pieces.specs.Listings.{channel_entries};
ghost use Rattle.rec_pieces.specs.Sources.{pieces_to_come};
ghost use Rattle.rec_pieces.specs.PieceListings.{ListsPackets, listed_channels, named_channels};
ghost use Rattle.rec_pieces.specs.declared.listing.PieceListing.{PieceListing};

/// Law: the channels of a listing are those that its packets name, the least first.
pub fn listed_channels_are_those_of_packets()
    ensures { (packets : List PacketData) (listing : PieceListing) → ListsPackets packets listing
        → listed_channels listing ≡ named_channels packets }
{}

/// Law: the packets of a recording are read at their places in its bytes.
pub fn packets_are_read_at_their_places()
    ensures { (bytes : List ℕ) (packets : List PacketData) → Reads bytes packets None
        → AreThere (places_of bytes) packets }
{}

/// Law: the pieces of a channel that are read at the places of its packets are those of its packets.
pub fn pieces_of_places_are_those_of_packets()
    ensures { (places : PacketPlaces) (packets : List PacketData) → AreThere places packets
        → (channel : ℕ)
        → pieces_to_come (channel_entries channel packets) 0 places
        ≡ pieces_of_channel channel packets }
{}

/// Law: the frames in the pieces of a channel are those of the channel, in order and once each.
pub fn pieces_hold_the_frames_of_a_channel()
    ensures { (channel : ℕ) (packets : List PacketData) → channel ≢ 0
        → flat_map frames_of_piece (pieces_of_channel channel packets)
        ≡ channel_frames channel packets }
{}
