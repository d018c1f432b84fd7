//! A packet that is read.

ghost use Rattle.std.specs.Prelude.{◌≡◌, ◌+◌, length};
ghost use Rattle.ch11_packet.specs.declared.header.TheConstants.{HEADER_LEN};
ghost use Rattle.ch11_packet.specs.Classes.{Holds};
ghost use Rattle.ch11_packet.specs.Views.{header_data};

use ch11_packet::{
    Frames, Header, ProgramRecord, Record, What, a_packet_holds_one_thing, decode_record,
    held_frames,
};

/// A packet of a recording (IRIG 106-17 Chapter 11, in this project's profile), with what it holds
/// by its header and its data. Its body is borrowed from the recording's bytes. Only the readers
/// make packets.
#[derive(Clone, Copy, Debug, PartialEq, Eq)]
#[non_exhaustive]
pub struct Packet<'a> {
    /// The place of its first byte in the recording, counted from 0.
    pub at: u64,
    /// Its header.
    pub header: Header,
    /// All bytes after the header, the trailing filler and the data checksum among them.
    pub body: &'a [u8],
    /// What it holds.
    pub what: What,
    pub ghost long: { HEADER_LEN + length body.now ≡ header.packet_len },
    pub ghost holds: { ∥ Holds (header_data header) body.now what ∥₁ },
}

impl<'a> Packet<'a> {
    ghost use Rattle.std.specs.Prelude.{ℕ, ◌≡◌, ◌↔◌, IsSome, IfSome};
    ghost use Rattle.ch11_packet.specs.Classes.{data_in};
    ghost use Rattle.ch11_packet.specs.Views.{header_data};
    ghost use Rattle.ch11_packet.specs.declared.class.What.{What};
    ghost use Rattle.rec_reader.specs.ChannelFrames.{packet_frames};
    ghost use Rattle.rec_reader.specs.Channels.{saying_of};
    ghost use Rattle.rec_reader.specs.Channels.Saying.{OfProgram};
    ghost use Rattle.rec_reader.specs.Views.{packet_data, program_data};

    /// The packet's data: its body without the trailing filler and the data checksum.
    pub fn data(&self) -> &'a [u8]
        ensures { result.now ≡ data_in (header_data self.now.header) self.now.body.now }
    {
        &self.body[..self.header.data_len as usize]
    }

    /// The packet's frames: `None` if it holds something else.
    pub fn frames(&self) -> Option<Frames<'a>>
        ensures some { IsSome result
            ↔ ((count : ℕ) × (self.now.what ≡ What.Frames count)) }
        ensures frames { IfSome result (λ frames. frames ≡ packet_frames (packet_data self.now)) }
    {
        a_packet_holds_one_thing();
        match self.what {
            What::Frames(count) => Some(held_frames(count, self.data())),
            _ => None,
        }
    }

    /// The packet's program, by its record: `None` if it holds something else.
    pub fn program(&self) -> Option<ProgramRecord<'a>>
        ensures some { IsSome result ↔ ((channel : ℕ) × (version : ℕ) × (first : ℕ) × (count : ℕ)
            × (self.now.what ≡ What.Program channel version first count)) }
        ensures program { IfSome result (λ program. saying_of (packet_data self.now)
            ≡ Some (program.channel, OfProgram (program_data program))) }
    {
        a_packet_holds_one_thing();
        let What::Program { .. } = self.what else {
            return None;
        };
        match decode_record(self.data()) {
            Ok(Some(Record::Program(program))) => Some(program),
            Ok(Some(Record::End { .. })) => None,
            Ok(None) => None,
            Err(_) => None,
        }
    }
}
