//! A body of Ethernet data that is written.
use crate::frames::blank::Blank;
use crate::frames::bytes::BodyBytes;
use crate::limit::MAX_LIMIT;
use eth_frame::counter_of;
use std::marker::Model;

/// The body of a packet of Ethernet data, with one frame at least. It keeps the sum of its bytes,
/// which was taken when they were written, so that whoever writes the packet needn't read them for it.
#[derive(Debug, Drop)]
pub struct DataBody {
    body: BodyBytes,
    sum: u32,
}

impl Model for DataBody {
    ghost use Rattle.std.specs.Vec.{vec_capacity};
    ghost use Rattle.ch11_packet.specs.Building.{EthernetBody, body_of, frames_in, IsSealed};

    ghost Value = { EthernetBody };

    ghost view = { λ b.
        body_of (frames_in b.body.count b.body.bytes.items) b.body.net b.body.speed b.body.limit };

    ghost invariant = { λ b.
        IsSealed b.body.count b.body.net b.body.speed b.body.limit (vec_capacity b.body.bytes) b.sum
        b.body.bytes.items };
}

impl DataBody {
    ghost use Rattle.std.specs.Prelude.{◌≡◌, ◌^◌, ◌<◌, ◌≤◌, Some, length, slice_get};
    ghost use Rattle.std.specs.Option.{option_map};
    ghost use Rattle.std.specs.Vec.{vec_capacity};
    ghost use Rattle.ch11_packet.specs.Sums.{body_sum};
    ghost use Rattle.ch11_packet.specs.PacketLen.{packet_len};
    ghost use Rattle.ch11_packet.specs.Frames.{data_bytes, data_len};
    ghost use Rattle.ch11_packet.specs.Building.{IsEthernetBody, body_of, frames_in, IsSealed};

    /// The body with these bytes, of this sum.
    pub(crate) fn new(body: BodyBytes, sum: u32) -> DataBody
        requires { IsSealed body.count body.net body.speed body.limit (vec_capacity body.bytes) sum
            body.bytes.items }
        ensures { result
            ≡ body_of (frames_in body.count body.bytes.items) body.net body.speed body.limit }
    {
        DataBody { body, sum }
    }

    /// The body's bytes, without the packet's trailing filler.
    pub fn bytes(&self) -> &[u8]
        // The bytes.
        ensures bytes { result.now ≡ data_bytes self.now.net self.now.speed self.now.frames }
        ensures len { length result.now ≡ data_len self.now.frames }
        ensures fits { packet_len (length result.now) ≤ MAX_LIMIT }

        // The body that they are of.
        ensures valid { IsEthernetBody self.now }
    {
        self.body.bytes.as_slice()
    }

    /// The sum of the body's bytes, for the data checksum of its packet.
    pub fn sum(&self) -> u32
        ensures sum { result
            ≡ body_sum (data_bytes self.now.net self.now.speed self.now.frames) }
    {
        self.sum
    }

    /// The counter of the body's first frame.
    pub fn counter(&self) -> u64
        ensures first { option_map (λ frame. frame.counter) (slice_get self.now.frames 0)
            ≡ Some result }
        ensures fits { result < 2 ^ 48 }
    {
        let [_, _, _, _, c0, c1, c2, c3, c4, c5, ..] = self.body.bytes.as_slice() else {
            unreachable!()
        };
        counter_of([*c0, *c1, *c2, *c3, *c4, *c5])
    }

    /// The number of the body's frames.
    #[tactic(auto, using(crate::proofs::Bodies::frames_counted))]
    pub fn count(&self) -> u16
        ensures count { result ≡ length self.now.frames }
        ensures some { 0 < result }
    {
        self.body.count
    }

    /// The body's buffer as an empty one, of the limit of the builder that sealed the body.
    pub fn reuse(self) -> Blank
        ensures limit { result ≡ self.limit }
    {
        let BodyBytes {
            mut bytes,
            limit,
            ..
        } = self.body;
        bytes.clear();
        Blank { bytes, limit }
    }
}
