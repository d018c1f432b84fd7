//! What each channel is set to, and the frames that it is fed.

ghost use Rattle.std.specs.Prelude.{◌≤◌};

use ch11_packet::{MAX_LIMIT, MIN_LIMIT};
use eth_frame::{MAX_FRAME_LEN, MIN_FRAME_LEN};
use rec_channel::MAX_VERSIONS;
use std::alloc::{AllocError, Global};

/// The number of the shortest frames that a packet of the greatest limit holds.
pub(crate) const MOST_IN_PACKET: u32 = 17_475;

/// The number of the longest frames that a packet of the greatest limit holds.
pub(crate) const LONGEST_IN_PACKET: u32 = 31;

/// The length of a frame's head in a feed.
const HEAD_LEN: usize = 9;

/// How much more each byte of a frame is than the one before; the first is the lowest of the frame's
/// number.
const STEP: u8 = 37;

/// What a channel is fed.
#[derive(Clone, Copy)]
pub(crate) enum FeedKind {
    /// A frame for each version that a channel may have, and some more for the last.
    Versions,
    /// Over 100,000 frames.
    Many,
    /// The shortest frames: two packets with as many as there can be, and one frame more.
    Shortest,
    /// The longest frames.
    Longest,
    /// No frame.
    Silent,
    /// Frames of all lengths up to 1,500 bytes and more.
    Varied,
}

/// The channels of a recording: those from an index up to another.
#[derive(Clone, Copy)]
pub(crate) struct Channels {
    /// The index of the first, the one that is given changes.
    pub(crate) first: u16,
    pub(crate) end: u16,
}

/// A channel.
#[derive(Clone, Copy)]
pub(crate) struct Channel {
    pub(crate) id: u16,
    pub(crate) kind: FeedKind,
    pub(crate) limit: u32,
}

impl Channel {
    /// The channel at this index among all.
    pub(crate) fn at(index: u16) -> Channel {
        let (kind, limit) = match index {
            0 => (FeedKind::Versions, MIN_LIMIT),
            1 => (FeedKind::Many, MIN_LIMIT),
            2 => (FeedKind::Shortest, MAX_LIMIT),
            3 => (FeedKind::Longest, MAX_LIMIT),
            4 => (FeedKind::Silent, MIN_LIMIT),
            _ if index % 2 == 0 => (FeedKind::Varied, MIN_LIMIT),
            _ => (FeedKind::Varied, MAX_LIMIT),
        };
        Channel {
            id: index.wrapping_mul(1_040).wrapping_add(1),
            kind,
            limit,
        }
    }

    /// How many frames it is fed.
    pub(crate) fn frames(self) -> u32 {
        match self.kind {
            FeedKind::Versions => MAX_VERSIONS as u32 + 76,
            FeedKind::Many => 100_001,
            FeedKind::Shortest => 2 * MOST_IN_PACKET + 1,
            FeedKind::Longest => 3 * LONGEST_IN_PACKET + 7,
            FeedKind::Silent => 0,
            FeedKind::Varied => 500,
        }
    }

    /// How many programs it has.
    pub(crate) fn versions(self) -> u32 {
        match self.kind {
            FeedKind::Versions => MAX_VERSIONS as u32,
            _ => 1,
        }
    }

    /// The version that the frame of this number meets.
    pub(crate) fn version_at(self, number: u32) -> u32 {
        number.min(self.versions().saturating_sub(1))
    }

    /// Whether the program in force accepts the frame of this number.
    pub(crate) fn accepts(self, number: u32) -> bool {
        match self.kind {
            FeedKind::Versions => is_keeping(self.version_at(number)),
            FeedKind::Many => (self.frame_len(number) - 4) % 3 != 0,
            FeedKind::Varied => number % 2 == 1,
            FeedKind::Shortest | FeedKind::Longest | FeedKind::Silent => true,
        }
    }

    /// The number of the first frame from this one on that its programs accept.
    pub(crate) fn accepted_from(self, first: u32) -> u32 {
        for number in first..self.frames() {
            if self.accepts(number) {
                return number;
            }
        }
        self.frames()
    }

    /// How many frames its programs accept.
    pub(crate) fn kept(self) -> u64 {
        let mut kept = 0u64;
        for number in 0..self.frames() {
            kept = kept.saturating_add(u64::from(self.accepts(number)));
        }
        kept
    }

    /// The length of the frame of this number.
    fn frame_len(self, number: u32) -> u16
        ensures { MIN_FRAME_LEN ≤ result }
    {
        let more = match self.kind {
            FeedKind::Shortest | FeedKind::Silent => 0,
            FeedKind::Longest => MAX_FRAME_LEN as u16 - MIN_FRAME_LEN as u16,
            FeedKind::Versions | FeedKind::Many => (number % 23) as u16,
            FeedKind::Varied => (u64::from(number) * 37 % 1_500) as u16,
        };
        MIN_FRAME_LEN as u16 + more
    }

    /// The head of the frame's record in a feed. Its counter is its number, and its marks are the
    /// number's two lowest bits.
    fn head(self, number: u32) -> [u8; HEAD_LEN] {
        let [first, second, third, fourth] = number.to_le_bytes();
        let [low, high] = self.frame_len(number).to_le_bytes();
        [first, second, third, fourth, 0, 0, first & 3, low, high]
    }

    /// Adds the record of the frame of this number to a feed.
    pub(crate) fn push_record(self, number: u32, feed: &mut Vec<u8>) -> Result<(), AllocError> {
        feed.extend_from_slice(&self.head(number))?;
        let [mut byte, ..] = number.to_le_bytes();
        for _ in 0..self.frame_len(number) {
            feed.push(byte)?;
            byte = byte.wrapping_add(STEP);
        }
        Ok(())
    }

    /// The feed of the frames that its programs accept.
    pub(crate) fn accepted_feed(self, alloc: Global) -> Result<Vec<u8>, AllocError> {
        let mut feed = Vec::new(alloc);
        for number in 0..self.frames() {
            if self.accepts(number) {
                self.push_record(number, &mut feed)?;
            }
        }
        Ok(feed)
    }

    /// Whether these are the bytes of the frame of this number.
    pub(crate) fn has_frame(self, number: u32, bytes: &[u8]) -> bool {
        let [mut fed, ..] = number.to_le_bytes();
        for byte in bytes {
            if *byte != fed {
                return false;
            }
            fed = fed.wrapping_add(STEP);
        }
        bytes.len() == usize::from(self.frame_len(number))
    }
}

/// Whether this version of a channel with many accepts each frame; the others drop each.
pub(crate) fn is_keeping(version: u32) -> bool {
    version % 3 != 2
}
