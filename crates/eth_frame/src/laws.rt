//! Laws of feeds and frames, which run nothing.
ghost use Rattle.std.specs.Prelude.{ℕ, ◌≡◌, [], ◌∷◌, ◌++◌, List, None};
ghost use Rattle.eth_frame.specs.declared.source.SourceEnding.{SourceEnding};
ghost use Rattle.eth_frame.specs.declared.source.SourceEnding.TheVariants.{End};
ghost use Rattle.eth_frame.specs.Bytes.{AreBytes};
ghost use Rattle.eth_frame.specs.Frame.{FrameData, IsFrame};
ghost use Rattle.eth_frame.specs.FeedRecord.{feed_record, time_at};
ghost use Rattle.eth_frame.specs.Feed.{Feed, left_of_feed};
ghost use Rattle.eth_frame.specs.TimedFeed.{FeedItem, TimedFeed, left_of_items, left_of_timed_feed};

use crate::counter::COUNTER_BITS;
use crate::feed::{HEAD_LEN, MAX_MARKS};
use crate::frame::{CHECK_SEQUENCE_LEN, MAX_FRAME_LEN, MIN_FRAME_LEN};

/// Law: bytes are the feed of one list of frames with one ending at most, and those are what a
/// source reads from them. A record at the end of a whole feed adds its frame.
pub fn feed_has_one_reading()
    ensures said { (bytes : List ℕ) (frames : List FrameData) (ending : SourceEnding) →
        Feed bytes frames ending
        → left_of_feed bytes ≡ record { frames = frames; times = []; ending = ending } }
    ensures meant { (bytes : List ℕ) (frames : List FrameData) (ending : SourceEnding) →
        AreBytes bytes
        → left_of_feed bytes ≡ record { frames = frames; times = []; ending = ending }
        → Feed bytes frames ending }
    ensures one { (bytes : List ℕ) (frames others : List FrameData) (ending other : SourceEnding) →
        Feed bytes frames ending → Feed bytes others other
        → (frames ≡ others) × (ending ≡ other) }
    ensures grows { (bytes : List ℕ) (frames : List FrameData) (frame : FrameData) →
        IsFrame frame → Feed bytes frames End
        → Feed (bytes ++ feed_record frame) (frames ++ frame ∷ []) End }
{}

/// Law: the bytes of a feed with time marks say its frames and its marks, in their order, and its
/// ending. Bytes without marks say the same whether there may be some or not.
pub fn feed_with_times_has_one_reading()
    ensures said { (bytes : List ℕ) (items : List FeedItem) (ending : SourceEnding) →
        TimedFeed bytes items ending → left_of_timed_feed bytes ≡ left_of_items items ending }
    ensures same { (bytes : List ℕ) (frames : List FrameData) (ending : SourceEnding) →
        (feed : Feed bytes frames ending) → time_at feed.rest ≡ None
        → left_of_timed_feed bytes ≡ left_of_feed bytes }
{}

/// Law: a frame has 18 to 16,383 bytes, of which the last 4 are its check sequence, and a counter
/// of 48 bits.
pub fn the_limits_of_a_frame()
    ensures least { MIN_FRAME_LEN ≡ 18 }
    ensures most { MAX_FRAME_LEN ≡ 16383 }
    ensures check_sequence { CHECK_SEQUENCE_LEN ≡ 4 }
    ensures counter { COUNTER_BITS ≡ 48 }
{}

/// Law: a record of a feed has 9 bytes before its frame's, and marks of at most 3.
pub fn the_limits_of_a_record()
    ensures head { HEAD_LEN ≡ 9 }
    ensures marks { MAX_MARKS ≡ 3 }
{}
