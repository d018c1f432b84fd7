//! Ethernet frames as a recorder takes them: the frame, its owned form and its buffer, sources of
//! frames, and the feed, a stream of records with a frame each.
#![tactic(auto)]

mod buffer;
mod counter;
mod feed;
mod frame;
mod laws;
mod owned;
mod source;

pub use buffer::{FrameBuf, fill};
pub use counter::{COUNTER_BITS, COUNTER_LEN, counter_bytes, counter_of};
pub use feed::{BufferedFeedSource, FeedSource, FeedWriteFault, write_feed};
pub use frame::{CHECK_SEQUENCE_LEN, Frame, MAX_FRAME_LEN, MIN_FRAME_LEN};
pub use laws::{
    feed_has_one_reading, feed_with_times_has_one_reading, the_limits_of_a_frame,
    the_limits_of_a_record,
};
pub use owned::OwnedFrame;
pub use source::{FrameSource, Next, SourceEnding, SourceFault};
