//! The feed, a stream of records with a frame each: how it is read and written.
mod buffered;
mod head;
mod source;
mod write;

pub use buffered::BufferedFeedSource;
pub(crate) use head::{HEAD_LEN, MAX_MARKS};
pub use source::FeedSource;
pub use write::{FeedWriteFault, write_feed};
