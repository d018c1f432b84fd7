//! The body of a packet of Ethernet data: how it is written and read.
mod blank;
mod body;
mod builder;
mod bytes;
mod decode;
mod frame;
mod walk;
mod word;

pub use blank::Blank;
pub use body::DataBody;
pub use builder::DataBuilder;
pub use decode::{BodyFault, Frames, decode_frames, first_frame, held_frames};
pub use frame::ReadFrame;
pub use walk::FrameWalk;
pub use word::MAX_SPEED;
pub(crate) use word::{BODY_WORD_LEN, FRAME_HEADER_LEN};
