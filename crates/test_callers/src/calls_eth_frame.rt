//! A caller of `eth_frame`, as its page has it.

use eth_frame::{FeedSource, FrameBuf, FrameSource, Next, SourceFault};
use std::io::Read;

/// The number of frames of a feed that came without a fault.
pub fn count_good<R: Read + Drop>(feed: R) -> Result<u64, SourceFault> {
    let mut source = FeedSource::new(feed);
    let mut buffer = FrameBuf::new();
    let mut good = 0u64;
    for _ in 0..u64::MAX {
        if source.next(&mut buffer)? == Next::End {
            break;
        }
        let faulty = buffer.frame().is_some_and(|f| f.crc_error || f.frame_error);
        good = good.saturating_add(u64::from(!faulty));
    }
    Ok(good)
}
