//! A caller of `ch11_setup`, as its page has it.

use ch11_clock::civil_time;
use ch11_setup::{Setup, SetupChannel, setup_text};
use std::alloc::{AllocError, Global};

/// The setup record of a recording of one Ethernet channel, whose first time packet is at a moment.
/// `None` where that is outside of the years 1 to 3999.
pub fn setup_of_one_channel(
    alloc: Global,
    host: &str,
    moment: i64,
    channel: u16,
) -> Result<Option<String>, AllocError> {
    let Some(time) = civil_time(moment) else {
        return Ok(None);
    };
    let setup = Setup {
        host,
        program: "bpfrec",
        time,
        time_channel: if channel == 1 { 2 } else { 1 },
        is_external: false,
        is_indexed: true,
        channels: &[SetupChannel {
            id: channel,
            name: "channel",
            net: 0,
        }],
        attributes: &[],
    };
    Ok(Some(setup_text(alloc, &setup)?))
}
