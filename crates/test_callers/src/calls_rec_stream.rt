//! A caller of `rec_stream`, as its page has it.

use ch11_clock::Clock;
use ch11_setup::SetupChannel;
use rec_reader::Reader;
use rec_stream::{StreamEnd, write_stream};
use rec_whole::FileNames;
use std::alloc::Global;

/// The stream of a recording with channel 1, in memory.
pub fn stream_of(alloc: Global, recording: &[u8], clock: &Clock) -> Result<Vec<u8>, StreamEnd> {
    let names = FileNames {
        host: "recorder",
        program: "flight 17",
        is_external: false,
        channels: &[SetupChannel {
            id: 1,
            name: "eth0",
            net: 0,
        }],
        attributes: &[],
    };
    let mut reader = Reader::new(alloc, recording);
    let mut bytes = Vec::new(alloc);
    write_stream(alloc, &mut reader, &names, clock, &mut bytes)?;
    Ok(bytes)
}
