//! A caller of `cli_record_streams`, as its page has it.

use bpf_verify::Verified;
use cli_record_streams::{Source, open_feed, read_filter};
use cli_streams::{CommandEnding, Inputs};
use rec_words::ChannelSettings;
use std::rt::Files;

/// The channel's source and its program, by the settings of the channel.
pub fn channel_of<'a, R: AllocGlobal + Files>(
    rt: &R,
    settings: ChannelSettings,
    inputs: &mut Inputs,
    feeds: &mut Inputs,
) -> Result<(Verified, Source<R::File>), CommandEnding<'a>> {
    let program = read_filter(rt, settings.filter, inputs)?;
    let source = open_feed(
        rt,
        settings.feed,
        settings.max,
        settings.span != 0,
        inputs,
        feeds,
    )?;
    Ok((program, source))
}
