//! The files that a recording reads: its settings, and each channel's filter and feed.

ghost use Rattle.std.specs.Prelude.{◌≡◌, IfOk, None};

use crate::closing::ClosingSource;
use crate::listed::{FilterFault, program_in};
use crate::retried::Retried;
use bpf_verify::Verified;
use cli_streams::{CommandEnding, Inputs, MAX_LISTING, bounded_text};
use eth_frame::{BufferedFeedSource, FrameSource};
use rec_words::{Settings, settings_of};
use std::fs;
use std::io::BufReader;
use std::rt::Files;

/// How many bytes of a feed are read at a time.
const FEED_BUFFER: usize = 65_536;

/// The source of a channel's frames, which closes its feed with the channel's last frame. A read that a
/// signal interrupts is made again.
pub type Source<F> = ClosingSource<BufferedFeedSource<BufReader<Retried<F>>>>;

/// The settings in a file, which is added to the inputs.
pub fn read_settings<'a, R: AllocGlobal + Files>(
    rt: &R,
    file: &'a str,
    inputs: &mut Inputs,
) -> Result<Settings, CommandEnding<'a>> {
    let mut opened = fs::open(rt, file).map_err(|error| CommandEnding::of_io(file, &error))?;
    inputs.add(&opened)?;
    let text = bounded_text(rt.alloc(), MAX_LISTING, &mut opened).map_err(
        |error| CommandEnding::of_io(file, &error),
    )?;
    Ok(settings_of(rt.alloc(), text.as_str())?)
}

/// The program that a filter's file lists; the file is added to the inputs.
pub fn read_filter<'a, R: AllocGlobal + Files>(
    rt: &R,
    filter: String,
    inputs: &mut Inputs,
) -> Result<Verified, CommandEnding<'a>> {
    let mut file = match fs::open(rt, filter.as_str()) {
        Ok(file) => file,
        Err(error) => return Err(CommandEnding::of_named_io(filter, &error)),
    };
    inputs.add(&file)?;
    match program_in(rt.alloc(), &mut file) {
        Ok(program) => Ok(program),
        Err(FilterFault::File(error)) => Err(CommandEnding::of_named_io(filter, &error)),
        Err(FilterFault::Listed(fault)) => Err(CommandEnding::of_listed(rt.alloc(), fault)),
    }
}

/// The first `max` frames of a feed, which is opened here and added to the inputs and to the feeds, and
/// the time marks among them if it may have some. A pipe or a device that is among the feeds is refused.
pub fn open_feed<'a, R: AllocGlobal + Files>(
    rt: &R,
    feed: String,
    max: u64,
    timed: bool,
    inputs: &mut Inputs,
    feeds: &mut Inputs,
) -> Result<Source<R::File>, CommandEnding<'a>>
    ensures open { IfOk result (λ source.
        ⟦<Source<R::File> as FrameSource>⟧.ending source ≡ None) }
{
    // two readers of a pipe would each have a part of its bytes, and no whole frame
    if feeds.has_stream(rt, feed.as_str()) {
        return Err(CommandEnding::NamedFile(feed));
    }
    let file = match fs::open(rt, feed.as_str()) {
        Ok(file) => file,
        Err(error) => return Err(CommandEnding::of_named_io(feed, &error)),
    };
    inputs.add(&file)?;
    feeds.add(&file)?;
    let file = Retried { file };
    let reader = BufReader::with_capacity(rt.alloc(), FEED_BUFFER, file).map_err(
        |_| CommandEnding::Memory,
    )?;
    let source = if timed {
        BufferedFeedSource::with_times(reader)
    } else {
        BufferedFeedSource::new(reader)
    };
    Ok(ClosingSource::new(source, max))
}
