//! The channels of a recording as interfaces.

ghost use Rattle.std.specs.Prelude.{◌≡◌, ◌<◌, ◌^◌, length, IfOk, OnOk, OnErr};
ghost use Rattle.std.specs.Io.KnownBytes.{Appends};
ghost use Rattle.pcapng_blocks.specs.Blocks.{block_bytes, blocks_bytes};
ghost use Rattle.pcapng_blocks.specs.Outputs.{TakesStart};
ghost use Rattle.pcapng_blocks.specs.Views.{options_data};
ghost use Rattle.rec_export.specs.Frames.{text_of};
ghost use Rattle.rec_export.specs.Export.{description, export_state};
ghost use Rattle.rec_export.specs.Interfaces.{channel_name, description_options, interface_block};

use crate::fault::ExportFault;
use crate::frame::FCS_LEN;
use crate::version::{FilterVersion, LaterVersions, comment_of, joined_by, text_in};
use indexmap::IndexMap;
use pcapng_blocks::{Block, BlockOption, LINK_TYPE_ETHERNET, write_block};
use std::alloc::{AllocError, Global};
use std::io::Write;
use std::marker::Model;

/// The unit of times: the relative time counter goes on every 10^-7 seconds.
const TIME_RESOLUTION: u8 = 7;

/// The channels that have an interface, in the order of their descriptions, each with the filter's later
/// versions that no frame was shown of. A channel is found without a look at the others.
#[derive(Debug, Drop)]
pub(crate) struct Interfaces {
    channels: IndexMap<u16, Option<LaterVersions>>,
}

impl Model for Interfaces {
    ghost use Rattle.std.specs.Prelude.{List};
    ghost use Rattle.rec_export.specs.Interfaces.{Interface, interfaces_of};

    ghost Value = { List Interface };

    ghost view = { λ interfaces. interfaces_of interfaces.channels.entries };
}

impl Interfaces {
    ghost use Rattle.std.specs.Prelude.{◌≡◌, [], OnOk};
    ghost use Rattle.rec_export.specs.Export.{later_with};
    ghost use Rattle.rec_export.specs.Interfaces.{is_described, later_of, number_of, with_interface};

    /// No interfaces. It takes no memory yet.
    pub(crate) fn new(alloc: Global) -> Interfaces
        ensures { result ≡ [] }
    {
        Interfaces {
            channels: IndexMap::new(alloc),
        }
    }

    /// The number of a channel's interface; that of the next one, if the channel has none.
    pub(crate) fn number_of(&self, channel: u16) -> usize
        ensures { result ≡ number_of channel self.now }
    {
        match self.channels.get_index_of(&channel) {
            Some(number) => number,
            None => self.channels.len(),
        }
    }

    /// Whether a channel has an interface.
    pub(crate) fn is_described(&self, channel: u16) -> bool
        ensures { result ≡ is_described channel self.now }
    {
        self.number_of(channel) < self.channels.len()
    }

    /// The filter's later versions of a channel that no frame was shown of.
    pub(crate) fn later_of(&self, channel: u16) -> Option<LaterVersions>
        ensures { result ≡ later_of channel self.now }
    {
        match self.channels.get(&channel) {
            Some(later) => *later,
            None => None,
        }
    }

    /// The filter's later versions of a channel once one more came into force. A channel without an
    /// interface has none: the version is the comment of its interface.
    pub(crate) fn later_with(&self, channel: u16, version: FilterVersion) -> Option<LaterVersions>
        ensures { result ≡ later_with channel version self.now }
    {
        if self.is_described(channel) {
            Some(joined_by(self.later_of(channel), version))
        } else {
            None
        }
    }

    /// Puts an interface in the place of the one that its channel had, or behind all.
    pub(crate) fn put(
        &mut self,
        channel: u16,
        later: Option<LaterVersions>,
    ) -> Result<(), AllocError>
        ensures { OnOk result (self.new ≡ with_interface channel later self.old) }
    {
        self.channels.insert(channel, later)?;
        Ok(())
    }
}

/// Writes the description of a channel's interface, if the channel has none yet.
pub(crate) fn describe<W: Write>(
    alloc: Global,
    out: &mut W,
    origin: Option<u64>,
    interfaces: &Interfaces,
    channel: u16,
    version: Option<FilterVersion>,
) -> Result<(), ExportFault>
    ensures whole { OnOk result (Appends (W.contents out.old) (W.contents out.new)
        (blocks_bytes (description (export_state origin interfaces.now) channel version))) }
    ensures part { OnErr result (TakesStart (W.contents out.old) (W.contents out.new)
        (blocks_bytes (description (export_state origin interfaces.now) channel version))) }
{
    if interfaces.is_described(channel) {
        return Ok(());
    }
    write_description(alloc, out, origin, channel, version)
}

/// Writes the description of a channel's interface.
fn write_description<W: Write>(
    alloc: Global,
    out: &mut W,
    origin: Option<u64>,
    channel: u16,
    version: Option<FilterVersion>,
) -> Result<(), ExportFault>
    ensures whole { OnOk result (Appends (W.contents out.old) (W.contents out.new)
        (block_bytes (interface_block origin channel version))) }
    ensures part { OnErr result (TakesStart (W.contents out.old) (W.contents out.new)
        (block_bytes (interface_block origin channel version))) }
{
    let name = channel_name(alloc, channel)?;
    let comment = comment_of(alloc, version)?;
    let options = description_options(alloc, text_in(&comment), name.as_slice(), origin)?;
    let block = Block::Interface {
        link_type: LINK_TYPE_ETHERNET,
        snap_len: 0,
        options: options.as_slice(),
    };
    write_block(out, &block)?;
    Ok(())
}

/// The options of a channel's interface.
fn description_options<'a>(
    alloc: Global,
    comment: Option<&'a [u8]>,
    name: &'a [u8],
    origin: Option<u64>,
) -> Result<Vec<BlockOption<'a>>, AllocError>
    ensures { IfOk result (λ options. options_data options.items
        ≡ description_options (text_of comment.entry) name.entry.now origin) }
{
    let mut options = Vec::new(alloc);
    options.push(BlockOption::TimeResolution(TIME_RESOLUTION))?;
    options.push(BlockOption::InterfaceName(name))?;
    options.push(BlockOption::FcsLen(FCS_LEN))?;
    if let Some(seconds) = origin {
        options.push(BlockOption::TimeOffset(seconds))?;
    }
    // behind all others, since a reader may stop at it
    if let Some(text) = comment {
        options.push(BlockOption::Comment(text))?;
    }
    Ok(options)
}

/// The name of a channel.
fn channel_name(alloc: Global, channel: u16) -> Result<Vec<u8>, ExportFault>
    ensures name { IfOk result (λ name. name.items ≡ channel_name channel) }
    ensures short { IfOk result (λ name. length name.items < 2 ^ 16) }
{
    let mut name = Vec::new(alloc);
    match write!(&mut name, "channel {channel}") {
        Ok(()) => Ok(name),
        Err(_) => Err(ExportFault::Memory),
    }
}
