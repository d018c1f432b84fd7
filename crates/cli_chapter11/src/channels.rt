//! The names that SETUP has, as a setup record takes them.

ghost use Rattle.std.specs.Prelude.{◌≡◌, map, IfOk};
ghost use Rattle.ch11_setup.specs.Setups.{given_attribute};
ghost use Rattle.rec_words.specs.SetupViews.{attribute_data, setup_channel_data};
ghost use Rattle.cli_chapter11.specs.WholeFiles.{channel_said};

use ch11_setup::{Attribute, SetupChannel};
use rec_words::{AddedAttribute, ChannelSetup};
use std::alloc::{AllocError, Global};

/// The channels of SETUP.
pub(crate) fn channels_of<'a>(
    alloc: Global,
    said: &'a [ChannelSetup],
) -> Result<Vec<SetupChannel<'a>>, AllocError>
    ensures { IfOk result (λ channels. map channel_said channels.items
        ≡ map setup_channel_data said.entry.now) }
{
    let mut channels = Vec::new(alloc);
    'channels: for channel in said {
        channels.push(SetupChannel {
            id: channel.id,
            name: channel.name.as_str(),
            net: channel.net,
        })?;
    }
    Ok(channels)
}

/// The attributes of SETUP.
pub(crate) fn attributes_of<'a>(
    alloc: Global,
    said: &'a [AddedAttribute],
) -> Result<Vec<Attribute<'a>>, AllocError>
    ensures { IfOk result (λ attributes. map given_attribute attributes.items
        ≡ map attribute_data said.entry.now) }
{
    let mut attributes = Vec::new(alloc);
    'attributes: for attribute in said {
        attributes.push(Attribute {
            name: attribute.name.as_str(),
            value: attribute.value.as_str(),
        })?;
    }
    Ok(attributes)
}
