//! What a setup record says of the channels.
ghost use Rattle.std.specs.Prelude.{◌≡◌, ◌++◌, OnOk, string_bytes, codes, decimal};
ghost use Rattle.ch11_setup.specs.Attributes.{attribute_of, attribute_line, attributes_text};
ghost use Rattle.ch11_setup.specs.Lines.{numbered, time_attributes, channel_attributes, time_source_attributes};
ghost use Rattle.ch11_setup.specs.Lines.{time_format_attributes, channel_source_attributes};
ghost use Rattle.ch11_setup.specs.Lines.{channel_network_attributes};

use crate::attribute::{push_attribute, push_number, push_numbered, push_numbered_number};
use std::alloc::AllocError;

/// Adds the time channel.
#[tactic(auto, using(crate::proofs::AttributesRead::text_append))]
pub(crate) fn push_time_channel(
    text: &mut String,
    channel: u16,
    is_external: bool,
) -> Result<(), AllocError>
    ensures { OnOk result (string_bytes text.new
        ≡ string_bytes text.old ++ attributes_text (time_attributes channel is_external)) }
{
    push_time_source(text, channel)?;
    push_time_format(text, is_external)
}

/// Adds which channel has times.
fn push_time_source(text: &mut String, channel: u16) -> Result<(), AllocError>
    ensures { OnOk result (string_bytes text.new
        ≡ string_bytes text.old ++ attributes_text (time_source_attributes channel)) }
{
    push_number(text, "R-1\\TK1-1", channel as u64)?;
    push_attribute(text, "R-1\\TK4-1", "1")?;
    push_attribute(text, "R-1\\CHE-1", "T")?;
    push_attribute(text, "R-1\\DSI-1", "TIME")?;
    push_attribute(text, "R-1\\CDT-1", "TIMEIN")
}

/// Adds what times there are.
fn push_time_format(text: &mut String, is_external: bool) -> Result<(), AllocError>
    ensures { OnOk result (string_bytes text.new
        ≡ string_bytes text.old ++ attributes_text (time_format_attributes is_external)) }
{
    push_attribute(text, "R-1\\TTF-1", "1")?;
    push_attribute(text, "R-1\\TFMT-1", "I")?;
    let source = if is_external { "E" } else { "I" };
    push_attribute(text, "R-1\\TSRC-1", source)
}

/// Adds an Ethernet channel, the n-th data source.
#[tactic(auto, using(crate::proofs::AttributesRead::text_append))]
pub(crate) fn push_channel(
    text: &mut String,
    n: usize,
    channel: u16,
    net: u8,
    source: &str,
    name: &str,
) -> Result<(), AllocError>
    ensures { OnOk result (string_bytes text.new ≡ string_bytes text.old
        ++ attributes_text (channel_attributes n channel net source.now name.now)) }
{
    push_channel_source(text, n, channel, source)?;
    push_channel_network(text, n, net, name)
}

/// Adds which channel the n-th data source is.
fn push_channel_source(
    text: &mut String,
    n: usize,
    channel: u16,
    source: &str,
) -> Result<(), AllocError>
    ensures { OnOk result (string_bytes text.new ≡ string_bytes text.old
        ++ attributes_text (channel_source_attributes n channel source.now)) }
{
    push_numbered_number(text, "TK1", n, channel as u64)?;
    push_numbered_number(text, "TK4", n, n as u64)?;
    push_numbered(text, "CHE", n, "T")?;
    push_numbered(text, "DSI", n, source)?;
    push_numbered(text, "CDT", n, "ETHIN")
}

/// Adds the network of the n-th data source.
fn push_channel_network(text: &mut String, n: usize, net: u8, name: &str) -> Result<(), AllocError>
    ensures { OnOk result (string_bytes text.new ≡ string_bytes text.old
        ++ attributes_text (channel_network_attributes n net name.now)) }
{
    push_numbered(text, "ENTF", n, "0")?;
    push_numbered(text, "NNET", n, "1")?;
    push_network_number(text, n, net)?;
    push_network_name(text, n, name)
}

/// Adds the number of a network.
#[tactic(auto, unfolding(crate::specs::Attributes::attribute_line))]
fn push_network_number(text: &mut String, n: usize, net: u8) -> Result<(), AllocError>
    ensures { OnOk result (string_bytes text.new ≡ string_bytes text.old
        ++ attribute_line (attribute_of (numbered (codes "ENBR") n ++ codes "-1") (decimal net))) }
{
    write!(text, "R-1\\ENBR-{n}-1:{net};\r\n")
}

/// Adds the name of a network.
#[tactic(auto, unfolding(crate::specs::Attributes::attribute_line))]
fn push_network_name(text: &mut String, n: usize, name: &str) -> Result<(), AllocError>
    ensures { OnOk result (string_bytes text.new ≡ string_bytes text.old
        ++ attribute_line (attribute_of (numbered (codes "ENAM") n ++ codes "-1") name.now)) }
{
    write!(text, "R-1\\ENAM-{n}-1:{name};\r\n")
}
