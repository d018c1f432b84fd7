//! The text of a setup record.
ghost use Rattle.std.specs.Prelude.{◌≡◌, ◌++◌, ◌<◌, ◌+◌, ◌^◌, ◌∷◌, IfOk, OnOk, length, string_bytes};
ghost use Rattle.ch11_clock.specs.CivilTime.{IsCivilTime};
ghost use Rattle.ch11_setup.specs.Attributes.{attributes_text, attribute_line};
ghost use Rattle.ch11_setup.specs.Names.{cleaned};
ghost use Rattle.ch11_setup.specs.Lines.{comment_attribute, general_attributes, recorder_attributes};
ghost use Rattle.ch11_setup.specs.Lines.{content_attributes};
ghost use Rattle.ch11_setup.specs.Setups.{setup_attributes, channels_attributes, given_attributes};
ghost use Rattle.ch11_setup.specs.Setups.{recording_attributes, source_attributes, test_name};

use crate::attribute::{Attribute, TEST_NAME, push_attribute};
use crate::channel::{push_channel, push_time_channel};
use crate::name::{clean, source_name};
use crate::recording::{push_content, push_general, push_recorder};
use crate::setup::{Setup, SetupChannel};
use std::alloc::{AllocError, Global};

/// What a reader that knows TMATS alone finds on channel 0.
const COMMENT: &str =
    "Packets of type 0 on channel 0 with the tag CBPR hold the filter programs and the counts of bpfrec";

/// The text of a setup record: a line for each of its attributes, in order.
pub fn setup_text(alloc: Global, setup: &Setup) -> Result<String, AllocError>
    requires time { IsCivilTime setup.now.time }
    requires number { length setup.now.channels.now < 2 ^ 16 }
    ensures { IfOk result (λ text. string_bytes text
        ≡ attributes_text (setup_attributes setup.now)) }
{
    let mut text = String::new(alloc);
    push_recording(alloc, &mut text, setup)?;
    push_sources(alloc, &mut text, setup)?;
    push_attribute(&mut text, "R-1\\COM", COMMENT)?;
    push_given(&mut text, setup.attributes)?;
    Ok(text)
}

/// Adds what is said of the recording.
fn push_recording(alloc: Global, text: &mut String, setup: &Setup) -> Result<(), AllocError>
    requires time { IsCivilTime setup.now.time }
    requires number { length setup.now.channels.now < 2 ^ 16 }
    ensures { OnOk result (string_bytes text.new
        ≡ string_bytes text.old ++ attributes_text (recording_attributes setup.now)) }
{
    let host = clean(alloc, setup.host.as_bytes())?;
    let program = clean(alloc, setup.program.as_bytes())?;
    push_general(text, test_name(setup.attributes), &host, &setup.time)?;
    push_recorder(text, &host, &program, &setup.time)?;
    push_content(text, setup.is_indexed, setup.channels.len() as u64 + 1)
}

/// Adds the data sources.
fn push_sources(alloc: Global, text: &mut String, setup: &Setup) -> Result<(), AllocError>
    requires { length setup.now.channels.now < 2 ^ 16 }
    ensures { OnOk result (string_bytes text.new
        ≡ string_bytes text.old ++ attributes_text (source_attributes setup.now)) }
{
    push_time_channel(text, setup.time_channel, setup.is_external)?;
    push_channels(alloc, text, setup.channels)
}

/// Adds the Ethernet channels, from the second data source on.
fn push_channels(
    alloc: Global,
    text: &mut String,
    channels: &[SetupChannel],
) -> Result<(), AllocError>
    requires { length channels.now < 2 ^ 16 }
    ensures { OnOk result (string_bytes text.new ≡ string_bytes text.old
        ++ attributes_text (channels_attributes 2 channels.now)) }
{
    let mut n = 2;
    'channels: for channel in channels {
        let name = clean(alloc, channel.name.as_bytes())?;
        let source = source_name(alloc, channel.name.as_bytes(), channel.id)?;
        push_channel(text, n, channel.id, channel.net, &source, &name)?;
        n += 1;
    }
    Ok(())
}

/// The name of the test: the first that a user says, or that of the recorder.
fn test_name<'a>(attributes: &[Attribute<'a>]) -> &'a str
    ensures { result.now ≡ test_name attributes.now }
{
    'attributes: for attribute in attributes {
        if attribute.name == TEST_NAME {
            return attribute.value;
        }
    }
    "bpfrec"
}

/// Adds what else a user adds.
fn push_given(text: &mut String, attributes: &[Attribute]) -> Result<(), AllocError>
    ensures { OnOk result (string_bytes text.new ≡ string_bytes text.old
        ++ attributes_text (given_attributes attributes.now)) }
{
    'attributes: for attribute in attributes {
        if attribute.name != TEST_NAME {
            push_attribute(text, attribute.name, attribute.value)?;
        }
    }
    Ok(())
}
